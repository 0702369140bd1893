//! All bytes of a source.
ghost use Rattle.std.specs.Prelude.{IfOk};
ghost use Rattle.pol_io.specs.Causes.{HasCauseOf};
ghost use Rattle.pol_io.specs.Known.{Between};
ghost use Rattle.pol_stream.specs.Streams.{IsAll};

use crate::more::{READ_TOGETHER, ReadFault, read_more};
use pol_io::Source;
use std::alloc::Global;

/// Reads a source to its end, and gives all its bytes. There is no limit but the memory.
pub fn read_to_end<S: Source>(alloc: Global, source: &mut S) -> Result<Vec<u8>, ReadFault>
    ensures all { IfOk result (λ bytes. Between (IsAll bytes.items) (S.left source.old) (S.left source.new)) }
    ensures cause { HasCauseOf ReadFault.Read (S.faults source.old) (S.faults source.new) result }
{
    let mut room = Vec::new(alloc);
    room.resize(READ_TOGETHER, 0)?;
    let mut bytes = Vec::new(alloc);
    for _ in 0..u64::MAX {
        if !read_more(source, &mut room, READ_TOGETHER, &mut bytes)? {
            return Ok(bytes);
        }
    }
    Err(ReadFault::Memory)
}
