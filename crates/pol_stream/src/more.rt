//! One read of a source.
ghost use Rattle.std.specs.Prelude.{◌≡◌, ◌<◌, ◌≤◌, IfOk, OnErr, length};
ghost use Rattle.pol_io.specs.Causes.{HasCauseOf};
ghost use Rattle.pol_stream.specs.Streams.{TakesMore, TakesSome};

use pol_io::{Failed, Source};
use std::alloc::AllocError;

/// Why a source isn't read to its end.
#[derive(Clone, Copy, Debug, PartialEq, Eq)]
pub enum ReadFault {
    /// The source failed.
    Read,
    /// There was no memory for its bytes.
    Memory,
}

impl From<AllocError> for ReadFault {
    ghost use Rattle.std.specs.Prelude.{◌≡◌};
    ghost use Rattle.pol_stream.specs.declared.more.ReadFault.TheVariants.{Memory};

    ghost from_gives = { λ _ fault. fault ≡ Memory };

    fn from(_error: AllocError) -> ReadFault {
        ReadFault::Memory
    }
}

/// How many bytes are asked for at once.
pub const READ_TOGETHER: usize = 65_536;

/// Reads once, at most so many bytes, and puts what came behind the others. `false` is the end.
#[tactic(auto, using(crate::proofs::Streams::took_none))]
pub fn read_more<S: Source>(
    source: &mut S,
    room: &mut [u8],
    most: usize,
    bytes: &mut Vec<u8>,
) -> Result<bool, ReadFault>
    requires some { 0 < most }
    requires room { most ≤ length room.old }
    ensures room { length room.new ≡ length room.old }
    ensures more { IfOk result (TakesMore (S.left source.old) (S.left source.new) most
        bytes.old.items bytes.new.items) }
    ensures some { OnErr result (TakesSome (S.left source.old) (S.left source.new)) }
    ensures cause { HasCauseOf ReadFault.Read (S.faults source.old) (S.faults source.new) result }
{
    match source.read(&mut room[..most]) {
        Ok(count) => {
            bytes.extend_from_slice(&room[..count])?;
            Ok(count > 0)
        }
        Err(Failed) => Err(ReadFault::Read),
    }
}
