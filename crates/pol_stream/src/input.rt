//! All bytes of an input.
ghost use Rattle.std.specs.Prelude.{◌≡◌, ◌<◌, ◌≤◌, ◌+◌, ℕ, List, Err, IfErr, IfOk, OnOk, length};
ghost use Rattle.pol_io.specs.Edge.{Edge};
ghost use Rattle.pol_io.specs.Known.{Between};
ghost use Rattle.pol_jobs.specs.Ends.{Ends, edge};
ghost use Rattle.pol_stream.specs.Inputs.{fault_of, silent};
ghost use Rattle.pol_stream.specs.Streams.{IsAll};

use crate::more::{READ_TOGETHER, ReadFault, read_more};
use pol_io::{LONGEST_INPUT, Source};
use pol_jobs::JobFault;
use std::alloc::Global;
use std::convert::Infallible;

// How many bytes are asked for behind so many: never more than one beyond those that an input may have.
fn size_behind(len: usize) -> usize
    requires { len ≤ LONGEST_INPUT }
    ensures some { 0 < result }
    ensures room { result ≤ READ_TOGETHER }
    ensures fits { len + result ≤ LONGEST_INPUT + 1 }
{
    READ_TOGETHER.min(LONGEST_INPUT as usize + 1 - len)
}

// Why a job ends whose input wasn't read because of this fault.
fn fault_of(fault: ReadFault) -> JobFault<Infallible, Infallible>
    ensures { result ≡ fault_of fault }
{
    match fault {
        ReadFault::Read => JobFault::Read,
        ReadFault::Memory => JobFault::Memory,
    }
}

/// Reads an input to its end, and gives all its bytes. One that has more than 268,435,456 is refused, once these and
/// one more were taken. Where it isn't read, a job that replies to no line, and has written nothing yet, ends so.
pub fn read_input<S: Source>(
    alloc: Global,
    source: &mut S,
) -> Result<Vec<u8>, JobFault<Infallible, Infallible>>
    ensures all { IfOk result (λ bytes. Between (IsAll bytes.items) (S.left source.old) (S.left source.new)) }
    ensures fits { IfOk result (λ bytes. length bytes.items ≤ LONGEST_INPUT) }
    ensures well { OnOk result (S.faults source.new ≡ S.faults source.old) }
    ensures ends { IfErr result (λ fault. (closing : List ℕ → List ℕ) (sink : Edge) → Ends (silent closing)
        (edge (S.left source.old) (S.faults source.old)) (edge (S.left source.new) (S.faults source.new))
        sink sink (Err fault)) }
{
    let mut room = Vec::new(alloc);
    room.resize(READ_TOGETHER, 0)?;
    let mut bytes = Vec::new(alloc);
    for _ in 0..u64::MAX {
        let size = size_behind(bytes.len());
        match read_more(source, &mut room, size, &mut bytes) {
            Ok(true) if bytes.len() as u64 > LONGEST_INPUT => return Err(JobFault::TooMuch),
            Ok(true) => {}
            Ok(false) => return Ok(bytes),
            Err(fault) => return Err(fault_of(fault)),
        }
    }
    Err(JobFault::Memory)
}
