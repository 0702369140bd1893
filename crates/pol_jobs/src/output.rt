//! The writing of an output line, and the handing on of what was written.
ghost use Rattle.std.specs.Prelude.{◌≡◌, ◌<◌, ℕ, List, length, IfOk, OnOk, OnErr};
ghost use Rattle.std.specs.Io.KnownBytes.{Appends, Keeps};
ghost use Rattle.pol_io.specs.Causes.{HasCauseOf};
ghost use Rattle.pol_jobs.specs.Written.{Closes, ClosesPart, WritesPart};

use pol_io::{Sink, SinkFault, write_all};
use std::alloc::AllocError;

/// Why some output isn't put out.
#[derive(Clone, Copy, Debug, PartialEq, Eq)]
pub enum PutFault {
    /// The sink failed.
    Write,
    /// There was no memory.
    Memory,
}

impl From<AllocError> for PutFault {
    ghost use Rattle.std.specs.Prelude.{◌≡◌};
    ghost use Rattle.pol_jobs.specs.declared.output.PutFault.TheVariants.{Memory};

    ghost from_gives = { λ _ fault. fault ≡ Memory };

    fn from(_error: AllocError) -> PutFault {
        PutFault::Memory
    }
}

/// Writes one output line.
pub fn put<K: Sink>(sink: &mut K, line: &[u8]) -> Result<(), PutFault>
    ensures text { OnOk result (Appends (K.held sink.old) (K.held sink.new) line.now) }
    ensures part { OnErr result (WritesPart (K.held sink.old) (K.held sink.new) line.now) }
    ensures cause { HasCauseOf PutFault.Write (K.faults sink.old) (K.faults sink.new) result }
{
    match write_all(sink, line) {
        Ok(()) => Ok(()),
        Err(SinkFault::Failed) => Err(PutFault::Write),
        Err(SinkFault::Memory) => Err(PutFault::Memory),
    }
}

/// Writes the one text that closes an output, where there was memory for it: how a job closes that closes with one
/// text.
#[tactic(auto, using(crate::proofs::Closing::closed, crate::proofs::Closing::closed_part, crate::proofs::Closing::unclosed))]
pub fn close_with<K: Sink>(sink: &mut K, text: Result<Vec<u8>, AllocError>) -> Result<(), PutFault>
    ensures text { (closing : List ℕ) → IfOk text (λ text. text.items ≡ closing)
        → OnOk result (Closes (λ other. other ≡ closing) (K.held sink.old) (K.held sink.new)) }
    ensures part { (closing : List ℕ) → IfOk text (λ text. text.items ≡ closing) → 0 < length closing
        → OnErr result (ClosesPart (λ other. other ≡ closing) (K.held sink.old) (K.held sink.new)) }
    ensures cause { HasCauseOf PutFault.Write (K.faults sink.old) (K.faults sink.new) result }
{
    put(sink, &text?)
}

/// Hands on what was written.
pub fn hand_on<K: Sink>(sink: &mut K) -> Result<(), PutFault>
    ensures bytes { Keeps (K.held sink.old) (K.held sink.new) }
    ensures cause { HasCauseOf PutFault.Write (K.faults sink.old) (K.faults sink.new) result }
{
    match sink.flush() {
        Ok(()) => Ok(()),
        Err(SinkFault::Failed) => Err(PutFault::Write),
        Err(SinkFault::Memory) => Err(PutFault::Memory),
    }
}
