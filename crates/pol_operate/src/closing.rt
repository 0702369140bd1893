//! What ends the output on an operated plant.
ghost use Rattle.std.specs.Prelude.{OnOk, OnErr};
ghost use Rattle.std.specs.Io.KnownBytes.{Appends};
ghost use Rattle.pol_io.specs.Causes.{HasCauseOf};
ghost use Rattle.pol_jobs.specs.Written.{WritesPart};
ghost use Rattle.pol_ledger.specs.Ledgers.{ledger_state};
ghost use Rattle.pol_operate.specs.Work.{ending_text};

use crate::history::history_in;
use crate::telling::sealed_line;
use pol_io::Sink;
use pol_jobs::PutFault;
use pol_ledger::Ledger;
use pol_replay::close_with;
use std::alloc::Global;

/// Writes the line of each batch of a ledger's plant, and the end line with the sum of its last record.
#[tactic(auto, using(pol_jobs::proofs::Written::nothing_written, crate::proofs::Endings::nothing_closed))]
pub fn close<K: Sink>(alloc: Global, ledger: &Ledger, sink: &mut K) -> Result<(), PutFault>
    ensures text { OnOk result (Appends (K.held sink.old) (K.held sink.new)
        (ending_text (ledger_state ledger.now))) }
    ensures part { OnErr result (WritesPart (K.held sink.old) (K.held sink.new)
        (ending_text (ledger_state ledger.now))) }
    ensures cause { HasCauseOf PutFault.Write (K.faults sink.old) (K.faults sink.new) result }
{
    let last = sealed_line(alloc, ledger)?;
    close_with(alloc, history_in(ledger), &last, sink)
}
