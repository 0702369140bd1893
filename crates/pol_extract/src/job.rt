//! The journal of a ledger whose bytes a source gives.
ghost use Rattle.std.specs.Prelude.{◌≡◌, IfErr, IfOk, OnErr, OnOk};
ghost use Rattle.std.specs.Io.KnownBytes.{Appends};
ghost use Rattle.pol_io.specs.Causes.{HasCauseOf};
ghost use Rattle.pol_jobs.specs.Ends.{edge};
ghost use Rattle.pol_journal.specs.Journals.{StopsWithin, journal_events, journal_text};
ghost use Rattle.pol_kept.specs.Stands.{StandsFor};
ghost use Rattle.pol_ledger.specs.Ledgers.{ledger_state};
ghost use Rattle.pol_ledger.specs.Work.{items_of, ledger_work};
ghost use Rattle.pol_extract.specs.Extracts.{ExtractEnds, IsUnread, ledger_events};

use crate::fault::ExtractFault;
use pol_events::Entry;
use pol_io::{Sink, Source};
use pol_jobs::PutFault;
use pol_journal::{Extent, put_journal};
use pol_kept::{OpenFault, read_image};
use pol_ledger::Ledger;
use pol_stream::read_to_end;
use std::alloc::Global;

// The ledger that some bytes stand for.
fn ledger_of(alloc: Global, bytes: &[u8]) -> Result<Ledger, ExtractFault>
    ensures stands { IfOk result (λ ledger. StandsFor ledger_work (items_of (ledger_state ledger)) bytes.now) }
    ensures unread { IfErr result (IsUnread bytes.now) }
{
    match read_image(alloc, bytes) {
        Ok(ledger) => Ok(ledger),
        Err(OpenFault::Memory) => Err(ExtractFault::Memory),
        Err(OpenFault::NotAStore { place }) => Err(ExtractFault::NotALedger { place }),
        Err(OpenFault::Disk) => unreachable!(),
    }
}

// Writes the journal of a ledger; one that wasn't begun has no event.
fn put_ledger<K: Sink>(
    alloc: Global,
    extent: Extent,
    ledger: &Ledger,
    sink: &mut K,
) -> Result<(), PutFault>
    ensures text { OnOk result (Appends (K.held sink.old) (K.held sink.new)
        (journal_text (journal_events extent (ledger_events (ledger_state ledger.now))))) }
    ensures part { OnErr result (StopsWithin K.held sink.old sink.new
        (journal_text (journal_events extent (ledger_events (ledger_state ledger.now))))) }
    ensures cause { HasCauseOf PutFault.Write (K.faults sink.old) (K.faults sink.new) result }
{
    let none: [Entry; 0] = [];
    let history = if ledger.is_begun() {
        ledger.plant().history()
    } else {
        &none
    };
    put_journal(alloc, extent, history, sink)
}

/// Writes the events of the ledger whose bytes the source gives as the lines of a journal, all of them or those alone
/// that stay where they are compacted. The source is read to its end first, so where its bytes are those of no ledger
/// nothing is written.
///
/// How it ends is one row for each result: what was written, and what causes it.
pub fn extract<S: Source, K: Sink>(
    alloc: Global,
    extent: Extent,
    source: &mut S,
    sink: &mut K,
) -> Result<(), ExtractFault>
    ensures ends { ExtractEnds extent
        (edge (S.left source.old) (S.faults source.old)) (edge (S.left source.new) (S.faults source.new))
        (edge (K.held sink.old) (K.faults sink.old)) (edge (K.held sink.new) (K.faults sink.new))
        (sink.new ≡ sink.old) result }
{
    let bytes = read_to_end(alloc, source)?;
    let ledger = ledger_of(alloc, &bytes)?;
    put_ledger(alloc, extent, &ledger, sink)?;
    Ok(())
}
