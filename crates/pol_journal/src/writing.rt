//! The lines of the events of a history are written.
ghost use Rattle.std.specs.Prelude.{◌≡◌, ◌++◌, ◌∷◌, [], IfOk, IsTrue, List, OnErr, OnOk, length, map, replicate, true};
ghost use Rattle.std.specs.Io.KnownBytes.{Appends};
ghost use Rattle.pol_events.specs.Events.{plain_entry, plain_event, plain_history};
ghost use Rattle.pol_events.specs.Orderly.{is_orderly};
ghost use Rattle.pol_history.specs.Runs.{IsLegal, IsOrderly, events_of};
ghost use Rattle.pol_io.specs.Causes.{HasCauseOf};
ghost use Rattle.pol_jobs.specs.Written.{WritesPart};
ghost use Rattle.pol_journal.specs.Journals.{HandsOn, StopsWithin, event_line, journal_events, journal_text};
ghost use Rattle.pol_journal.specs.Wanted.{flagged_text};

use crate::extent::Extent;
use pol_compaction::kept;
use pol_events::{Entry, Event};
use pol_io::Sink;
use pol_jobs::{PutFault, put};
use pol_store::put_event_text;
use std::alloc::{AllocError, Global};

// From how many bytes on lines are written together, by one call of the sink.
const WRITTEN_TOGETHER: usize = 65_536;

/// Writes what a buffer holds, where that is enough to be written together.
#[tactic(auto, using(crate::proofs::Handed::none_handed, crate::proofs::Handed::all_handed))]
pub fn put_if_enough<K: Sink>(lines: &mut Vec<u8>, sink: &mut K) -> Result<(), PutFault>
    ensures text { OnOk result (HandsOn (K.held sink.old) (K.held sink.new) lines.old.items lines.new.items) }
    ensures part { OnErr result (WritesPart (K.held sink.old) (K.held sink.new) lines.old.items) }
    ensures cause { HasCauseOf PutFault.Write (K.faults sink.old) (K.faults sink.new) result }
{
    if lines.len() < WRITTEN_TOGETHER {
        return Ok(());
    }
    put(sink, lines)?;
    lines.clear();
    Ok(())
}

// Puts the line of an event behind what a buffer holds.
fn put_event_line(alloc: Global, lines: &mut Vec<u8>, event: &Event) -> Result<(), AllocError>
    requires { IsTrue (is_orderly (plain_event event.now)) }
    ensures { OnOk result (lines.new.items ≡ lines.old.items ++ event_line (plain_event event.now)) }
{
    put_event_text(alloc, lines, event)?;
    lines.push(b'\n')?;
    Ok(())
}

// Puts the line of an entry's event behind what a buffer holds, and writes that where it is enough.
fn put_one<K: Sink>(
    alloc: Global,
    lines: &mut Vec<u8>,
    entry: &Entry,
    sink: &mut K,
) -> Result<(), PutFault>
    requires { IsTrue (is_orderly (plain_event entry.now.event)) }
    ensures text { OnOk result (HandsOn (K.held sink.old) (K.held sink.new)
        (lines.old.items ++ event_line (plain_event entry.now.event)) lines.new.items) }
    ensures part { OnErr result (WritesPart (K.held sink.old) (K.held sink.new)
        (lines.old.items ++ event_line (plain_event entry.now.event))) }
    ensures cause { HasCauseOf PutFault.Write (K.faults sink.old) (K.faults sink.new) result }
{
    put_event_line(alloc, lines, &entry.event)?;
    put_if_enough(lines, sink)
}

// Writes the line of each entry whose flag is up.
fn put_flagged<K: Sink>(
    alloc: Global,
    history: &[Entry],
    flags: &[bool],
    sink: &mut K,
) -> Result<(), PutFault>
    requires orderly { IsOrderly (plain_history history.now) }
    requires each { length flags.now ≡ length history.now }
    ensures text { OnOk result
        (Appends (K.held sink.old) (K.held sink.new) (flagged_text flags.now (map plain_entry history.now))) }
    ensures part { OnErr result
        (WritesPart (K.held sink.old) (K.held sink.new) (flagged_text flags.now (map plain_entry history.now))) }
    ensures cause { HasCauseOf PutFault.Write (K.faults sink.old) (K.faults sink.new) result }
{
    let mut lines = Vec::new(alloc);
    for place in 0..history.len() {
        if flags[place] {
            put_one(alloc, &mut lines, &history[place], sink)?;
        }
    }
    put(sink, &lines)
}

// So many flags that are up.
fn all_up(alloc: Global, many: usize) -> Result<Vec<bool>, AllocError>
    ensures { IfOk result (λ flags. flags.items ≡ replicate many true) }
{
    let mut flags = Vec::new(alloc);
    for _ in 0..many {
        flags.push(true)?;
    }
    Ok(flags)
}

// For each entry, whether a journal of this extent has it.
fn wanted(alloc: Global, extent: Extent, history: &[Entry]) -> Result<Vec<bool>, AllocError>
    requires { IsLegal (plain_history history.now) }
    ensures each { IfOk result (λ flags. length flags.items ≡ length history.now) }
    ensures text { IfOk result (λ flags. flagged_text flags.items (map plain_entry history.now)
        ≡ journal_text (journal_events extent (events_of (plain_history history.now)))) }
{
    match extent {
        Extent::Whole => all_up(alloc, history.len()),
        Extent::Compacted => kept(alloc, history),
    }
}

/// Writes the line of each event of a history that a journal of this extent has, in order.
pub fn put_journal<K: Sink>(
    alloc: Global,
    extent: Extent,
    history: &[Entry],
    sink: &mut K,
) -> Result<(), PutFault>
    requires legal { IsLegal (plain_history history.now) }
    requires orderly { IsOrderly (plain_history history.now) }
    ensures text { OnOk result (Appends (K.held sink.old) (K.held sink.new)
        (journal_text (journal_events extent (events_of (plain_history history.now))))) }
    ensures part { OnErr result (StopsWithin K.held sink.old sink.new
        (journal_text (journal_events extent (events_of (plain_history history.now))))) }
    ensures cause { HasCauseOf PutFault.Write (K.faults sink.old) (K.faults sink.new) result }
{
    let flags = wanted(alloc, extent, history)?;
    put_flagged(alloc, history, &flags, sink)
}
