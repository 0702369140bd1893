//! What ends an output: the line of each batch in the order of the starts, and the end line.
ghost use Rattle.std.specs.Prelude.{◌<◌, ◌++◌, length, OnOk, OnErr};
ghost use Rattle.std.specs.Io.KnownBytes.{Appends};
ghost use Rattle.pol_events.specs.Events.{plain_history};
ghost use Rattle.pol_history.specs.Runs.{IsOrderly};
ghost use Rattle.pol_record.specs.Texts.{batches_text};
ghost use Rattle.pol_record.specs.Lines.{closing_text};
ghost use Rattle.pol_io.specs.Causes.{HasCauseOf};
ghost use Rattle.pol_jobs.specs.Written.{WritesPart, WritesSome};
ghost use Rattle.pol_replay.specs.BatchLines.{gathered_lines, gathered_text};

use mtp_codes::Name;
use pol_events::Entry;
use pol_io::Sink;
use pol_jobs::{PutFault, put};
use pol_record::{BatchRecords, end_line, gather, gathered_line};
use std::alloc::Global;

// Writes the line of a batch.
#[tactic(auto, using(pol_jobs::proofs::Written::nothing_written, pol_jobs::proofs::Written::some_written))]
fn put_batch<K: Sink>(
    alloc: Global,
    gathered: &BatchRecords<'_>,
    batch: Name,
    sink: &mut K,
) -> Result<(), PutFault>
    ensures line { OnOk result (Appends (K.held sink.old) (K.held sink.new) (gathered_text gathered.now batch)) }
    ensures part { OnErr result (WritesSome (K.held sink.old) (K.held sink.new) (gathered_text gathered.now batch)) }
    ensures cause { HasCauseOf PutFault.Write (K.faults sink.old) (K.faults sink.new) result }
{
    put(sink, &gathered_line(alloc, gathered, batch)?)
}

// Writes the line of each of these batches.
fn put_each<K: Sink>(
    alloc: Global,
    gathered: &BatchRecords<'_>,
    batches: &[Name],
    sink: &mut K,
) -> Result<(), PutFault>
    ensures text { OnOk result (Appends (K.held sink.old) (K.held sink.new) (gathered_lines gathered.now batches.now)) }
    ensures part { OnErr result (WritesSome (K.held sink.old) (K.held sink.new)
        (gathered_lines gathered.now batches.now)) }
    ensures cause { HasCauseOf PutFault.Write (K.faults sink.old) (K.faults sink.new) result }
{
    for batch in batches {
        put_batch(alloc, gathered, *batch, sink)?;
    }
    Ok(())
}

// Writes the line of each batch of the history, in the order of the starts. One pass over the history.
#[tactic(auto, using(pol_jobs::proofs::Written::nothing_written))]
fn put_batches<K: Sink>(alloc: Global, history: &[Entry], sink: &mut K) -> Result<(), PutFault>
    requires { IsOrderly (plain_history history.now) }
    ensures text { OnOk result
        (Appends (K.held sink.old) (K.held sink.new) (batches_text (plain_history history.now))) }
    ensures part { OnErr result (WritesSome (K.held sink.old) (K.held sink.new)
        (batches_text (plain_history history.now))) }
    ensures cause { HasCauseOf PutFault.Write (K.faults sink.old) (K.faults sink.new) result }
{
    let gathered = gather(alloc, history)?;
    put_each(alloc, &gathered, &gathered.started, sink)
}

/// Writes the line of each batch of the history, and behind them a last line.
pub fn close_with<K: Sink>(
    alloc: Global,
    history: &[Entry],
    last: &[u8],
    sink: &mut K,
) -> Result<(), PutFault>
    requires orderly { IsOrderly (plain_history history.now) }
    requires some { 0 < length last.now }
    ensures text { OnOk result (Appends (K.held sink.old) (K.held sink.new)
        (batches_text (plain_history history.now) ++ last.now)) }
    ensures part { OnErr result (WritesPart (K.held sink.old) (K.held sink.new)
        (batches_text (plain_history history.now) ++ last.now)) }
    ensures cause { HasCauseOf PutFault.Write (K.faults sink.old) (K.faults sink.new) result }
{
    put_batches(alloc, history, sink)?;
    put(sink, last)
}

/// Writes the line of each batch of the history, and the end line.
pub fn close<K: Sink>(alloc: Global, history: &[Entry], sink: &mut K) -> Result<(), PutFault>
    requires { IsOrderly (plain_history history.now) }
    ensures text { OnOk result
        (Appends (K.held sink.old) (K.held sink.new) (closing_text (plain_history history.now))) }
    ensures part { OnErr result (WritesPart (K.held sink.old) (K.held sink.new)
        (closing_text (plain_history history.now))) }
    ensures cause { HasCauseOf PutFault.Write (K.faults sink.old) (K.faults sink.new) result }
{
    let line = end_line(alloc)?;
    close_with(alloc, history, &line, sink)
}
