//! The plant: a site is run with simulated modules, and its history is written.
ghost use Rattle.std.specs.Prelude.{◌≡◌, ◌≢◌, [], IfOk, IfErr, IsTrue, OnOk, OnErr, map};
ghost use Rattle.std.specs.Io.KnownBytes.{Appends};
ghost use Rattle.pol_events.specs.Events.{plain_entry, plain_event, plain_history};
ghost use Rattle.pol_events.specs.Orderly.{is_orderly};
ghost use Rattle.pol_history.specs.Runs.{IsOrderly};
ghost use Rattle.pol_record.specs.Texts.{IsReadBack, entry_line_text};
ghost use Rattle.pol_io.specs.Causes.{HasCauseOf};
ghost use Rattle.pol_site.specs.PlainSite.{plain_site};
ghost use Rattle.pol_jobs.specs.Ends.{Ends, edge};
ghost use Rattle.pol_jobs.specs.Written.{WritesPart, WritesSome};
ghost use Rattle.pol_cli.specs.Journal.{Laws};
ghost use Rattle.pol_retold.specs.Inputs.{run_text};
ghost use Rattle.pol_retold.specs.Retold.{IsRetold};
ghost use Rattle.pol_cli.specs.SiteRuns.{AreReadBack, AreRetold, IsRunOf, RunWrites, entries_text, entry_lines};
ghost use Rattle.pol_cli.specs.SiteRuns.{planted};
ghost use Rattle.pol_cli.specs.Tasks.{PlantEnds};
ghost use Rattle.pol_cli.specs.Worked.{edges};

use crate::jobs::site_text::read_text;
use crate::laws::laws_hold;
use crate::status::{Status, Wanted, status_wanting};
use mtp_json::JsonFault;
use pol_arguments::LiveTask;
use pol_events::Entry;
use pol_io::{Clock, Sink, Source};
use pol_jobs::{JobFault, PutFault, put};
use pol_live::{Gate, Ran, run_site};
use pol_record::put_entry_line;
use pol_replay::close;
use pol_site::Site;
use std::alloc::{AllocError, Global};
use std::convert::Infallible;
use std::sync::Wait;
use std::thread::Threads;

// Writes the line of an entry, which is made in a buffer that holds nothing before or after.
#[tactic(auto, using(pol_jobs::proofs::Written::nothing_written, pol_jobs::proofs::Written::some_written))]
fn put_entry<K: Sink>(
    alloc: Global,
    line: &mut Vec<u8>,
    entry: &Entry,
    sink: &mut K,
) -> Result<(), PutFault>
    requires orderly { IsTrue (is_orderly (plain_event entry.now.event)) }
    requires empty { line.old.items ≡ [] }
    ensures empty { OnOk result (line.new.items ≡ []) }
    ensures line { OnOk result (Appends (K.held sink.old) (K.held sink.new) (entry_line_text (plain_entry entry.now))) }
    ensures read_back { OnOk result (IsReadBack (plain_entry entry.now)) }
    ensures retold { OnOk result (IsRetold (plain_entry entry.now)) }
    ensures part { OnErr result (WritesSome (K.held sink.old) (K.held sink.new)
        (entry_line_text (plain_entry entry.now))) }
    ensures cause { HasCauseOf PutFault.Write (K.faults sink.old) (K.faults sink.new) result }
{
    put_entry_line(alloc, line, entry)?;
    put(sink, line)?;
    line.clear();
    Ok(())
}

// Writes the line of each of these entries.
fn put_each<K: Sink>(alloc: Global, entries: &[Entry], sink: &mut K) -> Result<(), PutFault>
    requires { IsOrderly (plain_history entries.now) }
    ensures text { OnOk result (Appends (K.held sink.old) (K.held sink.new) (entry_lines entries.now)) }
    ensures read_back { OnOk result (AreReadBack (map plain_entry entries.now)) }
    ensures retold { OnOk result (AreRetold (map plain_entry entries.now)) }
    ensures part { OnErr result (WritesSome (K.held sink.old) (K.held sink.new) (entry_lines entries.now)) }
    ensures cause { HasCauseOf PutFault.Write (K.faults sink.old) (K.faults sink.new) result }
{
    let mut line = Vec::new(alloc);
    for entry in entries {
        put_entry(alloc, &mut line, entry, sink)?;
    }
    Ok(())
}

// Writes the line of each entry of the history, the oldest first.
fn put_entries<K: Sink>(alloc: Global, history: &[Entry], sink: &mut K) -> Result<(), PutFault>
    requires { IsOrderly (plain_history history.now) }
    ensures text { OnOk result
        (Appends (K.held sink.old) (K.held sink.new) (entries_text (plain_history history.now))) }
    ensures read_back { OnOk result (AreReadBack (plain_history history.now)) }
    ensures retold { OnOk result (AreRetold (plain_history history.now)) }
    ensures part { OnErr result (WritesSome (K.held sink.old) (K.held sink.new)
        (entries_text (plain_history history.now))) }
    ensures cause { HasCauseOf PutFault.Write (K.faults sink.old) (K.faults sink.new) result }
{
    put_each(alloc, history, sink)
}

// Writes the line of each entry, the line of each batch, and the end line.
fn put_run<K: Sink>(alloc: Global, history: &[Entry], sink: &mut K) -> Result<(), PutFault>
    requires { IsOrderly (plain_history history.now) }
    ensures text { OnOk result (Appends (K.held sink.old) (K.held sink.new) (run_text (plain_history history.now))) }
    ensures read_back { OnOk result (AreReadBack (plain_history history.now)) }
    ensures retold { OnOk result (AreRetold (plain_history history.now)) }
    ensures part { OnErr result (WritesPart (K.held sink.old) (K.held sink.new)
        (run_text (plain_history history.now))) }
    ensures cause { HasCauseOf PutFault.Write (K.faults sink.old) (K.faults sink.new) result }
{
    put_entries(alloc, history, sink)?;
    close(alloc, history, sink)
}

// Runs a site to its end, each actor in a thread of its own, while as many watchers read its status board.
fn run<R: Threads + Wait + Sync, C: Clock + Send, G: Gate>(
    rt: &R,
    alloc: Global,
    site: Site,
    watchers: u16,
    clock: C,
    gate: &G,
) -> Result<Vec<Entry>, AllocError>
    ensures { IfOk result (λ history. IsRunOf (plain_site site) (plain_history history.items)) }
{
    let Ran { history, .. } = run_site(rt, alloc, site, watchers, clock, gate)?;
    Ok(history)
}

// Reads the site that the source says, runs it to its end, and writes its history.
fn read_and_run<R: Threads + Wait + Sync, S: Source, K: Sink, C: Clock + Send, G: Gate>(
    rt: &R,
    alloc: Global,
    watchers: u16,
    source: &mut S,
    sink: &mut K,
    clock: C,
    gate: &G,
) -> Result<(), JobFault<JsonFault, Infallible>>
    ensures ends { Ends planted
        (edge (S.left source.old) (S.faults source.old)) (edge (S.left source.new) (S.faults source.new))
        (edge (K.held sink.old) (K.faults sink.old)) (edge (K.held sink.new) (K.faults sink.new)) result }
    ensures writes { RunWrites (S.left source.old) (S.left source.new) (K.held sink.old) (K.held sink.new) result }
    ensures unbegun { IfErr result (λ fault. fault ≢ JobFault.Write → fault ≢ JobFault.Memory
        → sink.new ≡ sink.old) }
{
    let site = read_text(alloc, source)?;
    let history = run(rt, alloc, site, watchers, clock, gate)?;
    put_run(alloc, &history, sink)?;
    Ok(())
}

/// Runs the site that the source says with simulated modules, until no actor of it has anything to do or the history is
/// full, and then writes the line of each entry of its history, the line of each batch and the end line. The source is
/// read to its end before; where it says no site nothing is written. The actors pass the gate before each turn, and the
/// clock gives each entry its stamp; the watchers that the task asks for read the status board meanwhile. It may wait.
pub fn live<R: Threads + Wait + Sync, S: Source, K: Sink, C: Clock + Send, G: Gate>(
    rt: &R,
    alloc: Global,
    task: &LiveTask,
    source: &mut S,
    sink: &mut K,
    clock: C,
    gate: &G,
) -> Status
    ensures ends { PlantEnds (edges S.left S.faults source.old source.new)
        (edges K.held K.faults sink.old sink.new) result }
    ensures laws { Laws }
{
    laws_hold();
    let done = read_and_run(rt, alloc, task.watchers, source, sink, clock, gate);
    status_wanting(Wanted::Site, done)
}
