//! What events of a batch are answered, and what they change in the tables.
ghost use Rattle.std.specs.Prelude.{◌≡◌, ℕ, ◌∷◌, List, Some, IfOk, IfErr, OnOk, OnErr, ◌&&◌, ◌||◌, not, length};
ghost use Rattle.std.specs.Prelude.{option_copied};
ghost use Rattle.std.specs.Map.{keys_of, lookup};
ghost use Rattle.std.specs.Str.{bytes_eq};
ghost use Rattle.mtp_codes.specs.Faults.{done_unless, when};
ghost use Rattle.chart_core.specs.declared.next.Outcome.TheVariants.{Abandoned};
ghost use Rattle.chart_cursor.specs.Sights.{Sights};
ghost use Rattle.pol_events.specs.Events.{advance, freeze, thaw, stop_batch, abandon};
ghost use Rattle.pol_events.specs.declared.answer.Rule.TheVariants.{AlreadyFrozen, NotFrozen};
ghost use Rattle.pol_history.specs.Answers.{advanced};
ghost use Rattle.pol_history.specs.Looking.{History};
ghost use Rattle.pol_slots.specs.declared.slot.Slot.{Slot as slot_type};
ghost use Rattle.pol_table.specs.Rows.{Rows, look};
ghost use Rattle.pol_runs.specs.Freezes.{is_frozen, is_holding};
ghost use Rattle.pol_runs.specs.Logs.{closing_in};
ghost use Rattle.pol_runs.specs.declared.freeze.Freeze.TheVariants.{Thawed};
ghost use Rattle.pol_runs.specs.Runs.{PlainRun};
ghost use Rattle.pol_core.specs.Batches.{BatchAnswers, ChangesRun, ComesNext, FreezesOne, IsOpenRun, RunsMirror};
ghost use Rattle.pol_core.specs.Batches.{SettlesOne, StopsOne, freed_if, not_open};
ghost use Rattle.pol_core.specs.Calls.{open_next, settings_of};
ghost use Rattle.pol_core.specs.Seats.{SeatsMirror, done_or_refused};
ghost use Rattle.pol_core.specs.Seen.{table_sights};

use crate::modules::done_or_refused;
use crate::seen::TableSights;
use crate::settings::settings_in;
use chart_core::LogEntry;
use indexmap::IndexMap;
use mtp_codes::{Name, Setting};
use pol_events::{Answer, Next, Outcome, Rule};
use pol_runs::Run;
use pol_slots::Slot;
use pol_table::Table;

// The run of an open batch. `NoBatch` where it wasn't started, `BatchClosed` where it is closed.
fn open_run(runs: &IndexMap<Name, Run>, batch: Name) -> Result<&Run, Rule>
    ensures run { IfOk result (λ run. IsOpenRun batch run.now runs.now.entries) }
    ensures rule { IfErr result (λ rule. not_open (lookup (bytes_eq batch) runs.now.entries) ≡ Some rule) }
{
    let Some(run) = runs.get(&batch) else {
        return Err(Rule::NoBatch);
    };
    if run.closed().is_some() {
        return Err(Rule::BatchClosed);
    }
    Ok(run)
}

// What comes next, as the answer to an advance.
fn advanced(next: &Next) -> Answer
    ensures { result ≡ advanced (Some next.now) }
{
    match next {
        Next::Did(entry) => Answer::Did(*entry),
        Next::Waiting(why) => Answer::Waiting(*why),
        Next::Closed(outcome) => Answer::Closed(*outcome),
    }
}

// What comes next for a batch, while its run is open.
fn next_of(modules: &Table<Slot>, run: &Run) -> Next
    ensures { ComesNext (table_sights modules.now run.now.binds) result run.now }
{
    let seen = TableSights {
        modules,
        binds: run.binds(),
    };
    run.would(&seen)
}

/// What comes next for a batch; None exactly where it isn't started or is closed. Takes no memory.
pub fn would(modules: &Table<Slot>, runs: &IndexMap<Name, Run>, batch: Name) -> Option<Next>
    ensures { (history : History) → SeatsMirror modules.now history → RunsMirror runs.now.entries history
        → result ≡ open_next history batch }
{
    match open_run(runs, batch) {
        Ok(run) => Some(next_of(modules, run)),
        Err(_) => None,
    }
}

/// The settings of a step of a batch; None exactly where the batch isn't started or its chart lacks the step.
pub fn settings(runs: &IndexMap<Name, Run>, batch: Name, step: Name) -> Option<&[Setting]>
    ensures { (history : History) → RunsMirror runs.now.entries history
        → option_copied result ≡ settings_of history batch step }
{
    let run = runs.get(&batch)?;
    settings_in(&run.chart().root, step)
}

// Lets the run of a batch do what comes next.
fn settle(runs: &mut IndexMap<Name, Run>, batch: Name, next: &Next)
    requires known { (run : PlainRun) × (lookup (bytes_eq batch) runs.old.entries ≡ Some run) }
    requires next { (seen : Sights) × ((run : PlainRun) → lookup (bytes_eq batch) runs.old.entries ≡ Some run
        → ComesNext seen next.now run) }
    ensures names { keys_of runs.new.entries ≡ keys_of runs.old.entries }
    ensures settled { (run : PlainRun) → lookup (bytes_eq batch) runs.old.entries ≡ Some run
        → SettlesOne batch next.now run runs.old.entries runs.new.entries }
{
    match runs.get_mut(&batch) {
        Some(run) => run.settle(next),
        None => unreachable!(),
    }
}

// Frees the modules of a batch that is closed.
fn release_closed(modules: &mut Table<Slot>, batch: Name, next: &Next)
    ensures looks { (tag : List ℕ)
        → look tag modules.new ≡ freed_if (closing_in next.now) batch (look tag modules.old) }
    ensures count { length modules.new ≡ length modules.old }
{
    if let Next::Closed(_) = next {
        modules.release(batch);
    }
}

/// A batch does its next entry, waits, or is closed; then its modules are free.
pub fn advance(modules: &mut Table<Slot>, runs: &mut IndexMap<Name, Run>, batch: Name) -> Answer
    ensures names { keys_of runs.new.entries ≡ keys_of runs.old.entries }
    ensures answered { BatchAnswers (λ at. advance at batch) modules.old runs.old.entries
        result modules.new runs.new.entries }
{
    let next = match open_run(runs, batch) {
        Ok(run) => next_of(modules, run),
        Err(rule) => return Answer::Refused(rule),
    };
    settle(runs, batch, &next);
    release_closed(modules, batch, &next);
    advanced(&next)
}

// Freezes the run of a batch, and where `hold` is true lets its services be held.
fn freeze_run(runs: &mut IndexMap<Name, Run>, batch: Name, hold: bool) -> Result<(), Rule>
    requires { (run : PlainRun) × (lookup (bytes_eq batch) runs.old.entries ≡ Some run) }
    ensures names { keys_of runs.new.entries ≡ keys_of runs.old.entries }
    ensures answer { (run : PlainRun) → lookup (bytes_eq batch) runs.old.entries ≡ Some run
        → result
        ≡ done_unless (when (is_frozen run.freeze && (not hold || is_holding run.freeze)) AlreadyFrozen) }
    ensures frozen { OnOk result ((run : PlainRun) → lookup (bytes_eq batch) runs.old.entries ≡ Some run
        → FreezesOne batch hold run runs.old.entries runs.new.entries) }
    ensures unchanged { OnErr result ((run : PlainRun) → lookup (bytes_eq batch) runs.old.entries ≡ Some run
        → ChangesRun batch run runs.old.entries runs.new.entries) }
{
    match runs.get_mut(&batch) {
        Some(run) => run.freeze(hold),
        None => unreachable!(),
    }
}

/// A batch waits until it is thawed, and where `hold` is true its services are held meanwhile.
pub fn freeze(runs: &mut IndexMap<Name, Run>, batch: Name, hold: bool) -> Answer
    ensures names { keys_of runs.new.entries ≡ keys_of runs.old.entries }
    ensures answered { (modules : Rows slot_type) → BatchAnswers (λ at. freeze at batch hold) modules runs.old.entries
        result modules runs.new.entries }
{
    if let Err(rule) = open_run(runs, batch) {
        return Answer::Refused(rule);
    }
    done_or_refused(freeze_run(runs, batch, hold))
}

// Ends the freeze of the run of a batch.
fn thaw_run(runs: &mut IndexMap<Name, Run>, batch: Name) -> Result<(), Rule>
    requires { (run : PlainRun) × (lookup (bytes_eq batch) runs.old.entries ≡ Some run) }
    ensures names { keys_of runs.new.entries ≡ keys_of runs.old.entries }
    ensures answer { (run : PlainRun) → lookup (bytes_eq batch) runs.old.entries ≡ Some run
        → result ≡ done_unless (when (not (is_frozen run.freeze)) NotFrozen) }
    ensures changed { (run : PlainRun) → lookup (bytes_eq batch) runs.old.entries ≡ Some run
        → ChangesRun batch (record run { freeze = Thawed }) runs.old.entries runs.new.entries }
{
    match runs.get_mut(&batch) {
        Some(run) => run.thaw(),
        None => unreachable!(),
    }
}

/// A batch that is frozen goes on.
pub fn thaw(runs: &mut IndexMap<Name, Run>, batch: Name) -> Answer
    ensures names { keys_of runs.new.entries ≡ keys_of runs.old.entries }
    ensures answered { (modules : Rows slot_type) → BatchAnswers (λ at. thaw at batch) modules runs.old.entries
        result modules runs.new.entries }
{
    if let Err(rule) = open_run(runs, batch) {
        return Answer::Refused(rule);
    }
    done_or_refused(thaw_run(runs, batch))
}

// Lets the run of a batch be stopped step by step; true where that is new.
fn stop_run(runs: &mut IndexMap<Name, Run>, batch: Name) -> bool
    requires { (run : PlainRun) × (lookup (bytes_eq batch) runs.old.entries ≡ Some run) }
    ensures names { keys_of runs.new.entries ≡ keys_of runs.old.entries }
    ensures stopped { (run : PlainRun) → lookup (bytes_eq batch) runs.old.entries ≡ Some run
        → StopsOne batch result run runs.old.entries runs.new.entries }
{
    match runs.get_mut(&batch) {
        Some(run) => run.stop(),
        None => unreachable!(),
    }
}

/// A batch is to be stopped step by step. Its freeze ends, whether that is new or not.
pub fn stop(runs: &mut IndexMap<Name, Run>, batch: Name) -> Answer
    ensures names { keys_of runs.new.entries ≡ keys_of runs.old.entries }
    ensures answered { (modules : Rows slot_type) → BatchAnswers (λ at. stop_batch at batch) modules runs.old.entries
        result modules runs.new.entries }
{
    if let Err(rule) = open_run(runs, batch) {
        return Answer::Refused(rule);
    }
    if stop_run(runs, batch) {
        Answer::Did(LogEntry::StopAsked)
    } else {
        Answer::Done
    }
}

// Closes the run of a batch.
fn give_up(runs: &mut IndexMap<Name, Run>, batch: Name)
    requires { (run : PlainRun) × (lookup (bytes_eq batch) runs.old.entries ≡ Some run) }
    ensures names { keys_of runs.new.entries ≡ keys_of runs.old.entries }
    ensures changed { (run : PlainRun) → lookup (bytes_eq batch) runs.old.entries ≡ Some run
        → ChangesRun batch (record run { outcome = Some Abandoned }) runs.old.entries runs.new.entries }
{
    match runs.get_mut(&batch) {
        Some(run) => run.abandon(),
        None => unreachable!(),
    }
}

/// A batch is given up where it stands, and its modules are free.
pub fn abandon(modules: &mut Table<Slot>, runs: &mut IndexMap<Name, Run>, batch: Name) -> Answer
    ensures names { keys_of runs.new.entries ≡ keys_of runs.old.entries }
    ensures answered { BatchAnswers (λ at. abandon at batch) modules.old runs.old.entries
        result modules.new runs.new.entries }
{
    if let Err(rule) = open_run(runs, batch) {
        return Answer::Refused(rule);
    }
    give_up(runs, batch);
    modules.release(batch);
    Answer::Closed(Outcome::Abandoned)
}
