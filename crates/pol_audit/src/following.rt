//! The next entry of a batch.
ghost use Rattle.std.specs.Prelude.{◌≡◌, ◌∷◌, List, Bool, IfOk};
ghost use Rattle.chart_core.specs.Charts.{plain_chart};
ghost use Rattle.chart_core.specs.Trees.{PlainStep, plain_step};
ghost use Rattle.chart_core.specs.declared.entry.LogEntry.{LogEntry};
ghost use Rattle.chart_core.specs.Standing.{AreAfter};
ghost use Rattle.chart_cursor.specs.Freezing.{holding};
ghost use Rattle.chart_cursor.specs.Logs.{has_broken, was_stopped, chart_entries, active};
ghost use Rattle.chart_cursor.specs.NextEntry.{first_broken, stop_next, first_unhold, owed, run_next, unless_whole};
ghost use Rattle.chart_cursor.specs.NextEntry.{unfrozen_next, next_by};
ghost use Rattle.chart_cursor.specs.Next.{next_after};
ghost use Rattle.pol_events.specs.Bound.{given, plain_allocation};
ghost use Rattle.pol_events.specs.Events.{plain_history};
ghost use Rattle.pol_history.specs.Looking.{past, past_of_batch, recipes};
ghost use Rattle.pol_history.specs.Batches.{asked_by, freezing_by, log_by};
ghost use Rattle.pol_history.specs.Following.{sights_by, next_of, next_of_started};
ghost use Rattle.pol_record.specs.Gathered.{plain_start};
ghost use Rattle.pol_audit.specs.HeldSteps.{plain_sights};
ghost use Rattle.pol_audit.specs.Starts.{active_seen, is_active_step};

use crate::batches::start_of;
use crate::cursors::cursor_along;
use crate::freezes::{is_frozen, is_holding};
use crate::held_steps::{first_hold, first_unhold};
use crate::log::Log;
use crate::past::Past;
use crate::sights::Sights;
use chart_core::{Chart, LogEntry, Step, Why, steps_in_order};
use chart_cursor::{Cursor, CursorNext, Seen, broken_step, run_next, stop_step};
use mtp_codes::Name;
use pol_events::{Allocation, Next, Outcome};
use pol_record::Start;
use std::alloc::{AllocError, Global};

/// Whether the batch broke.
pub fn has_broken(log: &[LogEntry]) -> bool
    ensures { result ≡ has_broken log.now }
{
    log.iter()
        .any(|entry| matches!(entry, LogEntry::Broke { .. }))
}

/// Whether the operator had the batch stopped.
pub fn was_stopped(log: &[LogEntry]) -> bool
    ensures { result ≡ was_stopped log.now }
{
    log.iter().any(|entry| matches!(entry, LogEntry::StopAsked))
}

/// Whether the step is active after the log.
#[tactic(auto, unfolding(crate::specs::Starts::is_active_step))]
pub fn is_active_step(step: &Step, log: &Log<'_>) -> bool
    ensures { result ≡ is_active_step log.now.whole.now (plain_step step.now) }
{
    log.is_active(step.name)
}

/// The steps of the chart in chart order.
pub fn chart_steps(alloc: Global, chart: &Chart) -> Result<Vec<&Step>, AllocError>
    ensures { IfOk result (λ steps. (log : List LogEntry)
        → active_seen log steps.items ≡ active (plain_chart chart.now) log) }
{
    steps_in_order(alloc, chart)
}

// What a batch that is being stopped does next with an active step, by what is seen of the step's service.
#[tactic(auto, using(crate::proofs::Steps::role_or_itself))]
fn stop_seen(seen: &Sights, step: &Step) -> Next
    ensures { (broken : Bool) (others : List PlainStep)
        → result ≡ stop_next
        (plain_sights seen.now)
        broken (plain_step step.now ∷ others) }
{
    let tag = seen.tag(step.role).unwrap_or(step.role);
    stop_step(
        step.name,
        step.service,
        tag,
        seen.view(step.role, step.service),
    )
}

// What a batch that is being stopped does next, by its first active step; where there is none, the batch is closed.
fn stop_next(seen: &Sights, broken: bool, steps: &[&Step], log: &Log<'_>) -> Next
    ensures { result ≡ stop_next
        (plain_sights seen.now)
        broken (active_seen log.now.whole.now steps.now) }
{
    for step in steps {
        if is_active_step(step, log) {
            return stop_seen(seen, step);
        }
    }
    Next::Closed(if broken {
        Outcome::Broken
    } else {
        Outcome::Stopped
    })
}

// The entry Broke of the first active step whose service is stopped or aborted.
fn first_broken(seen: &Sights, steps: &[&Step], log: &Log<'_>) -> Option<LogEntry>
    ensures { result ≡ first_broken
        (plain_sights seen.now)
        (active_seen log.now.whole.now steps.now) }
{
    for step in steps {
        if !is_active_step(step, log) {
            continue;
        }
        if let Some(entry) = broken_step(step, seen.view(step.role, step.service)) {
            return Some(entry);
        }
    }
    None
}

// The steps of the cursor's chart in chart order.
fn cursor_steps(alloc: Global, cursor: &Cursor) -> Result<Vec<&Step>, AllocError>
    ensures { IfOk result (λ steps. (log : List LogEntry)
        → active_seen log steps.items ≡ active (plain_chart cursor.now.chart) log) }
{
    chart_steps(alloc, cursor.chart())
}

// What comes next for the steps that are owed an Unhold; where none is, what comes next in the run of the chart.
fn unhold_or_run(cursor: &Cursor, steps: &[&Step], log: &Log<'_>, seen: &Sights) -> CursorNext
    requires { AreAfter (plain_chart cursor.now.chart) cursor.now.marks (chart_entries log.now.whole.now) }
    ensures { result ≡ unless_whole
        (first_unhold (plain_sights seen.now)
        (owed (plain_sights seen.now) log.now.whole.now (active_seen log.now.whole.now steps.now)))
        (next_after (plain_chart cursor.now.chart) (chart_entries log.now.whole.now) (plain_sights seen.now)) }
{
    match first_unhold(seen, steps, log) {
        CursorNext::Whole => cursor.next_of_log(seen),
        next => next,
    }
}

// What a batch with these steps that isn't frozen does next.
fn next_of_steps(cursor: &Cursor, steps: &[&Step], log: &Log<'_>, seen: &Sights) -> Next
    requires after { AreAfter (plain_chart cursor.now.chart) cursor.now.marks (chart_entries log.now.whole.now) }
    requires steps { active_seen log.now.whole.now steps.now
        ≡ active (plain_chart cursor.now.chart) log.now.whole.now }
    ensures { result ≡ unfrozen_next (plain_chart cursor.now.chart) log.now.whole.now (plain_sights seen.now) }
{
    let broken = log.has_broken();
    if broken || log.was_stopped() {
        return stop_next(seen, broken, steps, log);
    }
    if let Some(entry) = first_broken(seen, steps, log) {
        return Next::Did(entry);
    }
    run_next(unhold_or_run(cursor, steps, log, seen))
}

// What a batch that isn't frozen does next.
fn unfrozen_next(
    alloc: Global,
    cursor: &Cursor,
    log: &Log<'_>,
    seen: &Sights,
) -> Result<Next, AllocError>
    requires { AreAfter (plain_chart cursor.now.chart) cursor.now.marks (chart_entries log.now.whole.now) }
    ensures { IfOk result (λ next. next
        ≡ unfrozen_next (plain_chart cursor.now.chart) log.now.whole.now (plain_sights seen.now)) }
{
    let steps = cursor_steps(alloc, cursor)?;
    Ok(next_of_steps(cursor, &steps, log, seen))
}

// What a frozen batch whose services are held does next.
fn hold_next(
    alloc: Global,
    cursor: &Cursor,
    batch: Name,
    log: &Log<'_>,
    seen: &Sights,
) -> Result<Next, AllocError>
    ensures { IfOk result (λ next. next ≡ next_by (plain_chart cursor.now.chart)
        (holding (asked_by (past_of_batch batch (plain_history seen.now.history.now))))
        log.now.whole.now (plain_sights seen.now)) }
{
    let steps = cursor_steps(alloc, cursor)?;
    match first_hold(seen, batch, &steps, log) {
        Some(entry) => Ok(Next::Did(entry)),
        None => Ok(Next::Waiting(Why::Frozen)),
    }
}

// What a batch with this log does next, along whose run the cursor went.
fn next_by(
    alloc: Global,
    cursor: &Cursor,
    batch: Name,
    log: &Log<'_>,
    seen: &Sights,
) -> Result<Next, AllocError>
    requires { AreAfter (plain_chart cursor.now.chart) cursor.now.marks (chart_entries log.now.whole.now) }
    ensures { IfOk result (λ next. next ≡ next_by (plain_chart cursor.now.chart)
        (freezing_by (past_of_batch batch (plain_history seen.now.history.now)))
        log.now.whole.now (plain_sights seen.now)) }
{
    if !is_frozen(seen.history, batch) {
        return unfrozen_next(alloc, cursor, log, seen);
    }
    if is_holding(seen.history, batch) {
        return hold_next(alloc, cursor, batch, log, seen);
    }
    Ok(Next::Waiting(Why::Frozen))
}

// The next entry of a batch with these binds, along whose run the cursor went.
fn next_along(
    alloc: Global,
    history: &Past<'_, '_>,
    batch: Name,
    binds: Allocation<'_>,
    cursor: &Cursor,
) -> Result<Next, AllocError>
    requires { AreAfter (plain_chart cursor.now.chart) cursor.now.marks
        (chart_entries (log_by (past_of_batch batch (plain_history history.now)))) }
    ensures { IfOk result (λ next. next ≡ next_by (plain_chart cursor.now.chart)
        (freezing_by (past_of_batch batch (plain_history history.now)))
        (log_by (past_of_batch batch (plain_history history.now)))
        (sights_by (given (plain_allocation binds.entry)) (λ tag. past tag (plain_history history.now)))) }
{
    let seen = Sights { history, binds };
    let log = history.log(batch);
    next_by(alloc, cursor, batch, &log, &seen)
}

// The next entry of a batch with this start, where no cursor of its recipe's chart is kept: one is made.
fn next_anew(
    alloc: Global,
    history: &Past<'_, '_>,
    batch: Name,
    start: &Start<'_>,
) -> Result<Option<Next>, AllocError>
    ensures { IfOk result (λ next. next ≡ next_of_started (recipes (plain_history history.now))
        (past_of_batch batch (plain_history history.now)) (λ tag. past tag (plain_history history.now))
        (plain_start start.now)) }
{
    let Some(chart) = history.recipes().chart(start.recipe) else {
        return Ok(None);
    };
    let cursor = cursor_along(alloc, chart, history.log(batch).run())?;
    Ok(Some(next_along(alloc, history, batch, start.binds, &cursor)?))
}

// The next entry of a batch with this start.
fn next_of_start(
    alloc: Global,
    history: &Past<'_, '_>,
    batch: Name,
    start: &Start<'_>,
) -> Result<Option<Next>, AllocError>
    ensures { IfOk result (λ next. next ≡ next_of_started (recipes (plain_history history.now))
        (past_of_batch batch (plain_history history.now)) (λ tag. past tag (plain_history history.now))
        (plain_start start.now)) }
{
    let Some(cursor) = history.cursor(batch, start.recipe) else {
        return next_anew(alloc, history, batch, start);
    };
    Ok(Some(next_along(alloc, history, batch, start.binds, cursor)?))
}

/// The next entry of the batch; None where it wasn't started.
pub fn next_of(
    alloc: Global,
    history: &Past<'_, '_>,
    batch: Name,
) -> Result<Option<Next>, AllocError>
    ensures { IfOk result (λ next. next ≡ next_of (plain_history history.now) batch) }
{
    match start_of(history, batch) {
        Some(start) => next_of_start(alloc, history, batch, &start),
        None => Ok(None),
    }
}
