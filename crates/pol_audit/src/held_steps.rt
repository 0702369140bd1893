//! What a batch does next for its active steps that are to be held or unheld.
ghost use Rattle.std.specs.Prelude.{◌≡◌};
ghost use Rattle.chart_core.specs.Trees.{plain_step};
ghost use Rattle.chart_cursor.specs.NextEntry.{first_hold, first_unhold, owed, unasked};
ghost use Rattle.pol_events.specs.Events.{plain_history};
ghost use Rattle.pol_history.specs.Batches.{asked_by};
ghost use Rattle.pol_history.specs.Looking.{past_of_batch};
ghost use Rattle.pol_audit.specs.HeldSteps.{hold_seen, owed_next, plain_sights, unhold_seen};
ghost use Rattle.pol_audit.specs.Starts.{active_seen};

use crate::following::is_active_step;
use crate::freezes::was_asked;
use crate::log::Log;
use crate::sights::Sights;
use chart_core::{LogEntry, Step};
use chart_cursor::{CursorNext, Seen, earlier, hold_step, unhold_step};
use mtp_codes::Name;

// ---- held

// The entry Hold of a step, by what is seen of its service.
#[tactic(auto, using(crate::proofs::Steps::role_or_itself))]
fn hold_seen(seen: &Sights, step: &Step) -> Option<LogEntry>
    ensures { result ≡ hold_seen (plain_sights seen.now) (plain_step step.now) }
{
    let tag = seen.tag(step.role).unwrap_or(step.role);
    hold_step(step, tag, seen.view(step.role, step.service))
}

/// The entry Hold of the first active step that the batch hasn't asked to hold since its last freeze and that a recipe
/// may send Hold.
pub fn first_hold(seen: &Sights, batch: Name, steps: &[&Step], log: &Log<'_>) -> Option<LogEntry>
    ensures { result ≡ first_hold (plain_sights seen.now)
        (unasked (asked_by (past_of_batch batch (plain_history seen.now.history.now)))
        (active_seen log.now.whole.now steps.now)) }
{
    for step in steps {
        if !is_active_step(step, log) || was_asked(seen.history, batch, step.name) {
            continue;
        }
        if let Some(entry) = hold_seen(seen, step) {
            return Some(entry);
        }
    }
    None
}

// ---- unheld

// What comes next for a step that was held, by what is seen of its service: nothing where the service isn't under way.
#[tactic(auto, using(crate::proofs::Steps::role_or_itself))]
fn unhold_seen(seen: &Sights, step: &Step) -> CursorNext
    ensures { result ≡ unhold_seen (plain_sights seen.now) (plain_step step.now) }
{
    let tag = seen.tag(step.role).unwrap_or(step.role);
    unhold_step(step, tag, seen.view(step.role, step.service))
}

// What comes next for a step after the log: nothing unless it is active and was held.
fn owed_next(seen: &Sights, step: &Step, log: &Log<'_>) -> CursorNext
    ensures { result ≡ owed_next (plain_sights seen.now) log.now.whole.now (plain_step step.now) }
{
    if is_active_step(step, log) && log.was_held(step.name) {
        unhold_seen(seen, step)
    } else {
        CursorNext::Whole
    }
}

/// The entry Unhold of the first active step that is owed one and may be sent Unhold; else the obstacle of the first
/// that is owed one; Whole where none is.
#[tactic(auto, using(chart_cursor::proofs::Walked::first_next_whole))]
pub fn first_unhold(seen: &Sights, steps: &[&Step], log: &Log<'_>) -> CursorNext
    ensures { result ≡ first_unhold (plain_sights seen.now)
        (owed (plain_sights seen.now) log.now.whole.now (active_seen log.now.whole.now steps.now)) }
{
    let mut next = CursorNext::Whole;
    for step in steps {
        next = earlier(next, owed_next(seen, step, log));
    }
    next
}
