//! Looking back at how a batch is frozen, and at the steps that were asked to hold.
ghost use Rattle.std.specs.Prelude.{◌≡◌};
ghost use Rattle.mtp_codes.specs.Names.{is_among};
ghost use Rattle.pol_events.specs.Events.{plain_entry, plain_event, plain_history};
ghost use Rattle.pol_history.specs.Looking.{past_of_batch, last_of};
ghost use Rattle.pol_history.specs.Batches.{asked_by, freezing, held_step, holds, is_frozen_by, is_holding_by};
ghost use Rattle.pol_audit.specs.Freezes.{asking};

use crate::past::Past;
use chart_core::LogEntry;
use mtp_codes::Name;
use pol_events::{Answer, Entry, Event};

fn freezing(event: &Event) -> Option<bool>
    ensures { result ≡ freezing (plain_event event.now) }
{
    match event {
        Event::Freeze { .. } => Some(true),
        Event::Thaw { .. } => Some(false),
        Event::StopBatch { .. } => Some(false),
        _ => None,
    }
}

// Whether the batch's last freeze, thaw or stop is a freeze.
fn last_freezing(history: &Past<'_, '_>, batch: Name) -> Option<bool>
    ensures { result ≡ last_of (λ entry. freezing entry.event) (past_of_batch batch (plain_history history.now)) }
{
    history
        .freezings(batch)
        .iter()
        .rev()
        .find_map(|entry| freezing(&entry.event))
}

/// Whether the batch is frozen.
pub fn is_frozen(history: &Past<'_, '_>, batch: Name) -> bool
    ensures { result ≡ is_frozen_by (past_of_batch batch (plain_history history.now)) }
{
    last_freezing(history, batch).unwrap_or(false)
}

fn holds(event: &Event) -> Option<bool>
    ensures { result ≡ holds (plain_event event.now) }
{
    match event {
        Event::Freeze { hold, .. } => Some(*hold),
        _ => None,
    }
}

// Whether the batch's last freeze holds its services.
fn last_holds(history: &Past<'_, '_>, batch: Name) -> Option<bool>
    ensures { result ≡ last_of (λ entry. holds entry.event) (past_of_batch batch (plain_history history.now)) }
{
    history
        .freezings(batch)
        .iter()
        .rev()
        .find_map(|entry| holds(&entry.event))
}

/// Whether the batch is frozen and its services are held.
pub fn is_holding(history: &Past<'_, '_>, batch: Name) -> bool
    ensures { result ≡ is_holding_by (past_of_batch batch (plain_history history.now)) }
{
    is_frozen(history, batch) && last_holds(history, batch).unwrap_or(false)
}

fn held_step(answer: &Answer) -> Option<Name>
    ensures { result ≡ held_step answer.now }
{
    match answer {
        Answer::Did(LogEntry::Hold { step, .. }) => Some(*step),
        _ => None,
    }
}

// Whether the entry asks the step of this name to hold; a freeze doesn't. None where it neither does nor is a freeze.
fn asking(entry: &Entry, name: Name) -> Option<bool>
    ensures { result ≡ asking name (plain_entry entry.now) }
{
    if let Event::Freeze { .. } = entry.event {
        return Some(false);
    }
    match held_step(&entry.answer) {
        Some(step) if step == name => Some(true),
        _ => None,
    }
}

// What the last entry of the batch that is a freeze or asks the step to hold says of the step.
fn last_asking(history: &Past<'_, '_>, batch: Name, name: Name) -> Option<bool>
    ensures { result ≡ last_of (asking name) (past_of_batch batch (plain_history history.now)) }
{
    history
        .askings(batch)
        .iter()
        .rev()
        .find_map(|entry| asking(entry, name))
}

/// Whether the step of this name was asked to hold since the batch's last freeze.
#[tactic(auto, using(crate::proofs::AskedSince::asked_since))]
pub fn was_asked(history: &Past<'_, '_>, batch: Name, name: Name) -> bool
    ensures { result ≡ is_among (asked_by (past_of_batch batch (plain_history history.now))) name }
{
    last_asking(history, batch, name).unwrap_or(false)
}
