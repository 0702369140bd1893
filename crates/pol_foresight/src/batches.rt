//! What an event of a batch would be answered.
ghost use Rattle.std.specs.Prelude.{◌≡◌, [], ◌∷◌};
ghost use Rattle.pol_events.specs.Events.{abandon, advance, freeze, stop_batch, thaw};
ghost use Rattle.pol_history.specs.Answers.{advanced};
ghost use Rattle.pol_core.specs.Calls.{standing_of};
ghost use Rattle.pol_core.specs.Plants.{plant_history};
ghost use Rattle.pol_foresight.specs.Foreseen.{IsForeseenAt, freeze_rule, open_standing, thaw_rule};

use crate::modules::done_unless;
use chart_core::LogEntry;
use mtp_codes::Name;
use pol_core::{Plant, Standing};
use pol_events::{Answer, Next, Outcome, Rule};

// How a batch stands that is open. `NoBatch` where it wasn't started, `BatchClosed` where it is closed.
fn open_standing(plant: &Plant, batch: Name) -> Result<Standing, Rule>
    ensures { result ≡ open_standing (standing_of (plant_history plant.now) batch) }
{
    match plant.standing(batch) {
        None => Err(Rule::NoBatch),
        Some(standing) => match standing.outcome {
            Some(_) => Err(Rule::BatchClosed),
            None => Ok(standing),
        },
    }
}

// What comes next, as the answer to an advance.
fn advanced(next: Option<Next>) -> Answer
    ensures { result ≡ advanced next }
{
    match next {
        None => Answer::Done,
        Some(Next::Did(entry)) => Answer::Did(entry),
        Some(Next::Waiting(why)) => Answer::Waiting(why),
        Some(Next::Closed(outcome)) => Answer::Closed(outcome),
    }
}

/// A batch would be advanced.
pub fn advance(plant: &Plant, batch: Name) -> Answer
    ensures { IsForeseenAt plant.now (λ at. advance at batch) result }
{
    match open_standing(plant, batch) {
        Ok(_) => advanced(plant.would(batch)),
        Err(rule) => Answer::Refused(rule),
    }
}

// The rule against a freeze of an open batch.
fn freeze_rule(standing: &Standing, hold: bool) -> Option<Rule>
    ensures { result ≡ freeze_rule hold standing.now }
{
    match standing.hold {
        Some(is_held) if !hold || is_held => Some(Rule::AlreadyFrozen),
        _ => None,
    }
}

/// A batch would be frozen.
pub fn freeze(plant: &Plant, batch: Name, hold: bool) -> Answer
    ensures { IsForeseenAt plant.now (λ at. freeze at batch hold) result }
{
    match open_standing(plant, batch) {
        Ok(standing) => done_unless(freeze_rule(&standing, hold)),
        Err(rule) => Answer::Refused(rule),
    }
}

// The rule against a thaw of an open batch.
fn thaw_rule(standing: &Standing) -> Option<Rule>
    ensures { result ≡ thaw_rule standing.now }
{
    match standing.hold {
        Some(_) => None,
        None => Some(Rule::NotFrozen),
    }
}

/// A batch would be thawed.
pub fn thaw(plant: &Plant, batch: Name) -> Answer
    ensures { IsForeseenAt plant.now (λ at. thaw at batch) result }
{
    match open_standing(plant, batch) {
        Ok(standing) => done_unless(thaw_rule(&standing)),
        Err(rule) => Answer::Refused(rule),
    }
}

/// A batch would be stopped step by step.
pub fn stop(plant: &Plant, batch: Name) -> Answer
    ensures { IsForeseenAt plant.now (λ at. stop_batch at batch) result }
{
    match open_standing(plant, batch) {
        Ok(standing) if standing.is_stopping => Answer::Done,
        Ok(_) => Answer::Did(LogEntry::StopAsked),
        Err(rule) => Answer::Refused(rule),
    }
}

/// A batch would be given up.
pub fn abandon(plant: &Plant, batch: Name) -> Answer
    ensures { IsForeseenAt plant.now (λ at. abandon at batch) result }
{
    match open_standing(plant, batch) {
        Ok(_) => Answer::Closed(Outcome::Abandoned),
        Err(rule) => Answer::Refused(rule),
    }
}
