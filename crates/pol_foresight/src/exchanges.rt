//! What the events of an exchange would be answered.
ghost use Rattle.std.specs.Prelude.{◌≡◌, ℕ};
ghost use Rattle.mtp_codes.specs.Faults.{first_of};
ghost use Rattle.mtp_desc.specs.PlainDescription.{plain_description};
ghost use Rattle.pol_events.specs.Events.{exchange_begin, exchange_cancel, exchange_end};
ghost use Rattle.pol_history.specs.Answers.{rules};
ghost use Rattle.pol_core.specs.Plants.{plant_history};
ghost use Rattle.pol_foresight.specs.Foreseen.{IsForeseenAt};

use crate::modules::done_unless;
use crate::recipes::done_or_refused;
use mtp_codes::Name;
use mtp_desc::Description;
use pol_core::{Docking, Plant};
use pol_events::{Answer, Rule};

/// A module would be taken away to be exchanged.
pub fn exchange_begin(plant: &Plant, tag: Name) -> Answer
    ensures { IsForeseenAt plant.now (λ at. exchange_begin at tag) result }
{
    match plant.would_get_ticket(tag) {
        Ok(ticket) => Answer::Ticket(ticket),
        Err(rule) => Answer::Refused(rule),
    }
}

/// Another module would come in place of the one that is away.
pub fn exchange_end(plant: &Plant, tag: Name, ticket: u32, desc: &Description) -> Answer
    ensures { IsForeseenAt plant.now (λ at. exchange_end at tag ticket (plain_description desc.now)) result }
{
    done_or_refused(plant.would_end(tag, ticket, desc))
}

// The rule that the cancel of an exchange would be refused by.
fn cancel_rule(plant: &Plant, tag: Name, ticket: u32) -> Option<Rule>
    ensures { (at : ℕ) → result ≡ first_of (rules (plant_history plant.now) (exchange_cancel at tag ticket)) }
{
    match plant.docking(tag) {
        Docking::Absent => Some(Rule::NoModule { tag }),
        Docking::Docked(_) => Some(Rule::NotInExchange),
        Docking::Away(kept) => {
            if kept == ticket {
                None
            } else {
                Some(Rule::WrongTicket {
                    kept,
                    given: ticket,
                })
            }
        }
    }
}

/// The module that is away would come back.
pub fn exchange_cancel(plant: &Plant, tag: Name, ticket: u32) -> Answer
    ensures { IsForeseenAt plant.now (λ at. exchange_cancel at tag ticket) result }
{
    done_unless(cancel_rule(plant, tag, ticket))
}
