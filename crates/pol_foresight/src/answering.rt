//! What an event would be answered, by its kind.
ghost use Rattle.std.specs.Prelude.{◌≡◌};
ghost use Rattle.pol_events.specs.Events.{plain_event};
ghost use Rattle.pol_history.specs.Answers.{answer_of};
ghost use Rattle.pol_core.specs.Plants.{plant_history};
ghost use Rattle.pol_foresight.specs.Foreseen.{IsForeseen};

use crate::batches::{abandon, advance, freeze, stop, thaw};
use crate::exchanges::{exchange_begin, exchange_cancel, exchange_end};
use crate::modules::{desk, plug, report, unplug, variable};
use crate::recipes::{recipe, start};
use mtp_codes::LONGEST_HISTORY;
use pol_core::Plant;
use pol_events::{Answer, Event, Rule};

// What the event would be answered, while the history has room.
fn with_room(plant: &Plant, event: &Event) -> Answer
    ensures { IsForeseen plant.now (plain_event event.now) result }
{
    match event {
        Event::Plug { tag, .. } => plug(plant, *tag),
        Event::Unplug { tag, .. } => unplug(plant, *tag),
        Event::Report {
            tag,
            service,
            control,
            ..
        } => report(plant, *tag, *service, *control),
        Event::Variable {
            tag,
            name,
            value,
            ..
        } => variable(plant, *tag, *name, value),
        Event::Recipe { recipe: name, .. } => recipe(plant, *name),
        Event::Start {
            batch,
            recipe: name,
            bind,
            watch,
            ..
        } => start(plant, *batch, *name, bind, watch),
        Event::Advance { batch, .. } => advance(plant, *batch),
        Event::Freeze { batch, hold, .. } => freeze(plant, *batch, *hold),
        Event::Thaw { batch, .. } => thaw(plant, *batch),
        Event::StopBatch { batch, .. } => stop(plant, *batch),
        Event::Abandon { batch, .. } => abandon(plant, *batch),
        Event::Desk {
            tag,
            service,
            command,
            ..
        } => desk(plant, *tag, *service, *command),
        Event::ExchangeBegin { tag, .. } => exchange_begin(plant, *tag),
        Event::ExchangeEnd {
            tag,
            ticket,
            desc,
            ..
        } => exchange_end(plant, *tag, *ticket, desc),
        Event::ExchangeCancel { tag, ticket, .. } => exchange_cancel(plant, *tag, *ticket),
    }
}

/// What the event would be answered now. Changes nothing, looks at no entry of the history, and takes no memory.
pub fn would_answer(plant: &Plant, event: &Event) -> Answer
    ensures { result ≡ answer_of (plant_history plant.now) (plain_event event.now) }
{
    if plant.history().len() >= LONGEST_HISTORY {
        return Answer::Refused(Rule::HistoryFull);
    }
    with_room(plant, event)
}
