//! Writing the lines of a journal.
ghost use Rattle.std.specs.Prelude.{◌≡◌, ◌≤◌, ℕ, List, IfOk, IsTrue, Ok, Some, true, false};
ghost use Rattle.std.specs.Str.{IsUtf8};
ghost use Rattle.serde_json.specs.Data.{depth};
ghost use Rattle.serde_json.specs.Read.{max_depth, read};
ghost use Rattle.serde_json.specs.Written.{has_float};
ghost use Rattle.serde_json.specs.View.{view};
ghost use Rattle.pol_events.specs.Events.{plain_event};
ghost use Rattle.pol_events.specs.Orderly.{is_orderly};
ghost use Rattle.event_json.specs.Forms.{event_in};
ghost use Rattle.event_json.specs.Ranges.{is_in_range};
ghost use Rattle.event_json.specs.Lines.{event_of};
ghost use Rattle.event_json.specs.Written.{written_event};

use crate::written_batches::{write_freeze, write_of_batch, write_start};
use crate::written_modules::{
    write_desk, write_exchange_cancel, write_exchange_end, write_of_tag, write_plug, write_report,
    write_variable,
};
use crate::written_recipes::write_recipe;
use pol_events::{Allocation, Event};
use serde_json::Value;
use std::alloc::{AllocError, Global};

fn write_event(alloc: Global, event: &Event) -> Result<Value, AllocError>
    requires { IsTrue (is_orderly (plain_event event.now)) }
    ensures { IfOk result
        (λ value. (view value ≡ written_event (plain_event event.now)) × (is_in_range (plain_event event.now) ≡ true)) }
{
    match event {
        Event::Plug { at, tag, desc } => write_plug(alloc, *at, *tag, desc),
        Event::Unplug { at, tag } => write_of_tag(alloc, "unplug", *at, *tag),
        Event::Report {
            at,
            tag,
            service,
            control,
        } => write_report(alloc, *at, *tag, *service, *control),
        Event::Variable {
            at,
            tag,
            name,
            value,
        } => write_variable(alloc, *at, *tag, *name, value),
        Event::Recipe { at, recipe, chart } => write_recipe(alloc, *at, *recipe, chart),
        Event::Start {
            at,
            batch,
            recipe,
            bind,
            watch,
        } => write_start(
            alloc,
            *at,
            *batch,
            *recipe,
            Allocation {
                held: bind,
                watched: watch,
            },
        ),
        Event::Advance { at, batch } => write_of_batch(alloc, "advance", *at, *batch),
        Event::Freeze { at, batch, hold } => write_freeze(alloc, *at, *batch, *hold),
        Event::Thaw { at, batch } => write_of_batch(alloc, "thaw", *at, *batch),
        Event::StopBatch { at, batch } => write_of_batch(alloc, "stop", *at, *batch),
        Event::Abandon { at, batch } => write_of_batch(alloc, "abandon", *at, *batch),
        Event::Desk {
            at,
            tag,
            service,
            command,
        } => write_desk(alloc, *at, *tag, *service, *command),
        Event::ExchangeBegin { at, tag } => write_of_tag(alloc, "exchange_begin", *at, *tag),
        Event::ExchangeEnd {
            at,
            tag,
            ticket,
            desc,
        } => write_exchange_end(alloc, *at, *tag, *ticket, desc),
        Event::ExchangeCancel { at, tag, ticket } => {
            write_exchange_cancel(alloc, *at, *tag, *ticket)
        }
    }
}

/// The line of an event as a JSON value, with every key of its form. Each text of this value is read as the same event,
/// and so is the text that `to_vec` gives of it. The event has to be one that a line can say: a recipe's chart is
/// valid, and a start holds at most 64 modules and watches at most 64, in byte order of the roles, each role once.
pub fn event_value(alloc: Global, event: &Event) -> Result<Value, AllocError>
    requires { IsTrue (is_orderly (plain_event event.now)) }
    ensures value { IfOk result (λ value. view value ≡ written_event (plain_event event.now)) }
    ensures reads_back { IfOk result (λ value. event_in (view value) ≡ Ok (plain_event event.now)) }
    ensures nests { IfOk result (λ value. depth (view value) ≤ max_depth) }
    ensures whole { IfOk result (λ value. has_float (view value) ≡ false) }
    ensures line { IfOk result (λ value. (text : List ℕ) → IsUtf8 text
        → read text ≡ Some (view value) → event_of text ≡ Ok (plain_event event.now)) }
{
    write_event(alloc, event)
}
