//! Reading the lines of a journal.
ghost use Rattle.std.specs.Prelude.{◌≡◌, IfOk, IsTrue};
ghost use Rattle.serde_json.specs.View.{view};
ghost use Rattle.mtp_json.specs.ReadResult.{ReadResult};
ghost use Rattle.mtp_json.specs.ReadsAs.{ReadsAs};
ghost use Rattle.pol_events.specs.Events.{PlainEvent, plain_event};
ghost use Rattle.pol_events.specs.Orderly.{is_orderly};
ghost use Rattle.event_json.specs.Forms.{event_by, event_in};
ghost use Rattle.event_json.specs.Lines.{Tells, event_of, fault_within, of_line, read_of};

use crate::batches::{read_freeze, read_of_batch, read_start};
use crate::fault::{LineFault, LineRefusal};
use crate::kind::{BatchKind, EventKind, KindWords, TagKind};
use crate::modules::{
    read_desk, read_exchange_cancel, read_exchange_end, read_of_tag, read_plug, read_report,
    read_variable,
};
use crate::recipes::read_recipe;
use chart_core::ChartFault;
use mtp_json::{JsonRefusal, object_here, parse, word_at};
use pol_events::Event;
use serde_json::Value;
use std::alloc::Global;

pub(crate) fn read_kind(alloc: Global, value: &Value, kind: EventKind) -> Result<Event, JsonRefusal>
    ensures { ReadsAs plain_event result (event_by (view value.now) kind) }
{
    match kind {
        EventKind::Plug => read_plug(alloc, value),
        EventKind::Unplug => read_of_tag(alloc, value, TagKind::Unplug),
        EventKind::Report => read_report(alloc, value),
        EventKind::Variable => read_variable(alloc, value),
        EventKind::Recipe => read_recipe(alloc, value),
        EventKind::Start => read_start(alloc, value),
        EventKind::Advance => read_of_batch(alloc, value, BatchKind::Advance),
        EventKind::Freeze => read_freeze(alloc, value),
        EventKind::Thaw => read_of_batch(alloc, value, BatchKind::Thaw),
        EventKind::Stop => read_of_batch(alloc, value, BatchKind::Stop),
        EventKind::Abandon => read_of_batch(alloc, value, BatchKind::Abandon),
        EventKind::Desk => read_desk(alloc, value),
        EventKind::ExchangeBegin => read_of_tag(alloc, value, TagKind::ExchangeBegin),
        EventKind::ExchangeEnd => read_exchange_end(alloc, value),
        EventKind::ExchangeCancel => read_exchange_cancel(alloc, value),
    }
}

#[tactic(auto, unfolding(crate::specs::Forms::event_in))]
fn read_value(alloc: Global, value: &Value) -> Result<Event, JsonRefusal>
    ensures { ReadsAs plain_event result (event_in (view value.now)) }
{
    object_here(alloc, value)?;
    let kind = word_at::<KindWords>(alloc, value, "ev")?;
    read_kind(alloc, value, kind)
}

fn read_line(alloc: Global, line: &[u8]) -> Result<Event, JsonRefusal>
    ensures { ReadsAs plain_event result (read_of line.now) }
{
    let value = parse(alloc, line)?;
    read_value(alloc, &value)
}

pub(crate) fn chart_fault(event: &Event) -> Option<ChartFault>
    ensures { result ≡ fault_within (plain_event event.now) }
{
    match event {
        Event::Recipe { chart, .. } => chart.valid().err(),
        _ => None,
    }
}

// What was read of an event, unless it is a recipe whose chart has a fault.
pub(crate) fn unless_faulty(read: Result<Event, JsonRefusal>) -> Result<Event, LineRefusal>
    ensures { (said : ReadResult PlainEvent) → ReadsAs plain_event read said → Tells result (of_line said) }
{
    match read {
        Ok(event) => match chart_fault(&event) {
            None => Ok(event),
            Some(fault) => Err(LineRefusal::Fault(LineFault::Chart(fault))),
        },
        Err(JsonRefusal::Fault(fault)) => Err(LineRefusal::Fault(LineFault::Json(fault))),
        Err(JsonRefusal::Memory) => Err(LineRefusal::Memory),
    }
}

fn told_from(alloc: Global, value: &Value) -> Result<Event, LineRefusal>
    ensures { Tells result (of_line (event_in (view value.now))) }
{
    unless_faulty(read_value(alloc, value))
}

/// The event that the JSON value of a line says; else its first fault in reading order, with its path; else, where it
/// makes a recipe known, the fault of its chart. It never answers `TooLong`.
pub fn event_from(alloc: Global, value: &Value) -> Result<Event, LineRefusal>
    ensures tells { Tells result (of_line (event_in (view value.now))) }
    ensures orderly { IfOk result (λ event. IsTrue (is_orderly (plain_event event))) }
{
    told_from(alloc, value)
}

#[tactic(auto, unfolding(crate::specs::Lines::event_of))]
fn read_valid(alloc: Global, line: &[u8]) -> Result<Event, LineRefusal>
    ensures { Tells result (event_of line.now) }
{
    unless_faulty(read_line(alloc, line))
}

/// The event that a line of a journal says; else the line's first fault in reading order, with its path; else, where
/// the line makes a recipe known, the fault of its chart. A line is one JSON object (RFC 8259) without its line feed.
/// It never answers `TooLong`.
pub fn read_event(alloc: Global, line: &[u8]) -> Result<Event, LineRefusal>
    ensures tells { Tells result (event_of line.now) }
    ensures orderly { IfOk result (λ event. IsTrue (is_orderly (plain_event event))) }
{
    read_valid(alloc, line)
}
