//! Reading the lines of a history.
ghost use Rattle.std.specs.Prelude.{IfOk, IsTrue, codes};
ghost use Rattle.serde_json.specs.View.{view};
ghost use Rattle.mtp_json.specs.Form.{nested};
ghost use Rattle.pol_events.specs.Events.{plain_entry, plain_event};
ghost use Rattle.pol_events.specs.Orderly.{is_orderly};
ghost use Rattle.event_json.specs.Forms.{event_in};
ghost use Rattle.pol_entries.specs.Entries.{ReadsAs, Tells, entry_form, entry_of, read_of};

use crate::answers::AnswerJson;
use chart_core::ChartFault;
use event_json::{LineFault, LineRefusal, event_from};
use mtp_json::{JsonRefusal, form_at, nothing_but, object_here, parse, under, value_at};
use pol_events::{Answer, Entry, Event};
use serde_json::Value;
use std::alloc::Global;

#[tactic(auto, using(event_json::proofs::Versions::line_parts, crate::proofs::Lines::line_chart, crate::proofs::Lines::line_json, crate::proofs::Lines::line_short))]
fn event_here(alloc: Global, value: &Value) -> Result<Result<Event, ChartFault>, JsonRefusal>
    ensures gives { ReadsAs plain_event (λ event. event) result (event_in (view value.now)) }
    ensures orderly { IfOk result (λ asked. IfOk asked (λ event. IsTrue (is_orderly (plain_event event)))) }
{
    match event_from(alloc, value) {
        Ok(event) => Ok(Ok(event)),
        Err(LineRefusal::Fault(LineFault::Chart(fault))) => Ok(Err(fault)),
        Err(LineRefusal::Fault(LineFault::Json(fault))) => Err(JsonRefusal::Fault(fault)),
        Err(LineRefusal::Fault(LineFault::TooLong)) => unreachable!(),
        Err(LineRefusal::Memory) => Err(JsonRefusal::Memory),
    }
}

#[tactic(auto, using(crate::proofs::Lines::given_below))]
fn event_at(alloc: Global, value: &Value) -> Result<Result<Event, ChartFault>, JsonRefusal>
    ensures gives { ReadsAs plain_event (λ event. event) result (nested (codes "event") event_in (view value.now)) }
    ensures orderly { IfOk result (λ asked. IfOk asked (λ event. IsTrue (is_orderly (plain_event event)))) }
{
    let inner = value_at(alloc, value, "event")?;
    under("event", event_here(alloc, inner))
}

#[tactic(auto, unfolding(crate::specs::Entries::entry_form))]
fn read_asked(alloc: Global, value: &Value) -> Result<Result<Entry, ChartFault>, JsonRefusal>
    ensures gives { ReadsAs plain_entry (λ entry. entry.event) result (entry_form (view value.now)) }
    ensures orderly { IfOk result (λ asked. IfOk asked (λ entry. IsTrue (is_orderly (plain_event entry.event)))) }
{
    object_here(alloc, value)?;
    let answer: Answer = form_at::<AnswerJson>(alloc, value, "answer")?;
    let asked = event_at(alloc, value)?;
    nothing_but(alloc, value, "answer event")?;
    match asked {
        Ok(event) => Ok(Ok(Entry { event, answer })),
        Err(fault) => Ok(Err(fault)),
    }
}

fn read_line(alloc: Global, line: &[u8]) -> Result<Result<Entry, ChartFault>, JsonRefusal>
    ensures gives { ReadsAs plain_entry (λ entry. entry.event) result (read_of line.now) }
    ensures orderly { IfOk result (λ asked. IfOk asked (λ entry. IsTrue (is_orderly (plain_event entry.event)))) }
{
    let value = parse(alloc, line)?;
    read_asked(alloc, &value)
}

/// The entry that a line of a history says: one JSON object (RFC 8259) of exactly `answer`, an answer's object, and
/// `event`, an event's line. Else the line's first fault in reading order, with its path; else, where the event makes a
/// recipe known, the fault of its chart. It reads lines of any length, and never answers `TooLong`.
#[tactic(auto, unfolding(crate::specs::Entries::entry_of))]
pub fn read_entry(alloc: Global, line: &[u8]) -> Result<Entry, LineRefusal>
    ensures tells { Tells result (entry_of line.now) }
    ensures orderly { IfOk result (λ entry. IsTrue (is_orderly (plain_event entry.event))) }
{
    match read_line(alloc, line) {
        Ok(Ok(entry)) => Ok(entry),
        Ok(Err(fault)) => Err(LineRefusal::Fault(LineFault::Chart(fault))),
        Err(JsonRefusal::Fault(fault)) => Err(LineRefusal::Fault(LineFault::Json(fault))),
        Err(JsonRefusal::Memory) => Err(LineRefusal::Memory),
    }
}
