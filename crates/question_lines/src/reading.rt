//! Reading the lines that ask.
ghost use Rattle.std.specs.Prelude.{◌≡◌, IfOk, IsTrue, Ok, Result, is_some, true};
ghost use Rattle.serde_json.specs.View.{view};
ghost use Rattle.mtp_json.specs.ReadsAs.{ReadsAs};
ghost use Rattle.pol_events.specs.Events.{plain_event};
ghost use Rattle.pol_events.specs.Orderly.{is_orderly};
ghost use Rattle.event_json.specs.Guarded.{is_desk};
ghost use Rattle.event_json.specs.declared.fault.LineFault.{LineFault as line_fault};
ghost use Rattle.named_lines.specs.Named.{PlainNamed, TellsNamed};
ghost use Rattle.question_lines.specs.Questions.{AsksNamed, TellsQuestion, asks_orderly, bindings_in, entries_in};
ghost use Rattle.question_lines.specs.Questions.{plain_question, plant_in, question_by, question_in, question_of};
ghost use Rattle.question_lines.specs.Questions.{question_read_of, would, would_in};

use crate::fields::{take_at, u32_if};
use crate::kind::{AskKind, AskWords};
use crate::question::Question;
use event_json::{LineFault, LineRefusal};
use mtp_codes::LONGEST_HISTORY;
use mtp_json::{JsonRefusal, nothing_but, object_here, parse, u32_at, word_at};
use named_lines::{Named, name_if, named_from};
use serde_json::Value;
use std::alloc::Global;

// What an event would be answered; a fault of the event is part of the question.
fn asked_of(read: Result<Named, LineRefusal>) -> Result<Question, JsonRefusal>
    ensures tells { (said : Result PlainNamed line_fault) → TellsNamed read said
        → ReadsAs plain_question result (Ok (would said)) }
    ensures orderly { IfOk read (λ named. IsTrue (is_orderly (plain_event named.event)))
        → IfOk result (λ question. IsTrue (asks_orderly (plain_question question))) }
    ensures named { IfOk read (λ named. is_desk (plain_event named.event) ≡ true → is_some named.by ≡ true)
        → IfOk result (λ question. AsksNamed (plain_question question)) }
{
    match read {
        Ok(named) => Ok(Question::Would(Ok(named))),
        Err(LineRefusal::Fault(fault)) => Ok(Question::Would(Err(fault))),
        Err(LineRefusal::Memory) => Err(JsonRefusal::Memory),
    }
}

// The keys are looked at before the event is taken out from under its own.
#[tactic(auto, unfolding(crate::specs::Questions::would_in))]
fn read_would(alloc: Global, value: Value) -> Result<Question, JsonRefusal>
    ensures tells { ReadsAs plain_question result (would_in (view value)) }
    ensures orderly { IfOk result (λ question. IsTrue (asks_orderly (plain_question question))) }
    ensures named { IfOk result (λ question. AsksNamed (plain_question question)) }
{
    let others = nothing_but(alloc, &value, "ask event");
    let event = take_at(alloc, value, "event")?;
    others?;
    asked_of(named_from(alloc, event))
}

#[tactic(auto, unfolding(crate::specs::Questions::plant_in))]
fn read_plant(alloc: Global, value: &Value) -> Result<Question, JsonRefusal>
    ensures tells { ReadsAs plain_question result (plant_in (view value.now)) }
    ensures orderly { IfOk result (λ question. IsTrue (asks_orderly (plain_question question))) }
    ensures named { IfOk result (λ question. AsksNamed (plain_question question)) }
{
    let person = name_if(alloc, value, "by")?;
    nothing_but(alloc, value, "ask by")?;
    Ok(Question::Plant(person))
}

#[tactic(auto, unfolding(crate::specs::Questions::bindings_in))]
fn read_bindings(alloc: Global, value: &Value) -> Result<Question, JsonRefusal>
    ensures tells { ReadsAs plain_question result (bindings_in (view value.now)) }
    ensures orderly { IfOk result (λ question. IsTrue (asks_orderly (plain_question question))) }
    ensures named { IfOk result (λ question. AsksNamed (plain_question question)) }
{
    nothing_but(alloc, value, "ask")?;
    Ok(Question::Bindings)
}

#[tactic(auto, unfolding(crate::specs::Questions::entries_in))]
fn read_entries(alloc: Global, value: &Value) -> Result<Question, JsonRefusal>
    ensures tells { ReadsAs plain_question result (entries_in (view value.now)) }
    ensures orderly { IfOk result (λ question. IsTrue (asks_orderly (plain_question question))) }
    ensures named { IfOk result (λ question. AsksNamed (plain_question question)) }
{
    let longest = LONGEST_HISTORY as u32;
    let from = u32_at(alloc, value, "from", 0, longest)?;
    let most = u32_if(alloc, value, "most", 0, longest)?;
    nothing_but(alloc, value, "ask from most")?;
    Ok(Question::Entries { from, most })
}

fn read_kind(alloc: Global, value: Value, kind: AskKind) -> Result<Question, JsonRefusal>
    ensures tells { ReadsAs plain_question result (question_by (view value) kind) }
    ensures orderly { IfOk result (λ question. IsTrue (asks_orderly (plain_question question))) }
    ensures named { IfOk result (λ question. AsksNamed (plain_question question)) }
{
    match kind {
        AskKind::Would => read_would(alloc, value),
        AskKind::Plant => read_plant(alloc, &value),
        AskKind::Bindings => read_bindings(alloc, &value),
        AskKind::Entries => read_entries(alloc, &value),
    }
}

#[tactic(auto, unfolding(crate::specs::Questions::question_in))]
fn read_value(alloc: Global, value: Value) -> Result<Question, JsonRefusal>
    ensures tells { ReadsAs plain_question result (question_in (view value)) }
    ensures orderly { IfOk result (λ question. IsTrue (asks_orderly (plain_question question))) }
    ensures named { IfOk result (λ question. AsksNamed (plain_question question)) }
{
    object_here(alloc, &value)?;
    let kind = word_at::<AskWords>(alloc, &value, "ask")?;
    read_kind(alloc, value, kind)
}

fn read_line(alloc: Global, line: &[u8]) -> Result<Question, JsonRefusal>
    ensures tells { ReadsAs plain_question result (question_read_of line.now) }
    ensures orderly { IfOk result (λ question. IsTrue (asks_orderly (plain_question question))) }
    ensures named { IfOk result (λ question. AsksNamed (plain_question question)) }
{
    let value = parse(alloc, line)?;
    read_value(alloc, value)
}

/// What a line asks; else the line's first fault in reading order, with its path: `ask` is read first, and then the
/// fields of its kind. A fault of the event in a question what it would be answered is no fault of the line: it is part
/// of the question, with the path in the event. It never answers `TooLong`.
#[tactic(auto, unfolding(crate::specs::Questions::question_of))]
pub fn read_question(alloc: Global, line: &[u8]) -> Result<Question, LineRefusal>
    ensures tells { TellsQuestion result (question_of line.now) }
    ensures orderly { IfOk result (λ question. IsTrue (asks_orderly (plain_question question))) }
    ensures named { IfOk result (λ question. AsksNamed (plain_question question)) }
{
    match read_line(alloc, line) {
        Ok(question) => Ok(question),
        Err(JsonRefusal::Fault(fault)) => Err(LineRefusal::Fault(LineFault::Json(fault))),
        Err(JsonRefusal::Memory) => Err(LineRefusal::Memory),
    }
}
