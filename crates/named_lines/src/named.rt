//! Reading the lines in which any event may name who gives it.
ghost use Rattle.std.specs.Prelude.{◌≡◌, true, IfOk, IsTrue, is_some};
ghost use Rattle.serde_json.specs.View.{view};
ghost use Rattle.mtp_json.specs.ReadResult.{ReadResult};
ghost use Rattle.pol_events.specs.Events.{PlainEvent, plain_event};
ghost use Rattle.pol_events.specs.Orderly.{is_orderly};
ghost use Rattle.event_json.specs.Guarded.{is_desk};
ghost use Rattle.event_json.specs.Lines.{Tells, of_line};
ghost use Rattle.named_lines.specs.Named.{TellsNamed, given_by, named_in, named_of, of_named};

use crate::person::{read_person, without_person};
use event_json::{LineFault, LineRefusal, event_from};
use mtp_codes::Name;
use mtp_json::{JsonRefusal, parse};
use pol_events::Event;
use serde_json::Value;
use std::alloc::Global;

/// An event as a line says it that may name who gives it.
#[derive(Drop)]
pub struct Named {
    /// What happens.
    pub event: Event,
    /// Who gives it, where the line names someone: there for each command of the desk.
    pub by: Option<Name>,
}

fn with_person(read: Result<Event, LineRefusal>, by: Option<Name>) -> Result<Named, LineRefusal>
    ensures { (said : ReadResult PlainEvent) → Tells read (of_line said)
        → TellsNamed result (of_named (given_by by said)) }
{
    match read {
        Ok(event) => Ok(Named { event, by }),
        Err(refusal) => Err(refusal),
    }
}

#[tactic(auto, unfolding(crate::specs::Named::named_in))]
fn told_from(alloc: Global, value: Value) -> Result<Named, LineRefusal>
    ensures { TellsNamed result (of_named (named_in (view value))) }
{
    match read_person(alloc, &value) {
        Ok(person) => with_person(event_from(alloc, &without_person(value)), person),
        Err(JsonRefusal::Fault(fault)) => Err(LineRefusal::Fault(LineFault::Json(fault))),
        Err(JsonRefusal::Memory) => Err(LineRefusal::Memory),
    }
}

/// The event that the JSON value of a line says and who gives it; else its first fault, each as `read_named` answers it
/// of the line.
pub fn named_from(alloc: Global, value: Value) -> Result<Named, LineRefusal>
    ensures tells { TellsNamed result (of_named (named_in (view value))) }
    ensures orderly { IfOk result (λ named. IsTrue (is_orderly (plain_event named.event))) }
    ensures named { IfOk result (λ named. is_desk (plain_event named.event) ≡ true → is_some named.by ≡ true) }
{
    told_from(alloc, value)
}

/// The event that a line says and who gives it, whom `by` names behind `at`; else the line's first fault in reading
/// order, with its path: Missing at `by` for a command of the desk without it, WrongKind or OutOfRange at `by` for what
/// is no name, and every other fault as `read_event` answers it of the line without `by`. It never answers `TooLong`.
#[tactic(auto, unfolding(crate::specs::Named::named_of))]
pub fn read_named(alloc: Global, line: &[u8]) -> Result<Named, LineRefusal>
    ensures tells { TellsNamed result (named_of line.now) }
    ensures orderly { IfOk result (λ named. IsTrue (is_orderly (plain_event named.event))) }
    ensures named { IfOk result (λ named. is_desk (plain_event named.event) ≡ true → is_some named.by ≡ true) }
{
    match parse(alloc, line) {
        Ok(value) => named_from(alloc, value),
        Err(JsonRefusal::Fault(fault)) => Err(LineRefusal::Fault(LineFault::Json(fault))),
        Err(JsonRefusal::Memory) => Err(LineRefusal::Memory),
    }
}
