//! The lines of a journal under a policy: a command of the desk names who gives it.
ghost use Rattle.std.specs.Prelude.{◌≡◌, IfOk, IsTrue, is_some};
ghost use Rattle.serde_json.specs.View.{view};
ghost use Rattle.mtp_json.specs.ReadsAs.{ReadsAs};
ghost use Rattle.pol_events.specs.Events.{plain_event};
ghost use Rattle.pol_events.specs.Orderly.{is_orderly};
ghost use Rattle.event_json.specs.Guarded.{TellsGuarded, guarded_by, guarded_desk_in, guarded_in, guarded_of};
ghost use Rattle.event_json.specs.Guarded.{guarded_read_of, is_desk, is_desk_kind, plain_guarded};

use crate::fault::{LineFault, LineRefusal};
use crate::kind::{EventKind, KindWords};
use crate::reading::{chart_fault, read_kind};
use mtp_codes::Name;
use mtp_json::{
    JsonRefusal, command_at, name_at, nothing_but, object_here, parse, u64_at, word_at,
};
use pol_events::Event;
use serde_json::Value;
use std::alloc::Global;

/// An event as a line says it under a policy.
#[derive(Drop)]
pub struct Guarded {
    /// What happens.
    pub event: Event,
    /// The operator who gives it: there exactly for a command of the desk.
    pub by: Option<Name>,
}

#[tactic(auto, unfolding(crate::specs::Guarded::guarded_desk_in))]
fn read_desk(alloc: Global, value: &Value) -> Result<Guarded, JsonRefusal>
    ensures { ReadsAs plain_guarded result (guarded_desk_in (view value.now)) }
{
    let at = u64_at(alloc, value, "at")?;
    let by = name_at(alloc, value, "by")?;
    let tag = name_at(alloc, value, "tag")?;
    let service = name_at(alloc, value, "service")?;
    let command = command_at(alloc, value, "CommandOp")?;
    nothing_but(alloc, value, "ev at by tag service CommandOp")?;
    let event = Event::Desk {
        at,
        tag,
        service,
        command,
    };
    Ok(Guarded {
        event,
        by: Some(by),
    })
}

fn is_desk(kind: EventKind) -> bool
    ensures { result ≡ is_desk_kind kind }
{
    matches!(kind, EventKind::Desk)
}

fn read_of_kind(alloc: Global, value: &Value, kind: EventKind) -> Result<Guarded, JsonRefusal>
    ensures { ReadsAs plain_guarded result (guarded_by (view value.now) kind) }
{
    if is_desk(kind) {
        return read_desk(alloc, value);
    }
    match read_kind(alloc, value, kind) {
        Ok(event) => Ok(Guarded { event, by: None }),
        Err(refusal) => Err(refusal),
    }
}

#[tactic(auto, unfolding(crate::specs::Guarded::guarded_in))]
fn read_value(alloc: Global, value: &Value) -> Result<Guarded, JsonRefusal>
    ensures { ReadsAs plain_guarded result (guarded_in (view value.now)) }
{
    object_here(alloc, value)?;
    let kind = word_at::<KindWords>(alloc, value, "ev")?;
    read_of_kind(alloc, value, kind)
}

fn read_line(alloc: Global, line: &[u8]) -> Result<Guarded, JsonRefusal>
    ensures { ReadsAs plain_guarded result (guarded_read_of line.now) }
{
    let value = parse(alloc, line)?;
    read_value(alloc, &value)
}

#[tactic(auto, unfolding(crate::specs::Guarded::guarded_of))]
fn read_valid(alloc: Global, line: &[u8]) -> Result<Guarded, LineRefusal>
    ensures { TellsGuarded result (guarded_of line.now) }
{
    match read_line(alloc, line) {
        Ok(guarded) => match chart_fault(&guarded.event) {
            None => Ok(guarded),
            Some(fault) => Err(LineRefusal::Fault(LineFault::Chart(fault))),
        },
        Err(JsonRefusal::Fault(fault)) => Err(LineRefusal::Fault(LineFault::Json(fault))),
        Err(JsonRefusal::Memory) => Err(LineRefusal::Memory),
    }
}

/// The event that a line of a journal says under a policy, and for a command of the desk the operator who gives it,
/// whom `by` names behind `at`; else what `read_event` answers of such a line. It never answers `TooLong`.
pub fn read_guarded(alloc: Global, line: &[u8]) -> Result<Guarded, LineRefusal>
    ensures tells { TellsGuarded result (guarded_of line.now) }
    ensures orderly { IfOk result (λ guarded. IsTrue (is_orderly (plain_event guarded.event))) }
    ensures named { IfOk result (λ guarded. is_some guarded.by ≡ is_desk (plain_event guarded.event)) }
{
    read_valid(alloc, line)
}
