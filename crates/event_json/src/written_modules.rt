//! Writing the lines of events that name a module.
ghost use Rattle.std.specs.Prelude.{◌≡◌, ◌&&◌, IfOk, true};
ghost use Rattle.serde_json.specs.View.{view};
ghost use Rattle.mtp_codes.specs.Names.{is_name};
ghost use Rattle.mtp_codes.specs.Numbers.{greatest_u32, is_between};
ghost use Rattle.mtp_json.specs.Written.{scalar_data};
ghost use Rattle.mtp_desc.specs.PlainDescription.{plain_description};
ghost use Rattle.desc_json.specs.Written.{written_description};
ghost use Rattle.pol_events.specs.Events.{desk, exchange_cancel, exchange_end, plug, report, variable};
ghost use Rattle.event_json.specs.Ranges.{is_in_range, is_stamped};
ghost use Rattle.event_json.specs.Written.{written_desk, written_exchange_cancel, written_exchange_end, written_plug};
ghost use Rattle.event_json.specs.Written.{written_report, written_tag, written_variable};

use crate::words::{mode_word, origin_word};
use desc_json::write_description;
use mtp_assembly::ServiceControl;
use mtp_codes::{Command, Name};
use mtp_desc::Description;
use mtp_json::write_scalar;
use serde_json::{Value, json};
use std::alloc::{AllocError, Global};

#[tactic(auto, unfolding(crate::specs::Written::written_plug))]
fn plug_object(alloc: Global, at: u64, tag: Name, desc: Value) -> Result<Value, AllocError>
    ensures value { IfOk result (λ value. view value ≡ written_plug at tag (view desc)) }
    ensures held { is_stamped at tag ≡ true }
{
    let tag = tag.as_str();
    json!(in alloc; {"at": at, "desc": desc, "ev": "plug", "tag": tag})
}

/// A plug with every key of its form.
pub fn write_plug(
    alloc: Global,
    at: u64,
    tag: Name,
    desc: &Description,
) -> Result<Value, AllocError>
    ensures value { IfOk result
        (λ value. view value ≡ written_plug at tag (written_description (plain_description desc.now))) }
    ensures held { IfOk result (λ _. is_in_range (plug at tag (plain_description desc.now)) ≡ true) }
{
    let desc = write_description(alloc, desc)?;
    plug_object(alloc, at, tag, desc)
}

/// An event, by its word, that names a tag and nothing more.
#[tactic(auto, unfolding(crate::specs::Written::written_tag))]
pub fn write_of_tag(alloc: Global, word: &str, at: u64, tag: Name) -> Result<Value, AllocError>
    ensures value { IfOk result (λ value. view value ≡ written_tag word.now at tag) }
    ensures held { is_stamped at tag ≡ true }
{
    let tag = tag.as_str();
    json!(in alloc; {"at": at, "ev": word, "tag": tag})
}

/// A report with every key of its form.
#[tactic(auto, unfolding(crate::specs::Written::written_report))]
pub fn write_report(
    alloc: Global,
    at: u64,
    tag: Name,
    service: Name,
    control: ServiceControl,
) -> Result<Value, AllocError>
    ensures value { IfOk result (λ value. view value ≡ written_report at tag service control) }
    ensures held { is_in_range (report at tag service control) ≡ true }
{
    let tag = tag.as_str();
    let service = service.as_str();
    let mode = mode_word(control.mode);
    let source = origin_word(control.origin);
    let state = control.state.code();
    json!(in alloc; {
        "CommandEn": control.mask,
        "Mode": mode,
        "ProcedureCur": control.procedure,
        "Src": source,
        "StateCur": state,
        "at": at,
        "ev": "report",
        "service": service,
        "tag": tag
    })
}

#[tactic(auto, unfolding(crate::specs::Written::written_variable))]
fn variable_object(
    alloc: Global,
    at: u64,
    tag: Name,
    name: Name,
    value: Value,
) -> Result<Value, AllocError>
    ensures value { IfOk result (λ object. view object ≡ written_variable at tag name (view value)) }
    ensures held { is_stamped at tag && is_name name ≡ true }
{
    let tag = tag.as_str();
    let name = name.as_str();
    json!(in alloc; {"at": at, "ev": "variable", "name": name, "tag": tag, "value": value})
}

/// A variable's value with every key of its form.
pub fn write_variable(
    alloc: Global,
    at: u64,
    tag: Name,
    name: Name,
    value: &mtp_codes::Value,
) -> Result<Value, AllocError>
    ensures value { IfOk result (λ object. view object ≡ written_variable at tag name (scalar_data value.now)) }
    ensures held { IfOk result (λ _. is_in_range (variable at tag name value.now) ≡ true) }
{
    let value = write_scalar(alloc, value)?;
    variable_object(alloc, at, tag, name, value)
}

/// An operator's command with every key of its form.
#[tactic(auto, unfolding(crate::specs::Written::written_desk))]
pub fn write_desk(
    alloc: Global,
    at: u64,
    tag: Name,
    service: Name,
    command: Command,
) -> Result<Value, AllocError>
    ensures value { IfOk result (λ value. view value ≡ written_desk at tag service command) }
    ensures held { is_in_range (desk at tag service command) ≡ true }
{
    let tag = tag.as_str();
    let service = service.as_str();
    let code = command.code();
    json!(in alloc; {"CommandOp": code, "at": at, "ev": "desk", "service": service, "tag": tag})
}

#[tactic(auto, unfolding(crate::specs::Written::written_exchange_end))]
fn exchange_end_object(
    alloc: Global,
    at: u64,
    tag: Name,
    ticket: u32,
    desc: Value,
) -> Result<Value, AllocError>
    ensures value { IfOk result (λ value. view value ≡ written_exchange_end at tag ticket (view desc)) }
    ensures held { is_stamped at tag && is_between 0 greatest_u32 ticket ≡ true }
{
    let tag = tag.as_str();
    json!(in alloc; {"at": at, "desc": desc, "ev": "exchange_end", "tag": tag, "ticket": ticket})
}

/// The end of an exchange with every key of its form.
pub fn write_exchange_end(
    alloc: Global,
    at: u64,
    tag: Name,
    ticket: u32,
    desc: &Description,
) -> Result<Value, AllocError>
    ensures value { IfOk result
        (λ value. view value ≡ written_exchange_end at tag ticket (written_description (plain_description desc.now))) }
    ensures held { IfOk result (λ _. is_in_range (exchange_end at tag ticket (plain_description desc.now)) ≡ true) }
{
    let desc = write_description(alloc, desc)?;
    exchange_end_object(alloc, at, tag, ticket, desc)
}

/// The cancelling of an exchange with every key of its form.
#[tactic(auto, unfolding(crate::specs::Written::written_exchange_cancel))]
pub fn write_exchange_cancel(
    alloc: Global,
    at: u64,
    tag: Name,
    ticket: u32,
) -> Result<Value, AllocError>
    ensures value { IfOk result (λ value. view value ≡ written_exchange_cancel at tag ticket) }
    ensures held { is_in_range (exchange_cancel at tag ticket) ≡ true }
{
    let tag = tag.as_str();
    json!(in alloc; {"at": at, "ev": "exchange_cancel", "tag": tag, "ticket": ticket})
}
