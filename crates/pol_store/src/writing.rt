//! The text of an event. The kinds that are frequent are written token by token, the others by way of a tree.
ghost use Rattle.std.specs.Prelude.{◌≡◌, ◌&&◌, ◌∷◌, ◌++◌, [], codes, decimal, IfOk, IsTrue, Ok, OnOk, true};
ghost use Rattle.json.specs.Token as token;
ghost use Rattle.mtp_json.specs.Written.{scalar_data};
ghost use Rattle.pol_events.specs.Events.{advance, desk, plain_event, report, variable};
ghost use Rattle.pol_events.specs.Orderly.{is_orderly};
ghost use Rattle.event_json.specs.Ranges.{is_in_range};
ghost use Rattle.event_json.specs.Written.{written_batch, written_desk, written_event, written_report, written_variable};
ghost use Rattle.pol_record.specs.Objects.{data_tokens};
ghost use Rattle.pol_record.specs.Texts.{event_text};
ghost use Rattle.pol_store.specs.Written.{IsReadBack, IsTold, Wrote, control_tokens};

use event_json::{mode_word, origin_word};
use json::Writer;
use mtp_assembly::ServiceControl;
use mtp_codes::{Command, Name, Value};
use pol_events::Event;
use pol_record::{event_text, write_scalar, write_text};
use std::alloc::{AllocError, Global};
use std::mem;

// A key with a whole number.
fn write_number(writer: &mut Writer, key: &str, number: u64) -> Result<(), AllocError>
    ensures tokens { OnOk result (writer.new.tokens
        ≡ writer.old.tokens ++ token.key key.now ∷ token.number (decimal number) ∷ []) }
    ensures before { writer.new.before ≡ writer.old.before }
{
    writer.key(key)?;
    writer.u64(number)
}

// The five fields of what a service reports.
fn write_control(writer: &mut Writer, control: ServiceControl) -> Result<(), AllocError>
    ensures tokens { OnOk result (writer.new.tokens ≡ writer.old.tokens ++ control_tokens control) }
    ensures before { writer.new.before ≡ writer.old.before }
{
    write_number(writer, "CommandEn", control.mask as u64)?;
    write_text(writer, "Mode", mode_word(control.mode))?;
    write_number(writer, "ProcedureCur", control.procedure as u64)?;
    write_text(writer, "Src", origin_word(control.origin))?;
    write_number(writer, "StateCur", control.state.code() as u64)
}

fn write_report(
    writer: &mut Writer,
    at: u64,
    tag: &Name,
    service: &Name,
    control: ServiceControl,
) -> Result<(), AllocError>
    ensures tokens { OnOk result (writer.new.tokens
        ≡ writer.old.tokens ++ data_tokens (written_report at tag.now service.now control)) }
    ensures before { writer.new.before ≡ writer.old.before }
    ensures held { is_in_range (report at tag.now service.now control) ≡ true }
{
    let tag = tag.as_str();
    let service = service.as_str();
    writer.begin_object()?;
    write_control(writer, control)?;
    write_number(writer, "at", at)?;
    write_text(writer, "ev", "report")?;
    write_text(writer, "service", service)?;
    write_text(writer, "tag", tag)?;
    writer.end_object()
}

fn write_variable(
    writer: &mut Writer,
    at: u64,
    tag: &Name,
    name: &Name,
    value: &Value,
) -> Result<(), AllocError>
    ensures tokens { OnOk result (writer.new.tokens
        ≡ writer.old.tokens ++ data_tokens (written_variable at tag.now name.now (scalar_data value.now))) }
    ensures before { writer.new.before ≡ writer.old.before }
    ensures held { OnOk result (is_in_range (variable at tag.now name.now value.now) ≡ true) }
{
    let tag = tag.as_str();
    let name = name.as_str();
    writer.begin_object()?;
    write_number(writer, "at", at)?;
    write_text(writer, "ev", "variable")?;
    write_text(writer, "name", name)?;
    write_text(writer, "tag", tag)?;
    writer.key("value")?;
    write_scalar(writer, value)?;
    writer.end_object()
}

#[tactic(auto, using(crate::proofs::Tokens::advance_written))]
fn write_advance(writer: &mut Writer, at: u64, batch: &Name) -> Result<(), AllocError>
    ensures tokens { OnOk result (writer.new.tokens
        ≡ writer.old.tokens ++ data_tokens (written_batch (codes "advance") at batch.now)) }
    ensures before { writer.new.before ≡ writer.old.before }
    ensures held { is_in_range (advance at batch.now) ≡ true }
{
    let batch = batch.as_str();
    writer.begin_object()?;
    write_number(writer, "at", at)?;
    write_text(writer, "batch", batch)?;
    write_text(writer, "ev", "advance")?;
    writer.end_object()
}

fn write_desk(
    writer: &mut Writer,
    at: u64,
    tag: &Name,
    service: &Name,
    command: Command,
) -> Result<(), AllocError>
    ensures tokens { OnOk result (writer.new.tokens
        ≡ writer.old.tokens ++ data_tokens (written_desk at tag.now service.now command)) }
    ensures before { writer.new.before ≡ writer.old.before }
    ensures held { is_in_range (desk at tag.now service.now command) ≡ true }
{
    let tag = tag.as_str();
    let service = service.as_str();
    writer.begin_object()?;
    write_number(writer, "CommandOp", command.code() as u64)?;
    write_number(writer, "at", at)?;
    write_text(writer, "ev", "desk")?;
    write_text(writer, "service", service)?;
    write_text(writer, "tag", tag)?;
    writer.end_object()
}

// Writes an event of a frequent kind; false for each other kind, of which nothing is written.
#[tactic(auto, using(crate::proofs::Tokens::report_told, crate::proofs::Tokens::variable_told, crate::proofs::Tokens::advance_told, crate::proofs::Tokens::desk_told))]
fn write_frequent(writer: &mut Writer, event: &Event) -> Result<bool, AllocError>
    ensures tokens { IfOk result (Wrote writer.old.tokens writer.new.tokens (written_event (plain_event event.now))) }
    ensures before { writer.new.before ≡ writer.old.before }
    ensures told { IfOk result (λ written. IsTrue written → IsTold (plain_event event.now)) }
{
    match event {
        Event::Report {
            at,
            tag,
            service,
            control,
        } => {
            write_report(writer, *at, tag, service, *control)?;
            Ok(true)
        }
        Event::Variable {
            at,
            tag,
            name,
            value,
        } => {
            write_variable(writer, *at, tag, name, value)?;
            Ok(true)
        }
        Event::Advance { at, batch } => {
            write_advance(writer, *at, batch)?;
            Ok(true)
        }
        Event::Desk {
            at,
            tag,
            service,
            command,
        } => {
            write_desk(writer, *at, tag, service, *command)?;
            Ok(true)
        }
        _ => Ok(false),
    }
}

/// Puts the text of an event behind what a buffer holds. Where there is no memory, what the buffer held is lost.
#[tactic(auto, using(crate::proofs::Tokens::text_behind, crate::proofs::Tokens::tree_behind, crate::proofs::Tokens::told_again))]
pub fn put_event_text(alloc: Global, out: &mut Vec<u8>, event: &Event) -> Result<(), AllocError>
    requires { IsTrue (is_orderly (plain_event event.now)) }
    ensures text { OnOk result (out.new.items ≡ out.old.items ++ event_text (plain_event event.now)) }
    ensures reads_back { OnOk result (IsReadBack (plain_event event.now)) }
{
    let mut writer = Writer::new(mem::replace(out, Vec::new(alloc)));
    let written = write_frequent(&mut writer, event)?;
    *out = writer.into_inner();
    if !written {
        out.extend_from_slice(&event_text(alloc, event)?)?;
    }
    Ok(())
}
