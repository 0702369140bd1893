//! The lines of events that name a module.
ghost use Rattle.std.specs.Prelude.{◌≡◌, codes};
ghost use Rattle.serde_json.specs.View.{view};
ghost use Rattle.mtp_json.specs.Form.{nested};
ghost use Rattle.mtp_json.specs.ReadsAs.{ReadsAs};
ghost use Rattle.mtp_desc.specs.PlainDescription.{plain_description};
ghost use Rattle.desc_json.specs.Form.{description_of};
ghost use Rattle.pol_events.specs.Events.{plain_event};
ghost use Rattle.event_json.specs.Forms.{desk_in, exchange_cancel_in, exchange_end_in, plug_in, report_in, tag_in};
ghost use Rattle.event_json.specs.Forms.{variable_in};
ghost use Rattle.event_json.specs.Kinds.{tag_event};

use crate::control::read_control;
use crate::kind::TagKind;
use desc_json::DescriptionJson;
use mtp_codes::Name;
use mtp_desc::Description;
use mtp_json::{JsonRefusal, command_at, form_at, name_at, nothing_but, scalar_at, u32_at, u64_at};
use pol_events::Event;
use serde_json::Value;
use std::alloc::Global;
use std::sync::Arc;

fn description_at(alloc: Global, object: &Value) -> Result<Arc<Description>, JsonRefusal>
    ensures { ReadsAs (λ shared. plain_description shared.value) result
        (nested (codes "desc") description_of (view object.now)) }
{
    let description = form_at::<DescriptionJson>(alloc, object, "desc")?;
    Ok(Arc::new(alloc, description)?)
}

/// A plug by its form.
#[tactic(auto, unfolding(crate::specs::Forms::plug_in))]
pub fn read_plug(alloc: Global, value: &Value) -> Result<Event, JsonRefusal>
    ensures { ReadsAs plain_event result (plug_in (view value.now)) }
{
    let at = u64_at(alloc, value, "at")?;
    let tag = name_at(alloc, value, "tag")?;
    let desc = description_at(alloc, value)?;
    nothing_but(alloc, value, "ev at tag desc")?;
    Ok(Event::Plug { at, tag, desc })
}

fn of_tag(kind: TagKind, at: u64, tag: Name) -> Event
    ensures { plain_event result ≡ tag_event kind at tag }
{
    match kind {
        TagKind::Unplug => Event::Unplug { at, tag },
        TagKind::ExchangeBegin => Event::ExchangeBegin { at, tag },
    }
}

/// An event that names a tag and nothing more, by its form.
#[tactic(auto, unfolding(crate::specs::Forms::tag_in))]
pub fn read_of_tag(alloc: Global, value: &Value, kind: TagKind) -> Result<Event, JsonRefusal>
    ensures { ReadsAs plain_event result (tag_in (tag_event kind) (view value.now)) }
{
    let at = u64_at(alloc, value, "at")?;
    let tag = name_at(alloc, value, "tag")?;
    nothing_but(alloc, value, "ev at tag")?;
    Ok(of_tag(kind, at, tag))
}

/// A report by its form.
#[tactic(auto, unfolding(crate::specs::Forms::report_in))]
pub fn read_report(alloc: Global, value: &Value) -> Result<Event, JsonRefusal>
    ensures { ReadsAs plain_event result (report_in (view value.now)) }
{
    let at = u64_at(alloc, value, "at")?;
    let tag = name_at(alloc, value, "tag")?;
    let service = name_at(alloc, value, "service")?;
    let control = read_control(alloc, value)?;
    nothing_but(
        alloc,
        value,
        "ev at tag service StateCur CommandEn Mode Src ProcedureCur",
    )?;
    Ok(Event::Report {
        at,
        tag,
        service,
        control,
    })
}

/// A variable's value by its form.
#[tactic(auto, unfolding(crate::specs::Forms::variable_in))]
pub fn read_variable(alloc: Global, value: &Value) -> Result<Event, JsonRefusal>
    ensures { ReadsAs plain_event result (variable_in (view value.now)) }
{
    let at = u64_at(alloc, value, "at")?;
    let tag = name_at(alloc, value, "tag")?;
    let name = name_at(alloc, value, "name")?;
    let found = scalar_at(alloc, value, "value")?;
    nothing_but(alloc, value, "ev at tag name value")?;
    Ok(Event::Variable {
        at,
        tag,
        name,
        value: found,
    })
}

/// An operator's command by its form.
#[tactic(auto, unfolding(crate::specs::Forms::desk_in))]
pub fn read_desk(alloc: Global, value: &Value) -> Result<Event, JsonRefusal>
    ensures { ReadsAs plain_event result (desk_in (view value.now)) }
{
    let at = u64_at(alloc, value, "at")?;
    let tag = name_at(alloc, value, "tag")?;
    let service = name_at(alloc, value, "service")?;
    let command = command_at(alloc, value, "CommandOp")?;
    nothing_but(alloc, value, "ev at tag service CommandOp")?;
    Ok(Event::Desk {
        at,
        tag,
        service,
        command,
    })
}

/// The end of an exchange by its form.
#[tactic(auto, unfolding(crate::specs::Forms::exchange_end_in))]
pub fn read_exchange_end(alloc: Global, value: &Value) -> Result<Event, JsonRefusal>
    ensures { ReadsAs plain_event result (exchange_end_in (view value.now)) }
{
    let at = u64_at(alloc, value, "at")?;
    let tag = name_at(alloc, value, "tag")?;
    let ticket = u32_at(alloc, value, "ticket", 0, u32::MAX)?;
    let desc = description_at(alloc, value)?;
    nothing_but(alloc, value, "ev at tag ticket desc")?;
    Ok(Event::ExchangeEnd {
        at,
        tag,
        ticket,
        desc,
    })
}

/// The cancelling of an exchange by its form.
#[tactic(auto, unfolding(crate::specs::Forms::exchange_cancel_in))]
pub fn read_exchange_cancel(alloc: Global, value: &Value) -> Result<Event, JsonRefusal>
    ensures { ReadsAs plain_event result (exchange_cancel_in (view value.now)) }
{
    let at = u64_at(alloc, value, "at")?;
    let tag = name_at(alloc, value, "tag")?;
    let ticket = u32_at(alloc, value, "ticket", 0, u32::MAX)?;
    nothing_but(alloc, value, "ev at tag ticket")?;
    Ok(Event::ExchangeCancel { at, tag, ticket })
}
