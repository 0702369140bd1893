//! The events that flat lines say.
ghost use Rattle.std.specs.Prelude.{◌≡◌, ℕ, List, Ok, IfSome, IsTrue};
ghost use Rattle.pol_events.specs.Events.{PlainEvent, plain_event};
ghost use Rattle.pol_events.specs.Orderly.{is_orderly};
ghost use Rattle.event_json.specs.Forms.{batch_in, control_in, desk_in, event_in, exchange_cancel_in, report_in};
ghost use Rattle.event_json.specs.Forms.{tag_in, variable_in};
ghost use Rattle.pol_lines.specs.Flat.{flat_data};

use crate::fields::{
    command_at, count_at, kind_at, leaf_at, mode_at, name_at, origin_at, state_at, text_value,
};
use crate::flat::Member;
use crate::key::Key;
use crate::kinds::only;
use crate::leaf::Leaf;
use event_json::EventKind;
use mtp_assembly::ServiceControl;
use mtp_codes::{Name, Value};
use pol_events::Event;

/// A variable's value by its form.
#[tactic(auto, using(crate::proofs::Lookups::only_listed), unfolding(event_json::specs::Forms::variable_in))]
fn read_variable(members: &[Member]) -> Option<Event>
    ensures says { IfSome result (λ event. variable_in (flat_data members.now) ≡ Ok (plain_event event)) }
    ensures orderly { IfSome result (λ event. IsTrue (is_orderly (plain_event event))) }
{
    if !only(EventKind::Variable, members) {
        return None;
    }
    let at = count_at(members, Key::At, 0, u64::MAX)?;
    let tag = name_at(members, Key::Tag)?;
    let name = name_at(members, Key::Name)?;
    // Each form of a value goes into its event at once: so no room for the longest text is moved for a number.
    match leaf_at(members, Key::Value)? {
        Leaf::Text(bytes) => Some(Event::Variable {
            at,
            tag,
            name,
            value: text_value(bytes)?,
        }),
        Leaf::Whole(number) => Some(Event::Variable {
            at,
            tag,
            name,
            value: Value::Whole(number),
        }),
        Leaf::Bit(bit) => Some(Event::Variable {
            at,
            tag,
            name,
            value: Value::Bit(bit),
        }),
    }
}

/// The five fields of what a service reports, by their form.
#[tactic(auto, unfolding(event_json::specs::Forms::control_in))]
fn read_control(members: &[Member]) -> Option<ServiceControl>
    ensures { IfSome result (λ control. control_in (flat_data members.now) ≡ Ok control) }
{
    let state = state_at(members, Key::StateCur)?;
    let mask = count_at(members, Key::CommandEn, 0, u32::MAX as u64)?;
    let mode = mode_at(members, Key::Mode)?;
    let origin = origin_at(members, Key::Src)?;
    let procedure = count_at(members, Key::ProcedureCur, 0, u16::MAX as u64)?;
    Some(ServiceControl {
        state,
        mask: mask as u32,
        mode,
        origin,
        procedure: procedure as u16,
    })
}

/// A report by its form.
#[tactic(auto, using(crate::proofs::Lookups::only_listed), unfolding(event_json::specs::Forms::report_in))]
fn read_report(members: &[Member]) -> Option<Event>
    ensures says { IfSome result (λ event. report_in (flat_data members.now) ≡ Ok (plain_event event)) }
    ensures orderly { IfSome result (λ event. IsTrue (is_orderly (plain_event event))) }
{
    if !only(EventKind::Report, members) {
        return None;
    }
    let at = count_at(members, Key::At, 0, u64::MAX)?;
    let tag = name_at(members, Key::Tag)?;
    let service = name_at(members, Key::Service)?;
    let control = read_control(members)?;
    Some(Event::Report {
        at,
        tag,
        service,
        control,
    })
}

/// An operator's command by its form.
#[tactic(auto, using(crate::proofs::Lookups::only_listed), unfolding(event_json::specs::Forms::desk_in))]
fn read_desk(members: &[Member]) -> Option<Event>
    ensures says { IfSome result (λ event. desk_in (flat_data members.now) ≡ Ok (plain_event event)) }
    ensures orderly { IfSome result (λ event. IsTrue (is_orderly (plain_event event))) }
{
    if !only(EventKind::Desk, members) {
        return None;
    }
    let at = count_at(members, Key::At, 0, u64::MAX)?;
    let tag = name_at(members, Key::Tag)?;
    let service = name_at(members, Key::Service)?;
    let command = command_at(members, Key::CommandOp)?;
    Some(Event::Desk {
        at,
        tag,
        service,
        command,
    })
}

/// The cancelling of an exchange by its form.
#[tactic(auto, using(crate::proofs::Lookups::only_listed), unfolding(event_json::specs::Forms::exchange_cancel_in))]
fn read_cancel(members: &[Member]) -> Option<Event>
    ensures says { IfSome result (λ event. exchange_cancel_in (flat_data members.now) ≡ Ok (plain_event event)) }
    ensures orderly { IfSome result (λ event. IsTrue (is_orderly (plain_event event))) }
{
    if !only(EventKind::ExchangeCancel, members) {
        return None;
    }
    let at = count_at(members, Key::At, 0, u64::MAX)?;
    let tag = name_at(members, Key::Tag)?;
    let ticket = count_at(members, Key::Ticket, 0, u32::MAX as u64)?;
    Some(Event::ExchangeCancel {
        at,
        tag,
        ticket: ticket as u32,
    })
}

/// The stamp and the tag of an event that names nothing more.
#[tactic(auto, using(crate::proofs::Lookups::only_listed), unfolding(event_json::specs::Forms::tag_in))]
fn read_of_tag(members: &[Member]) -> Option<(u64, Name)>
    ensures { IfSome result (λ read. (event : ℕ → List ℕ → PlainEvent) → tag_in event (flat_data members.now)
        ≡ Ok (event read.0 read.1)) }
{
    // Each such event has the keys of an unplug.
    if !only(EventKind::Unplug, members) {
        return None;
    }
    let at = count_at(members, Key::At, 0, u64::MAX)?;
    let tag = name_at(members, Key::Tag)?;
    Some((at, tag))
}

/// The stamp and the batch of an event that names nothing more.
#[tactic(auto, using(crate::proofs::Lookups::only_listed), unfolding(event_json::specs::Forms::batch_in))]
fn read_of_batch(members: &[Member]) -> Option<(u64, Name)>
    ensures { IfSome result (λ read. (event : ℕ → List ℕ → PlainEvent) → batch_in event (flat_data members.now)
        ≡ Ok (event read.0 read.1)) }
{
    // Each such event has the keys of an advance.
    if !only(EventKind::Advance, members) {
        return None;
    }
    let at = count_at(members, Key::At, 0, u64::MAX)?;
    let batch = name_at(members, Key::Batch)?;
    Some((at, batch))
}

/// The event that the members of a flat line say; None for some lines that say one, and for each that says none.
#[tactic(auto, unfolding(event_json::specs::Forms::event_in))]
pub fn read_members(members: &[Member]) -> Option<Event>
    ensures says { IfSome result (λ event. event_in (flat_data members.now) ≡ Ok (plain_event event)) }
    ensures orderly { IfSome result (λ event. IsTrue (is_orderly (plain_event event))) }
{
    match kind_at(members, Key::Ev)? {
        EventKind::Variable => read_variable(members),
        EventKind::Report => read_report(members),
        EventKind::Desk => read_desk(members),
        EventKind::ExchangeCancel => read_cancel(members),
        EventKind::Unplug => {
            let (at, tag) = read_of_tag(members)?;
            Some(Event::Unplug { at, tag })
        }
        EventKind::ExchangeBegin => {
            let (at, tag) = read_of_tag(members)?;
            Some(Event::ExchangeBegin { at, tag })
        }
        EventKind::Advance => {
            let (at, batch) = read_of_batch(members)?;
            Some(Event::Advance { at, batch })
        }
        EventKind::Thaw => {
            let (at, batch) = read_of_batch(members)?;
            Some(Event::Thaw { at, batch })
        }
        EventKind::Stop => {
            let (at, batch) = read_of_batch(members)?;
            Some(Event::StopBatch { at, batch })
        }
        EventKind::Abandon => {
            let (at, batch) = read_of_batch(members)?;
            Some(Event::Abandon { at, batch })
        }
        _ => None,
    }
}
