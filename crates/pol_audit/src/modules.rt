//! Looking back at a module.
ghost use Rattle.std.specs.Prelude.{◌≡◌, ◌≤◌, IfOk, OnOk, length};
ghost use Rattle.std.specs.Option.{option_map};
ghost use Rattle.mtp_codes.specs.declared.limits.TheConstants.{LONGEST_HISTORY};
ghost use Rattle.mtp_desc.specs.PlainDescription.{plain_description};
ghost use Rattle.pol_events.specs.Events.{plain_entry, plain_event, plain_history};
ghost use Rattle.pol_history.specs.Looking.{past, last_of, is_accepted};
ghost use Rattle.pol_history.specs.Modules.{is_plug, is_begin, is_moving, begins_by, docking_by, described};
ghost use Rattle.pol_history.specs.Modules.{description_by, completes_by, view_by, next_ticket, tags_without};
ghost use Rattle.pol_history.specs.Modules.{present_after};
ghost use Rattle.pol_audit.specs.Dockings.{docking_left, docking_seen};

use crate::past::Past;
use mtp_codes::Name;
use mtp_desc::Description;
use mtp_modes::ServiceView;
use pol_events::{Answer, Entry, Event};
use std::alloc::{AllocError, Global};

/// Whether a tag is there: docked, or away with the ticket of its exchange.
#[derive(Clone, Copy, Debug, PartialEq, Eq)]
pub enum Docking {
    Absent,
    Docked,
    Away { ticket: u32 },
}

// The docking that an accepted event leaves, if it changes it.
fn docking_left(entry: &Entry) -> Option<Docking>
    ensures { result ≡ docking_left (plain_entry entry.now) }
{
    match (&entry.event, &entry.answer) {
        (Event::Plug { .. } | Event::ExchangeEnd { .. } | Event::ExchangeCancel { .. }, _) => {
            Some(Docking::Docked)
        }
        (Event::Unplug { .. }, _) => Some(Docking::Absent),
        (Event::ExchangeBegin { .. }, Answer::Ticket(ticket)) => {
            Some(Docking::Away { ticket: *ticket })
        }
        (Event::ExchangeBegin { .. }, _) => Some(Docking::Away { ticket: 0 }),
        _ => None,
    }
}

// The docking that the module's last plug, unplug or exchange left.
fn last_docking(history: &Past<'_, '_>, tag: Name) -> Option<Docking>
    ensures { result ≡ last_of docking_left (past tag (plain_history history.now)) }
{
    history
        .moves(tag)
        .iter()
        .rev()
        .find_map(|entry| docking_left(entry))
}

/// Whether the tag is there, by its last plug, unplug or exchange.
#[tactic(auto, using(crate::proofs::Docked::docking_is))]
pub fn docking_of(history: &Past<'_, '_>, tag: Name) -> Docking
    ensures { result ≡ docking_seen (docking_by (past tag (plain_history history.now))) }
{
    last_docking(history, tag).unwrap_or(Docking::Absent)
}

fn described(event: &Event) -> Option<&Description>
    ensures { option_map (λ description. plain_description description.now) result ≡ described (plain_event event.now) }
{
    match event {
        Event::Plug { desc, .. } => Some(desc),
        Event::ExchangeEnd { desc, .. } => Some(desc),
        _ => None,
    }
}

/// The description of the tag: that of its last plug, or of the last end of an exchange.
pub fn description_of<'a>(history: &'a Past<'_, '_>, tag: Name) -> Option<&'a Description>
    ensures { option_map (λ description. plain_description description.now) result
        ≡ description_by (past tag (plain_history history.now)) }
{
    history
        .moves(tag)
        .iter()
        .rev()
        .find_map(|entry| described(&entry.event))
}

/// Whether the event changes whether the module is docked.
pub fn is_moving(event: &Event) -> bool
    ensures { result ≡ is_moving (plain_event event.now) }
{
    matches!(
        event,
        Event::Plug { .. }
            | Event::Unplug { .. }
            | Event::ExchangeBegin { .. }
            | Event::ExchangeEnd { .. }
            | Event::ExchangeCancel { .. }
    )
}

// Whether the procedure completes by itself, by the module's description.
fn completes(description: Option<&Description>, service: Name, procedure: u16) -> bool
    ensures { result ≡ completes_by service procedure
        (option_map (λ description. plain_description description.now) description.entry) }
{
    match description {
        Some(description) => description.self_completes(service, procedure),
        None => false,
    }
}

/// What is seen of the service: what it reported last since its module was docked, and whether its procedure completes
/// by itself.
pub fn view_of(history: &Past<'_, '_>, tag: Name, service: Name) -> Option<ServiceView>
    ensures { result ≡ view_by service (past tag (plain_history history.now)) }
{
    let control = history.control(tag, service)?;
    let description = description_of(history, tag);
    Some(ServiceView {
        control,
        self_completes: completes(description, service, control.procedure),
    })
}

fn is_plug(event: &Event) -> bool
    ensures { result ≡ is_plug (plain_event event.now) }
{
    matches!(event, Event::Plug { .. })
}

fn is_begin(event: &Event) -> bool
    ensures { result ≡ is_begin (plain_event event.now) }
{
    matches!(event, Event::ExchangeBegin { .. })
}

// How many exchanges were begun since the module's last plug.
fn begin_count(history: &Past<'_, '_>, tag: Name) -> usize
    ensures counted { result ≡ begins_by (past tag (plain_history history.now)) }
    ensures few { result ≤ length history.now }
{
    history
        .moves(tag)
        .iter()
        .rev()
        .take_while(|entry| !is_plug(&entry.event))
        .filter(|entry| is_begin(&entry.event))
        .count()
}

/// The ticket of the tag's next exchange: one more than its exchanges since its last plug.
pub fn next_ticket(history: &Past<'_, '_>, tag: Name) -> u32
    requires { length history.now ≤ LONGEST_HISTORY }
    ensures { result ≡ next_ticket (past tag (plain_history history.now)) }
{
    1 + begin_count(history, tag) as u32
}

/// The tags without this one.
pub fn tags_without(alloc: Global, tag: Name, tags: &[Name]) -> Result<Vec<Name>, AllocError>
    ensures { IfOk result (λ others. others.items ≡ tags_without tag tags.now) }
{
    let mut others = Vec::new(alloc);
    for other in tags {
        if *other != tag {
            others.push(*other)?;
        }
    }
    Ok(others)
}

/// Changes the tags that are docked or away by one more entry: with the tag of a plug, without that of an unplug.
pub fn tags_after(alloc: Global, tags: &mut Vec<Name>, entry: &Entry) -> Result<(), AllocError>
    ensures { OnOk result (tags.new.items
        ≡ present_after (plain_event entry.now.event) (is_accepted entry.now.answer) tags.old.items) }
{
    match &entry.event {
        Event::Plug { tag, .. } if entry.answer.is_accepted() => {
            let mut others = tags_without(alloc, *tag, tags)?;
            others.insert(0, *tag)?;
            *tags = others;
            Ok(())
        }
        Event::Unplug { tag, .. } if entry.answer.is_accepted() => {
            *tags = tags_without(alloc, *tag, tags)?;
            Ok(())
        }
        _ => Ok(()),
    }
}
