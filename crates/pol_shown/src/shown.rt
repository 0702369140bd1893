//! What one event shows of one service.
ghost use Rattle.std.specs.Prelude.{◌≡◌};
ghost use Rattle.pol_events.specs.Events.{plain_event};
ghost use Rattle.pol_shown.specs.Followed.{name_after};
ghost use Rattle.pol_site.specs.Shown.{shown_by};

use mtp_codes::{Name, State};
use pol_events::Event;

/// What an event shows of the service of this name: the state of a report of it; where an exchange begins, that none is
/// reported.
pub(crate) fn shown_by(name: Option<Name>, event: &Event) -> Option<Option<State>>
    ensures { result ≡ shown_by name (plain_event event.now) }
{
    let name = name?;
    match event {
        Event::Report {
            service,
            control,
            ..
        } if name == *service => Some(Some(control.state)),
        Event::ExchangeBegin { .. } => Some(None),
        _ => None,
    }
}

/// The name of the service at a place, after an event of its module: a description that the event brings says it.
pub(crate) fn name_after(place: usize, event: &Event, name: Option<Name>) -> Option<Name>
    ensures { result ≡ name_after place (plain_event event.now) name }
{
    match event {
        Event::Plug { desc, .. } | Event::ExchangeEnd { desc, .. } => {
            desc.services.get(place).map(|service| service.name)
        },
        _ => name,
    }
}
