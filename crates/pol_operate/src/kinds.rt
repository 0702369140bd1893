//! The kinds of lines.
ghost use Rattle.std.specs.Prelude.{◌≡◌};
ghost use Rattle.pol_events.specs.Events.{plain_event};
ghost use Rattle.pol_operate.specs.Lines.{kind_of};

use event_json::EventKind;
use pol_events::Event;

/// The kind of line that says an event.
pub fn kind_of(event: &Event) -> EventKind
    ensures { result ≡ kind_of (plain_event event.now) }
{
    match event {
        Event::Plug { .. } => EventKind::Plug,
        Event::Unplug { .. } => EventKind::Unplug,
        Event::Report { .. } => EventKind::Report,
        Event::Variable { .. } => EventKind::Variable,
        Event::Recipe { .. } => EventKind::Recipe,
        Event::Start { .. } => EventKind::Start,
        Event::Advance { .. } => EventKind::Advance,
        Event::Freeze { .. } => EventKind::Freeze,
        Event::Thaw { .. } => EventKind::Thaw,
        Event::StopBatch { .. } => EventKind::Stop,
        Event::Abandon { .. } => EventKind::Abandon,
        Event::Desk { .. } => EventKind::Desk,
        Event::ExchangeBegin { .. } => EventKind::ExchangeBegin,
        Event::ExchangeEnd { .. } => EventKind::ExchangeEnd,
        Event::ExchangeCancel { .. } => EventKind::ExchangeCancel,
    }
}
