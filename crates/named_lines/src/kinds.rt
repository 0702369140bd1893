//! Which lines must name who gives them.
ghost use Rattle.std.specs.Prelude.{◌≡◌};
ghost use Rattle.event_json.specs.Guarded.{is_desk_kind};

use event_json::EventKind;

/// Whether a kind of event is that of a command of the desk.
pub fn is_desk(kind: EventKind) -> bool
    ensures { result ≡ is_desk_kind kind }
{
    matches!(kind, EventKind::Desk)
}
