//! The line of an event.
ghost use Rattle.std.specs.Prelude.{◌≡◌, IfOk, IsTrue, Ok};
ghost use Rattle.pol_events.specs.Events.{plain_event};
ghost use Rattle.event_json.specs.Lines.{event_of};
ghost use Rattle.pol_events.specs.Orderly.{is_orderly};

use event_json::event_value;
use pol_events::Event;
use std::alloc::{AllocError, Global};

/// The line of an event: its text says the event again.
pub fn line_of(alloc: Global, event: &Event) -> Result<Vec<u8>, AllocError>
    requires { IsTrue (is_orderly (plain_event event.now)) }
    ensures { IfOk result (λ line. event_of line.items ≡ Ok (plain_event event.now)) }
{
    let value = event_value(alloc, event)?;
    value.to_vec(alloc)
}
