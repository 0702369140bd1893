//! The lines of a journal of version 1, in which a freeze doesn't say whether it holds.
ghost use Rattle.std.specs.Prelude.{◌≡◌};
ghost use Rattle.pol_events.specs.Events.{plain_event};
ghost use Rattle.pol_lines.specs.Versions.{is_freeze};

use crate::faults::read_fault;
use crate::forms::LineForm;
use crate::reading::read_quick;
use event_json::{LineFault, LineRefusal, read_event_of_version_1};
use pol_events::Event;
use std::alloc::Global;

fn is_freeze(event: &Event) -> bool
    ensures { result ≡ is_freeze (plain_event event.now) }
{
    matches!(event, Event::Freeze { .. })
}

/// The lines of a journal of version 1: each says an event.
pub struct LinesOfVersion1;

impl LineForm for LinesOfVersion1 {
    type Said = Event;

    ghost use Rattle.pol_events.specs.Events.{PlainEvent, plain_event};
    ghost use Rattle.event_json.specs.Version1.{event_of_version_1};

    ghost Plain = { PlainEvent };

    ghost plain = { plain_event };

    ghost event = { λ event. event };

    ghost said_of = { event_of_version_1 };

    #[inline(always)]
    #[tactic(auto, using(crate::proofs::Alike::said_in_version_1))]
    fn read_quickly(alloc: Global, line: &[u8]) -> Option<Event> {
        let event = read_quick(alloc, line)?;
        if is_freeze(&event) {
            return None;
        }
        Some(event)
    }

    fn fault_quickly(alloc: Global, line: &[u8]) -> Option<LineFault> {
        read_fault(alloc, line)
    }

    #[tactic(auto, using(crate::proofs::Alike::told_orderly))]
    fn read_slowly(alloc: Global, line: &[u8]) -> Result<Event, LineRefusal> {
        read_event_of_version_1(alloc, line)
    }
}
