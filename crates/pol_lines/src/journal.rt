//! The lines of a journal.

use crate::events::read_members;
use crate::faults::read_fault;
use crate::forms::LineForm;
use crate::modules::read_described;
use crate::objects::{Cut, begin_object, ends, read_flats};
use crate::recipes::read_recipe;
use arrayvec::ArrayVec;
use event_json::{LineFault, LineRefusal, read_event};
use pol_events::Event;
use std::alloc::Global;

/// Whether the line ends with a brace; one that was cut off doesn't.
#[inline(always)]
fn is_closed(line: &[u8]) -> bool {
    matches!(line, [.., b'}'])
}

/// The lines of a journal: each says an event.
pub struct JournalLines;

impl LineForm for JournalLines {
    type Said = Event;

    ghost use Rattle.pol_events.specs.Events.{PlainEvent, plain_event};
    ghost use Rattle.event_json.specs.Lines.{event_of};

    ghost Plain = { PlainEvent };

    ghost plain = { plain_event };

    ghost event = { λ event. event };

    ghost said_of = { event_of };

    #[inline(never)]
    #[tactic(auto, using(event_json::proofs::Orderly::line_orderly))]
    fn read_quickly(alloc: Global, line: &[u8]) -> Option<Event> {
        if !is_closed(line) {
            return None;
        }
        let mut members = ArrayVec::new();
        let cut = begin_object(line)?;
        let cut = read_flats(cut, &mut members);
        match cut {
            Cut::More([b'"', b'd', ..]) => read_described(alloc, line, cut, &mut members),
            Cut::More([b'"', b'r', ..]) => read_recipe(alloc, line, cut, &mut members),
            _ if ends(cut, line) => read_members(members.as_slice()),
            _ => None,
        }
    }

    fn fault_quickly(alloc: Global, line: &[u8]) -> Option<LineFault> {
        read_fault(alloc, line)
    }

    fn read_slowly(alloc: Global, line: &[u8]) -> Result<Event, LineRefusal> {
        read_event(alloc, line)
    }
}
