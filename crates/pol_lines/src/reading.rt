//! Reading the lines of a journal.
ghost use Rattle.std.specs.Prelude.{◌≡◌, Ok, IfOk, IfSome, IsTrue};
ghost use Rattle.pol_events.specs.Events.{plain_event};
ghost use Rattle.pol_events.specs.Orderly.{is_orderly};
ghost use Rattle.event_json.specs.Lines.{Tells, event_of};

use crate::forms::LineForm;
use crate::journal::JournalLines;
use event_json::{LineRefusal, read_event};
use pol_events::Event;
use std::alloc::Global;

/// The event that a compact line says; None for some lines that say one, and for each that says none.
pub fn read_quick(alloc: Global, line: &[u8]) -> Option<Event>
    ensures says { IfSome result (λ event. event_of line.now ≡ Ok (plain_event event)) }
    ensures orderly { IfSome result (λ event. IsTrue (is_orderly (plain_event event))) }
{
    JournalLines::read_quickly(alloc, line)
}

/// The event that a line of a journal says; else the line's first fault in reading order, with its path; else, where
/// the line makes a recipe known, the fault of its chart. A line is one JSON object (RFC 8259) without its line feed.
/// It never answers `TooLong`. It answers what `read_event` answers, sooner where the line is compact and has no bind.
#[tactic(auto, using(event_json::proofs::Orderly::line_orderly))]
pub fn read_line(alloc: Global, line: &[u8]) -> Result<Event, LineRefusal>
    ensures tells { Tells result (event_of line.now) }
    ensures orderly { IfOk result (λ event. IsTrue (is_orderly (plain_event event))) }
{
    match read_quick(alloc, line) {
        Some(event) => Ok(event),
        None => read_event(alloc, line),
    }
}
