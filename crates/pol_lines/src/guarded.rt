//! The lines of a journal under a policy, in which a command of the desk names who gives it.
ghost use Rattle.std.specs.Prelude.{◌≡◌, Ok, IfSome, IsTrue};
ghost use Rattle.pol_events.specs.Events.{plain_event};
ghost use Rattle.pol_events.specs.Orderly.{is_orderly};
ghost use Rattle.event_json.specs.Guarded.{guarded_of, is_desk, plain_guarded};

use crate::desk::read_desk;
use crate::faults::read_guarded_fault;
use crate::forms::LineForm;
use crate::reading::read_quick;
use event_json::{Guarded, LineFault, LineRefusal, read_guarded};
use pol_events::Event;
use std::alloc::Global;

fn is_desk(event: &Event) -> bool
    ensures { result ≡ is_desk (plain_event event.now) }
{
    matches!(event, Event::Desk { .. })
}

/// The event of nobody that a compact line says; None for some lines that say one, and for each that says none.
#[inline(always)]
#[tactic(auto, using(crate::proofs::Alike::said_by_nobody))]
fn read_unnamed(alloc: Global, line: &[u8]) -> Option<Guarded>
    ensures says { IfSome result (λ said. guarded_of line.now ≡ Ok (plain_guarded said)) }
    ensures orderly { IfSome result (λ said. IsTrue (is_orderly (plain_event said.event))) }
{
    let event = read_quick(alloc, line)?;
    if is_desk(&event) {
        return None;
    }
    Some(Guarded { event, by: None })
}

/// Whether a line says first of all that it is a command of the desk.
#[inline(always)]
fn begins_desk(line: &[u8]) -> bool {
    matches!(line, [b'{', b'"', b'e', b'v', b'"', b':', b'"', b'd', ..])
}

/// The lines of a journal under a policy: each says an event, and for a command of the desk who gives it.
pub struct GuardedLines;

impl LineForm for GuardedLines {
    type Said = Guarded;

    ghost use Rattle.event_json.specs.Guarded.{PlainGuarded, guarded_of, plain_guarded};

    ghost Plain = { PlainGuarded };

    ghost plain = { plain_guarded };

    ghost event = { λ guarded. guarded.event };

    ghost said_of = { guarded_of };

    #[inline(always)]
    fn read_quickly(alloc: Global, line: &[u8]) -> Option<Guarded> {
        if begins_desk(line) {
            return read_desk(line);
        }
        match read_unnamed(alloc, line) {
            Some(said) => Some(said),
            None => read_desk(line),
        }
    }

    fn fault_quickly(alloc: Global, line: &[u8]) -> Option<LineFault> {
        read_guarded_fault(alloc, line)
    }

    fn read_slowly(alloc: Global, line: &[u8]) -> Result<Guarded, LineRefusal> {
        read_guarded(alloc, line)
    }
}
