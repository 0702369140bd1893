//! The event of a text.
ghost use Rattle.std.specs.Prelude.{IfOk};
ghost use Rattle.pol_store.specs.Work.{NamesEvent, OrderlyOption};

use crate::writing::put_event_text;
use event_json::LineRefusal;
use pol_events::Event;
use pol_lines::read_line;
use std::alloc::{AllocError, Global};

/// The event whose text this is. The buffer takes what is written of it, for the comparison.
pub fn event_of_text(
    alloc: Global,
    text: &[u8],
    written: &mut Vec<u8>,
) -> Result<Option<Event>, AllocError>
    ensures names { IfOk result (NamesEvent text.now) }
    ensures orderly { IfOk result OrderlyOption }
{
    let event = match read_line(alloc, text) {
        Ok(event) => event,
        Err(LineRefusal::Fault(_fault)) => return Ok(None),
        Err(LineRefusal::Memory) => return Err(AllocError),
    };
    written.clear();
    put_event_text(alloc, written, &event)?;
    if written.as_slice() == text {
        Ok(Some(event))
    } else {
        Ok(None)
    }
}
