//! Reading the lines of a journal of version 1, in which a freeze doesn't say whether it holds.
ghost use Rattle.serde_json.specs.View.{view};
ghost use Rattle.mtp_json.specs.ReadsAs.{ReadsAs};
ghost use Rattle.pol_events.specs.Events.{plain_event};
ghost use Rattle.event_json.specs.Version1.{event_by_version_1, event_in_version_1, event_of_version_1};
ghost use Rattle.event_json.specs.Version1.{read_of_version_1};
ghost use Rattle.event_json.specs.Lines.{Tells};

use crate::batches::read_freeze_of_version_1;
use crate::fault::LineRefusal;
use crate::kind::{EventKind, KindWords};
use crate::reading::{read_kind, unless_faulty};
use mtp_json::{JsonRefusal, object_here, parse, word_at};
use pol_events::Event;
use serde_json::Value;
use std::alloc::Global;

fn read_old_kind(alloc: Global, value: &Value, kind: EventKind) -> Result<Event, JsonRefusal>
    ensures { ReadsAs plain_event result (event_by_version_1 (view value.now) kind) }
{
    match kind {
        EventKind::Freeze => read_freeze_of_version_1(alloc, value),
        _ => read_kind(alloc, value, kind),
    }
}

#[tactic(auto, unfolding(crate::specs::Version1::event_in_version_1))]
fn read_old_value(alloc: Global, value: &Value) -> Result<Event, JsonRefusal>
    ensures { ReadsAs plain_event result (event_in_version_1 (view value.now)) }
{
    object_here(alloc, value)?;
    let kind = word_at::<KindWords>(alloc, value, "ev")?;
    read_old_kind(alloc, value, kind)
}

fn read_old_line(alloc: Global, line: &[u8]) -> Result<Event, JsonRefusal>
    ensures { ReadsAs plain_event result (read_of_version_1 line.now) }
{
    let value = parse(alloc, line)?;
    read_old_value(alloc, &value)
}

/// The event that a line of a journal of version 1 says; else the line's first fault, as `read_event` answers it. In
/// version 1 a freeze has no `hold`: it is read as a freeze that doesn't hold.
#[tactic(auto, unfolding(crate::specs::Version1::event_of_version_1))]
pub fn read_event_of_version_1(alloc: Global, line: &[u8]) -> Result<Event, LineRefusal>
    ensures { Tells result (event_of_version_1 line.now) }
{
    unless_faulty(read_old_line(alloc, line))
}
