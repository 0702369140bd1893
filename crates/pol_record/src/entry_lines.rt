//! Lines of entries of a history: an answer and its event.
ghost use Rattle.std.specs.Prelude.{◌≡◌, ◌++◌, IfOk, IsTrue, Ok, OnOk, true};
ghost use Rattle.serde_json.specs.Written.{compact_text};
ghost use Rattle.pol_events.specs.Events.{plain_entry, plain_event};
ghost use Rattle.pol_events.specs.Orderly.{is_orderly};
ghost use Rattle.event_json.specs.Lines.{event_of};
ghost use Rattle.pol_record.specs.Exact.{IsWritten};
ghost use Rattle.pol_record.specs.Ranges.{is_in_range};
ghost use Rattle.pol_record.specs.Texts.{IsReadBack, answer_data, entry_line_text, event_text};

use crate::answers::write_answer;
use event_json::event_value;
use json::Writer;
use pol_events::{Answer, Entry, Event};
use std::alloc::{AllocError, Global};
use std::mem;

// The texts before, between and behind the answer and the event.
const BEFORE: &[u8] = b"{\"answer\":";

const BETWEEN: &[u8] = b",\"event\":";

const BEHIND: &[u8] = b"}\n";

// Puts the text of an answer behind what a buffer holds.
#[tactic(auto, using(crate::proofs::Pieces::printed))]
fn put_answer(alloc: Global, out: &mut Vec<u8>, answer: &Answer) -> Result<(), AllocError>
    ensures text { OnOk result (out.new.items ≡ out.old.items ++ compact_text (answer_data answer.now)) }
    ensures held { OnOk result (is_in_range answer.now ≡ true) }
{
    let mut writer = Writer::new(mem::replace(out, Vec::new(alloc)));
    write_answer(&mut writer, answer)?;
    *out = writer.into_inner();
    Ok(())
}

/// The text of an event, which has to be one that a line can say.
pub fn event_text(alloc: Global, event: &Event) -> Result<Vec<u8>, AllocError>
    requires { IsTrue (is_orderly (plain_event event.now)) }
    ensures text { IfOk result (λ text. text.items ≡ event_text (plain_event event.now)) }
    ensures reads_back { IfOk result (λ text. event_of text.items ≡ Ok (plain_event event.now)) }
    ensures written { IfOk result (λ _. IsWritten (plain_event event.now)) }
{
    let value = event_value(alloc, event)?;
    value.to_vec(alloc)
}

/// Puts the line of an entry behind what a buffer holds: the answer and the event. The event has to be one that a
/// line can say: a recipe's chart is valid, and a start holds at most 64 modules and watches at most 64, in byte
/// order of the roles, each role once; what is written of it is read as the same event, alone and within the line.
/// Where there is no memory, what the buffer held is lost.
#[tactic(auto, using(crate::proofs::Pieces::entry_pieces))]
pub fn put_entry_line(alloc: Global, out: &mut Vec<u8>, entry: &Entry) -> Result<(), AllocError>
    requires { IsTrue (is_orderly (plain_event entry.now.event)) }
    ensures line { OnOk result (out.new.items ≡ out.old.items ++ entry_line_text (plain_entry entry.now)) }
    ensures reads_back { OnOk result (IsReadBack (plain_entry entry.now)) }
    ensures written { OnOk result (IsWritten (plain_event entry.now.event)) }
    ensures held { OnOk result (is_in_range entry.now.answer ≡ true) }
{
    let event = event_text(alloc, &entry.event)?;
    out.extend_from_slice(BEFORE)?;
    put_answer(alloc, out, &entry.answer)?;
    out.extend_from_slice(BETWEEN)?;
    out.extend_from_slice(&event)?;
    out.extend_from_slice(BEHIND)?;
    Ok(())
}

/// The line of an entry of a history. The event has to be one that a line can say.
pub fn entry_line(alloc: Global, entry: &Entry) -> Result<Vec<u8>, AllocError>
    requires { IsTrue (is_orderly (plain_event entry.now.event)) }
    ensures line { IfOk result (λ line. line.items ≡ entry_line_text (plain_entry entry.now)) }
    ensures written { OnOk result (IsWritten (plain_event entry.now.event)) }
    ensures held { OnOk result (is_in_range entry.now.answer ≡ true) }
{
    let mut line = Vec::new(alloc);
    put_entry_line(alloc, &mut line, entry)?;
    Ok(line)
}
