//! Output lines: a JSON object in compact text, and a line feed.
ghost use Rattle.std.specs.Prelude.{◌≡◌, ◌∷◌, ◌++◌, [], IfOk, OnOk, true};
ghost use Rattle.json.specs.Print.{print};
ghost use Rattle.pol_record.specs.Ranges.{is_in_range};
ghost use Rattle.pol_record.specs.Texts.{answer_text, end_text, fault_text};

use crate::answers::write_answer;
use crate::faults::write_fault;
use event_json::LineFault;
use json::Writer;
use pol_events::Answer;
use std::alloc::{AllocError, Global};
use std::mem;

// The line of the answer to most events, and the last line of every output.
const DONE_LINE: &[u8] = b"{\"done\":true}\n";

const END_LINE: &[u8] = b"{\"end\":true}\n";

/// What was written, as a line behind what the buffer held.
pub fn ended_line(writer: Writer) -> Result<Vec<u8>, AllocError>
    ensures { IfOk result (λ line. line.items ≡ (writer.before ++ print writer.tokens) ++ 10 ∷ []) }
{
    let mut line = writer.into_inner();
    line.push(b'\n')?;
    Ok(line)
}

/// Puts the line of an answer behind what a buffer holds. It takes no memory where the buffer has room for the line;
/// where there is none, what the buffer held is lost.
#[tactic(auto, using(crate::proofs::Tokens::line_of_tokens, crate::proofs::Tokens::done_text))]
pub fn put_answer_line(alloc: Global, out: &mut Vec<u8>, answer: &Answer) -> Result<(), AllocError>
    ensures line { OnOk result (out.new.items ≡ out.old.items ++ answer_text answer.now) }
    ensures held { OnOk result (is_in_range answer.now ≡ true) }
{
    if let Answer::Done = answer {
        out.extend_from_slice(DONE_LINE)?;
        return Ok(());
    }
    let mut writer = Writer::new(mem::replace(out, Vec::new(alloc)));
    write_answer(&mut writer, answer)?;
    *out = ended_line(writer)?;
    Ok(())
}

/// Puts the line of a fault behind what a buffer holds: its kind, and the text of the path to it (empty for the whole
/// line); or what is wrong with a chart, and the number of its node. Where there is no memory, what the buffer held is
/// lost.
#[tactic(auto, using(crate::proofs::Tokens::line_of_tokens))]
pub fn put_fault_line(alloc: Global, out: &mut Vec<u8>, fault: &LineFault) -> Result<(), AllocError>
    ensures { OnOk result (out.new.items ≡ out.old.items ++ fault_text fault.now) }
{
    let mut writer = Writer::new(mem::replace(out, Vec::new(alloc)));
    write_fault(alloc, &mut writer, fault)?;
    *out = ended_line(writer)?;
    Ok(())
}

/// The line of an answer.
pub fn answer_line(alloc: Global, answer: &Answer) -> Result<Vec<u8>, AllocError>
    ensures line { IfOk result (λ line. line.items ≡ answer_text answer.now) }
    ensures held { OnOk result (is_in_range answer.now ≡ true) }
{
    let mut line = Vec::new(alloc);
    put_answer_line(alloc, &mut line, answer)?;
    Ok(line)
}

/// The line of a fault.
pub fn fault_line(alloc: Global, fault: &LineFault) -> Result<Vec<u8>, AllocError>
    ensures { IfOk result (λ line. line.items ≡ fault_text fault.now) }
{
    let mut line = Vec::new(alloc);
    put_fault_line(alloc, &mut line, fault)?;
    Ok(line)
}

/// The last line of every output.
#[tactic(auto, using(crate::proofs::Tokens::end_line_text))]
pub fn end_line(alloc: Global) -> Result<Vec<u8>, AllocError>
    ensures { IfOk result (λ line. line.items ≡ end_text) }
{
    let mut line = Vec::new(alloc);
    line.extend_from_slice(END_LINE)?;
    Ok(line)
}
