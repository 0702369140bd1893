//! The answer to a line of a journal: what the line says is read, and handed at once to who answers it.
ghost use Rattle.std.specs.Prelude.{◌≡◌, ℕ, List, Some, IfErr, IsTrue, OnOk, true};
ghost use Rattle.std.specs.List.{list_all};
ghost use Rattle.event_json.specs.Lines.{is_blank_byte};
ghost use Rattle.pol_events.specs.Orderly.{is_orderly};
ghost use Rattle.pol_jobs.specs.InputLines.{plain_line};
ghost use Rattle.pol_jobs.specs.LineWork.{Line};
ghost use Rattle.pol_replay.specs.Meanings.{at_fault, is_some_line, meaning_met, says};

use event_json::{LineFault, LineRefusal, is_blank};
use pol_jobs::InputLine;
use pol_lines::LineForm;
use std::alloc::Global;

/// Who answers the lines of a journal, by the form of the lines.
pub trait Answering<F: LineForm> {
    /// Why a line may stay unanswered.
    type Halt: Drop;

    /// What the answer to a line leads to: from who answers before it to who does after it, and from what a buffer held
    /// before to what it holds after.
    ghost Answers: { Self → Self → List ℕ → List ℕ → Line → Type 0 };

    /// What is so where a line stays unanswered for this reason, of who answers before and after.
    ghost Halts: { Self → Self → Line → Self.Halt → Type 0 };

    /// Answers a line that says this.
    fn said(&mut self, line: &[u8], said: F::Said, out: &mut Vec<u8>) -> Result<(), Self::Halt>
        requires says { meaning_met F.said_of (Some line.now) ≡ says (F.plain said) }
        requires orderly { IsTrue (is_orderly (F.event (F.plain said))) }
        ensures answers { OnOk result (Answers self.old self.new out.old.items out.new.items (Some line.now)) }
        ensures halts { IfErr result (Halts self.old self.new (Some line.now)) };

    /// Answers a line that is at fault.
    fn fault(
        &mut self,
        line: InputLine<'_>,
        fault: LineFault,
        out: &mut Vec<u8>,
    ) -> Result<(), Self::Halt>
        requires { meaning_met F.said_of (plain_line line) ≡ at_fault fault }
        ensures answers { OnOk result (Answers self.old self.new out.old.items out.new.items (plain_line line.entry)) }
        ensures halts { IfErr result (Halts self.old self.new (plain_line line.entry)) };

    /// Why a line, whichever it is, stays unanswered where there is no memory to read it.
    fn no_memory(&self) -> Self::Halt
        ensures { (line : Line) → Halts self.now self.now line result };

    /// A blank line is answered with nothing.
    ghost answers_blank: { (answering : Self) (held line : List ℕ) → list_all is_blank_byte line ≡ true
        → Answers answering answering held held (Some line) };
}

/// Whether a line isn't blank.
pub fn is_some_line(line: InputLine<'_>) -> bool
    ensures { result ≡ is_some_line (plain_line line.entry) }
{
    match line {
        InputLine::Text(text) => !is_blank(text),
        InputLine::TooLong => true,
    }
}

// Whether a line says first of all that it is a start. No start is read quickly, for its binds. Three bytes tell it
// from almost every other line.
#[inline(always)]
fn is_start(line: &[u8]) -> bool {
    matches!(line, [_, _, _, _, _, _, _, b's', b't', b'a', ..])
        && line.starts_with(b"{\"ev\":\"start\"")
}

// Answers a line that isn't blank, read by the tree of its JSON. The large locals of such a reading are here, so that
// the other lines don't pay for them.
#[inline(never)]
#[tactic(auto, using(crate::proofs::Spoken::says_what, crate::proofs::Spoken::has_fault))]
fn answer_slowly<F: LineForm, A: Answering<F>>(
    alloc: Global,
    line: &[u8],
    answering: &mut A,
    out: &mut Vec<u8>,
) -> Result<(), A::Halt>
    requires { IsTrue (is_some_line (Some line.now)) }
    ensures answers { OnOk result (A.Answers answering.old answering.new out.old.items out.new.items (Some line.now)) }
    ensures halts { IfErr result (A.Halts answering.old answering.new (Some line.now)) }
{
    match F::read_slowly(alloc, line) {
        Ok(said) => answering.said(line, said, out),
        Err(LineRefusal::Fault(fault)) => answering.fault(InputLine::Text(line), fault, out),
        Err(LineRefusal::Memory) => Err(answering.no_memory()),
    }
}

// Answers a line that isn't blank and wasn't read quickly.
#[inline(never)]
#[tactic(auto, using(crate::proofs::Spoken::has_fault))]
fn answer_other<F: LineForm, A: Answering<F>>(
    alloc: Global,
    line: &[u8],
    answering: &mut A,
    out: &mut Vec<u8>,
) -> Result<(), A::Halt>
    requires { IsTrue (is_some_line (Some line.now)) }
    ensures answers { OnOk result (A.Answers answering.old answering.new out.old.items out.new.items (Some line.now)) }
    ensures halts { IfErr result (A.Halts answering.old answering.new (Some line.now)) }
{
    match F::fault_quickly(alloc, line) {
        Some(fault) => answering.fault(InputLine::Text(line), fault, out),
        None => answer_slowly::<F, A>(alloc, line, answering, out),
    }
}

// Answers a line that isn't blank.
#[inline(always)]
#[tactic(auto, using(crate::proofs::Spoken::says_what))]
fn answer_some<F: LineForm, A: Answering<F>>(
    alloc: Global,
    line: &[u8],
    answering: &mut A,
    out: &mut Vec<u8>,
) -> Result<(), A::Halt>
    requires { IsTrue (is_some_line (Some line.now)) }
    ensures answers { OnOk result (A.Answers answering.old answering.new out.old.items out.new.items (Some line.now)) }
    ensures halts { IfErr result (A.Halts answering.old answering.new (Some line.now)) }
{
    if is_start(line) {
        return answer_slowly::<F, A>(alloc, line, answering, out);
    }
    match F::read_quickly(alloc, line) {
        Some(said) => answering.said(line, said, out),
        None => answer_other::<F, A>(alloc, line, answering, out),
    }
}

/// Answers a line: the one way in which the jobs over journals read one. It is read quickly where it is compact and
/// neither a start nor a freeze; so are the faults of most flat lines.
#[inline(always)]
pub fn answer_line<F: LineForm, A: Answering<F>>(
    alloc: Global,
    line: InputLine<'_>,
    answering: &mut A,
    out: &mut Vec<u8>,
) -> Result<(), A::Halt>
    ensures answers { OnOk result (A.Answers answering.old answering.new out.old.items out.new.items
        (plain_line line.entry)) }
    ensures halts { IfErr result (A.Halts answering.old answering.new (plain_line line.entry)) }
{
    let InputLine::Text(text) = line else {
        return answering.fault(line, LineFault::TooLong, out);
    };
    if is_blank(text) {
        return Ok(());
    }
    answer_some::<F, A>(alloc, text, answering, out)
}
