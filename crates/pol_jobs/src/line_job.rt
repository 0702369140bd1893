//! A job that does something with each line of its input.
ghost use Rattle.std.specs.Prelude.{◌≡◌, ◌++◌, ◌∷◌, [], List, Bool, true, false, IfErr, OnOk, OnErr};
ghost use Rattle.std.specs.Result.{is_ok};
ghost use Rattle.pol_io.specs.Causes.{HasCauseOf};
ghost use Rattle.pol_jobs.specs.Faults.{FailedSo, RefusedFor};
ghost use Rattle.pol_jobs.specs.InputLines.{plain_line};
ghost use Rattle.pol_jobs.specs.LineWork.{Line, LineWork, Accepts, AcceptsEnd};
ghost use Rattle.pol_jobs.specs.Written.{Closes, ClosesPart};

use crate::output::PutFault;
use crate::stop::Stop;
use pol_io::Sink;

/// A line of the input as a job meets it.
#[derive(Clone, Copy)]
pub enum InputLine<'a> {
    /// A line of at most 1,048,576 bytes, without its line feed.
    Text(&'a [u8]),
    /// A line of more bytes, whatever they are.
    TooLong,
}

/// A job that does something with each line of its input, and then closes its output. It may refuse its input, with a
/// line or at its end; one that never does has `Infallible` for its reasons.
///
/// The replies to several lines that are there at once are handed on together. A job that doesn't settle each line
/// writes them together too, once what was done for these lines is settled.
pub trait LineJob {
    /// Why a job of this kind refuses its input.
    type Refusal: Drop;

    /// What else can fail in a job of this kind than memory, its source and its sink: a disk; `Infallible` where
    /// nothing can.
    type Failure: Drop;

    /// Whether each line is settled, and its reply written, before the next one is met, also where more lines are there
    /// already.
    const SETTLES_EACH: bool;

    /// `SETTLES_EACH`, where contracts speak of it.
    ghost SETTLES_EACH: { Bool };

    /// Whether the reply to each line is handed on too before the next one is met, so that nobody waits for it.
    const HANDS_ON_EACH: bool;

    /// `HANDS_ON_EACH`, of which no contract speaks.
    ghost HANDS_ON_EACH: { Bool };

    /// What a job of this kind knows between two lines.
    ghost State: { Type 0 };

    /// What this job knows.
    ghost state: { Self → State };

    /// What the job does with each line, and at the end.
    ghost work: { LineWork State Self.Refusal };

    /// What else such a job did, from its first state to this one: the lines that are settled, those that wait behind
    /// them, and whether it replied to the last of these too, or stopped there.
    ghost Did: { Self → Self → List Line → List Line → Bool → Type 0 };

    /// What holds of a job that failed.
    ghost HasFailed: { Self → Type 0 };

    /// Puts what it replies to a line behind what a buffer holds: an output line, or nothing.
    fn reply(
        &mut self,
        line: InputLine<'_>,
        out: &mut Vec<u8>,
    ) -> Result<(), Stop<Self::Refusal, Self::Failure>>
        ensures text { OnOk result
            (out.new.items ≡ out.old.items ++ work.reply (state self.old) (plain_line line.entry)) }
        ensures after { OnOk result (state self.new ≡ work.after (state self.old) (plain_line line.entry)) }
        ensures accepted { OnOk result (Accepts work (state self.old) (plain_line line.entry)) }
        ensures refused { IfErr result (RefusedFor (work.Refuses (state self.old) (plain_line line.entry))) }
        ensures failed { IfErr result (FailedSo (HasFailed self.new)) }
        ensures did { (first : Self) (settled waiting : List Line) → Did first self.old settled waiting true
            → Did first self.new settled (waiting ++ plain_line line.entry ∷ []) (is_ok result) };

    /// Makes lasting what was done for the lines so far, before their replies are handed on. Of a job that doesn't
    /// settle each line this is asked also where it stopped at a line: then the lines before that one are settled.
    fn settle(&mut self) -> Result<(), Self::Failure>
        ensures kept { state self.new ≡ state self.old }
        ensures has_failed { OnErr result (HasFailed self.new) }
        ensures failed_still { HasFailed self.old → HasFailed self.new }
        ensures settled { OnOk result ((first : Self) (settled waiting : List Line) →
            Did first self.old settled waiting true
            → Did first self.new (settled ++ waiting) [] true) }
        ensures failed { OnErr result ((first : Self) (settled waiting : List Line) →
            Did first self.old settled waiting true
            → Did first self.new settled waiting false) }
        ensures settled_before { OnOk result (SETTLES_EACH ≡ false
            → (first : Self) (settled waiting : List Line) (last : Line)
            → Did first self.old settled (waiting ++ last ∷ []) false
            → Did first self.new (settled ++ waiting) (last ∷ []) false) }
        ensures failed_before { OnErr result (SETTLES_EACH ≡ false
            → (first : Self) (settled waiting : List Line) (last : Line)
            → Did first self.old settled (waiting ++ last ∷ []) false
            → Did first self.new settled (waiting ++ last ∷ []) false) };

    /// Sees the end of the input, which it may refuse as a whole.
    fn end(&mut self) -> Result<(), Stop<Self::Refusal, Self::Failure>>
        ensures kept { OnOk result (state self.new ≡ state self.old) }
        ensures accepted { OnOk result (AcceptsEnd work (state self.old)) }
        ensures refused { IfErr result (RefusedFor (work.RefusesEnd (state self.old))) }
        ensures failed { IfErr result (FailedSo (HasFailed self.new)) }
        ensures did { (first : Self) (settled : List Line) → Did first self.old settled [] true
            → Did first self.new settled [] true };

    /// Writes what closes the output.
    fn close<K: Sink>(&mut self, sink: &mut K) -> Result<(), PutFault>
        ensures kept { OnOk result (state self.new ≡ state self.old) }
        ensures text { OnOk result (Closes (work.Closing (state self.old)) (K.held sink.old) (K.held sink.new)) }
        ensures part { OnErr result (ClosesPart (work.Closing (state self.old)) (K.held sink.old) (K.held sink.new)) }
        ensures cause { HasCauseOf PutFault.Write (K.faults sink.old) (K.faults sink.new) result }
        ensures did { (first : Self) (settled : List Line) → Did first self.old settled [] true
            → Did first self.new settled [] true };

    /// Before a job meets a line, it did nothing.
    ghost did_nothing: { (job : Self) → Did job job [] [] true };
}
