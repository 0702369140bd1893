//! Doing a job line by line.
ghost use Rattle.std.specs.Prelude.{◌≡◌, [], false, IsTrue, IfOk, IfErr, IfSome, OnOk, OnErr};
ghost use Rattle.pol_io.specs.Causes.{HasCauseOf};
ghost use Rattle.pol_io.specs.Faults.{Stops};
ghost use Rattle.pol_io.specs.Known.{Between};
ghost use Rattle.pol_io.specs.LinesState.{ahead, needs_no_source};
ghost use Rattle.pol_jobs.specs.Deeds.{DidAll, DidSome, RefusesBehind};
ghost use Rattle.pol_jobs.specs.Ends.{Completes, Ends, IsTooMuch, Writes, edge};
ghost use Rattle.pol_jobs.specs.Faults.{FailedSo, IsOfPutting, JobFailedSo, JobRefusedSo};
ghost use Rattle.pol_jobs.specs.LineWork.{AcceptsEnd, KnowsAfter, output_by};
ghost use Rattle.pol_jobs.specs.Moments.{moment, HasReplied, IsFresh, IsNext, Leaves, Replied};
ghost use Rattle.pol_jobs.specs.Settling.{Puts, PutsBefore, PutsDue, PutsPart};

use crate::fault::JobFault;
use crate::line_job::{InputLine, LineJob};
use crate::output::{hand_on, put};
use crate::stop::Stop;
use pol_io::{IoFault, Line, Lines, Sink, Source};
use std::alloc::Global;

// The replies that wait are written once they have so many bytes, also where more lines are there: so memory stays
// flat, and no reader waits long.
const LONGEST_GROUP: usize = 65_536;

// Puts what the job replies to the next line into an empty buffer, unless it stops there; None is the end of input.
fn next_reply<S: Source, J: LineJob>(
    lines: &mut Lines,
    job: &mut J,
    source: &mut S,
    out: &mut Vec<u8>,
) -> Result<Option<Result<(), Stop<J::Refusal, J::Failure>>>, IoFault>
    requires sound { IsTrue lines.old.sound }
    requires empty { out.old.items ≡ [] }
    ensures next { IfOk result (λ made. IsNext J.work J.Did job.old job.new
        (moment (J.state job.old) lines.old (S.left source.old))
        (moment (J.state job.new) lines.new (S.left source.new)) made out.new.items) }
    ensures fault { IfErr result (λ fault.
        Stops lines.old.taken (ahead lines.old (S.left source.old)) (S.left source.old) (S.left source.new) fault) }
    ensures open_end { OnErr result (lines.old.ended ≡ false) }
    ensures unasked { IsTrue (needs_no_source lines.old) → source.new ≡ source.old }
    ensures idle { OnErr result (job.new ≡ job.old) }
    ensures failed { IfOk result (λ made. IfSome made (λ replied. IfErr replied (FailedSo (J.HasFailed job.new)))) }
    ensures cause { HasCauseOf IoFault.Read (S.faults source.old) (S.faults source.new) result }
{
    match lines.next_line(source) {
        Ok(Line::Text(text)) => Ok(Some(job.reply(InputLine::Text(text), out))),
        Ok(Line::TooLong) => Ok(Some(job.reply(InputLine::TooLong, out))),
        Ok(Line::End) => Ok(None),
        Err(fault) => Err(fault),
    }
}

// Settles the lines that wait, and then writes the replies to them.
fn put_replies<K: Sink, J: LineJob>(
    job: &mut J,
    sink: &mut K,
    replies: &mut Vec<u8>,
) -> Result<(), JobFault<J::Refusal, J::Failure>>
    ensures kept { J.state job.new ≡ J.state job.old }
    ensures failed { J.HasFailed job.old → J.HasFailed job.new }
    ensures put { OnOk result (Puts J.Did J.SETTLES_EACH job.old job.new
        (K.held sink.old) (K.held sink.new) replies.old.items) }
    ensures empty { OnOk result (replies.new.items ≡ []) }
    ensures part { OnErr result (PutsPart J.Did J.SETTLES_EACH job.old job.new
        (K.held sink.old) (K.held sink.new) replies.old.items) }
    ensures fault { IfErr result (IsOfPutting (J.HasFailed job.new)) }
    ensures cause { HasCauseOf JobFault.Write (K.faults sink.old) (K.faults sink.new) result }
{
    if let Err(failure) = job.settle() {
        return Err(JobFault::Failed(failure));
    }
    put(sink, replies)?;
    replies.clear();
    Ok(())
}

// Puts the replies out where it is time: the next line isn't there yet, or the job settles each line, or too much
// waits. They are handed on where the next line isn't there, so that the source is only asked when everybody has their
// replies, and where the job hands on each.
fn put_due<K: Sink, J: LineJob>(
    lines: &mut Lines,
    job: &mut J,
    sink: &mut K,
    replies: &mut Vec<u8>,
) -> Result<(), JobFault<J::Refusal, J::Failure>>
    ensures same { lines.new ≡ lines.old }
    ensures kept { J.state job.new ≡ J.state job.old }
    ensures put { OnOk result (PutsDue J.Did J.SETTLES_EACH lines.old job.old job.new
        (K.held sink.old) (K.held sink.new) replies.old.items replies.new.items) }
    ensures part { OnErr result (PutsPart J.Did J.SETTLES_EACH job.old job.new
        (K.held sink.old) (K.held sink.new) replies.old.items) }
    ensures fault { IfErr result (IsOfPutting (J.HasFailed job.new)) }
    ensures cause { HasCauseOf JobFault.Write (K.faults sink.old) (K.faults sink.new) result }
{
    let goes_on = lines.has_next();
    if goes_on && !J::SETTLES_EACH && replies.len() < LONGEST_GROUP {
        return Ok(());
    }
    put_replies(job, sink, replies)?;
    if goes_on && !J::HANDS_ON_EACH {
        return Ok(());
    }
    hand_on(sink)?;
    Ok(())
}

// Where the job stopped at a line, puts out the replies to the lines before it. A job that settles each line has no
// others.
fn put_before_stop<K: Sink, J: LineJob>(
    job: &mut J,
    sink: &mut K,
    replies: &mut Vec<u8>,
) -> Result<(), JobFault<J::Refusal, J::Failure>>
    ensures failed { J.HasFailed job.old → J.HasFailed job.new }
    ensures put { OnOk result (PutsBefore J.Did J.SETTLES_EACH job.old job.new
        (K.held sink.old) (K.held sink.new) replies.old.items) }
    ensures part { OnErr result ((J.SETTLES_EACH ≡ false) × PutsPart J.Did J.SETTLES_EACH job.old job.new
        (K.held sink.old) (K.held sink.new) replies.old.items) }
    ensures fault { IfErr result (IsOfPutting (J.HasFailed job.new)) }
    ensures cause { HasCauseOf JobFault.Write (K.faults sink.old) (K.faults sink.new) result }
{
    if J::SETTLES_EACH {
        return Ok(());
    }
    put_replies(job, sink, replies)
}

// Replies to each line of the source.
fn reply_to_all<S: Source, K: Sink, J: LineJob>(
    alloc: Global,
    lines: &mut Lines,
    job: &mut J,
    source: &mut S,
    sink: &mut K,
) -> Result<(), JobFault<J::Refusal, J::Failure>>
    requires { IsFresh lines.old }
    ensures replied { OnOk result (Between
        (Replied J.work (J.state job.old) (J.state job.new) (K.held sink.old) (K.held sink.new))
        (S.left source.old) (S.left source.new)) }
    ensures replied_lines { OnOk result (HasReplied J.work (J.state job.old) (J.state job.new)
        (K.held sink.old) (K.held sink.new) []) }
    ensures leaves { IfErr result (λ fault. Between
        (Leaves (output_by J.work (J.state job.old)) (K.held sink.old) (K.held sink.new) fault)
        (S.left source.old) (S.left source.new)) }
    ensures did_all { OnOk result (DidAll (J.Did job.old job.new) (S.left source.old)) }
    ensures did_some { OnErr result (DidSome J.work (J.state job.old) (J.Did job.old job.new)
        (K.held sink.old) (K.held sink.new) (S.left source.old)) }
    ensures too_much { IfErr result (λ fault. fault ≡ JobFault.TooMuch → IsTooMuch (S.left source.old)) }
    ensures read_cause { HasCauseOf JobFault.Read (S.faults source.old) (S.faults source.new) result }
    ensures write_cause { HasCauseOf JobFault.Write (K.faults sink.old) (K.faults sink.new) result }
    ensures failed { IfErr result (JobFailedSo (J.HasFailed job.new)) }
    ensures refused { IfErr result (JobRefusedSo (RefusesBehind J.work (J.state job.old)
        (K.held sink.old) (K.held sink.new))) }
{
    let mut out = Vec::new(alloc);
    let mut replies = Vec::new(alloc);
    while let Some(made) = next_reply(lines, job, source, &mut out)? {
        if let Err(stop) = made {
            put_before_stop(job, sink, &mut replies)?;
            return Err(stop.into());
        }
        replies.extend_from_slice(&out)?;
        out.clear();
        put_due(lines, job, sink, &mut replies)?;
    }
    put_replies(job, sink, &mut replies)?;
    Ok(())
}

// Replies to each line of the source, and then closes the output.
fn reply_and_close<S: Source, K: Sink, J: LineJob>(
    alloc: Global,
    job: &mut J,
    source: &mut S,
    sink: &mut K,
) -> Result<(), JobFault<J::Refusal, J::Failure>>
    ensures output { OnOk result (Between
        (Writes (output_by J.work (J.state job.old)) (K.held sink.old) (K.held sink.new))
        (S.left source.old) (S.left source.new)) }
    ensures leaves { IfErr result (λ fault. Between
        (Leaves (output_by J.work (J.state job.old)) (K.held sink.old) (K.held sink.new) fault)
        (S.left source.old) (S.left source.new)) }
    ensures did_all { OnOk result (DidAll (J.Did job.old job.new) (S.left source.old)) }
    ensures did_some { OnErr result (DidSome J.work (J.state job.old) (J.Did job.old job.new)
        (K.held sink.old) (K.held sink.new) (S.left source.old)) }
    ensures after { OnOk result (Between (KnowsAfter J.work (J.state job.old) (J.state job.new))
        (S.left source.old) (S.left source.new)) }
    ensures accepted { OnOk result (AcceptsEnd J.work (J.state job.new)) }
    ensures too_much { IfErr result (λ fault. fault ≡ JobFault.TooMuch → IsTooMuch (S.left source.old)) }
    ensures read_cause { HasCauseOf JobFault.Read (S.faults source.old) (S.faults source.new) result }
    ensures write_cause { HasCauseOf JobFault.Write (K.faults sink.old) (K.faults sink.new) result }
    ensures failed { IfErr result (JobFailedSo (J.HasFailed job.new)) }
    ensures refused { IfErr result (JobRefusedSo (RefusesBehind J.work (J.state job.old)
        (K.held sink.old) (K.held sink.new))) }
{
    let mut lines = Lines::new(alloc)?;
    reply_to_all(alloc, &mut lines, job, source, sink)?;
    job.end()?;
    job.close(sink)?;
    Ok(())
}

/// Does the job: replies to each line of the source, and then closes the output. How it ends is one row for each
/// result; and where nothing fails, an input that fits is done or refused as it should be, unless there was no memory.
/// What else the job did, it did and settled with all lines of the input, or with the first ones; of these some may
/// wait unsettled behind the others, and no more was written than the replies to the settled ones. `Failed` comes only
/// from a job that failed, and what holds of such a job then holds of this one.
#[tactic(auto, using(crate::proofs::Ending::work_ends))]
pub fn work<S: Source, K: Sink, J: LineJob>(
    alloc: Global,
    job: &mut J,
    source: &mut S,
    sink: &mut K,
) -> Result<(), JobFault<J::Refusal, J::Failure>>
    ensures ends { Ends (output_by J.work (J.state job.old))
        (edge (S.left source.old) (S.faults source.old)) (edge (S.left source.new) (S.faults source.new))
        (edge (K.held sink.old) (K.faults sink.old)) (edge (K.held sink.new) (K.faults sink.new)) result }
    ensures complete { Completes (output_by J.work (J.state job.old))
        (edge (S.left source.old) (S.faults source.old)) (edge (S.left source.new) (S.faults source.new))
        (edge (K.held sink.old) (K.faults sink.old)) (edge (K.held sink.new) (K.faults sink.new)) result }
    ensures after { OnOk result (Between (KnowsAfter J.work (J.state job.old) (J.state job.new))
        (S.left source.old) (S.left source.new)) }
    ensures accepted { OnOk result (AcceptsEnd J.work (J.state job.new)) }
    ensures did_all { OnOk result (DidAll (J.Did job.old job.new) (S.left source.old)) }
    ensures did_some { OnErr result (DidSome J.work (J.state job.old) (J.Did job.old job.new)
        (K.held sink.old) (K.held sink.new) (S.left source.old)) }
    ensures failed { IfErr result (JobFailedSo (J.HasFailed job.new)) }
    ensures refused { IfErr result (JobRefusedSo (RefusesBehind J.work (J.state job.old)
        (K.held sink.old) (K.held sink.new))) }
{
    reply_and_close(alloc, job, source, sink)
}
