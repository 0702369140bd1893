//! When what a job over lines did is settled, and its replies are written and handed on: the order of the calls, of
//! which no clause speaks.
ghost use Rattle.std.specs.Prelude.{◌≡◌, ◌<◌, ◌++◌, ⊤, [], None, IfErr, OnOk};
ghost use Rattle.std.specs.Option.{unwrap_or};
ghost use Rattle.pol_jobs.specs.InputLines.{plain_line};
ghost use Rattle.pol_jobs.specs.LineWork.{work_of};

use pol_io::{DripSource, Sink, SinkFault};
use pol_jobs::{InputLine, JobFault, LineJob, PutFault, Stop, work};
use std::alloc::{AllocError, Global};
use std::convert::Infallible;
use std::test::Fail;

const MET: u64 = 1;

const SETTLED: u64 = 2;

const WRITTEN: u64 = 3;

const HANDED_ON: u64 = 4;

const STOPPED: u64 = 9;

// The calls so far, a digit for each, with one more.
fn noted(calls: u64, call: u64) -> u64 {
    calls.wrapping_mul(10).wrapping_add(call)
}

// What each job of these tests replies to a line: the line itself. It finds no memory at the line `!`.
fn echo(line: InputLine<'_>, out: &mut Vec<u8>) -> Result<(), Stop<Infallible, Infallible>>
    ensures echoed { OnOk result (out.new.items ≡ out.old.items ++ unwrap_or (plain_line line.entry) []) }
    ensures cause { IfErr result (λ stop. stop ≡ Stop.Memory) }
{
    if let InputLine::Text(text) = line {
        if text == b"!".as_slice() {
            return Err(Stop::Memory);
        }
        out.extend_from_slice(text)?;
    }
    Ok(())
}

// A job that settles together the lines that stand there.
#[derive(Drop)]
struct Together {
    calls: u64,
}

impl LineJob for Together {
    type Refusal = Infallible;

    type Failure = Infallible;

    const SETTLES_EACH: bool = false;

    const HANDS_ON_EACH: bool = false;

    ghost use Rattle.std.specs.Prelude.{true, false};

    ghost SETTLES_EACH = { false };

    ghost HANDS_ON_EACH = { false };

    ghost State = { ⊤ };

    ghost state = { λ _. tt };

    ghost work = { work_of (λ _ line. unwrap_or line []) (λ _ _. tt) (λ _. []) };

    ghost Did = { λ _ _ _ _ _. ⊤ };

    ghost did_nothing = { λ _. tt };

    ghost HasFailed = { λ _. ⊤ };

    fn reply(
        &mut self,
        line: InputLine<'_>,
        out: &mut Vec<u8>,
    ) -> Result<(), Stop<Infallible, Infallible>> {
        self.calls = noted(self.calls, MET);
        echo(line, out)
    }

    fn settle(&mut self) -> Result<(), Infallible> {
        self.calls = noted(self.calls, SETTLED);
        Ok(())
    }

    fn end(&mut self) -> Result<(), Stop<Infallible, Infallible>> {
        Ok(())
    }

    fn close<K: Sink>(&mut self, _sink: &mut K) -> Result<(), PutFault> {
        Ok(())
    }
}

// One that settles each line.
#[derive(Drop)]
struct Settling {
    calls: u64,
}

impl LineJob for Settling {
    type Refusal = Infallible;

    type Failure = Infallible;

    const SETTLES_EACH: bool = true;

    const HANDS_ON_EACH: bool = false;

    ghost use Rattle.std.specs.Prelude.{true, false};

    ghost SETTLES_EACH = { true };

    ghost HANDS_ON_EACH = { false };

    ghost State = { ⊤ };

    ghost state = { λ _. tt };

    ghost work = { work_of (λ _ line. unwrap_or line []) (λ _ _. tt) (λ _. []) };

    ghost Did = { λ _ _ _ _ _. ⊤ };

    ghost did_nothing = { λ _. tt };

    ghost HasFailed = { λ _. ⊤ };

    fn reply(
        &mut self,
        line: InputLine<'_>,
        out: &mut Vec<u8>,
    ) -> Result<(), Stop<Infallible, Infallible>> {
        self.calls = noted(self.calls, MET);
        echo(line, out)
    }

    fn settle(&mut self) -> Result<(), Infallible> {
        self.calls = noted(self.calls, SETTLED);
        Ok(())
    }

    fn end(&mut self) -> Result<(), Stop<Infallible, Infallible>> {
        Ok(())
    }

    fn close<K: Sink>(&mut self, _sink: &mut K) -> Result<(), PutFault> {
        Ok(())
    }
}

// One that hands on the reply to each line too.
#[derive(Drop)]
struct AtOnce {
    calls: u64,
}

impl LineJob for AtOnce {
    type Refusal = Infallible;

    type Failure = Infallible;

    const SETTLES_EACH: bool = true;

    const HANDS_ON_EACH: bool = true;

    ghost use Rattle.std.specs.Prelude.{true, false};

    ghost SETTLES_EACH = { true };

    ghost HANDS_ON_EACH = { true };

    ghost State = { ⊤ };

    ghost state = { λ _. tt };

    ghost work = { work_of (λ _ line. unwrap_or line []) (λ _ _. tt) (λ _. []) };

    ghost Did = { λ _ _ _ _ _. ⊤ };

    ghost did_nothing = { λ _. tt };

    ghost HasFailed = { λ _. ⊤ };

    fn reply(
        &mut self,
        line: InputLine<'_>,
        out: &mut Vec<u8>,
    ) -> Result<(), Stop<Infallible, Infallible>> {
        self.calls = noted(self.calls, MET);
        echo(line, out)
    }

    fn settle(&mut self) -> Result<(), Infallible> {
        self.calls = noted(self.calls, SETTLED);
        Ok(())
    }

    fn end(&mut self) -> Result<(), Stop<Infallible, Infallible>> {
        Ok(())
    }

    fn close<K: Sink>(&mut self, _sink: &mut K) -> Result<(), PutFault> {
        Ok(())
    }
}

// A sink that takes each piece whole, and keeps none.
#[derive(Drop)]
struct Noting {
    calls: u64,
}

impl Sink for Noting {
    ghost held = { λ _. None };

    ghost faults = { λ _. 0 };

    fn write(&mut self, piece: &[u8]) -> Result<usize, SinkFault> {
        self.calls = noted(self.calls, WRITTEN);
        Ok(piece.len())
    }

    fn flush(&mut self) -> Result<(), SinkFault> {
        self.calls = noted(self.calls, HANDED_ON);
        Ok(())
    }
}

// What a sink is asked for by such a job over an input of which each read gives so many bytes, and whether the job
// stopped; 0 where it failed in another way.
fn asked_by<J: LineJob<Refusal = Infallible, Failure = Infallible>>(
    alloc: Global,
    job: &mut J,
    input: &str,
    at_most: u32,
) -> Result<u64, AllocError>
    requires { 0 < at_most }
{
    let bytes = Vec::from_slice(alloc, input.as_bytes())?;
    let mut sink = Noting { calls: 0 };
    match work(alloc, job, &mut DripSource::new(bytes, at_most), &mut sink) {
        Ok(()) => Ok(sink.calls),
        Err(JobFault::Memory) => Ok(noted(sink.calls, STOPPED)),
        Err(JobFault::Read | JobFault::Write | JobFault::TooMuch) => Ok(0),
        Err(JobFault::Failed(never) | JobFault::Refused(never)) => match never {},
    }
}

// The calls of each job and of its sink: where lines are settled together, where each is settled, and where each is
// handed on too.
fn calls_of(alloc: Global, input: &str, at_most: u32) -> Result<[(u64, u64); 3], AllocError>
    requires { 0 < at_most }
{
    let mut together = Together { calls: 0 };
    let asked_together = asked_by(alloc, &mut together, input, at_most)?;
    let mut settling = Settling { calls: 0 };
    let asked_settling = asked_by(alloc, &mut settling, input, at_most)?;
    let mut at_once = AtOnce { calls: 0 };
    let asked_at_once = asked_by(alloc, &mut at_once, input, at_most)?;
    Ok([
        (together.calls, asked_together),
        (settling.calls, asked_settling),
        (at_once.calls, asked_at_once),
    ])
}

#[test]
fn replies_are_handed_on_where_the_source_is_asked_and_each_by_itself_where_a_job_wants_it(
    rt: HostRuntime,
) -> Result<(), Fail> {
    for (input, at_most, calls) in [
        ("", 64, [(2, 0), (2, 0), (2, 0)]),
        (
            "a\nb\nc\n",
            64,
            [(11_122, 34), (1_212_122, 3_334), (1_212_122, 343_434)],
        ),
        (
            "a\nb\nc\n",
            2,
            [
                (1_212_122, 343_434),
                (1_212_122, 343_434),
                (1_212_122, 343_434),
            ],
        ),
        ("a\nb", 64, [(1_212, 343), (12_122, 343), (12_122, 3_434)]),
        (
            "a\n\nb\n",
            64,
            [(11_122, 34), (1_212_122, 334), (1_212_122, 34_434)],
        ),
        (
            "a\nb\n!\n",
            64,
            [(1_112, 39), (12_121, 339), (12_121, 34_349)],
        ),
    ] {
        let made = calls_of(rt.alloc(), input, at_most)?;
        assert_eq!(rt; made, calls, "of {input} by {at_most}");
    }
    Ok(())
}

#[test]
fn replies_wait_for_no_more_lines_once_they_are_many(rt: HostRuntime) -> Result<(), Fail> {
    let long = String::from_utf8(vec![in rt.alloc(); b'x'; 65_536]?).ok();
    let input = format!(in rt.alloc(); "{}\na\nb\n", long.as_deref().unwrap_or(""))?;
    let mut job = Together { calls: 0 };
    let asked = asked_by(rt.alloc(), &mut job, input.as_str(), 70_000)?;
    assert_eq!(rt; (job.calls, asked), (121_122, 334));
    Ok(())
}
