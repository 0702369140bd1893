//! A journal under a policy, line by line.
ghost use Rattle.std.specs.Prelude.{◌≡◌, [], IfOk, IfErr, OnOk, Ok, Err};
ghost use Rattle.pol_jobs.specs.Faults.{RefusedFor};
ghost use Rattle.pol_jobs.specs.InputLines.{plain_line};
ghost use Rattle.pol_jobs.specs.LineWork.{Accepts};
ghost use Rattle.pol_policy.specs.PlainPolicy.{plain_policy};
ghost use Rattle.pol_guard.specs.Guarded.{policy_said};
ghost use Rattle.pol_guard.specs.Guards.{known_by};
ghost use Rattle.pol_guard.specs.Work.{guard_work, waiting};

use crate::replying::GuardedPlant;
use mtp_json::{FaultKind, JsonFault, JsonRefusal, Path};
use pol_core::Plant;
use pol_io::Sink;
use pol_jobs::{InputLine, LineJob, PutFault, Stop};
use pol_lines::GuardedLines;
use pol_policy::{Policy, read_policy};
use pol_replay::{answer_line, close, is_some_line};
use std::alloc::Global;
use std::convert::Infallible;

/// What a guard has between two lines.
#[derive(Drop)]
pub enum Guard {
    /// Nothing: all lines were blank.
    Waiting,
    /// The policy, and the plant behind it.
    Begun(GuardedPlant),
}

/// A fault of a whole policy.
pub fn whole(alloc: Global, kind: FaultKind) -> JsonFault
    ensures { result ≡ record { kind = kind; path = [] } }
{
    JsonFault {
        kind,
        path: Path::new(alloc),
    }
}

// The policy that a line says.
fn policy_said(alloc: Global, line: InputLine<'_>) -> Result<Policy, Stop<JsonFault, Infallible>>
    ensures says { IfOk result (λ policy. policy_said (plain_line line.entry) ≡ Ok (plain_policy policy)) }
    ensures refused { IfErr result (RefusedFor (λ fault. policy_said (plain_line line.entry) ≡ Err fault)) }
{
    let InputLine::Text(text) = line else {
        return Err(Stop::Refused(whole(alloc, FaultKind::TooLong)));
    };
    match read_policy(alloc, text) {
        Ok(policy) => Ok(policy),
        Err(JsonRefusal::Fault(fault)) => Err(Stop::Refused(fault)),
        Err(JsonRefusal::Memory) => Err(Stop::Memory),
    }
}

// Begins with the policy that a line says, unless it is blank. The large locals of that are here, so that the lines
// behind the policy don't pay for them.
#[inline(never)]
fn begin(
    alloc: Global,
    guard: &mut Guard,
    line: InputLine<'_>,
) -> Result<(), Stop<JsonFault, Infallible>>
    requires { known_by guard.old ≡ waiting }
    ensures after { OnOk result (known_by guard.new ≡ guard_work.after waiting (plain_line line.entry)) }
    ensures accepted { OnOk result (Accepts guard_work waiting (plain_line line.entry)) }
    ensures refused { IfErr result (RefusedFor (guard_work.Refuses waiting (plain_line line.entry))) }
{
    if !is_some_line(line) {
        return Ok(());
    }
    let policy = policy_said(alloc, line)?;
    let plant = Plant::new(alloc);
    *guard = Guard::Begun(GuardedPlant {
        alloc,
        policy,
        plant,
    });
    Ok(())
}

/// A guard: its first line that isn't blank is its policy, and it replies to each other line of the journal as the
/// policy and its plant say; it closes with the line of each batch and the end line.
#[derive(Drop)]
pub struct Guarding {
    alloc: Global,
    guard: Guard,
}

impl Guarding {
    /// A guard that has read nothing yet.
    pub fn new(alloc: Global) -> Guarding
        ensures { known_by result.guard ≡ waiting }
    {
        Guarding {
            alloc,
            guard: Guard::Waiting,
        }
    }
}

impl LineJob for Guarding {
    type Refusal = JsonFault;

    type Failure = Infallible;

    const SETTLES_EACH: bool = true;

    const HANDS_ON_EACH: bool = false;

    ghost use Rattle.std.specs.Prelude.{⊤, false, true};
    ghost use Rattle.pol_guard.specs.Guards.{known_by};
    ghost use Rattle.pol_guard.specs.Work.{Known, guard_work};

    ghost SETTLES_EACH = { true };

    ghost HANDS_ON_EACH = { false };

    ghost State = { Known };

    ghost state = { λ guarding. known_by guarding.guard };

    ghost work = { guard_work };

    ghost Did = { λ _ _ _ _ _. ⊤ };

    ghost did_nothing = { λ _. tt };

    ghost HasFailed = { λ _. ⊤ };

    fn reply(
        &mut self,
        line: InputLine<'_>,
        out: &mut Vec<u8>,
    ) -> Result<(), Stop<JsonFault, Infallible>> {
        match &mut self.guard {
            Guard::Waiting => begin(self.alloc, &mut self.guard, line),
            Guard::Begun(guarded) => {
                answer_line::<GuardedLines, _>(self.alloc, line, guarded, out)?;
                Ok(())
            }
        }
    }

    fn settle(&mut self) -> Result<(), Infallible> {
        Ok(())
    }

    fn end(&mut self) -> Result<(), Stop<JsonFault, Infallible>> {
        match &self.guard {
            Guard::Waiting => Err(Stop::Refused(whole(self.alloc, FaultKind::Missing))),
            Guard::Begun(_) => Ok(()),
        }
    }

    #[tactic(auto, using(pol_jobs::proofs::Closing::closes_with, pol_jobs::proofs::Closing::closes_part))]
    fn close<K: Sink>(&mut self, sink: &mut K) -> Result<(), PutFault> {
        match &self.guard {
            Guard::Waiting => close(self.alloc, &[], sink),
            Guard::Begun(guarded) => close(self.alloc, guarded.plant.history(), sink),
        }
    }
}
