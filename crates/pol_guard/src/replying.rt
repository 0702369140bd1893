//! The answer to what a line of a journal says, under a policy.
ghost use Rattle.std.specs.Prelude.{◌≡◌};
ghost use Rattle.pol_policy.specs.PlainPolicy.{plain_policy};
ghost use Rattle.pol_events.specs.Events.{plain_event};
ghost use Rattle.pol_guard.specs.Lines.{verdict_on};

use crate::denials::put_denial_line;
use event_json::{Guarded, LineFault};
use mtp_codes::Name;
use pol_core::Plant;
use pol_events::Event;
use pol_jobs::InputLine;
use pol_lines::GuardedLines;
use pol_policy::{Policy, Verdict};
use pol_record::put_fault_line;
use pol_replay::{Answering, answer_event};
use std::alloc::{AllocError, Global};

/// The verdict of a policy on an event that this person gives, or nobody who is named; None where it asks nothing of a
/// policy.
pub fn verdict_on(policy: &Policy, event: &Event, by: Option<Name>) -> Option<Verdict>
    ensures { result ≡ verdict_on (plain_policy policy.now) (plain_event event.now) by }
{
    let Event::Desk {
        tag,
        service,
        command,
        ..
    } = event
    else {
        return None;
    };
    match by {
        Some(by) => Some(policy.judge(by, *tag, *service, *command)),
        None => Some(Verdict::Denied(None)),
    }
}

/// A policy and the plant behind it. A line is answered with its fault, with the denial of what it asks, or with the
/// plant's answer to its event. One that is denied or at fault leaves the history as it was.
#[derive(Drop)]
pub struct GuardedPlant {
    /// The memory that it takes.
    pub alloc: Global,
    /// The policy.
    pub policy: Policy,
    /// The plant.
    pub plant: Plant,
}

impl Answering<GuardedLines> for GuardedPlant {
    type Halt = AllocError;

    ghost use Rattle.std.specs.Prelude.{◌≡◌, ◌++◌, ⊤};
    ghost use Rattle.std.proofs.Common.{append-nil, refl, sym};
    ghost use Rattle.pol_guard.specs.Guards.{known_behind};
    ghost use Rattle.pol_guard.specs.Work.{guard_work};

    ghost Answers = { λ before now held holds line.
        (holds ≡ held ++ guard_work.reply (known_behind before) line)
        × (known_behind now ≡ guard_work.after (known_behind before) line) };

    ghost Halts = { λ _ _ _ _. ⊤ };

    #[inline(always)]
    #[tactic(auto, using(crate::proofs::Meant::to_saying))]
    fn said(&mut self, _line: &[u8], said: Guarded, out: &mut Vec<u8>) -> Result<(), AllocError> {
        match verdict_on(&self.policy, &said.event, said.by) {
            Some(Verdict::Denied(rule)) => put_denial_line(self.alloc, out, rule),
            Some(Verdict::Allowed(_)) | None => {
                answer_event(self.alloc, &mut self.plant, said.event, out)
            }
        }
    }

    #[tactic(auto, using(crate::proofs::Meant::to_fault))]
    fn fault(
        &mut self,
        _line: InputLine<'_>,
        fault: LineFault,
        out: &mut Vec<u8>,
    ) -> Result<(), AllocError> {
        put_fault_line(self.alloc, out, &fault)
    }

    fn no_memory(&self) -> AllocError {
        AllocError
    }

    ghost answers_blank = { λ guarded held line blank. (rw blank (sym (append-nil held)), rw blank refl) };
}
