//! The replay of a journal.
ghost use Rattle.std.specs.Prelude.{◌≡◌, ◌++◌, [], IsTrue, OnOk};
ghost use Rattle.pol_events.specs.Events.{plain_event};
ghost use Rattle.pol_events.specs.Orderly.{is_orderly};
ghost use Rattle.pol_history.specs.Answers.{answer_of};
ghost use Rattle.pol_history.specs.Runs.{entry_of, recorded};
ghost use Rattle.pol_record.specs.Texts.{answer_text};
ghost use Rattle.pol_core.specs.Plants.{plant_history};

use crate::answering::{Answering, answer_line};
use crate::closing::close;
use event_json::LineFault;
use pol_core::Plant;
use pol_events::Event;
use pol_io::Sink;
use pol_jobs::{InputLine, LineJob, PutFault, Stop};
use pol_lines::JournalLines;
use pol_record::{put_answer_line, put_fault_line};
use std::alloc::{AllocError, Global};
use std::convert::Infallible;

/// Puts the line of the plant's answer to an event behind what a buffer holds. The event is recorded, unless the
/// history is full.
#[inline(always)]
pub fn answer_event(
    alloc: Global,
    plant: &mut Plant,
    event: Event,
    out: &mut Vec<u8>,
) -> Result<(), AllocError>
    requires { IsTrue (is_orderly (plain_event event)) }
    ensures line { OnOk result (out.new.items
        ≡ out.old.items ++ answer_text (answer_of (plant_history plant.old) (plain_event event))) }
    ensures history { OnOk result (plant_history plant.new
        ≡ recorded (entry_of (plant_history plant.old) (plain_event event)) (plant_history plant.old)) }
{
    match plant.apply(event) {
        Ok(answer) => put_answer_line(alloc, out, &answer),
        Err((_event, error)) => Err(error),
    }
}

/// A replay: it answers each line of a journal, and closes with the line of each batch and the end line.
#[derive(Drop)]
pub struct Replay {
    alloc: Global,
    plant: Plant,
}

impl Replay {
    /// A replay that has read nothing yet.
    pub fn new(alloc: Global) -> Replay
        ensures { plant_history result.plant ≡ [] }
    {
        Replay {
            alloc,
            plant: Plant::new(alloc),
        }
    }
}

impl Answering<JournalLines> for Replay {
    type Halt = AllocError;

    ghost use Rattle.std.specs.Prelude.{◌≡◌, ◌++◌, ⊤};
    ghost use Rattle.std.proofs.Common.{append-nil, refl, sym};
    ghost use Rattle.pol_core.specs.Plants.{plant_history};
    ghost use Rattle.pol_replay.specs.Replay.{replay_work};

    ghost Answers = { λ before now held holds line.
        (holds ≡ held ++ replay_work.reply (plant_history before.plant) line)
        × (plant_history now.plant ≡ replay_work.after (plant_history before.plant) line) };

    ghost Halts = { λ _ _ _ _. ⊤ };

    #[inline(always)]
    #[tactic(auto, using(crate::proofs::Replied::to_event))]
    fn said(&mut self, _line: &[u8], event: Event, out: &mut Vec<u8>) -> Result<(), AllocError> {
        answer_event(self.alloc, &mut self.plant, event, out)
    }

    #[tactic(auto, using(crate::proofs::Replied::to_fault))]
    fn fault(
        &mut self,
        _line: InputLine<'_>,
        fault: LineFault,
        out: &mut Vec<u8>,
    ) -> Result<(), AllocError> {
        put_fault_line(self.alloc, out, &fault)
    }

    fn no_memory(&self) -> AllocError {
        AllocError
    }

    ghost answers_blank = { λ replay held line blank. (rw blank (sym (append-nil held)), rw blank refl) };
}

impl LineJob for Replay {
    type Refusal = Infallible;

    type Failure = Infallible;

    const SETTLES_EACH: bool = true;

    const HANDS_ON_EACH: bool = false;

    ghost use Rattle.std.specs.Prelude.{⊤, false, true};
    ghost use Rattle.pol_history.specs.Looking.{History};
    ghost use Rattle.pol_core.specs.Plants.{plant_history};
    ghost use Rattle.pol_replay.specs.Replay.{replay_work};

    ghost SETTLES_EACH = { true };

    ghost HANDS_ON_EACH = { false };

    ghost State = { History };

    ghost state = { λ replay. plant_history replay.plant };

    ghost work = { replay_work };

    ghost Did = { λ _ _ _ _ _. ⊤ };

    ghost did_nothing = { λ _. tt };

    ghost HasFailed = { λ _. ⊤ };

    fn reply(
        &mut self,
        line: InputLine<'_>,
        out: &mut Vec<u8>,
    ) -> Result<(), Stop<Infallible, Infallible>> {
        answer_line::<JournalLines, _>(self.alloc, line, self, out)?;
        Ok(())
    }

    fn settle(&mut self) -> Result<(), Infallible> {
        Ok(())
    }

    fn end(&mut self) -> Result<(), Stop<Infallible, Infallible>> {
        Ok(())
    }

    #[tactic(auto, using(pol_jobs::proofs::Closing::closes_with, pol_jobs::proofs::Closing::closes_part))]
    fn close<K: Sink>(&mut self, sink: &mut K) -> Result<(), PutFault> {
        close(self.alloc, self.plant.history(), sink)
    }
}
