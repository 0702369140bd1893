//! The finder as a job over lines.
ghost use Rattle.std.specs.Prelude.{◌≡◌, OnOk, IsTrue};
ghost use Rattle.pol_core.specs.Plants.{plant_history};
ghost use Rattle.pol_events.specs.Events.{plain_event};
ghost use Rattle.pol_events.specs.Orderly.{is_orderly};
ghost use Rattle.pol_history.specs.Runs.{entry_of, recorded};
ghost use Rattle.pol_find.specs.Finding.{known_by, nothing_known};

use crate::telling::close;
use event_json::LineFault;
use pol_core::Plant;
use pol_events::Event;
use pol_io::Sink;
use pol_jobs::{InputLine, LineJob, PutFault, Stop};
use pol_lines::JournalLines;
use pol_replay::{Answering, answer_line};
use std::alloc::{AllocError, Global};
use std::convert::Infallible;

// Lets the plant answer an event.
#[inline(always)]
fn apply(plant: &mut Plant, event: Event) -> Result<(), AllocError>
    requires { IsTrue (is_orderly (plain_event event)) }
    ensures { OnOk result (plant_history plant.new
        ≡ recorded (entry_of (plant_history plant.old) (plain_event event)) (plant_history plant.old)) }
{
    match plant.apply(event) {
        Ok(_answer) => Ok(()),
        Err((_event, error)) => Err(error),
    }
}

/// A finder: it replays a journal, replies nothing, and closes with the line of each recipe and the last line.
#[derive(Drop)]
pub struct Finding {
    alloc: Global,
    plant: Plant,
    bad: u64,
}

impl Finding {
    /// A finder that has read nothing yet.
    pub fn new(alloc: Global) -> Finding
        ensures { known_by result ≡ nothing_known }
    {
        Finding {
            alloc,
            plant: Plant::new(alloc),
            bad: 0,
        }
    }
}

impl Answering<JournalLines> for Finding {
    type Halt = AllocError;

    ghost use Rattle.std.specs.Prelude.{◌≡◌, ⊤, refl};
    ghost use Rattle.pol_find.specs.Finding.{find_work, known_by};

    ghost Answers = { λ before now held holds line.
        (holds ≡ held) × (known_by now ≡ find_work.after (known_by before) line) };

    ghost Halts = { λ _ _ _ _. ⊤ };

    #[inline(always)]
    #[tactic(auto, using(crate::proofs::Replayed::after_event))]
    fn said(&mut self, _line: &[u8], event: Event, _out: &mut Vec<u8>) -> Result<(), AllocError> {
        apply(&mut self.plant, event)
    }

    #[tactic(auto, using(crate::proofs::Replayed::after_fault))]
    fn fault(
        &mut self,
        _line: InputLine<'_>,
        _fault: LineFault,
        _out: &mut Vec<u8>,
    ) -> Result<(), AllocError> {
        self.bad = self.bad.saturating_add(1);
        Ok(())
    }

    fn no_memory(&self) -> AllocError {
        AllocError
    }

    ghost answers_blank = { λ finding held line blank. (refl, rw blank refl) };
}

impl LineJob for Finding {
    type Refusal = Infallible;

    type Failure = Infallible;

    const SETTLES_EACH: bool = true;

    const HANDS_ON_EACH: bool = false;

    ghost use Rattle.std.specs.Prelude.{⊤, false, true};
    ghost use Rattle.pol_find.specs.Finding.{Known, find_work, known_by};

    ghost SETTLES_EACH = { true };

    ghost HANDS_ON_EACH = { false };

    ghost State = { Known };

    ghost state = { known_by };

    ghost work = { find_work };

    ghost Did = { λ _ _ _ _ _. ⊤ };

    ghost did_nothing = { λ _. tt };

    ghost HasFailed = { λ _. ⊤ };

    fn reply(
        &mut self,
        line: InputLine<'_>,
        out: &mut Vec<u8>,
    ) -> Result<(), Stop<Infallible, Infallible>> {
        answer_line::<JournalLines, _>(self.alloc, line, self, out)?;
        Ok(())
    }

    fn settle(&mut self) -> Result<(), Infallible> {
        Ok(())
    }

    fn end(&mut self) -> Result<(), Stop<Infallible, Infallible>> {
        Ok(())
    }

    fn close<K: Sink>(&mut self, sink: &mut K) -> Result<(), PutFault> {
        close(self.alloc, &self.plant, self.bad, sink)
    }
}
