//! A replay on a plant that is kept on a disk.

use crate::answering::answer_event;
use crate::fault::DiskFailed;
use event_json::LineFault;
use pol_disk::Disk;
use pol_events::Event;
use pol_io::Sink;
use pol_jobs::{InputLine, LineJob, PutFault, Stop};
use pol_lines::JournalLines;
use pol_record::put_fault_line;
use pol_replay::{Answering, answer_line, close};
use pol_store::Store;
use std::alloc::Global;
use std::convert::Infallible;

/// A replay on a plant that is kept: the event of each line is kept before its answer is handed on, and that before the
/// next line is met. It closes with the line of each batch and the end line. Where the disk fails it stops, and its
/// store is closed.
pub struct Keeping<D: Disk> {
    /// The memory that it takes.
    pub alloc: Global,
    /// The plant and its disk.
    pub store: Store<D>,
}

impl<D: Disk> Answering<JournalLines> for Keeping<D> {
    type Halt = Stop<Infallible, DiskFailed>;

    ghost use Rattle.std.specs.Prelude.{◌≡◌, ◌++◌, true};
    ghost use Rattle.std.proofs.Common.{append-nil, refl, sym};
    ghost use Rattle.kept_jobs.specs.Keeping.{Admits};
    ghost use Rattle.kept_jobs.proofs.Admitting.{untouched};
    ghost use Rattle.pol_core.specs.Plants.{plant_history};
    ghost use Rattle.pol_history.specs.Runs.{events_of};
    ghost use Rattle.pol_jobs.specs.Faults.{FailedSo};
    ghost use Rattle.pol_replay.specs.Replay.{replay_work};
    ghost use Rattle.pol_store.specs.Work.{plant_work};
    ghost use Rattle.pol_keep.specs.Keeping.{kept_plant};

    ghost Answers = { λ before now held holds line.
        (holds ≡ held ++ replay_work.reply (plant_history before.store.plant) line)
        × (plant_history now.store.plant ≡ replay_work.after (plant_history before.store.plant) line)
        × Admits plant_work plant_history (kept_plant before.store) (kept_plant now.store)
        (events_of (replay_work.after (plant_history before.store.plant) line)) };

    ghost Halts = { λ before now line stop.
        Admits plant_work plant_history (kept_plant before.store) (kept_plant now.store)
        (events_of (replay_work.after (plant_history before.store.plant) line))
        × FailedSo (now.store.closed ≡ true) stop };

    #[inline(always)]
    #[tactic(auto, using(pol_replay::proofs::Replied::to_event))]
    fn said(
        &mut self,
        _line: &[u8],
        event: Event,
        out: &mut Vec<u8>,
    ) -> Result<(), Stop<Infallible, DiskFailed>> {
        answer_event(self.alloc, &mut self.store, event, out)
    }

    #[tactic(auto, using(pol_replay::proofs::Replied::to_fault, kept_jobs::proofs::Admitting::untouched))]
    fn fault(
        &mut self,
        _line: InputLine<'_>,
        fault: LineFault,
        out: &mut Vec<u8>,
    ) -> Result<(), Stop<Infallible, DiskFailed>> {
        put_fault_line(self.alloc, out, &fault)?;
        Ok(())
    }

    #[tactic(auto, using(kept_jobs::proofs::Admitting::untouched))]
    fn no_memory(&self) -> Stop<Infallible, DiskFailed> {
        Stop::Memory
    }

    ghost answers_blank = { λ keeping held line blank. (
      rw blank (sym (append-nil held)),
      rw blank refl,
      rw blank (untouched plant_work plant_history (kept_plant keeping.store)
          (events_of (plant_history keeping.store.plant))),
    ) };
}

impl<D: Disk> LineJob for Keeping<D> {
    type Refusal = Infallible;

    type Failure = DiskFailed;

    const SETTLES_EACH: bool = true;

    const HANDS_ON_EACH: bool = true;

    ghost use Rattle.std.specs.Prelude.{◌≡◌, true};

    ghost SETTLES_EACH = { true };

    ghost HANDS_ON_EACH = { true };

    ghost use Rattle.kept_jobs.specs.Going.{goes_nowhere};
    ghost use Rattle.kept_jobs.specs.Keeping.{GoesOn};
    ghost use Rattle.kept_jobs.specs.Telling.{telling};
    ghost use Rattle.pol_core.specs.Plants.{plant_history};
    ghost use Rattle.pol_history.specs.Looking.{History};
    ghost use Rattle.pol_history.specs.Runs.{events_of};
    ghost use Rattle.pol_replay.specs.Replay.{replay_work};
    ghost use Rattle.pol_store.specs.Work.{plant_work};
    ghost use Rattle.pol_keep.specs.Keeping.{plant_state};

    ghost State = { History };

    ghost state = { λ keeping. plant_history keeping.store.plant };

    ghost work = { replay_work };

    ghost Did = { λ first now settled waiting whole.
        GoesOn plant_work replay_work events_of (telling D.bytes D.images D.moment D.left_since D.faults)
        (plant_state first.store) (plant_state now.store) settled waiting whole };

    ghost did_nothing = { λ keeping.
        goes_nowhere plant_work replay_work events_of (telling D.bytes D.images D.moment D.left_since D.faults)
        D.only_now (plant_state keeping.store) };

    ghost HasFailed = { λ keeping. keeping.store.closed ≡ true };

    fn reply(
        &mut self,
        line: InputLine<'_>,
        out: &mut Vec<u8>,
    ) -> Result<(), Stop<Infallible, DiskFailed>> {
        answer_line::<JournalLines, _>(self.alloc, line, self, out)
    }

    fn settle(&mut self) -> Result<(), DiskFailed> {
        match self.store.commit() {
            Ok(()) => Ok(()),
            Err(_fault) => Err(DiskFailed),
        }
    }

    fn end(&mut self) -> Result<(), Stop<Infallible, DiskFailed>> {
        Ok(())
    }

    #[tactic(auto, using(pol_jobs::proofs::Closing::closes_with, pol_jobs::proofs::Closing::closes_part))]
    fn close<K: Sink>(&mut self, sink: &mut K) -> Result<(), PutFault> {
        close(self.alloc, self.store.plant().history(), sink)
    }
}
