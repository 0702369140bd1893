//! The answer to an event, on a kept plant.
ghost use Rattle.std.specs.Prelude.{◌≡◌, ◌++◌, true, IfErr, IsTrue, OnOk};
ghost use Rattle.kept_jobs.specs.Keeping.{Admits};
ghost use Rattle.pol_core.specs.Plants.{plant_history};
ghost use Rattle.pol_events.specs.Events.{plain_event};
ghost use Rattle.pol_events.specs.Orderly.{is_orderly};
ghost use Rattle.pol_history.specs.Answers.{answer_of};
ghost use Rattle.pol_history.specs.Runs.{entry_of, events_of, recorded};
ghost use Rattle.pol_jobs.specs.Faults.{FailedSo};
ghost use Rattle.pol_record.specs.Texts.{answer_text};
ghost use Rattle.pol_store.specs.Work.{plant_work};
ghost use Rattle.pol_keep.specs.Keeping.{kept_plant};

use crate::fault::DiskFailed;
use pol_disk::Disk;
use pol_events::Event;
use pol_jobs::Stop;
use pol_record::put_answer_line;
use pol_store::{Store, StoreRefusal};
use std::alloc::Global;
use std::convert::Infallible;

/// Admits an event, which waits to be kept then, and puts the line of the plant's answer behind what a buffer holds.
#[tactic(auto, using(crate::proofs::Stored::admitted, crate::proofs::Stored::refused))]
pub fn answer_event<D: Disk>(
    alloc: Global,
    store: &mut Store<D>,
    event: Event,
    out: &mut Vec<u8>,
) -> Result<(), Stop<Infallible, DiskFailed>>
    requires { IsTrue (is_orderly (plain_event event)) }
    ensures line { OnOk result (out.new.items
        ≡ out.old.items ++ answer_text (answer_of (plant_history store.old.plant) (plain_event event))) }
    ensures history { OnOk result (plant_history store.new.plant
        ≡ recorded (entry_of (plant_history store.old.plant) (plain_event event)) (plant_history store.old.plant)) }
    ensures admits { Admits plant_work plant_history (kept_plant store.old) (kept_plant store.new) (events_of
        (recorded (entry_of (plant_history store.old.plant) (plain_event event)) (plant_history store.old.plant))) }
    ensures failed { IfErr result (FailedSo (store.new.closed ≡ true)) }
{
    match store.admit(event) {
        Ok(answer) => Ok(put_answer_line(alloc, out, &answer)?),
        Err(StoreRefusal::Memory(_event)) => Err(Stop::Memory),
        Err(StoreRefusal::Disk | StoreRefusal::Closed(_)) => Err(Stop::Failed(DiskFailed)),
    }
}
