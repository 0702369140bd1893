//! The job on a kept plant.
ghost use Rattle.std.specs.Prelude.{◌≡◌, ◌≢◌, ℕ, List, Some, false, IfErr, IfSome, OnOk};
ghost use Rattle.kept_jobs.specs.Keeping.{IsKept};
ghost use Rattle.kept_jobs.specs.Leaving.{KeepsAllLines, KeepsLines, StandsForAnswered, StandsForMore};
ghost use Rattle.kept_jobs.specs.Telling.{telling};
ghost use Rattle.pol_core.specs.Plants.{plant_history};
ghost use Rattle.pol_disk.specs.Disks.{LeavesOnly, ToldOn, told_through};
ghost use Rattle.pol_history.specs.Runs.{IsLegal, events_of};
ghost use Rattle.pol_io.specs.Causes.{Rose};
ghost use Rattle.pol_io.specs.Pieces.{pieces};
ghost use Rattle.pol_jobs.specs.Ends.{Ends, edge};
ghost use Rattle.pol_store.specs.Opens.{IsNoStore};
ghost use Rattle.pol_store.specs.Stands.{StandsFor, StandsForNone};
ghost use Rattle.pol_store.specs.Work.{plant_work};
ghost use Rattle.pol_keep.specs.Keeping.{plant_job, plant_state};
ghost use Rattle.pol_keep.specs.Kept.{IsUnopened, KeepEnds, answers_with, events_with, job_result, kept_output};

use crate::fault::{KeepFault, ended, unopened};
use crate::keeping::Keeping;
use pol_disk::Disk;
use pol_io::{Sink, Source};
use pol_jobs::work;
use pol_store::Store;
use std::alloc::Global;

// Replies to each line of the source on an open store, closes the output, and hands the disk back.
fn keep_on<S: Source, K: Sink, D: Disk>(
    alloc: Global,
    store: Store<D>,
    source: &mut S,
    sink: &mut K,
) -> (Result<(), KeepFault>, D)
    requires legal { IsLegal (plant_history store.plant) }
    requires opened { store.closed ≡ false }
    ensures ends { Ends (kept_output (events_of (plant_history store.plant)))
        (edge (S.left source.old) (S.faults source.old)) (edge (S.left source.new) (S.faults source.new))
        (edge (K.held sink.old) (K.faults sink.old)) (edge (K.held sink.new) (K.faults sink.new))
        (job_result result.0) }
    ensures disk_cause { IfErr result.0 (λ fault. fault ≡ KeepFault.Disk
        → Rose (D.faults store.disk) (D.faults result.1)) }
    ensures is_store { IfErr result.0 (λ fault. (place : ℕ) → fault ≢ KeepFault.NotAStore place) }
    ensures on { ToldOn (D.bytes store.disk) (D.bytes result.1) }
    ensures moments { IsKept plant_work events_of (telling D.bytes D.images D.moment D.left_since D.faults)
        (plant_state store) → IfSome (S.left source.old) (λ input. LeavesOnly D.moment D.left_since store.disk result.1
        (StandsForMore plant_work (events_with (events_of (plant_history store.plant))) input)) }
    ensures kept { IsKept plant_work events_of (telling D.bytes D.images D.moment D.left_since D.faults)
        (plant_state store) → IfSome (S.left source.old) (λ input. (image : List ℕ) → D.images result.1 image
        → StandsForAnswered plant_work (events_with (events_of (plant_history store.plant)))
        (answers_with (events_of (plant_history store.plant))) input (K.held sink.old) (K.held sink.new) image) }
    ensures kept_all { OnOk result.0 (IsKept plant_work events_of
        (telling D.bytes D.images D.moment D.left_since D.faults) (plant_state store)
        → IfSome (S.left source.old) (λ input. (image : List ℕ) → D.images result.1 image
        → StandsFor (events_with (events_of (plant_history store.plant)) (pieces input)) image)) }
{
    let mut keeping = Keeping { alloc, store };
    let done = work(alloc, &mut keeping, source, sink);
    let Keeping { alloc: _, store } = keeping;
    let (_plant, disk) = store.into_parts();
    (ended(done), disk)
}

/// Replays the source on the plant that the disk keeps, and keeps each new event there; the disk comes back. It opens
/// the disk before it reads the source, so where the disk is no store nothing is read or written.
///
/// How it ends is one row for each result. `Disk` comes only where the disk's count of faults rose in this call, and
/// `NotAStore` exactly where it did not and the disk reads as bytes for which no list of at most 200,000 events stands,
/// unless there was no memory. The old events are those that the disk reads as, whatever a crash might leave of it. A
/// crash at any moment of the call leaves what it might have left before, or the old events and the new ones of the
/// first lines. What is said of the disk's bytes holds where it gives them to the end: where each answer was the one of
/// a disk. At the end each image stands for so many of these that each line whose answer the sink took whole is among
/// them; where all is done, for those of all lines.
pub fn keep<S: Source, K: Sink, D: Disk>(
    alloc: Global,
    source: &mut S,
    sink: &mut K,
    disk: D,
) -> (Result<(), KeepFault>, D)
    ensures ends { KeepEnds kept_output (told_through (D.bytes disk) (D.bytes result.1))
        (edge (S.left source.old) (S.faults source.old)) (edge (S.left source.new) (S.faults source.new))
        (edge (K.held sink.old) (K.faults sink.old)) (edge (K.held sink.new) (K.faults sink.new)) result.0 }
    ensures keeps { KeepsLines plant_work (telling D.bytes D.images D.moment D.left_since D.faults) plant_job
        disk result.1 (S.left source.old) (K.held sink.old) (K.held sink.new) }
    ensures keeps_all { OnOk result.0 (KeepsAllLines plant_work
        (telling D.bytes D.images D.moment D.left_since D.faults) plant_job disk result.1 (S.left source.old)) }
    ensures disk_cause { IfErr result.0 (λ fault. fault ≡ KeepFault.Disk → Rose (D.faults disk) (D.faults result.1)) }
    ensures no_store { IfErr result.0 (λ fault. (place : ℕ) → fault ≡ KeepFault.NotAStore place
        → (D.faults result.1 ≡ D.faults disk) × IfSome (D.bytes result.1) (λ all. IsNoStore all place)) }
    ensures unread { IfErr result.0 (λ fault. (place : ℕ) → fault ≡ KeepFault.NotAStore place
        → (source.new ≡ source.old) × (sink.new ≡ sink.old)) }
    ensures unopened { (all now : List ℕ) → D.bytes disk ≡ Some all → D.bytes result.1 ≡ Some now → StandsForNone all
        → ¬ Rose (D.faults disk) (D.faults result.1) → IsUnopened result.0 }
{
    match Store::open(alloc, disk) {
        Ok((store, image)) => {
            drop(image);
            keep_on(alloc, store, source, sink)
        }
        Err((disk, fault)) => (Err(unopened(fault)), disk),
    }
}
