//! The job on an operated plant.
ghost use Rattle.std.specs.Prelude.{◌≡◌, ◌≢◌, ℕ, List, Some, false, IfErr, IfSome, OnOk};
ghost use Rattle.std.specs.Io.KnownBytes.{Keeps};
ghost use Rattle.kept_jobs.specs.Keeping.{IsKept, job_state};
ghost use Rattle.kept_jobs.specs.Leaving.{KeepsAllLines, KeepsLines, StandsForAnswered, StandsForMore};
ghost use Rattle.kept_jobs.specs.Telling.{telling};
ghost use Rattle.mtp_json.specs.declared.fault.JsonFault.{JsonFault as json_fault};
ghost use Rattle.pol_disk.specs.Disks.{LeavesOnly, ToldOn, told_through};
ghost use Rattle.pol_io.specs.Causes.{Rose};
ghost use Rattle.pol_io.specs.Pieces.{pieces};
ghost use Rattle.pol_jobs.specs.Ends.{Ends, edge};
ghost use Rattle.pol_kept.specs.Opens.{IsNoStore};
ghost use Rattle.pol_kept.specs.Stands.{StandsFor};
ghost use Rattle.pol_ledger.specs.Ledgers.{ledger_state};
ghost use Rattle.pol_ledger.specs.Work.{ledger_work};
ghost use Rattle.pol_operate.specs.Ends.{IsUnopened, OperateEnds, StandsForNoItems, job_result};
ghost use Rattle.pol_operate.specs.Kept.{answers_behind, first_known, items_behind, operate_job, operated};
ghost use Rattle.pol_operate.specs.Operated.{known_items};

use crate::fault::{OperateFault, ended, unopened};
use crate::operating::Operating;
use pol_disk::Disk;
use pol_io::{Sink, Source};
use pol_jobs::work;
use pol_kept::Kept;
use pol_ledger::{Ledger, open};
use std::alloc::Global;

// Meets each line of the source on an open store, closes the output, and hands the disk back.
fn operate_on<S: Source, K: Sink, D: Disk>(
    alloc: Global,
    store: Kept<D, Ledger>,
    source: &mut S,
    sink: &mut K,
) -> (Result<(), OperateFault>, D)
    requires opened { store.closed ≡ false }
    ensures ends { Ends (operated (ledger_state store.chronicle))
        (edge (S.left source.old) (S.faults source.old)) (edge (S.left source.new) (S.faults source.new))
        (edge (K.held sink.old) (K.faults sink.old)) (edge (K.held sink.new) (K.faults sink.new))
        (job_result result.0) }
    ensures disk_cause { IfErr result.0 (λ fault. fault ≡ OperateFault.Disk
        → Rose (D.faults store.disk) (D.faults result.1)) }
    ensures is_ledger { IfErr result.0 (λ fault. (place : ℕ) → fault ≢ OperateFault.NotALedger place) }
    ensures unwritten { IfErr result.0 (λ fault. (reason : json_fault) → fault ≡ OperateFault.BadPolicy reason
        → Keeps (K.held sink.old) (K.held sink.new)) }
    ensures on { ToldOn (D.bytes store.disk) (D.bytes result.1) }
    ensures moments { IsKept ledger_work known_items (telling D.bytes D.images D.moment D.left_since D.faults)
        (job_state (first_known (ledger_state store.chronicle)) store)
        → IfSome (S.left source.old) (λ input. LeavesOnly D.moment D.left_since store.disk result.1
        (StandsForMore ledger_work (items_behind (ledger_state store.chronicle)) input)) }
    ensures kept { IsKept ledger_work known_items (telling D.bytes D.images D.moment D.left_since D.faults)
        (job_state (first_known (ledger_state store.chronicle)) store)
        → IfSome (S.left source.old) (λ input. (image : List ℕ) → D.images result.1 image
        → StandsForAnswered ledger_work (items_behind (ledger_state store.chronicle))
        (answers_behind (ledger_state store.chronicle)) input (K.held sink.old) (K.held sink.new) image) }
    ensures kept_all { OnOk result.0 (IsKept ledger_work known_items
        (telling D.bytes D.images D.moment D.left_since D.faults)
        (job_state (first_known (ledger_state store.chronicle)) store)
        → IfSome (S.left source.old) (λ input. (image : List ℕ) → D.images result.1 image
        → StandsFor ledger_work (items_behind (ledger_state store.chronicle) (pieces input)) image)) }
{
    let mut operating = Operating {
        alloc,
        policy: None,
        store,
    };
    let done = work(alloc, &mut operating, source, sink);
    (ended(done), operating.into_disk())
}

/// Has the source's lines happen in the plant that the disk keeps, under the policy that the first of them says, and
/// keeps each event that is asked for, with who asked for it; the disk comes back. The lines that are there at once
/// are kept as a group before any of them is answered. It opens the disk before it reads the source, and begins a
/// ledger there where none was begun; so where the disk is no ledger nothing is read or written.
///
/// How it ends is one row for each result. `BadPolicy` comes of the first line that isn't blank, or of an input without
/// one, and then nothing was written. `Disk` comes only where the disk's count of faults rose in this call.
/// `NotALedger` comes only where it did not and the disk reads as bytes for which no list of at most 200,001 items
/// stands; and where none at all does, it comes, unless the disk fails or there is no memory. The old items are those
/// that the disk reads as, whatever a crash might leave of it. A crash at any moment of the call leaves what it might
/// have left before, the old items, or these with the header of a new ledger, if it begins one, and the items of the
/// first lines. What is said of the disk's bytes holds where it gives them to the end: where each answer was the one of
/// a disk. At the end each image stands for so many of these that each line whose answer the sink took whole is among
/// them; where all is done, for those of all lines.
pub fn operate<S: Source, K: Sink, D: Disk>(
    alloc: Global,
    source: &mut S,
    sink: &mut K,
    disk: D,
) -> (Result<(), OperateFault>, D)
    ensures ends { OperateEnds (told_through (D.bytes disk) (D.bytes result.1))
        (edge (S.left source.old) (S.faults source.old)) (edge (S.left source.new) (S.faults source.new))
        (edge (K.held sink.old) (K.faults sink.old)) (edge (K.held sink.new) (K.faults sink.new)) result.0 }
    ensures keeps { KeepsLines ledger_work (telling D.bytes D.images D.moment D.left_since D.faults) operate_job
        disk result.1 (S.left source.old) (K.held sink.old) (K.held sink.new) }
    ensures keeps_all { OnOk result.0 (KeepsAllLines ledger_work
        (telling D.bytes D.images D.moment D.left_since D.faults) operate_job disk result.1 (S.left source.old)) }
    ensures disk_cause { IfErr result.0 (λ fault. fault ≡ OperateFault.Disk
        → Rose (D.faults disk) (D.faults result.1)) }
    ensures no_ledger { IfErr result.0 (λ fault. (place : ℕ) → fault ≡ OperateFault.NotALedger place
        → (D.faults result.1 ≡ D.faults disk) × IfSome (D.bytes result.1) (λ all. IsNoStore ledger_work all place)) }
    ensures unread { IfErr result.0 (λ fault. (place : ℕ) → fault ≡ OperateFault.NotALedger place
        → (source.new ≡ source.old) × (sink.new ≡ sink.old)) }
    ensures unwritten { IfErr result.0 (λ fault. (reason : json_fault) → fault ≡ OperateFault.BadPolicy reason
        → Keeps (K.held sink.old) (K.held sink.new)) }
    ensures unopened { (all now : List ℕ) → D.bytes disk ≡ Some all → D.bytes result.1 ≡ Some now
        → StandsForNoItems all → ¬ Rose (D.faults disk) (D.faults result.1) → IsUnopened result.0 }
{
    match open(alloc, disk) {
        Ok((store, image)) => {
            drop(image);
            operate_on(alloc, store, source, sink)
        }
        Err((disk, fault)) => (Err(unopened(fault)), disk),
    }
}
