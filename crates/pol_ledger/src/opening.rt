//! A disk is opened as a ledger.
ghost use Rattle.std.specs.Prelude.{◌≡◌, ◌≢◌, ℕ, List, Some, false, is_some, true, IfErr, IfOk, OnOk};
ghost use Rattle.pol_disk.specs.Disks.{LeavesOnly, ToldOn};
ghost use Rattle.pol_io.specs.Causes.{Rose};
ghost use Rattle.pol_kept.specs.Stands.{StandsFor};
ghost use Rattle.pol_ledger.specs.Ledgers.{ledger_state};
ghost use Rattle.pol_ledger.specs.Opens.{MayBeLeft, OpensAs, StandsOrBegins, Tells, begun_anyway};
ghost use Rattle.pol_ledger.specs.Work.{items_of, ledger_work};

use crate::build::Build;
use crate::items::LedgerItem;
use crate::ledger::Ledger;
use pol_disk::Disk;
use pol_kept::{Kept, KeptRefusal, OpenFault};
use std::alloc::Global;

// Begins a ledger with the header of this build, where none was begun.
fn begin<D: Disk>(store: &mut Kept<D, Ledger>) -> Result<(), OpenFault>
    requires open { store.old.closed ≡ false }
    requires alone { store.old.waiting ≡ 0 }
    ensures begun { OnOk result (ledger_state store.new.chronicle ≡ begun_anyway (ledger_state store.old.chronicle)) }
    ensures open { OnOk result ((store.new.closed ≡ false) × (store.new.waiting ≡ 0)) }
    ensures on { ToldOn (D.bytes store.old.disk) (D.bytes store.new.disk) }
    ensures quiet { OnOk result (D.faults store.new.disk ≡ D.faults store.old.disk) }
    ensures cause { IfErr result (λ fault. fault ≡ OpenFault.Disk
        → Rose (D.faults store.old.disk) (D.faults store.new.disk)) }
    ensures no_place { IfErr result (λ fault. (place : ℕ) → fault ≢ OpenFault.NotAStore place) }
    ensures moments { (all : List ℕ) → D.bytes store.old.disk ≡ Some all
        → LeavesOnly D.moment D.left_since store.old.disk store.new.disk
        (StandsOrBegins (ledger_state store.old.chronicle)) }
    ensures stands { OnOk result ((all : List ℕ) → D.bytes store.old.disk ≡ Some all → (image : List ℕ)
        → D.images store.new.disk image
        → StandsFor ledger_work (items_of (begun_anyway (ledger_state store.old.chronicle))) image) }
{
    if store.chronicle().is_begun() {
        return Ok(());
    }
    match store.admit(LedgerItem::Header(Build::this())) {
        Ok(_answer) => {}
        Err(KeptRefusal::Memory(_item)) => return Err(OpenFault::Memory),
        Err(KeptRefusal::Disk | KeptRefusal::Closed(_)) => return Err(OpenFault::Disk),
    }
    match store.commit() {
        Ok(()) => Ok(()),
        Err(_fault) => Err(OpenFault::Disk),
    }
}

/// Opens a disk as a ledger, whatever a crash, a kill or a failed run left on it, and begins one where none was begun.
/// At Ok each crash from now on leaves its items. What is said of the bytes that the disk gave before holds where it
/// gives them still. Beside the ledger comes the image that was read.
///
/// # Errors
///
/// The disk comes back with the fault. NotAStore names the place of the first record that isn't one that follows.
pub fn open<D: Disk>(alloc: Global, disk: D) -> Result<(Kept<D, Ledger>, Vec<u8>), (D, OpenFault)>
    ensures opened { IfOk result (λ made. (made.0.closed ≡ false) × (made.0.waiting ≡ 0)) }
    ensures begun { IfOk result (λ made. is_some (ledger_state made.0.chronicle) ≡ true) }
    ensures stand { IfOk result (λ made. (now : List ℕ) → D.bytes made.0.disk ≡ Some now → (image : List ℕ)
        → D.images made.0.disk image → StandsFor ledger_work (items_of (ledger_state made.0.chronicle)) image) }
    ensures stood { IfOk result (λ made. (all now : List ℕ) → D.bytes disk ≡ Some all
        → D.bytes made.0.disk ≡ Some now → OpensAs all (ledger_state made.0.chronicle)) }
    ensures image_read { IfOk result (λ made. OpensAs made.1.items (ledger_state made.0.chronicle)) }
    ensures left { (all now : List ℕ) → D.bytes disk ≡ Some all → IfOk result (λ made.
        D.bytes made.0.disk ≡ Some now
        → LeavesOnly D.moment D.left_since disk made.0.disk (MayBeLeft all (D.images disk))) }
    ensures left_err { (all now : List ℕ) → D.bytes disk ≡ Some all → IfErr result (λ back.
        D.bytes back.0 ≡ Some now
        → LeavesOnly D.moment D.left_since disk back.0 (MayBeLeft all (D.images disk))) }
    ensures image { OnOk result ((all : List ℕ) → D.bytes disk ≡ Some all → D.images disk all) }
    ensures on { IfOk result (λ made. ToldOn (D.bytes disk) (D.bytes made.0.disk)) }
    ensures on_err { IfErr result (λ back. ToldOn (D.bytes disk) (D.bytes back.0)) }
    ensures quiet { IfOk result (λ made. D.faults made.0.disk ≡ D.faults disk) }
    ensures tells { IfErr result (λ back. Tells back.1
        (D.bytes disk) (D.bytes back.0) (D.faults disk) (D.faults back.0)) }
    ensures disk_cause { IfErr result (λ back. back.1 ≡ OpenFault.Disk → Rose (D.faults disk) (D.faults back.0)) }
{
    let (mut store, image) = match Kept::<D, Ledger>::open(alloc, disk) {
        Ok(made) => made,
        Err((disk, fault)) => return Err((disk, fault)),
    };
    match begin(&mut store) {
        Ok(()) => Ok((store, image)),
        Err(fault) => {
            let (_ledger, disk) = store.into_parts();
            Err((disk, fault))
        }
    }
}
