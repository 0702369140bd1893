//! Opening a disk.
ghost use Rattle.std.specs.Prelude.{◌≡◌, ℕ, List, Some, IfOk, IfErr, IfSome, OnOk, length};
ghost use Rattle.pol_io.specs.Causes.{HasCauseOf};
ghost use Rattle.pol_disk.specs.Disks.{LeavesOnly, StillTells, ToldOn, Keeps as KeepsImages};
ghost use Rattle.pol_kept.specs.Opens.{Breaks, IsLeftOf, IsOpened, Tells};
ghost use Rattle.pol_kept.specs.Stands.{StandsFor};

use crate::chronicle::Chronicle;
use crate::replaying::replay;
use pol_disk::Disk;
use pol_io::Failed;
use pol_texts::{LoadFault, begin, begins_cut_short, load, settle};
use std::alloc::{AllocError, Global};

/// Why a disk can't be opened.
#[derive(Clone, Copy, Debug, PartialEq, Eq)]
pub enum OpenFault {
    /// There was no memory.
    Memory,
    /// The disk failed.
    Disk,
    /// The disk isn't a store.
    NotAStore {
        /// The place of the first record that isn't one: how many bytes come before it.
        place: u64,
    },
}

impl From<AllocError> for OpenFault {
    ghost use Rattle.std.specs.Prelude.{◌≡◌};
    ghost use Rattle.pol_kept.specs.declared.opening.OpenFault.TheVariants.{Memory};

    ghost from_gives = { λ _ fault. fault ≡ Memory };

    fn from(_error: AllocError) -> OpenFault {
        OpenFault::Memory
    }
}

impl From<Failed> for OpenFault {
    ghost use Rattle.std.specs.Prelude.{◌≡◌};
    ghost use Rattle.pol_kept.specs.declared.opening.OpenFault.TheVariants.{Disk};

    ghost from_gives = { λ _ fault. fault ≡ Disk };

    fn from(_failed: Failed) -> OpenFault {
        OpenFault::Disk
    }
}

// The bytes of a disk that has so many. A disk whose first record is cut short is known by its first bytes, so that a
// large file of another kind needs no memory.
fn load_all<D: Disk, C: Chronicle>(
    alloc: Global,
    disk: &mut D,
    size: u64,
) -> Result<Vec<u8>, OpenFault>
    requires { IfSome (D.bytes disk.old) (λ all. size ≡ length all) }
    ensures read { IfOk result (λ bytes. IfSome (D.bytes disk.new) (λ all. bytes.items ≡ all)) }
    ensures bytes { StillTells (D.bytes disk.old) (D.bytes disk.new) }
    ensures images { KeepsImages (D.images disk.old) (D.images disk.new) }
    ensures moments { LeavesOnly D.moment D.left_since disk.old disk.new (D.images disk.old) }
    ensures cause { HasCauseOf OpenFault.Disk (D.faults disk.old) (D.faults disk.new) result }
    ensures breaks { IfErr result (λ fault. IfSome (D.bytes disk.new) (λ all. Breaks C.work all fault)) }
{
    let cut = begins_cut_short(disk, size)?;
    if cut {
        return Err(OpenFault::NotAStore { place: 0 });
    }
    match load(alloc, disk, size) {
        Ok(bytes) => Ok(bytes),
        Err(LoadFault::Memory) => Err(OpenFault::Memory),
        Err(LoadFault::Disk) => Err(OpenFault::Disk),
    }
}

/// What was found on a disk.
#[derive(Drop)]
pub struct Opened<C> {
    /// The chronicle whose items it keeps.
    pub chronicle: C,
    /// The place of the closed gate behind their records.
    pub end: u64,
    /// The image that was read, an empty one where the disk had at most a byte.
    pub image: Vec<u8>,
}

/// Opens a disk. What is said of the disk's bytes before the call holds where its bytes are known after it too: so each
/// answer was right.
pub fn open_on<D: Disk, C: Chronicle>(alloc: Global, disk: &mut D) -> Result<Opened<C>, OpenFault>
    ensures left { (all now : List ℕ) → D.bytes disk.old ≡ Some all → D.bytes disk.new ≡ Some now
        → LeavesOnly D.moment D.left_since disk.old disk.new (IsLeftOf C.work all (D.images disk.old)) }
    ensures opened { IfOk result (λ done. (all now : List ℕ) → D.bytes disk.old ≡ Some all
        → D.bytes disk.new ≡ Some now
        → IsOpened C.work all (D.bytes disk.new) (D.images disk.new) done.end
        (C.work.items (C.state done.chronicle))) }
    ensures image_read { IfOk result (λ done.
        StandsFor C.work (C.work.items (C.state done.chronicle)) done.image.items) }
    ensures image { OnOk result ((all : List ℕ) → D.bytes disk.old ≡ Some all → D.images disk.old all) }
    ensures on { ToldOn (D.bytes disk.old) (D.bytes disk.new) }
    ensures tells { IfErr result (λ fault. Tells C.work fault
        (D.bytes disk.old) (D.bytes disk.new) (D.faults disk.old) (D.faults disk.new)) }
    ensures cause { HasCauseOf OpenFault.Disk (D.faults disk.old) (D.faults disk.new) result }
{
    let size = settle(disk)?;
    if size <= 1 {
        begin(disk)?;
        return Ok(Opened {
            chronicle: C::new(alloc),
            end: 0,
            image: Vec::new(alloc),
        });
    }
    let image = load_all::<D, C>(alloc, disk, size)?;
    let (chronicle, end) = replay(alloc, &image)?;
    Ok(Opened {
        chronicle,
        end: end as u64,
        image,
    })
}
