//! Syncing a disk and measuring it.
ghost use Rattle.std.specs.Prelude.{◌≡◌, ℕ, List, Some, IfOk, IfSome, OnOk, length};
ghost use Rattle.pol_io.specs.Causes.{HasCause};
ghost use Rattle.pol_disk.specs.Disks.{Keeps, LeavesOnly, StillTells};
ghost use Rattle.pol_texts.specs.Settled.{IsSynced};

use pol_disk::Disk;
use pol_io::Failed;

/// Syncs a disk, and says how many bytes it has.
pub fn settle<D: Disk>(disk: &mut D) -> Result<u64, Failed>
    ensures number { IfOk result (λ number. IfSome (D.bytes disk.new) (λ all. number ≡ length all)) }
    ensures synced { OnOk result ((all : List ℕ) → D.bytes disk.new ≡ Some all
        → IsSynced (D.bytes disk.new) (D.images disk.new) all) }
    ensures image { OnOk result ((all : List ℕ) → D.bytes disk.old ≡ Some all → D.images disk.old all) }
    ensures bytes { StillTells (D.bytes disk.old) (D.bytes disk.new) }
    ensures images { Keeps (D.images disk.old) (D.images disk.new) }
    ensures moments { LeavesOnly D.moment D.left_since disk.old disk.new (D.images disk.old) }
    ensures cause { HasCause (D.faults disk.old) (D.faults disk.new) result }
{
    disk.sync()?;
    disk.len()
}
