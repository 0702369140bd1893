//! Adding texts behind the others.
ghost use Rattle.std.specs.Prelude.{◌≡◌, ◌+◌, ◌-◌, ◌<◌, ◌≤◌, ◌^◌, ◌++◌, ◌∷◌, [], ℕ, List, IfSome, OnOk, length};
ghost use Rattle.pol_io.specs.Causes.{HasCause};
ghost use Rattle.pol_disk.specs.Disks.{LeavesOnly, ToldOn};
ghost use Rattle.pol_texts.specs.Settled.{AreAlike, IsGroup, IsSettled, IsSynced};
ghost use Rattle.pol_texts.specs.Stands.{Stands, StandsWithAllOrNone};

use crate::gate::{CLOSED_GATE, OPEN_GATE};
use crate::putting::put;
use pol_disk::Disk;
use pol_io::Failed;

/// Writes what goes behind the closed gate at `end` for a group of texts, their records but the first gate and the next
/// closed gate, and then opens the gate. A crash meanwhile leaves the texts of before, or these and all of the group.
/// It makes two syncs, however many texts there are.
pub fn add<D: Disk>(disk: &mut D, end: u64, behind: &[u8]) -> Result<(), Failed>
    requires { (end < 2 ^ 64 - 1) × IfSome (D.bytes disk.old) (λ all. end < length all) }
    ensures moments { (texts group : List (List ℕ)) → IsGroup group behind.now
        → IsSettled (D.bytes disk.old) (D.images disk.old) end texts
        → LeavesOnly D.moment D.left_since disk.old disk.new (StandsWithAllOrNone texts group) }
    ensures kept { OnOk result ((texts group : List (List ℕ)) → IsGroup group behind.now
        → IsSettled (D.bytes disk.old) (D.images disk.old) end texts
        → IsSettled (D.bytes disk.new) (D.images disk.new) (end + length behind.now) (texts ++ group)) }
    ensures told { OnOk result (AreAlike (D.bytes disk.old) (D.bytes disk.new)) }
    ensures on { ToldOn (D.bytes disk.old) (D.bytes disk.new) }
    ensures cause { HasCause (D.faults disk.old) (D.faults disk.new) result }
{
    put(disk, end + 1, behind)?;
    put(disk, end, &[OPEN_GATE])
}

/// Makes a disk of at most one byte a store without texts: one closed gate.
pub fn begin<D: Disk>(disk: &mut D) -> Result<(), Failed>
    ensures moments { (all : List ℕ) → length all ≤ 1 → IsSynced (D.bytes disk.old) (D.images disk.old) all
        → LeavesOnly D.moment D.left_since disk.old disk.new (λ image. Stands image []) }
    ensures kept { OnOk result ((all : List ℕ) → length all ≤ 1 → IsSynced (D.bytes disk.old) (D.images disk.old) all
        → IsSettled (D.bytes disk.new) (D.images disk.new) 0 []) }
    ensures told { OnOk result (AreAlike (D.bytes disk.old) (D.bytes disk.new)) }
    ensures on { ToldOn (D.bytes disk.old) (D.bytes disk.new) }
    ensures cause { HasCause (D.faults disk.old) (D.faults disk.new) result }
{
    put(disk, 0, &[CLOSED_GATE])
}
