//! Writing a piece and syncing it.
ghost use Rattle.std.specs.Prelude.{◌≡◌, ◌≤◌, ℕ, List, Some, IfSome, OnOk, length};
ghost use Rattle.pol_io.specs.Causes.{HasCause};
ghost use Rattle.pol_disk.specs.Disks.{BothTell, Holds, LeavesOnly, ToldOn, Torn, spliced};
ghost use Rattle.pol_texts.specs.Settled.{IsSynced};

use pol_disk::Disk;
use pol_io::Failed;

/// Writes a piece at a place and syncs it. Where all was synced before, a crash meanwhile leaves the bytes of before
/// with any bytes in the range.
pub fn put<D: Disk>(disk: &mut D, at: u64, piece: &[u8]) -> Result<(), Failed>
    requires { IfSome (D.bytes disk.old) (λ all. at ≤ length all) }
    ensures moments { (all : List ℕ) → IsSynced (D.bytes disk.old) (D.images disk.old) all
        → LeavesOnly D.moment D.left_since disk.old disk.new (Torn at (length piece.now) all) }
    ensures told { OnOk result (BothTell (Holds at piece.now) (D.bytes disk.old) (D.bytes disk.new)) }
    ensures on { ToldOn (D.bytes disk.old) (D.bytes disk.new) }
    ensures kept { OnOk result ((all : List ℕ) → D.bytes disk.old ≡ Some all
        → IsSynced (D.bytes disk.new) (D.images disk.new) (spliced at piece.now all)) }
    ensures cause { HasCause (D.faults disk.old) (D.faults disk.new) result }
{
    disk.write_at(at, piece)?;
    disk.sync()
}
