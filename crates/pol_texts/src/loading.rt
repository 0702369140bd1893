//! The first bytes of a disk, and all of them.
ghost use Rattle.std.specs.Prelude.{◌≡◌, ◌+◌, ◌<◌, ◌≤◌, IfOk, IfErr, IfSome, OnOk, length, take, drop};
ghost use Rattle.pol_io.specs.Causes.{HasCause, HasCauseOf};
ghost use Rattle.pol_disk.specs.Disks.{Elapses, Keeps, LeavesOnly, StillTells};

use pol_disk::Disk;
use pol_io::Failed;
use std::alloc::{AllocError, Global};

/// Why the bytes of a disk can't be read.
#[derive(Clone, Copy, Debug, PartialEq, Eq)]
pub enum LoadFault {
    /// There was no memory.
    Memory,
    /// The disk failed.
    Disk,
}

impl From<AllocError> for LoadFault {
    ghost use Rattle.pol_texts.specs.declared.loading.LoadFault.TheVariants.{Memory};

    ghost from_gives = { λ _ fault. fault ≡ Memory };

    fn from(_error: AllocError) -> LoadFault {
        LoadFault::Memory
    }
}

impl From<Failed> for LoadFault {
    ghost use Rattle.pol_texts.specs.declared.loading.LoadFault.TheVariants.{Disk};

    ghost from_gives = { λ _ fault. fault ≡ Disk };

    fn from(_failed: Failed) -> LoadFault {
        LoadFault::Disk
    }
}

// Reads into the part of the slice that isn't filled yet.
fn read_behind<D: Disk>(disk: &mut D, bytes: &mut [u8], filled: usize) -> Result<usize, Failed>
    requires near { IfSome (D.bytes disk.old) (λ all. filled < length all) }
    requires room { filled < length bytes.old }
    ensures front { take filled bytes.new ≡ take filled bytes.old }
    ensures bound { IfOk result (λ count. filled + count ≤ length bytes.new) }
    ensures some { IfOk result (λ count. 0 < count) }
    ensures read { IfOk result (λ count. IfSome (D.bytes disk.new)
        (λ all. take count (drop filled bytes.new) ≡ take count (drop filled all))) }
    ensures bytes { StillTells (D.bytes disk.old) (D.bytes disk.new) }
    ensures images { Keeps (D.images disk.old) (D.images disk.new) }
    ensures time { Elapses (D.moment disk.old) (D.moment disk.new)
        (D.left_since disk.old) (D.left_since disk.new) (D.images disk.new) }
    ensures cause { HasCause (D.faults disk.old) (D.faults disk.new) result }
{
    disk.read(filled as u64, &mut bytes[filled..])
}

/// Fills the slice with the first bytes of a disk that has so many.
pub fn read_front<D: Disk>(disk: &mut D, bytes: &mut [u8]) -> Result<(), Failed>
    requires { IfSome (D.bytes disk.old) (λ all. length bytes.old ≤ length all) }
    ensures read { OnOk result (IfSome (D.bytes disk.new) (λ all. bytes.new ≡ take (length bytes.old) all)) }
    ensures bytes { StillTells (D.bytes disk.old) (D.bytes disk.new) }
    ensures images { Keeps (D.images disk.old) (D.images disk.new) }
    ensures moments { LeavesOnly D.moment D.left_since disk.old disk.new (D.images disk.old) }
    ensures cause { HasCause (D.faults disk.old) (D.faults disk.new) result }
{
    let mut filled = 0;
    while filled < bytes.len() {
        filled += read_behind(disk, bytes, filled)?;
    }
    Ok(())
}

/// Reads all bytes of a disk that has so many.
pub fn load<D: Disk>(alloc: Global, disk: &mut D, size: u64) -> Result<Vec<u8>, LoadFault>
    requires { IfSome (D.bytes disk.old) (λ all. size ≡ length all) }
    ensures read { IfOk result (λ bytes. IfSome (D.bytes disk.new) (λ all. bytes.items ≡ all)) }
    ensures bytes { StillTells (D.bytes disk.old) (D.bytes disk.new) }
    ensures images { Keeps (D.images disk.old) (D.images disk.new) }
    ensures moments { LeavesOnly D.moment D.left_since disk.old disk.new (D.images disk.old) }
    ensures cause { HasCauseOf LoadFault.Disk (D.faults disk.old) (D.faults disk.new) result }
{
    let mut bytes = Vec::new(alloc);
    bytes.resize(size as usize, 0)?;
    read_front(disk, &mut bytes)?;
    Ok(bytes)
}
