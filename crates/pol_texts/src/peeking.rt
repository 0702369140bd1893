//! What the first bytes of a disk show.
ghost use Rattle.std.specs.Prelude.{◌≡◌, ℕ, List, IfOk, IfSome, length, take};
ghost use Rattle.std.specs.Bool.{Decides};
ghost use Rattle.pol_io.specs.Causes.{HasCause};
ghost use Rattle.pol_disk.specs.Disks.{Keeps, LeavesOnly, StillTells};
ghost use Rattle.pol_texts.specs.Finds.{IsFound};

use crate::finding::{Found, LENGTH_BYTES};
use crate::gate::CLOSED_GATE;
use crate::loading::read_front;
use pol_disk::Disk;
use pol_io::Failed;

// How many bytes come before the text of a record.
const GATE_AND_LENGTH: usize = 1 + LENGTH_BYTES;

// Whether an image that has so many bytes begins neither with a closed gate nor with a record. The bytes that come
// before the text of a first record show it.
fn is_cut_short(front: &[u8], size: u64) -> bool
    ensures { (image : List ℕ) → front.now ≡ take 9 image → size ≡ length image
        → Decides result (IsFound image Found.Neither) }
{
    let Some((gate, body)) = front.split_first() else {
        return true;
    };
    if *gate == CLOSED_GATE {
        return false;
    }
    match body.split_first_chunk::<LENGTH_BYTES>() {
        None => true,
        Some((text_size, _)) => {
            u64::from_be_bytes(*text_size) > size.saturating_sub(GATE_AND_LENGTH as u64)
        }
    }
}

/// Whether a disk that has so many bytes begins neither with a closed gate nor with a record. It reads no more of them
/// than come before the text of a first record, and needs no memory.
pub fn begins_cut_short<D: Disk>(disk: &mut D, size: u64) -> Result<bool, Failed>
    requires { IfSome (D.bytes disk.old) (λ all. size ≡ length all) }
    ensures told { IfOk result (λ cut. IfSome (D.bytes disk.new) (λ all. Decides cut (IsFound all Found.Neither))) }
    ensures bytes { StillTells (D.bytes disk.old) (D.bytes disk.new) }
    ensures images { Keeps (D.images disk.old) (D.images disk.new) }
    ensures moments { LeavesOnly D.moment D.left_since disk.old disk.new (D.images disk.old) }
    ensures cause { HasCause (D.faults disk.old) (D.faults disk.new) result }
{
    let mut bytes = [0; GATE_AND_LENGTH];
    let front = &mut bytes[..GATE_AND_LENGTH.min(size as usize)];
    read_front(disk, front)?;
    Ok(is_cut_short(front, size))
}
