//! A file, as a store sees it.
ghost use Rattle.std.specs.Prelude.{◌≡◌, ◌<◌, ◌≤◌, ℕ, List, length, IfOk, IfSome, OnOk};
ghost use Rattle.std.specs.declared.option.Option.{Option};
ghost use Rattle.std.specs.Io.{ReadsAtMost};
ghost use Rattle.pol_io.specs.Causes.{HasCause};
ghost use Rattle.pol_disk.specs.Disks.{BothTell, Elapses, Follows, Holds, IsImage, Keeps, Only, Reads, StillTells, Torn};

use pol_io::Failed;

/// A disk: bytes that are read and written at any place, and that outlive a crash once they are synced. A call fails
/// only where the count of faults rose in it. Where a length or a read differs from the bytes that were known, no bytes
/// are known any more; so a call answered by the bytes that are known after it.
pub trait Disk {
    /// The bytes that reads give, where they are known. After a sync failed they needn't be.
    ghost bytes: { Self → Option (List ℕ) };

    /// The images: what a crash now may leave. A disk whose bytes aren't known may leave anything.
    ghost images: { Self → List ℕ → Type 0 };

    /// The moment: a count that never falls.
    ghost moment: { Self → ℕ };

    /// What a crash at some moment since that one might have left, within a call or between two.
    ghost left_since: { Self → ℕ → List ℕ → Type 0 };

    /// How often the disk has failed; it never falls.
    ghost faults: { Self → ℕ };

    /// How many bytes there are.
    fn len(&mut self) -> Result<u64, Failed>
        ensures number { IfOk result (λ number. IfSome (bytes self.new) (λ all. number ≡ length all)) }
        ensures bytes { StillTells (bytes self.old) (bytes self.new) }
        ensures images { Keeps (images self.old) (images self.new) }
        ensures image { IsImage (bytes self.new) (images self.new) }
        ensures time { Elapses (moment self.old) (moment self.new)
            (left_since self.old) (left_since self.new) (images self.new) }
        ensures cause { HasCause (faults self.old) (faults self.new) result };

    /// Fills the front of the slice with the bytes from a place on, and says with how many: at least one, where the
    /// slice has room.
    fn read(&mut self, at: u64, into: &mut [u8]) -> Result<usize, Failed>
        requires { IfSome (bytes self.old) (λ all. at < length all) }
        ensures bound { ReadsAtMost result into.new }
        ensures progress { 0 < length into.old → IfOk result (λ count. 0 < count) }
        ensures read { IfOk result (λ count. IfSome (bytes self.new) (Reads at count into.new)) }
        ensures bytes { StillTells (bytes self.old) (bytes self.new) }
        ensures images { Keeps (images self.old) (images self.new) }
        ensures image { IsImage (bytes self.new) (images self.new) }
        ensures time { Elapses (moment self.old) (moment self.new)
            (left_since self.old) (left_since self.new) (images self.new) }
        ensures cause { HasCause (faults self.old) (faults self.new) result };

    /// Writes a piece at a place, over what is there and past the end. Until a sync succeeds, a crash may leave any
    /// bytes there. After `Failed` the piece is written in part, or not at all.
    fn write_at(&mut self, at: u64, piece: &[u8]) -> Result<(), Failed>
        requires { IfSome (bytes self.old) (λ all. at ≤ length all) }
        ensures written { OnOk result (BothTell (Holds at piece.now) (bytes self.old) (bytes self.new)) }
        ensures part { BothTell (Torn at (length piece.now)) (bytes self.old) (bytes self.new) }
        ensures images { Follows (Torn at (length piece.now)) (images self.old) (images self.new) }
        ensures image { IsImage (bytes self.new) (images self.new) }
        ensures time { Elapses (moment self.old) (moment self.new)
            (left_since self.old) (left_since self.new) (images self.new) }
        ensures cause { HasCause (faults self.old) (faults self.new) result };

    /// After it a crash leaves what reads give, and nothing else. After `Failed` nothing more may be known of a disk
    /// until it is opened anew: a kernel may take for written what never reached the device, so that reads give it, and
    /// no later sync brings it there.
    fn sync(&mut self) -> Result<(), Failed>
        ensures durable { OnOk result (IfSome (bytes self.old) (λ all. Only all (images self.new))) }
        ensures bytes { OnOk result (bytes self.new ≡ bytes self.old) }
        ensures still { StillTells (bytes self.old) (bytes self.new) }
        ensures images { Keeps (images self.old) (images self.new) }
        ensures image { IsImage (bytes self.new) (images self.new) }
        ensures time { Elapses (moment self.old) (moment self.new)
            (left_since self.old) (left_since self.new) (images self.new) }
        ensures cause { HasCause (faults self.old) (faults self.new) result };

    /// This moment is one of those since an earlier one.
    ghost counts_now: { (disk : Self) (t : ℕ) (image : List ℕ) → t ≤ moment disk → images disk image
        → left_since disk t image };

    /// Since this moment there is no other.
    ghost only_now: { (disk : Self) (image : List ℕ) → left_since disk (moment disk) image → images disk image };
}
