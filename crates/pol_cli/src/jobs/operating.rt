//! The job on an operated plant.
ghost use Rattle.pol_cli.specs.Tasks.{OperatingEnds};
ghost use Rattle.pol_cli.specs.Worked.{disks, edges};

use crate::laws::laws_hold;
use crate::status::{Status, status_of_operated};
use pol_disk::Disk;
use pol_io::{Sink, Source};
use std::alloc::Global;

/// Has the lines of the source happen in the plant that the ledger keeps, under the policy that the first of them says,
/// and keeps what they ask for, with who asked; the ledger's disk comes back. The disk is opened before the source is
/// read, so where it is no ledger nothing is read or written. It waits for nobody and always returns.
///
/// `BadPolicy` comes of the first line that isn't blank, or of an input without one. `DiskFault` comes only where the
/// disk's count of faults rose in this call. `NotALedger` comes only where it did not and the disk reads as bytes for
/// which no list of at most 200,001 items stands; and where none at all does, it comes, unless the disk fails or there
/// is no memory.
pub fn operate<S: Source, K: Sink, D: Disk>(
    alloc: Global,
    source: &mut S,
    sink: &mut K,
    ledger: D,
) -> (Status, D)
    ensures ends { OperatingEnds (edges S.left S.faults source.old source.new)
        (edges K.held K.faults sink.old sink.new)
        (disks D.bytes D.images D.moment D.left_since D.faults ledger result.1) result.0 }
{
    laws_hold();
    let (done, ledger) = pol_operate::operate(alloc, source, sink, ledger);
    (status_of_operated(done), ledger)
}
