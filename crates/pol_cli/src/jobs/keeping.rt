//! The job that replays on a kept plant.
ghost use Rattle.pol_cli.specs.Tasks.{KeepingEnds};
ghost use Rattle.pol_cli.specs.Worked.{disks, edges};

use crate::status::{Status, status_of_kept};
use pol_disk::Disk;
use pol_io::{Sink, Source};
use std::alloc::Global;

/// Replays the source on the plant that the disk keeps, and keeps each new event there; the disk comes back. The disk
/// is opened before the source is read, so where it is no store nothing is read or written. It waits for nobody and
/// always returns.
///
/// `DiskFault` comes only where the disk's count of faults rose in this call, and `NotAStore` exactly where it did not
/// and the disk reads as bytes for which no list of at most 200,000 events stands, unless there was no memory.
pub fn keep<S: Source, K: Sink, D: Disk>(
    alloc: Global,
    source: &mut S,
    sink: &mut K,
    disk: D,
) -> (Status, D)
    ensures ends { KeepingEnds (edges S.left S.faults source.old source.new) (edges K.held K.faults sink.old sink.new)
        (disks D.bytes D.images D.moment D.left_since D.faults disk result.1) result.0 }
{
    let (done, disk) = pol_keep::keep(alloc, source, sink, disk);
    (status_of_kept(done), disk)
}
