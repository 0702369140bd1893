//! The jobs that write the events of a plant as a journal.
ghost use Rattle.pol_cli.specs.Tasks.{ExportEnds, ExtractingEnds, WritesJournal};
ghost use Rattle.pol_cli.specs.Worked.{disks, edges, file_of};

use crate::status::{Status, status_of_extracted, status_of_kept};
use pol_disk::Disk;
use pol_io::{Sink, Source};
use pol_journal::Extent;
use std::alloc::Global;

// Writes the events that the disk keeps, which is opened before.
fn export_kept<K: Sink, D: Disk>(
    alloc: Global,
    extent: Extent,
    sink: &mut K,
    disk: D,
) -> (Status, D)
    ensures ends { ExportEnds extent (edges K.held K.faults sink.old sink.new)
        (disks D.bytes D.images D.moment D.left_since D.faults disk result.1) result.0 }
{
    let (done, disk) = pol_keep::export(alloc, extent, sink, disk);
    (status_of_kept(done), disk)
}

// Writes the events of the ledger whose bytes the file gives; the disk stays as it is.
fn export_operated<K: Sink, D: Disk, F: Source>(
    alloc: Global,
    extent: Extent,
    sink: &mut K,
    disk: D,
    file: &mut F,
) -> (Status, D)
    ensures ends { ExtractingEnds extent (edges F.left F.faults file.old file.new)
        (edges K.held K.faults sink.old sink.new)
        (disks D.bytes D.images D.moment D.left_since D.faults disk result.1) result.0 }
{
    let done = pol_extract::extract(alloc, extent, file, sink);
    (status_of_extracted(done), disk)
}

/// Writes the events of the plant of a folder as lines, in order: all of them, or those that stay where they are
/// compacted. Where the file of an operated plant is given, it is that plant, and its file is read to its end before
/// anything is written; else it is the one that the disk keeps, which comes back, and is opened before. It waits for
/// nobody and always returns.
///
/// Of the disk `DiskFault` and `NotAStore` come where they come of `keep`. A crash at any moment leaves what it might
/// have left before, or what the disk read as; where all is good, that is there at the end. Of the file `DiskFault`
/// comes where it can't be read, and `NotALedger` where its bytes are those of no ledger.
pub fn export<K: Sink, D: Disk, F: Source>(
    alloc: Global,
    extent: Extent,
    sink: &mut K,
    disk: D,
    file: &mut Option<F>,
) -> (Status, D)
    ensures ends { WritesJournal extent (edges K.held K.faults sink.old sink.new)
        (disks D.bytes D.images D.moment D.left_since D.faults disk result.1)
        (file_of F.left F.faults file.old file.new) result.0 }
{
    match file {
        Some(file) => export_operated(alloc, extent, sink, disk, file),
        None => export_kept(alloc, extent, sink, disk),
    }
}
