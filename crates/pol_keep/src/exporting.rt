//! The events of a kept plant, written as the lines of a journal.
ghost use Rattle.std.specs.Prelude.{◌≡◌, ◌≢◌, ◌++◌, ◌∷◌, [], ℕ, List, Some, IfErr, IfSome, OnErr, OnOk};
ghost use Rattle.std.specs.Io.KnownBytes.{Appends};
ghost use Rattle.kept_jobs.specs.Leaving.{HoldsAll, HoldsOn};
ghost use Rattle.kept_jobs.specs.Telling.{telling};
ghost use Rattle.pol_core.specs.Plants.{plant_history};
ghost use Rattle.pol_disk.specs.Disks.{told_through};
ghost use Rattle.pol_events.specs.Events.{PlainEvent};
ghost use Rattle.pol_history.specs.Runs.{events_of};
ghost use Rattle.pol_io.specs.Causes.{HasCauseOf, Rose};
ghost use Rattle.pol_jobs.specs.Ends.{Ends, edge};
ghost use Rattle.pol_jobs.specs.Written.{WritesPart};
ghost use Rattle.pol_journal.specs.Journals.{StopsWithin, journal_events, journal_text};
ghost use Rattle.pol_store.specs.Opens.{IsNoStore};
ghost use Rattle.pol_store.specs.Stands.{StandsFor, StandsForNone};
ghost use Rattle.pol_store.specs.Work.{plant_work};
ghost use Rattle.pol_keep.specs.Exported.{exported_output, no_input};
ghost use Rattle.pol_keep.specs.Kept.{IsUnopened, KeepEnds, job_result};

use crate::fault::{KeepFault, put_ended, unopened};
use pol_disk::Disk;
use pol_io::Sink;
use pol_jobs::{PutFault, put};
use pol_journal::{Extent, put_if_enough, put_journal};
use pol_store::{Store, first_text};
use std::alloc::{AllocError, Global};

// Puts a text as a line behind what a buffer holds.
fn put_line(lines: &mut Vec<u8>, text: &[u8]) -> Result<(), AllocError>
    ensures { OnOk result (lines.new.items ≡ lines.old.items ++ (text.now ++ 10 ∷ [])) }
{
    lines.extend_from_slice(text)?;
    lines.push(b'\n')?;
    Ok(())
}

// Writes the text of each event that an image stands for as a line.
fn put_lines<K: Sink>(alloc: Global, image: &[u8], sink: &mut K) -> Result<(), PutFault>
    ensures text { (events : List PlainEvent) → StandsFor events image.now
        → OnOk result (Appends (K.held sink.old) (K.held sink.new) (journal_text events)) }
    ensures part { (events : List PlainEvent) → StandsFor events image.now
        → OnErr result (WritesPart (K.held sink.old) (K.held sink.new) (journal_text events)) }
    ensures cause { HasCauseOf PutFault.Write (K.faults sink.old) (K.faults sink.new) result }
{
    let mut lines = Vec::new(alloc);
    let mut rest = image;
    while let Some((text, behind)) = first_text(rest) {
        put_line(&mut lines, text)?;
        put_if_enough(&mut lines, sink)?;
        rest = behind;
    }
    put(sink, &lines)
}

// Writes the lines of the events of an open store that a journal of this extent has. A journal of all of them is made
// of the texts in the image that was read of the store.
fn put_extent<K: Sink, D: Disk>(
    alloc: Global,
    extent: Extent,
    store: &Store<D>,
    image: &[u8],
    sink: &mut K,
) -> Result<(), PutFault>
    requires { StandsFor (events_of (plant_history store.now.plant)) image.now }
    ensures text { OnOk result (Appends (K.held sink.old) (K.held sink.new)
        (journal_text (journal_events extent (events_of (plant_history store.now.plant))))) }
    ensures part { OnErr result (StopsWithin K.held sink.old sink.new
        (journal_text (journal_events extent (events_of (plant_history store.now.plant))))) }
    ensures cause { HasCauseOf PutFault.Write (K.faults sink.old) (K.faults sink.new) result }
{
    match extent {
        Extent::Whole => put_lines(alloc, image, sink),
        Extent::Compacted => put_journal(alloc, extent, store.plant().history(), sink),
    }
}

// Writes the journal of an open store, of which this image was read, and hands the disk back.
fn export_from<K: Sink, D: Disk>(
    alloc: Global,
    extent: Extent,
    store: Store<D>,
    image: &[u8],
    sink: &mut K,
) -> (Result<(), KeepFault>, D)
    requires { StandsFor (events_of (plant_history store.plant)) image.now }
    ensures ends { Ends (exported_output extent (events_of (plant_history store.plant))) no_input no_input
        (edge (K.held sink.old) (K.faults sink.old)) (edge (K.held sink.new) (K.faults sink.new))
        (job_result result.0) }
    ensures no_disk { IfErr result.0 (λ fault. fault ≢ KeepFault.Disk) }
    ensures is_store { IfErr result.0 (λ fault. (place : ℕ) → fault ≢ KeepFault.NotAStore place) }
    ensures disk { result.1 ≡ store.disk }
{
    let done = put_extent(alloc, extent, &store, image, sink);
    let (_plant, disk) = store.into_parts();
    (put_ended(done), disk)
}

/// Writes each event that the disk keeps as its line, in order, or those alone that stay where they are compacted; the
/// disk comes back. It opens the disk first, so where the disk is no store nothing is written. A replay of the lines of
/// all answers as the events were answered, where none of the lines is too long, nor all of them together
/// (`journals_are_replayed`); what those that stay still say is the law `compaction_keeps_answers` of `pol_compaction`.
///
/// How it ends is one row for each result, with no input. `Disk` comes only where the disk's count of faults rose in
/// this call, and `NotAStore` exactly where it did not and the disk reads as bytes for which no list of at most 200,000
/// events stands, unless there was no memory. A crash at any moment of the call leaves what it might have left before,
/// or the events that the disk reads as; where all is done, each image at the end stands for these.
pub fn export<K: Sink, D: Disk>(
    alloc: Global,
    extent: Extent,
    sink: &mut K,
    disk: D,
) -> (Result<(), KeepFault>, D)
    ensures ends { KeepEnds (exported_output extent) (told_through (D.bytes disk) (D.bytes result.1)) no_input no_input
        (edge (K.held sink.old) (K.faults sink.old)) (edge (K.held sink.new) (K.faults sink.new)) result.0 }
    ensures holds { HoldsOn plant_work (telling D.bytes D.images D.moment D.left_since D.faults) disk result.1 }
    ensures holds_all { OnOk result.0 (HoldsAll plant_work (telling D.bytes D.images D.moment D.left_since D.faults)
        disk result.1) }
    ensures disk_cause { IfErr result.0 (λ fault. fault ≡ KeepFault.Disk → Rose (D.faults disk) (D.faults result.1)) }
    ensures no_store { IfErr result.0 (λ fault. (place : ℕ) → fault ≡ KeepFault.NotAStore place
        → (D.faults result.1 ≡ D.faults disk) × IfSome (D.bytes result.1) (λ all. IsNoStore all place)) }
    ensures unwritten { IfErr result.0 (λ fault. (place : ℕ) → fault ≡ KeepFault.NotAStore place
        → sink.new ≡ sink.old) }
    ensures unopened { (all now : List ℕ) → D.bytes disk ≡ Some all → D.bytes result.1 ≡ Some now → StandsForNone all
        → ¬ Rose (D.faults disk) (D.faults result.1) → IsUnopened result.0 }
{
    match Store::open(alloc, disk) {
        Ok((store, image)) => export_from(alloc, extent, store, &image, sink),
        Err((disk, fault)) => (Err(unopened(fault)), disk),
    }
}
