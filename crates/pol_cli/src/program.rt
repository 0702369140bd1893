//! From words to a status: what the program does.
ghost use Rattle.std.specs.Prelude.{◌≡◌, ℕ, List};
ghost use Rattle.std.specs.Io.KnownBytes.{Keeps};
ghost use Rattle.pol_arguments.specs.Words.{Means, texts_of};
ghost use Rattle.pol_arguments.specs.declared.Task.{Task};
ghost use Rattle.pol_arguments.specs.declared.Task.TheVariants.{Operate};
ghost use Rattle.pol_cli.specs.Journal.{JournalTheorem, Laws};
ghost use Rattle.pol_cli.specs.Statuses.{IsEnd};
ghost use Rattle.pol_cli.specs.Tasks.{AskForJournal, AskForKept, GoesByWords, TaskEnds};
ghost use Rattle.pol_cli.specs.Worked.{disks, edges, file_of};

use crate::jobs::{export, keep, live, operate, serve};
use crate::laws::laws_hold;
use crate::status::Status;
use pol_arguments::{Task, WordFault, read_words};
use pol_disk::Disk;
use pol_io::{Clock, Sink, SinkFault, Source};
use pol_journal::Extent;
use pol_live::Gate;
use std::alloc::Global;
use std::sync::Wait;
use std::thread::Threads;

/// Does what the words ask for; the first word is the program's name. Words that ask for no task leave the source and
/// the sink as they were. The runtime, the clock and the gate are for the plant alone, which may wait; all other
/// jobs wait for nobody. The disk is for the jobs on the kept plant alone, and the ledger, another disk, for the one on
/// the operated plant; both come back. The file, where one is given, is that of an operated plant, as a source: a
/// journal is then written of it, and not of the disk.
pub fn top<
    R: Threads + Wait + Sync,
    S: Source,
    K: Sink,
    C: Clock + Send,
    G: Gate,
    D: Disk,
    L: Disk,
    F: Source,
>(
    rt: &R,
    alloc: Global,
    words: &[String],
    source: &mut S,
    sink: &mut K,
    clock: C,
    gate: &G,
    disk: D,
    ledger: L,
    file: &mut Option<F>,
) -> (Status, D, L)
    // The task that the words mean ended as its record says: what it wrote, why it ended, what holds of what it wrote.
    ensures ends { (task : Task) → Means (texts_of words.now) task
        → TaskEnds task (edges S.left S.faults source.old source.new) (edges K.held K.faults sink.old sink.new)
        (disks D.bytes D.images D.moment D.left_since D.faults disk result.1)
        (disks L.bytes L.images L.moment L.left_since L.faults ledger result.2)
        (file_of F.left F.faults file.old file.new) result.0 }
    // Which status comes where the words mean a task, and which where they mean none.
    ensures words { GoesByWords (texts_of words.now) (edges S.left S.faults source.old source.new)
        (edges K.held K.faults sink.old sink.new) result.0 }
    // Other tasks than those on the kept plant leave the disk as it was.
    ensures unkept { ¬ AskForKept (texts_of words.now) → result.1 ≡ disk }
    // Other tasks than the one on the operated plant leave the ledger as it was.
    ensures unoperated { ¬ Means (texts_of words.now) Operate → result.2 ≡ ledger }
    // Other tasks than those that write a journal leave the file as it was.
    ensures unexported { ¬ AskForJournal (texts_of words.now) → file.new ≡ file.old }
    // What holds of the history that an input leaves, whatever the input.
    ensures theorem { (bytes : List ℕ) → JournalTheorem bytes }
    // What holds of every legal history, whatever it comes from.
    ensures laws { Laws }
{
    laws_hold();
    match read_words(alloc, words) {
        Ok(Task::Serial(task)) => (serve(alloc, &task, source, sink), disk, ledger),
        Ok(Task::Live(task)) => {
            let status = live(rt, alloc, &task, source, sink, clock, gate);
            (status, disk, ledger)
        }
        Ok(Task::Keep) => {
            let (status, disk) = keep(alloc, source, sink, disk);
            (status, disk, ledger)
        }
        Ok(Task::Export) => {
            let (status, disk) = export(alloc, Extent::Whole, sink, disk, file);
            (status, disk, ledger)
        }
        Ok(Task::Compact) => {
            let (status, disk) = export(alloc, Extent::Compacted, sink, disk, file);
            (status, disk, ledger)
        }
        Ok(Task::Operate) => {
            let (status, ledger) = operate(alloc, source, sink, ledger);
            (status, disk, ledger)
        }
        Err(WordFault::Refused) => (Status::BadWords, disk, ledger),
        Err(WordFault::Memory) => (Status::OutOfMemory, disk, ledger),
    }
}

/// The status of a program whose job ended so, once all that was written is handed on.
pub fn end<K: Sink>(status: Status, sink: &mut K) -> Status
    ensures bytes { Keeps (K.held sink.old) (K.held sink.new) }
    ensures told { IsEnd status (K.faults sink.old) (K.faults sink.new) result }
{
    match sink.flush() {
        Ok(()) => status,
        Err(SinkFault::Failed) => Status::WriteFault,
        Err(SinkFault::Memory) => Status::OutOfMemory,
    }
}
