//! The jobs.
ghost use Rattle.std.specs.Prelude.{ℕ, List};
ghost use Rattle.pol_cli.specs.Journal.{JournalTheorem, Laws};
ghost use Rattle.pol_cli.specs.Tasks.{SerialEnds};
ghost use Rattle.pol_cli.specs.Worked.{edges};

mod attesting;
mod auditing;
mod demo;
mod exporting;
mod keeping;
mod operating;
mod plant;
mod site_text;

use crate::laws::laws_hold;
use crate::status::{Status, Wanted, status_of, status_wanting};
use attesting::attest;
use auditing::Auditing;
use demo::demonstrate;
pub use exporting::export;
pub use keeping::keep;
pub use operating::operate;
pub use plant::live;
use pol_arguments::SerialTask;
use pol_find::Finding;
use pol_guard::Guarding;
use pol_io::{Sink, Source};
use pol_jobs::work;
use pol_migration::Migrating;
use pol_replay::Replay;
use std::alloc::Global;

/// Does the task. A replay answers each line of the source, and then writes the line of each batch and the end line. A
/// demo answers a journal of its own, and writes how many answers there were; the source isn't read. An audit reads
/// what the plant prints, and writes whether it is a true history; one that attests writes too how many bytes it read
/// and their SHA-256. A finder writes no answers, and then for each recipe how it could be bound now. A guard answers a
/// journal under the policy in its first line. A migration writes a journal of version 1 as one of version 2. It waits
/// for nobody and always returns.
pub fn serve<S: Source, K: Sink>(
    alloc: Global,
    task: &SerialTask,
    source: &mut S,
    sink: &mut K,
) -> Status
    ensures ends { SerialEnds task.now (edges S.left S.faults source.old source.new)
        (edges K.held K.faults sink.old sink.new) result }
    ensures theorem { (bytes : List ℕ) → JournalTheorem bytes }
    ensures laws { Laws }
{
    laws_hold();
    match task {
        SerialTask::Replay => status_of(work(alloc, &mut Replay::new(alloc), source, sink)),
        SerialTask::Demo(seed) => status_of(demonstrate(alloc, *seed, sink)),
        SerialTask::Audit => status_of(work(alloc, &mut Auditing::new(alloc), source, sink)),
        SerialTask::Attest => status_of(attest(alloc, source, sink)),
        SerialTask::Find => status_of(work(alloc, &mut Finding::new(alloc), source, sink)),
        SerialTask::Guard => status_wanting(
            Wanted::Policy,
            work(alloc, &mut Guarding::new(alloc), source, sink),
        ),
        SerialTask::Migrate => status_of(work(alloc, &mut Migrating::new(alloc), source, sink)),
    }
}
