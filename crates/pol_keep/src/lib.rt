//! The job keep: a replay of lines on a plant that is kept on a disk. It goes on from the events that the disk reads
//! as, and keeps each new one before it is answered.
//!
//! Its answers are those of the run of the old and the new events, and then come the lines of that whole run
//! (`specs/Kept.antt`). It is one of the jobs on kept items of `kept_jobs` (`specs/Keeping.antt`): a crash at any
//! moment leaves the old events and those of the first lines, and at the end at least those that were answered; so over
//! many runs, each ended by a crash, no answered event is lost. The disk is opened before the source is read. The kept
//! events are written out as the lines of a journal by `export`, each text just as the disk has it, or those alone that
//! stay where they are compacted (`specs/Exported.antt`).
//!
//! Tried in `pol_examples`.
#![tactic(auto)]

mod answering;
mod exporting;
mod fault;
mod job;
mod keeping;
mod laws;

pub use exporting::export;
pub use fault::KeepFault;
pub use job::keep;
pub use laws::{answers_are_kept, journals_are_replayed};
