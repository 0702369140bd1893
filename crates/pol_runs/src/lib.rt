//! One batch: its chart, its binds, how far it has come, which steps were held, and whether it is frozen, stopped or
//! closed.
//!
//! It knows nothing of modules, of other batches or of a history: what is seen of modules comes through
//! `chart_cursor::Seen`. A run keeps no log. It stands for logs by a relation (`Follows` in `specs/Logs.antt`), and
//! where a clause speaks of the log, it holds of every log that the run stands for. What `would` and `advance` answer
//! is what comes next by definition (`next_by` of `chart_cursor`) for each such log, and after it the run stands for
//! the log that this leaves. Only a new run, and the lists of its active steps and of its waiting nodes, take memory.
//!
//! Tried in `part_examples`.
#![tactic(auto)]

mod course;
mod freeze;
mod holds;
mod next;
mod run;

pub use course::Course;
pub use freeze::Freeze;
pub use holds::Holds;
pub use run::Run;
