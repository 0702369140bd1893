//! The job operate: a plant that is kept on a disk, and operated under a policy.
//!
//! Its first line that isn't blank is the policy of the plant, and is answered with how many events the disk keeps,
//! which limits are near, and the sum of the last record. Each other line may name who gives it. It is at fault, or
//! denied, or its event is asked of the ledger of `pol_ledger`, which keeps it with who asked and answers it; where a
//! batch went on and started a step that has settings, these are written with the answer. The lines that are there at
//! once are kept as a group, by two syncs, before any of them is answered. The output closes with the line of each
//! batch, and an end line with the sum of the last record (`specs/Lines.antt`, `specs/Texts.antt`, `specs/Work.antt`).
//!
//! The main contracts are those of `operate`: how it ends (`specs/Ends.antt`), and what a crash leaves on the disk at
//! any moment and at the end (`specs/Kept.antt`, by `kept_jobs`). The laws say that nothing whose answer was taken is
//! lost in however many runs, that whatever a line asks was allowed to whom it names and each denial names its rule
//! (`specs/Laws.antt`), and that the history is the run of the old events and of those that were asked for
//! (`specs/Asked.antt`).
//!
//! It knows nothing of files, words or statuses, nor of how a policy judges or how a record is sealed.
//!
//! Tried in `operate_examples`.
#![tactic(auto)]

mod allowed;
mod asking;
mod closing;
mod fault;
mod history;
mod job;
mod kinds;
mod laws;
mod operating;
mod questions;
mod telling;
mod verdicts;

pub use fault::{DiskFailed, OperateFault};
pub use job::operate;
pub use laws::{
    answers_are_kept, operated_are_guarded, operated_are_runs, questions_change_nothing,
};
pub use operating::Operating;
