//! Audits a history: works out the answer to an event by looking back in the history, plainly and in a second way
//! beside the plant's, and gives the verdict over the lines of a history.
//!
//! The job audit is built on this crate, and the worked journals are answered by it a second time, beside the program
//! (`pol_examples`).
//!
//! The main contracts are those of `says`, which answers as `pol_history` defines; of `judge`, which finds the first
//! wrong answer of a history; and of `Audit`, which is fed the lines of a history and gives the verdict that
//! `specs/Verdict.antt` defines. Each value is searched among the entries of the history that concern it, which an
//! index lists (`specs/Placed.antt`); the index also has what each service and each variable reported last, by its tag
//! and name (`specs/Told.antt`), and a cursor that goes along the run of each open batch (`specs/Followed.antt`). This
//! crate knows nothing of plants and their tables, of sources and sinks, threads or clocks.
//!
//! Each rule that can refuse an event is the function of its name: in `module_rules` where a module's past decides it,
//! in `batch_rules` where recipes, batches or holders do, in `start_rules` where it asks about the binds of a start.
//! The order of the rules of each kind of event is in `answers`.
//!
//! Tried in `plant_examples`.
#![tactic(auto)]

ghost use Rattle.pol_audit.specs.Truth.{GoodIsTrue};

mod answers;
mod audit;
mod batch_rules;
mod batches;
mod closing;
mod cursors;
mod entries;
mod following;
mod freezes;
mod held_steps;
mod judging;
mod lists;
mod log;
mod module_rules;
mod modules;
mod past;
mod places;
mod recipes;
mod sights;
mod standings;
mod start_rules;
mod tails;
mod told;

pub use answers::says;
pub use audit::Audit;
pub use judging::{Judged, MOST_JUDGED, judge};

/// Where the verdict over some lines is good, the history that their entries spell is legal and its events are as a
/// line says them.
pub fn good_verdicts_are_true()
    ensures { GoodIsTrue }
{}
