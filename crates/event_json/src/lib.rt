//! Reading and writing the lines of a journal: which event a line says, and how events, refusals and their fields are
//! written.
//!
//! The form of each of the fifteen kinds of line is in `specs/Forms.antt`. `read_event` gives the event that a line
//! says, or the first fault in reading order, and last the fault of a recipe's chart; each text of the value that
//! `event_value` writes is a line that says the same event. `read_guarded` reads the lines of a journal whose commands
//! of the desk name who asks, and `read_event_of_version_1` those of a journal of version 1. What a line says is
//! orderly (`lines_are_orderly`). What an event is, `pol_events` defines; this crate knows nothing of a plant.
//!
//! Tried in `event_examples`.
#![tactic(auto)]

mod batches;
mod binds;
mod blank;
mod control;
mod fault;
mod fields;
mod guarded;
mod kind;
mod laws;
mod modules;
mod reading;
mod recipes;
mod rule_table;
mod version_1;
mod words;
mod writing;
mod written_batches;
mod written_binds;
mod written_modules;
mod written_recipes;

pub use binds::{BindsJson, binds_or_none};
pub use blank::is_blank;
pub use fault::{LineFault, LineRefusal};
pub use fields::{Field, FieldValue, Fields, MOST_FIELDS};
pub use guarded::{Guarded, read_guarded};
pub use kind::{EventKind, KindWords};
pub use laws::lines_are_orderly;
pub use reading::{event_from, read_event};
pub use rule_table::{RuleRow, rule_row};
pub use version_1::read_event_of_version_1;
pub use words::{mode_word, origin_word};
pub use writing::event_value;
pub use written_binds::write_binds;
