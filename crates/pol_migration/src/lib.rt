//! The migration of a journal from version 1 to version 2, which keeps its answers.
//!
//! In version 2 the line of a freeze has the field `hold`, and nothing else is new. `specs/Migration.antt` defines the
//! migrated journal; a law says that a replay of it writes what a replay of the old one wrote, without the fault lines.
//! `Migrating` is the job that writes it, line by line; it reads a line as the replay does, and asks no plant.
//!
//! Tried in `pol_examples`.
#![tactic(auto)]

mod laws;
mod migrating;

pub use laws::migration_keeps_outputs;
pub use migrating::Migrating;
