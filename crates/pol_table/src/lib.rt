//! The table of a plant's docked modules: each part under its tag, and the batch that holds it, and those
//! that watch it.
//!
//! It knows nothing of what a part is, of recipes or of events. `specs/Rows.antt` says what contracts see of a
//! table, `specs/Answers.antt` what its calls answer; holding takes all tags or none, and a release frees exactly
//! the tags of one batch and ends its watches.
//!
//! Tried in `io_examples`.
#![tactic(auto)]

mod faults;
mod holding;
mod holdings;
mod order;
mod seat;
mod table;
mod watch;
mod watching;

pub use faults::{DockFault, HoldFault, LeaveFault};
pub use table::Table;
pub use watch::Watch;
