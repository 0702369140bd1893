//! The vocabulary of modular plants: names, short texts, the states and commands of the service state machine with
//! their codes, operation modes, the values that modules report and take, and how many of each a plant holds.
//!
//! It knows nothing of the state machine's edges, of permission, of descriptions or of any text form.
//! Contracts see a `Name` and a `Short` as their bytes; a code is what the tables in `specs/Codes.antt` say.
//!
//! Tried in `mtp_examples`.
#![tactic(auto)]

mod command;
mod cover;
mod limits;
mod mode;
mod name;
mod short;
mod state;
mod value;

pub use command::Command;
pub use cover::CoverFault;
pub use limits::{LONGEST_HISTORY, MOST_BATCHES, MOST_BINDS, MOST_MODULES, MOST_RECIPES};
pub use mode::{Forbid, Mode, Origin, Speaker};
pub use name::Name;
pub use short::Short;
pub use state::State;
pub use value::{Reading, Setting, Value};
