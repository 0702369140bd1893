//! The operator's desk: decides whether a command of the operator's may go to a service, and makes the entry that says
//! that it went.
//!
//! It knows nothing of plants, batches or what a module then does with the command. `desk` answers exactly the first
//! fault of the command by the service's last report, as `specs/Desk.antt` says.
//!
//! Tried in `part_examples`.
#![tactic(auto)]

mod asking;

pub use asking::desk;
