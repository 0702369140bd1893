//! Who may command a service, and which commands may go to it (VDI/VDE/NAMUR 2658 part 4: operation modes, their
//! sources and `CommandEn`).
//!
//! It knows nothing of recipes, of operators' rights or of what a command does. Which speaker a mode lets command is
//! this project's own table; `specs/Permission.antt` has it, and the four faults in their order.
//!
//! Tried in `mtp_examples`.
#![tactic(auto)]

mod permission;
mod view;

pub use permission::{permitted, speaks};
pub use view::ServiceView;
