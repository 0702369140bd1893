//! The state machine of a service (VDI/VDE/NAMUR 2658 part 4): where each command leads, which states change by
//! themselves, which changes are edges, and which states are at rest.
//!
//! It knows nothing of modes, of who may command, of descriptions or of any text form. The edges are a profile of
//! this project after part 4; `specs/Machine.antt` lists them, and every answer here is what those lists say.
//!
//! Tried in `mtp_examples`.
#![tactic(auto)]

mod edges;
mod masks;
mod rest;

pub use edges::{by_command, by_itself, edge, edges_are_51};
pub use masks::enabled_from;
pub use rest::is_at_rest;
