//! The exchange of parts: a part is either docked or away for exchange, and its type says which.
//!
//! A docked part can be used; one that is away can only come back or be replaced, and either needs the ticket under
//! which it left. With a wrong ticket everything is handed back. The crate knows nothing of modules, of descriptions or
//! of what happens elsewhere between the two moments.
//!
//! Tried in `io_examples`.
#![tactic(auto)]

mod away;
mod docked;

pub use away::{Away, WrongTicket};
pub use docked::Docked;
