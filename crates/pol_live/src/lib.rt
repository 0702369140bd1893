//! The running plant: its actors take their turns on one value, the locked plant, which has everything that a turn
//! needs. One turn applies at most one event, stamped by the clock in that turn.
//!
//! Contracts see a locked plant as its history, who made each entry, and its clock (`specs/Turns.antt`). By its type
//! the history is legal and follows its site, each change has its command, and the status board shows it, whatever
//! turns were taken. A turn that rests shows that its actor is settled.
//!
//! Tried in `live_examples`.
#![tactic(auto)]

mod acting;
mod actor_kind;
mod cast;
mod closing;
mod concerns;
mod entering;
mod gate;
mod job;
mod live;
mod locked;
mod notes;
mod rounds;
mod run;
mod seat;
mod turned;
mod turns;

pub use actor_kind::actors_of;
pub use closing::Strayed;
pub use gate::{Gate, OpenGate};
pub use job::Job;
pub use live::LivePlant;
pub use locked::LockedPlant;
pub use run::{Ran, SeatOf, run_in_turn, run_site};
pub use seat::ActorSeat;
pub use turned::{Placed, Turned};
