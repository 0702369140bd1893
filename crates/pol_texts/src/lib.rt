//! Texts kept on a disk, one after another: each is there whole or not at all, whenever a crash comes.
//!
//! A record is a gate byte, eight bytes with the text's length, and the text; behind the last record comes a closed
//! gate (`specs/Stands.antt`). Texts are added as a group, of one or of many, in two steps, each written and synced:
//! first what goes behind the closed gate, up to the next closed one, and then the gate is opened. A crash leaves all
//! of the group or none of it (`specs/Settled.antt`). It knows nothing of what the texts say.
//!
//! Tried in `pol_examples`.
#![tactic(auto)]

mod adding;
mod finding;
mod gate;
mod loading;
mod peeking;
mod putting;
mod settling;
mod staging;

pub use adding::{add, begin};
pub use finding::{Found, find};
pub use gate::CLOSED_GATE;
pub use loading::{LoadFault, load};
pub use peeking::begins_cut_short;
pub use settling::settle;
pub use staging::stage;
