//! One module of a plant: docked or away for exchange, with what it reported since it was docked.
//!
//! It knows nothing of other modules, of who holds this one, or of the history: contracts see a slot through
//! `specs/Slots.antt`. Each call answers the first rule that what the slot keeps decides, and changes the slot as an
//! accepted event does; after a refusal the slot is unchanged.
//!
//! Tried in `part_examples`.
#![tactic(auto)]

mod berth;
mod exchange;
mod last_values;
mod refusal;
mod reported;
mod reports;
mod seen;
mod slot;

pub use refusal::SlotRefusal;
pub use slot::Slot;
