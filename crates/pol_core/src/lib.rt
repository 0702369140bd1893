//! The plant: the history of all events with their answers, and tables of the state that they lead to.
//!
//! Contracts see a `Plant` as its entries and the number of further entries that it takes without memory
//! (`specs/Plants.antt`). `Plant::apply` answers what `pol_history` defines, and appends the event with its answer; it
//! never searches the history. It knows nothing of lines, texts, threads or clocks.
//!
//! Tried in `plant_examples`.
#![tactic(auto)]

mod answering;
mod batches;
mod binding;
mod commands;
mod docking;
mod exchanges;
mod modules;
mod plant;
mod recipes;
mod seen;
mod settings;
mod standing;
mod started;
mod starting;
mod steps;

pub use commands::Sent;
pub use docking::Docking;
pub use plant::Plant;
pub use standing::Standing;
pub use started::Started;
pub use steps::ActiveStep;
