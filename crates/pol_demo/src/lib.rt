//! The demo: a journal is made from a seed, event by event, and applied to a plant, and the history is summed up in one
//! line.
//!
//! Eight modules are docked, and up to 120 batches run on them, one after another, with 1,000 values each. It knows
//! nothing of lines that are read, of words or of sinks. Its main contract is that of `demo_line`: the line is the
//! summary of what `pol_history` answers to the journal (`specs/Journal.antt`, `specs/Summary.antt`).
//!
//! Tried in `plant_examples`.
#![tactic(auto)]

mod doser;
mod journal;
mod names;
mod sequence;
mod summary;
mod telling;

pub use summary::demo_line;
