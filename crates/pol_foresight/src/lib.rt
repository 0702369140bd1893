//! Foresight: what the plant would answer to an event now, without applying it.
//!
//! It uses only read-only calls of the plant, and knows nothing of its tables, of lines or of who asks. `would_answer`
//! answers each kind of event as `pol_history` defines it, looks at no entry of the history, and takes no memory.
//!
//! Tried in `plant_examples`.
#![tactic(auto)]

mod answering;
mod batches;
mod exchanges;
mod modules;
mod recipes;

pub use answering::would_answer;
