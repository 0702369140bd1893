//! Reads the lines of a history back: answers, and entries, each of which is an answer and an event.
//!
//! What `pol_record` writes is read back as the same value, and nothing else is: the number or the name in an object
//! says of which kind the answer is, its fields are read by their keys, and the object has to be the one that the
//! answer is written as. This crate knows nothing of what an event should be answered.
//!
//! Tried in `pol_examples`.
#![tactic(auto)]

mod answers;
mod candidates;
mod comparing;
mod entries;
mod found;
mod same;

pub use answers::{AnswerJson, read_answer};
pub use entries::read_entry;
pub use same::same_answer;
