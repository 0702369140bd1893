//! The status board: one publisher stores words, and readers load them without ever waiting.
//!
//! A word says the state that a service reported last, beside a number that only rises. What a reader finds at a word
//! is what it saw or learnt of there before, or something newer: `Reader::read` never goes back. The crate knows
//! nothing of plants, modules, threads or locks: who publishes what, and when, is said where a board is used.
//!
//! Tried in `io_examples`.
#![tactic(auto)]

mod board;
mod joining;
mod publisher;
mod reader;
mod rule;
mod word;

pub use board::Board;
pub use joining::joins_keep_the_rule;
pub use publisher::Publisher;
pub use reader::Reader;
pub use rule::{BoardRule, Remembered};
