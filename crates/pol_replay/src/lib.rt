//! The replay of a journal as a job over lines, and what other jobs over journals take from it: what a line says, and
//! the lines that close an output. All of them answer a line by `answer_line`, each by the form of its lines.
//!
//! A replay knows the history of its plant: it replies to a line with the fault's or the answer's line, and closes with
//! the line of each batch and the end line (`specs/Replay.antt`); so its output is the defined output of its input.
//!
//! Tried in `pol_examples`.
#![tactic(auto)]

mod answering;
mod closing;
mod replay;

pub use answering::{Answering, answer_line, is_some_line};
pub use closing::{close, close_with};
pub use replay::{Replay, answer_event};
