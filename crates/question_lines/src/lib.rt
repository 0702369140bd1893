//! Reading the lines that ask something of a plant and change nothing in it.
//!
//! `is_question` tells such a line from an event's by its front, without a tree (`specs/Front.antt`), and
//! `read_question` gives what it asks, or its first fault in reading order (`specs/Questions.antt`). A question may ask
//! what an event would be answered; this event is read as a line of `named_lines`. A fault of the event is no fault of
//! the question: the fault is what the event's line would be answered. This crate knows nothing of a plant, or of how a
//! question is answered.
//!
//! Tried in `event_examples`.
#![tactic(auto)]

mod fields;
mod front;
mod kind;
mod question;
mod reading;

pub use front::is_question;
pub use question::Question;
pub use reading::read_question;
