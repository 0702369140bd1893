//! The events of a plant, the plant's answers, the rules by which it refuses an event, and the pairs of an event and
//! its answer that a history is made of.
//!
//! An event that a line says is orderly (`specs/Orderly.antt`): charts are valid, and no role of a start occurs twice,
//! held or watched. This crate knows no text form (that is `event_json`), and nothing of the plant's state: which
//! answer an event gets is defined in `pol_history`.
//!
//! Tried in `event_examples`.
#![tactic(auto)]

mod answer;
mod bound;
mod event;
mod laws;
mod subject;

pub use answer::{Answer, Rule};
pub use bound::{Allocation, bound_role, bound_tag, shares_a_role};
pub use chart_core::{Next, Outcome};
pub use event::{Bind, Entry, Event};
pub use laws::roles_are_given_once;
pub use subject::Subject;
