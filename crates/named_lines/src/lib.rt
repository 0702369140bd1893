//! The lines of a journal in which any event may name who gives it, by the key `by`; a command of the desk must.
//!
//! `read_named` gives the event that a line says and who gives it, or the first fault in reading order
//! (`specs/Named.antt`): `by` is asked behind the kind and the stamp, and the rest, without `by`, is read as a line of
//! a journal. So a line that names nobody says what it says in a journal (`unnamed_lines_are_alike`), and a line that
//! is read under a policy says the same here (`desk_lines_are_alike`, `guarded_lines_are_alike`); and whoever is said
//! to give an event is whom `by` names (`persons_are_named`), someone for each command of the desk
//! (`desk_commands_are_named`). `NamedLines` is this form of lines for the jobs over journals. The form of an event of
//! each kind is that of `event_json`; this crate knows nothing of a plant or of a policy.
//!
//! Tried in `event_examples`.
#![tactic(auto)]

mod kinds;
mod laws;
mod lines;
mod named;
mod person;

pub use laws::{
    desk_commands_are_named, desk_lines_are_alike, guarded_lines_are_alike, persons_are_named,
    unnamed_lines_are_alike,
};
pub use lines::NamedLines;
pub use named::{Named, named_from, read_named};
pub use person::name_if;
