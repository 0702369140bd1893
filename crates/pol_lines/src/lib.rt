//! Reading the lines of a journal fast. A compact line is read without a tree, whatever the order of its keys: a flat
//! one, of numbers, names, texts and truth values; one with a description, whose variables come behind its services;
//! and a recipe, whose chart comes behind its roles. In a chart the condition of a step comes in front of its other
//! keys or behind its settings, and the condition of a loop behind its node. All other lines are read by `read_event`,
//! which answers each fault; `read_fault` answers those of most flat lines sooner.
//!
//! A journal's lines have one of three forms, each an implementer of `LineForm`: those of a journal, those of one under
//! a policy, in which a command of the desk names who gives it, and those of version 1.
//!
//! `read_line` has the contract of `read_event`. The readers below it are sound and not complete: each says that the
//! text begins with what JSON writes of a value (`specs/Begins.antt`), of which the form gives what was found. An
//! object is read member by member, from cut to cut (`specs/Objects.antt`).
//!
//! Tried in `event_examples`.
#![tactic(auto)]

mod conditions;
mod descriptions;
mod desk;
mod events;
mod faults;
mod fields;
mod flat;
mod forms;
mod guarded;
mod journal;
mod key;
mod kinds;
mod leaf;
mod lists;
mod modules;
mod no_json;
mod nodes;
mod objects;
mod params;
mod parts;
mod pieces;
mod reading;
mod recipes;
mod roles;
mod services;
mod spots;
mod steps;
mod version_1;

pub use faults::read_fault;
pub use forms::LineForm;
pub use guarded::GuardedLines;
pub use journal::JournalLines;
pub use reading::{read_line, read_quick};
pub use version_1::LinesOfVersion1;
