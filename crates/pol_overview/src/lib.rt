//! The overview of a plant for whoever operates it: lines of JSON with its state and with parts of its history.
//!
//! `put_entries_line` writes a part of its history (`specs/Entries.antt`), each entry with who asked for its event.
//! `put_plant_line` writes its batches, of the open ones what each step does and what each waits for, its modules with
//! what each service reported last and which commands would go out to it now, the names of its recipes, and the limits
//! that are near, straight from the plant's tables. Each field is what looking back over the history finds
//! (`specs/Overview.antt`, `specs/Modules.antt`, `specs/Batches.antt`, `specs/Steps.antt`, `specs/May.antt`,
//! `specs/Near.antt`). An `Allowing` says which commands may be sent, and the caller says what the plant's file says of
//! itself; the crate knows nothing of policies, files and questions.
//!
//! Tried in `operate_examples`.
#![tactic(auto)]

mod allowing;
mod batches;
mod entries;
mod lists;
mod may;
mod modules;
mod near;
mod overview;
mod services;
mod steps;
mod values;

pub use allowing::Allowing;
pub use entries::{MOST_TOLD, put_entries_line};
pub use near::{near_limits, write_rules};
pub use overview::{FileWords, put_plant_line};
