//! A plant whose events are kept on a disk, each whole or not at all, whenever a crash comes.
//!
//! Its main contracts are those of `Store::open`, which finds again what the disk keeps, of `Store::admit`, which
//! answers as the plant does, and of `Store::commit`, which keeps all that were admitted, by two syncs; `Store::apply`
//! is both for one event (`specs/Keeping.antt`). `specs/Stands.antt` says which events an image of the disk stands
//! for, and `first_text` cuts their texts from it, one after another. All of it is `pol_kept` over a plant: what this
//! crate adds is the text of an event, the compact JSON that a journal's line has (`specs/Work.antt`). It knows nothing
//! of files, of lines of input, or of where answers go.
//!
//! Tried in `pol_examples`.
#![tactic(auto)]

mod chronicle;
mod cutting;
mod laws;
mod records;
mod store;
mod writing;

pub use cutting::first_text;
pub use laws::{histories_are_runs, images_stand_for_one_list};
pub use pol_kept::{CommitFault, OpenFault};
pub use records::event_of_text;
pub use store::{Store, StoreRefusal};
pub use writing::put_event_text;
