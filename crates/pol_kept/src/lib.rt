//! Items kept on a disk, one after another: each is there whole or not at all, whenever a crash comes.
//!
//! The items happen in a `Chronicle`, which answers each and knows its text. The main contracts are those of
//! `Kept::open`, which finds again what the disk keeps, of `Kept::admit`, which answers as the chronicle does, and of
//! `Kept::commit`, which keeps all items that were admitted, by two syncs (`specs/Keeping.antt`). `specs/Stands.antt`
//! says which items an image of the disk stands for. A record is a text of `pol_texts`. This crate knows nothing of
//! what the items are, of files, of lines of input, or of where answers go.
//!
//! Tried in `pol_examples`.
#![tactic(auto)]

mod chronicle;
mod cutting;
mod image;
mod kept;
mod opening;
mod records;
mod replaying;

pub use chronicle::Chronicle;
pub use cutting::first_text;
pub use image::read_image;
pub use kept::{CommitFault, Kept, KeptRefusal};
pub use opening::OpenFault;
