//! A file of the operating system as a `Disk`.
//!
//! No proof can know what is in a file. So `FileDisk` notes each call with its answer, in a record that clauses alone
//! read, and what is known of its bytes and images is what this record says: from whatever the file held at first,
//! which a `Start` stands for, as long as the file answered as a disk does. It is proved that `FileDisk` so meets
//! `Disk`, and when a call fails. It is believed that it makes the calls that it notes and notes what they answered
//! (`file.rt` and `opening.rt` have to be read for this), that a device has what a sync brought it and loses nothing
//! but what was written since, and that nobody else writes to the file.
//!
//! A `FileToRead` is only read, and nothing is known of its bytes.
//!
//! Tried by tests of its own.
#![tactic(auto)]

mod file;
mod opening;
mod reading;
mod record;
mod start;
#[cfg(test)]
mod tests;

pub use file::FileDisk;
pub use reading::FileToRead;
pub use start::{Start, Unknown};
