//! Writes the journal of a history: the line of each of its events, in order, or of those alone that stay where the
//! history is compacted (`specs/Journals.antt`).
//!
//! Its main contract is that of `put_journal`. Lines are written together, many at a time. It knows nothing of disks,
//! of how a history was read, or of why an entry stays.
//!
//! Tried in `pol_examples`.
#![tactic(auto)]

mod extent;
mod writing;

pub use extent::Extent;
pub use writing::{put_if_enough, put_journal};
