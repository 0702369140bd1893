//! Disks: what reads give, and what a crash may leave.
//!
//! What contracts may know of a `Disk` are the bytes that reads give, the images that a crash now may leave, and those
//! that a crash at some moment since an earlier one might have left (`specs/Disks.antt`). Between two syncs that
//! succeed each written range and all past the old end may hold any bytes, and all other bytes stay
//! (`specs/Remains.antt`). All of this is known of a `MemoryDisk`, which keeps a record of its calls.
//! `specs/Answers.antt` says what is known of a file by the record of its calls, as long as it answers as a disk does.
//! Nothing here knows what is written.
//!
//! Tried in `pol_examples`.
#![tactic(auto)]

mod disk;
mod memory;

pub use disk::Disk;
pub use memory::{Call, MemoryDisk};
