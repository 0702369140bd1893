//! Writes the journal of an operated plant from its file, whose bytes a source gives.
//!
//! Nothing is asked of a disk: no lock is taken and nothing is written but the journal, so this may run beside the
//! program that keeps the file. A file that grows meanwhile is read as it was at some moment of the reading, for each
//! record is there whole before the gate in front of it is opened, and the gate is read first. The main contract is
//! that of `extract` (`specs/Extracts.antt`). It knows nothing of files, or of why an entry stays where a history is
//! compacted.
//!
//! Tried in `pol_examples`.
#![tactic(auto)]

mod fault;
mod job;

pub use fault::ExtractFault;
pub use job::extract;
