//! The command line of `pol`: it does the job that the words ask for, from a source to a sink, and ends with a status.
//! The program is a thin `main` over `top`.
//!
//! It knows nothing of how an answer is found. `top` says how the task ended that its words mean, by a record for each
//! task (`specs/Tasks.antt`: on status 0 the output is the defined output of the input, and what holds of such an
//! output), and what holds of every input and of every legal history (`specs/Journal.antt`).
//!
//! Tried in `pol_examples`.
#![tactic(auto)]

mod host;
mod jobs;
mod laws;
mod program;
mod status;

pub use host::run;
pub use jobs::{export, keep, live, operate, serve};
pub use program::{end, top};
pub use status::Status;
