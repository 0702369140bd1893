//! Jobs over lines: a job replies to each line of its input, and then closes its output.
//!
//! It knows nothing of plants, nor of statuses. Its main contract is that of `work`: how such a job ends
//! (`specs/Ends.antt`), one row for each result.
//!
//! Tried in `io_examples`.
#![tactic(auto)]

mod fault;
mod line_job;
mod lines;
mod output;
mod stop;

pub use fault::JobFault;
pub use line_job::{InputLine, LineJob};
pub use lines::work;
pub use output::{PutFault, close_with, put};
pub use stop::Stop;
