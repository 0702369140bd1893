//! Jobs over lines that keep items on a disk: what a crash leaves of the items, by the lines that were met.
//!
//! Whatever the items are, whatever else the job knows, and also where it refuses its input: a crash at any moment
//! leaves the old items with those of the first lines, and at the end at least those of the lines whose replies were
//! taken (`specs/Keeping.antt`, line by line; `specs/Leaving.antt`, over a whole run); so over many runs, each ended by
//! a crash, nothing that was answered is lost (`specs/Life.antt`). A job brings what it does with each line, and whose
//! items these are in what it knows. That its `LineJob` does so comes from the clauses of `pol_kept` by the lemmas of
//! `proofs/Admitting.antt` and `proofs/Settling.antt`; what a run leaves comes from those of `pol_jobs` by
//! `proofs/Running.antt`, and with the opening of its disk by `proofs/Ended.antt`.
//!
//! It knows nothing of what the items are, nor of what lines say.
//!
//! Laws alone: no test tries them.
#![tactic(auto)]

mod laws;

pub use laws::answers_are_kept;
