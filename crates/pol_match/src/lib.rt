//! Finds modules that could play the roles of a chart: the least binding, or a shortage that shows that there is none.
//!
//! It knows nothing of a plant: candidates are handed in, with those of their services that are idle. `find_binding`
//! answers exactly by the definitions of `specs/Bindings.antt`, which speak of roles and tags alone. Beneath it the
//! rows of places that roles fit are assigned along chains of exchanges, of which only the proofs know.
//!
//! Tried in `part_examples`.
#![tactic(auto)]

mod assignment;
mod candidate;
mod find;
mod fit;
mod laws;
mod limits;
mod places;
mod seats;

pub use candidate::{Candidate, Found};
pub use find::find_binding;
pub use laws::told_rightly;
