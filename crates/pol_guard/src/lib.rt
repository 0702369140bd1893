//! The guard: a job over lines that replays a journal under an operator policy.
//!
//! The first line that isn't blank is the policy, the others are those of a journal, in which a command of the desk
//! names who gives it. The policy judges each of these commands before the plant sees it: one that is denied is
//! answered with the name of the rule that denies, and the plant answers all other events as in a replay of these alone
//! (`specs/Guarded.antt`). An input whose first such line is no policy is refused for its fault, and nothing is
//! written. Each command of the desk in the history that is left was allowed to the person whom its line names, and
//! each denial is right (`specs/Laws.antt`).
//!
//! It knows nothing of how a policy judges, or of how a plant finds an answer.
//!
//! Tried in `pol_examples`.
#![tactic(auto)]

mod denials;
mod guarding;
mod laws;
mod replying;

pub use denials::put_denial_line;
pub use guarding::{Guarding, whole};
pub use laws::guards_are_sound;
pub use replying::verdict_on;
