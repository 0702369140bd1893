//! Checks whether the binds of a start fit the roles of a chart, and whether a module can play a role, by its
//! description.
//!
//! It knows nothing of a plant's state: whether the module is docked, idle or held is asked elsewhere. `covers` answers
//! exactly the first fault that the definition `cover_fault` of mtp_procs names, as a rule; `held_back_by` names what
//! is missing by that fault. `role_unbound`, `role_unknown`, `one_module_twice` and `watched_step` are the rules that
//! binds break by themselves. None of these takes memory. Where many modules are asked for one role, `needs_of` gathers
//! once what the role needs, by the tests that `tests_in_order` lists; `Needs::are_met` is then `covers` in short.
//!
//! Tried in `part_examples`.
#![tactic(auto)]

mod cover;
mod gathered;
mod needs;
mod picks;
mod roles;
mod steps;
mod variables;

pub use cover::{covers, held_back_by};
pub use gathered::{Test, tests_in_order};
pub use needs::{Needs, needs_of};
pub use roles::{one_module_twice, role_unbound, role_unknown, watched_step};
