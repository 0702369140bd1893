//! The policy of a plant: who may send which commands of the desk, and who may give which other lines of a journal.
//!
//! `read_plant_policy` gives the policy that a line says, or the first fault in reading order (`specs/Form.antt`): a
//! policy of the job guard, and perhaps rules of lines. A line may be given where a rule of lines that allows matches
//! whoever gives it and its kind, and none that denies; `judge_line` names the first such rule (`specs/Giving.antt`).
//! A policy without the key `lines` judges commands alone, and says what it says to the job guard
//! (`policies_are_alike`). The crate knows nothing of plants or of what a line says beside its kind.
//!
//! Tried in `rights_examples`.
#![tactic(auto)]

mod judge_line;
mod kind_index;
mod kinds;
mod laws;
mod limits;
mod line_rule;
mod line_rules;
mod line_table;
mod plant_policy;
mod reading;

pub use laws::{lines_are_judged, policies_are_alike};
pub use limits::MOST_KINDS;
pub use line_rule::LineRule;
pub use line_rules::LineRules;
pub use plant_policy::PlantPolicy;
pub use reading::read_plant_policy;
