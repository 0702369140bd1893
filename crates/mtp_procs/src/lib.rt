//! Whether a module can do what a step of a recipe demands, and which descriptions cover a role of a chart.
//!
//! It knows nothing of JSON, of the state of a plant or of which module is bound. `check_step` answers exactly the
//! first fault of a step's demand, as `specs/Demands.antt` says; `specs/Covers.antt` says which descriptions cover a
//! role.
//!
//! Tried in `chart_examples`.
#![tactic(auto)]

mod check;
mod demand;

pub use check::check_step;
pub use demand::{StepDemand, StepFault};
