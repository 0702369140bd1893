//! A simulated module: it reports its services and its drifting variables tick by tick, and takes commands.
//!
//! It knows nothing of plants, of histories or of threads. Contracts see a `Sim` as plain data (`specs/Sims.antt`). Its
//! main contract: `tick` is the step of `specs/Ticks.antt`, and `take` that of `specs/Commands.antt`; each state that
//! is reported is Idle at first and then one to which an edge leads, and no state is left before it was reported
//! (`specs/Told.antt`).
//!
//! Tried in `mtp_examples`.
#![tactic(auto)]

mod drift;
mod laws;
mod looks;
mod plan;
mod report;
mod service;
mod sim;

pub use drift::SimDrift;
pub use laws::{commands_follow_edges, first_modules_follow_edges, ticks_follow_edges};
pub use plan::{Drift, SimPlan};
pub use report::SimReport;
pub use service::SimService;
pub use sim::Sim;
