//! The actors of a site: what each of them does next, and its state afterwards. The exchanger makes recipes known,
//! plugs modules and works through the exchanges; a module looks for its commands and reports; a batch starts and
//! advances; the desk sends its commands.
//!
//! Each actor is a small value beside a plant that it only looks at; what it decides is defined over the site, the
//! history and that value (`specs/`). It knows nothing of locks, threads, clocks or of who takes turns.
//!
//! Tried in `live_examples`.
#![tactic(auto)]

mod batch;
mod desk;
mod exchanger;
mod items;
mod moving;
mod simulation;
mod unit;

pub use batch::Stage;
pub use desk::Desk;
pub use exchanger::{Errand, Exchanger, Standing};
pub use moving::move_units;
pub use simulation::{Decision, Simulation};
pub use unit::Unit;
