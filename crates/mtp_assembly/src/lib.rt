//! What a module's assembly says of a service, a parameter and a variable (VDI/VDE/NAMUR 2658), and whether a value
//! fits a parameter or a variable.
//!
//! It knows nothing of JSON, of whole descriptions, of the state machine or of recipes. Its main contract:
//! `check_value` and `check_view` answer exactly the first of 'of another kind' and 'out of range', as
//! `specs/Fits.antt` says.
//!
//! Tried in `mtp_examples`.
#![tactic(auto)]

mod check;
mod control;
mod param;
mod variable;

pub use check::{ValueFault, check_value, check_view};
pub use control::ServiceControl;
pub use param::{Param, ParamKind};
pub use variable::{View, ViewKind};
