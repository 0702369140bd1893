//! What a step demands of a module.

use mtp_codes::{Name, Setting};

/// What a step demands of a module: a procedure of a service, with the parameters that it sets; those that it doesn't
/// set keep the module's values. `finishes` says that the step completes the procedure by command.
#[derive(Clone, Copy)]
pub struct StepDemand<'a> {
    /// The service that is to be started.
    pub service: Name,
    /// The number of the procedure, from 1 to 65535.
    pub procedure: u16,
    /// The parameters that are set.
    pub settings: &'a [Setting],
    /// Whether the step completes the procedure by command.
    pub finishes: bool,
}

/// Why a module can't do what a step demands.
#[derive(Clone, Copy, Debug, PartialEq, Eq)]
pub enum StepFault {
    /// The service, the procedure or a parameter that is set is missing; or the step completes a procedure that
    /// completes by itself, or doesn't complete one that doesn't.
    NotCovered,
    /// A parameter is set to a value of another kind.
    WrongKind,
    /// A parameter is set to a number outside its range.
    OutOfRange,
}
