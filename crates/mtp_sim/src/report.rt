//! What a simulated module reports.

use mtp_assembly::ServiceControl;
use mtp_codes::{Name, Value};

/// A report of a simulated module.
#[derive(Clone, Copy, Debug, PartialEq, Eq)]
pub enum SimReport {
    /// A service reports its state, and with it what it enables, its mode and its procedure.
    Service { name: Name, control: ServiceControl },
    /// A variable has this value.
    Variable { name: Name, value: Value },
}
