//! What a service reports of itself.

use mtp_codes::{Mode, Origin, State};

/// The control interface of a service as it was last reported (VDI/VDE/NAMUR 2658 part 4).
#[derive(Clone, Copy, Debug, PartialEq, Eq)]
pub struct ServiceControl {
    /// StateCur.
    pub state: State,
    /// CommandEn: the sum of the codes of the commands that the service enables. Other bits mean nothing.
    pub mask: u32,
    /// The operation mode.
    pub mode: Mode,
    /// Where a service in mode Automatic takes its commands from.
    pub origin: Origin,
    /// ProcedureCur: the number of the running procedure, 0 before the first.
    pub procedure: u16,
}
