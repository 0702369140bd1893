//! How a module is simulated.

use mtp_codes::Name;

/// A variable whose value rises while a service executes: from its first value on, each is the one before plus `by`, at
/// most `to`.
#[derive(Clone, Copy, Debug, PartialEq, Eq)]
pub struct Drift {
    /// The variable's name.
    pub name: Name,
    /// Its first value; of an analogue variable in thousandths.
    pub from: i64,
    /// By how much it rises.
    pub by: i64,
    /// Its greatest value.
    pub to: i64,
}

/// How many ticks a change of state takes, how many an execution, and which variables drift.
#[derive(Drop)]
pub struct SimPlan {
    /// The ticks of a change that a service makes by itself, from 1 to 1000.
    pub ticks: u16,
    /// The ticks of an execution, from 1 to 1000.
    pub run: u16,
    /// At most 64, no two of one name.
    pub drifts: Vec<Drift>,
}
