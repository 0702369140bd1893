//! The gate in front of a record.

/// A closed gate: what is behind it doesn't count.
pub const CLOSED_GATE: u8 = 0;

/// An open gate: the rest of a record follows it.
pub const OPEN_GATE: u8 = 1;
