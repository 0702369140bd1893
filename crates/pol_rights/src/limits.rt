//! How large the rules of lines may be.

/// The most kinds that a rule lists: all but that of a command of the desk.
pub const MOST_KINDS: usize = 14;
