//! How large a chart may be.

/// The most roles of a chart.
pub const MOST_ROLES: usize = 64;

/// The most bytes of the text that says which versions a role wants.
pub const LONGEST_WANTED: usize = 64;

/// The most parameters that a step sets.
pub const MOST_SETTINGS: usize = 32;

/// The most arms of a selection.
pub const MOST_ARMS: usize = 16;

/// The most conditions that one condition joins.
pub const MOST_JOINED: usize = 16;

/// The most tests of a condition.
pub const MOST_TESTS: u32 = 16;

/// How deep a condition may be nested.
pub const DEEPEST_CONDITION: u32 = 8;

/// The most variables that a node reads to decide.
pub const MOST_READS: usize = 4;

/// How deep a node may lie; the root lies at depth 1.
pub const DEEPEST_NODE: u32 = 16;

/// The most steps of a chart.
pub const MOST_STEPS: u32 = 256;

/// The most nodes of a valid chart.
pub const MOST_NODES: u32 = 4096;
