//! The limits on what is read.

/// The most bytes of a line, without its line feed.
pub const LONGEST_LINE: usize = 1_048_576;

/// The most bytes of an input.
pub const LONGEST_INPUT: u64 = 268_435_456;
