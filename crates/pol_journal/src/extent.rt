//! How much of a history is written.

/// Which of its events a journal of a history has.
#[derive(Clone, Copy, Debug, PartialEq, Eq)]
pub enum Extent {
    /// All of them.
    Whole,
    /// Those that stay where the history is compacted.
    Compacted,
}
