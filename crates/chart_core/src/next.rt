//! What an open batch does next.
use super::entry::LogEntry;
use super::why::Why;

/// How a batch was closed: its chart was run to its end; a service of an active step was stopped or aborted; the
/// operator had it stopped step by step; the operator gave it up.
#[derive(Clone, Copy, Debug, PartialEq, Eq)]
pub enum Outcome {
    Completed,
    Broken,
    Stopped,
    Abandoned,
}

/// What an open batch does when it is advanced: it takes an entry into its log, waits for an obstacle, or is closed.
#[derive(Clone, Copy, Debug, PartialEq, Eq)]
pub enum Next {
    Did(LogEntry),
    Waiting(Why),
    Closed(Outcome),
}
