//! What a turn did.
use pol_events::Answer;

/// The place of an event in the history, counted from 0, and its answer.
#[derive(Clone, Copy, Debug, PartialEq, Eq)]
pub struct Placed {
    /// The place.
    pub place: u32,
    /// The answer.
    pub answer: Answer,
}

/// What a turn did.
#[derive(Clone, Copy, Debug, PartialEq, Eq)]
pub enum Turned {
    /// One event was made.
    Made(Placed),
    /// A module took a command, or a tick that reports nothing.
    Looked,
    /// The actor has nothing to do.
    Rested,
    /// The history is full.
    Full,
}
