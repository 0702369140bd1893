//! What the threads of a run pass, and which of them may begin.

/// Each actor passes it before it takes the lock for a turn, each watcher before it reads the board once more, and the
/// run before it begins a thread.
pub trait Gate: Sync {
    /// The actor with this number passes it for the turn with this number, counted from 0.
    fn pass(&self, actor: u32, turn: u64);

    /// The watcher with this number passes it before it reads each word of the board for the time with this number,
    /// both counted from 0.
    fn look(&self, _watcher: usize, _time: u32) {}

    /// Whether one more thread may begin. Where it may not, the run goes on as where no thread can be made.
    fn may_begin(&self) -> bool {
        true
    }
}

/// The gate that lets everybody pass at once, and all threads begin.
pub struct OpenGate;

impl Gate for OpenGate {
    fn pass(&self, _actor: u32, _turn: u64) {}
}
