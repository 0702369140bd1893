//! What the status board of a running plant shows, and the value that keeps a board in step with a history.
//!
//! A board has 32 words for each module of the site, one for each service that a description can have. A word says the
//! state that its service reported last, or none where an exchange began since, beside the length that the history then
//! had. `Display` holds a board with its publisher: by `Display::follow` it shows the history with one more entry. The
//! crate knows nothing of locks and threads: whoever appends to the history calls `follow`, and readers never wait.
//!
//! Tried in `live_examples`.
#![tactic(auto)]

mod display;
mod shown;
mod watcher;

pub use display::Display;
pub use watcher::Watcher;
