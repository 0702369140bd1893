//! The next entry of a run of a chart: a cursor keeps how far each node has come, and answers which awaited node is
//! ready.
//!
//! It knows nothing of plants or histories and keeps no log: what is seen of modules comes through the trait `Seen`. A
//! cursor doesn't determine the log that led to it: the relation `StandsFor` says which words of entries it stands for,
//! and a clause that speaks of such a word holds of each of them. A cursor may go along any other log too, and passes
//! over the entries that may not come in it. What comes next is worked out by `next_after` (`specs/Next.antt`); the
//! laws in `laws` say that it is the defined next entry, that it keeps a run a run, and that it commands only what a
//! recipe may give. One walk over the open nodes serves all that is looked for among them (`Visitor`): what comes next,
//! which steps run, which one broke, and which nodes wait for what (`specs/Listing.antt`).
//!
//! What an open batch does next is defined here too (`next_by` in `specs/NextEntry.antt`), since it depends only on a
//! chart, how the batch is frozen, its log and what is seen: the crates that look back on a history and those that keep
//! runs share one definition.
//!
//! Tried in `chart_examples`.
#![tactic(auto)]

mod breaking;
mod cursor;
mod going;
mod holding;
mod laws;
mod listing;
mod next;
mod ready;
mod running;
mod scanning;
mod sight;
mod sought;
mod stopping;
mod visitor;
mod walking;

pub use breaking::broken_step;
pub use cursor::Cursor;
pub use holding::{hold_step, unhold_step};
pub use laws::{
    next_commands_are_permitted, next_follows_the_chart, next_keeps_the_run,
    steps_are_of_the_chart, waits_are_awaited,
};
pub use listing::WaitingNode;
pub use next::{CursorNext, run_next};
pub use running::RunningStep;
pub use scanning::earlier;
pub use sight::{ReadingSight, Seen, Sight};
pub use stopping::stop_step;
