//! What a ledger keeps, and what it answers.
use crate::build::Build;
use mtp_codes::Name;
use pol_events::{Answer, Event};

/// An event, and who asked for it.
#[derive(Drop)]
pub struct Asked {
    /// The event.
    pub event: Event,
    /// The name of who asked for it; None where nobody is named.
    pub by: Option<Name>,
}

/// What a ledger keeps: a header, and then events with who asked for them.
#[derive(Drop)]
pub enum LedgerItem {
    /// The header: which build of the program began the ledger.
    Header(Build),
    /// An event that was asked for.
    Asked(Asked),
}

/// What a ledger answers to an item.
#[derive(Clone, Copy, Debug, PartialEq, Eq)]
pub enum LedgerAnswer {
    /// To a header where there was none: it is kept.
    Begun,
    /// To a header behind a header, and to an event before one: it isn't kept and changes nothing.
    Misplaced,
    /// To an event behind a header: what the plant answers. It is kept unless that is HistoryFull.
    Answered(Answer),
}
