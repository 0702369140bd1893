//! What a line asks.
use event_json::LineFault;
use mtp_codes::Name;
use named_lines::Named;

/// What a line asks of a plant.
#[derive(Drop)]
pub enum Question {
    /// What an event would be answered, with who gives it; or the fault of the event, with the path in it.
    Would(Result<Named, LineFault>),
    /// What is in the plant, and what a person may command there, or anybody where none is named.
    Plant(Option<Name>),
    /// How each recipe could be bound.
    Bindings,
    /// The entries of the history from a place on, and how many at most.
    Entries {
        /// The place of the first, from 0 to 200,000.
        from: u32,
        /// How many at most, from 0 to 200,000; None where the line doesn't say.
        most: Option<u32>,
    },
}
