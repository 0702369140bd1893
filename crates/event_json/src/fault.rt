//! Why a line of a journal is no event.
use chart_core::ChartFault;
use mtp_json::JsonFault;

/// Why a line of a journal is no event.
#[derive(Drop)]
pub enum LineFault {
    /// The line isn't in the form of an event.
    Json(JsonFault),
    /// The line is in the form of a recipe whose chart isn't valid.
    Chart(ChartFault),
    /// The line is longer than 1,048,576 bytes.
    TooLong,
}

/// Why no event was read from a line.
#[derive(Drop)]
pub enum LineRefusal {
    Fault(LineFault),
    Memory,
}
