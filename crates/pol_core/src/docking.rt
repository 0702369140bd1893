//! Whether a tag is docked.

/// Whether a tag is docked.
#[derive(Clone, Copy, Debug, PartialEq, Eq)]
pub enum Docking {
    /// No module has the tag.
    Absent,
    /// A module is docked: how often one was docked under the tag since it was plugged last, the plug included.
    Docked(u32),
    /// The module is away for exchange under this ticket.
    Away(u32),
}
