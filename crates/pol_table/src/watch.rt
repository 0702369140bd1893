//! Who watches what.
use mtp_codes::Name;

/// A batch that watches a tag.
#[derive(Clone, Copy)]
pub struct Watch {
    /// The tag.
    pub tag: Name,
    /// The batch.
    pub batch: Name,
}
