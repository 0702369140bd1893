//! Why a call on a table is refused.
use mtp_codes::Name;

/// Why a part may not dock.
#[derive(Clone, Copy, Debug, PartialEq, Eq)]
pub enum DockFault {
    /// The tag is docked.
    TagTaken,
    /// The tag is new, and 64 tags are docked.
    PlantFull,
    /// There is no memory for it.
    Memory,
}

/// Why a part may not leave.
#[derive(Clone, Copy, Debug, PartialEq, Eq)]
pub enum LeaveFault {
    /// The tag is not docked.
    NoModule,
    /// This batch holds the tag.
    Held(Name),
    /// No batch holds the tag, and this is the first one that watches it.
    Watched(Name),
}

/// Why tags may not be held together.
#[derive(Clone, Copy, Debug, PartialEq, Eq)]
pub enum HoldFault {
    /// This tag is not docked.
    NoModule(Name),
    /// This tag is held by this batch.
    Busy { tag: Name, batch: Name },
}
