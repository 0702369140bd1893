//! Why a batch waits.
use mtp_codes::{Forbid, Name, State};

/// The obstacle that a batch waits for: it is frozen; a module is away for its exchange; a service or a variable wasn't
/// reported since its module was docked; a step's service is in a state that doesn't let the step go on; a command
/// of a step is forbidden; a step's finish condition isn't met; no arm of the selection `node` can be taken.
#[derive(Clone, Copy, Debug, PartialEq, Eq)]
pub enum Why {
    Frozen,
    Away { tag: Name },
    NotReported { tag: Name, name: Name },
    InState { step: Name, state: State },
    Forbidden { step: Name, by: Forbid },
    Unmet { step: Name },
    NoArm { node: u32 },
}
