//! Why a JSON value is not of its form, and where.

ghost use Rattle.std.specs.Prelude.{◌≡◌};
ghost use Rattle.mtp_json.specs.declared.fault.JsonRefusal.TheVariants.{Memory};

use crate::path::Path;
use std::alloc::{AllocError, AllocFailed};

/// What is wrong with an input. The readers of this crate give the first seven; the others are for the crates above.
#[derive(Clone, Copy, Debug, PartialEq, Eq)]
pub enum FaultKind {
    /// `serde_json` has no reading of the bytes (RFC 8259).
    NotJson,
    /// A required key is absent; the path names the key.
    Missing,
    /// The value is of another JSON kind.
    WrongKind,
    /// The value is of the kind and outside its range.
    OutOfRange,
    /// The object at the path has a key that is not of its form.
    Unknown,
    /// The list at the path has two items of one name or number.
    Repeated,
    /// The value at the path breaks another rule of its form.
    Unsound,
    /// The recipe's chart is not valid.
    BadChart,
    /// The input is longer than its limit.
    TooLong,
}

/// What is wrong with a JSON value, and where in it.
#[derive(Drop)]
pub struct JsonFault {
    /// What is wrong.
    pub kind: FaultKind,
    /// Where it is, from the outermost value inwards.
    pub path: Path,
}

/// Why no value was read: it is not of its form, or there was no memory.
#[derive(Drop)]
pub enum JsonRefusal {
    Fault(JsonFault),
    Memory,
}

impl From<AllocError> for JsonRefusal {
    ghost from_gives = { λ _ refusal. refusal ≡ Memory };

    fn from(_error: AllocError) -> JsonRefusal {
        JsonRefusal::Memory
    }
}

impl<T: Drop> From<AllocFailed<T>> for JsonRefusal {
    ghost from_gives = { λ _ refusal. refusal ≡ Memory };

    fn from(_error: AllocFailed<T>) -> JsonRefusal {
        JsonRefusal::Memory
    }
}
