//! How many modules the finder looks at.

use mtp_codes::MOST_MODULES;

/// The most places of a set: each is a bit of a number of 64 bits.
pub(crate) const MOST_PLACES: usize = 64;

const _: () = prove!(MOST_MODULES <= MOST_PLACES);
