//! The seats of docked tags.
ghost use Rattle.std.specs.Prelude.{◌≡◌};
ghost use Rattle.pol_table.specs.Places.{seat_freed_from};

use mtp_codes::Name;

/// Where the part of a tag lies, and the batch that holds the tag.
#[derive(Clone, Copy)]
pub(crate) struct Seat {
    pub(crate) place: usize,
    pub(crate) holder: Option<Name>,
}

// Frees the seat where this batch holds it.
pub(crate) fn free_from(seat: &mut Seat, batch: Name)
    ensures { seat.new ≡ seat_freed_from batch seat.old }
{
    if seat.holder == Some(batch) {
        seat.holder = None;
    }
}
