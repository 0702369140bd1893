//! The docked tags in byte order.
ghost use Rattle.std.specs.Prelude.{◌≡◌, slice_get, IfOk};
ghost use Rattle.std.specs.List.{IsDistinct};
ghost use Rattle.std.specs.Map.{keys_of};
ghost use Rattle.std.specs.Str.{bytes_eq};
ghost use Rattle.pol_table.specs.ByteOrder.{in_byte_order, place_among};

use super::seat::Seat;
use indexmap::IndexMap;
use mtp_codes::Name;
use std::alloc::{AllocError, Global};

// How many of the tags that have a seat come before this one.
fn place_of(seats: &IndexMap<Name, Seat>, tag: Name) -> usize
    ensures { result ≡ place_among (keys_of seats.now.entries) tag }
{
    seats.keys().filter(|other| **other < tag).count()
}

/// The tag at this place, from 0, among those that have a seat, in byte order; None from their number on.
pub(crate) fn tag_at(seats: &IndexMap<Name, Seat>, place: usize) -> Option<Name>
    ensures { result ≡ slice_get (in_byte_order (keys_of seats.now.entries)) place }
{
    seats
        .keys()
        .find(|tag| place_of(seats, **tag) == place)
        .copied()
}

// The tags that have a seat, each once.
fn listed(alloc: Global, seats: &IndexMap<Name, Seat>) -> Result<Vec<Name>, AllocError>
    ensures tags { IfOk result (λ tags. tags.items ≡ keys_of seats.now.entries) }
    ensures once { IsDistinct bytes_eq (keys_of seats.now.entries) }
{
    let mut tags = Vec::new(alloc);
    for tag in seats.keys() {
        tags.push(*tag)?;
    }
    Ok(tags)
}

/// The tags that have a seat, in byte order.
pub(crate) fn tags(alloc: Global, seats: &IndexMap<Name, Seat>) -> Result<Vec<Name>, AllocError>
    ensures { IfOk result (λ tags. tags.items ≡ in_byte_order (keys_of seats.now.entries)) }
{
    let mut tags = listed(alloc, seats)?;
    tags.sort_unstable();
    Ok(tags)
}
