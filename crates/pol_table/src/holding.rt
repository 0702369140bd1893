//! Holding and freeing the seats of tags.
ghost use Rattle.std.specs.Prelude.{◌≡◌, ℕ, List, map, length, if◌then◌else◌};
ghost use Rattle.std.specs.List.{IsDistinct};
ghost use Rattle.std.specs.Map.{lookup, keys_of};
ghost use Rattle.std.specs.Option.{option_map};
ghost use Rattle.std.specs.Str.{bytes_eq};
ghost use Rattle.mtp_codes.specs.Names.{is_among};
ghost use Rattle.mtp_codes.specs.Faults.{first_of};
ghost use Rattle.pol_table.specs.Places.{seat_holder, seat_leaving, seat_missing_at, seat_busy_at, seat_held_by, seat_freed_from};

use super::faults::{HoldFault, LeaveFault};
use super::seat::{Seat, free_from};
use indexmap::IndexMap;
use mtp_codes::Name;

/// The batch that holds the seat of this tag.
pub(crate) fn holder_of_seat(seats: &IndexMap<Name, Seat>, tag: Name) -> Option<Name>
    ensures { result ≡ seat_holder tag seats.now.entries }
{
    seats.get(&tag)?.holder
}

/// The seat of this tag, where no batch holds it.
pub(crate) fn free_seat(seats: &IndexMap<Name, Seat>, tag: Name) -> Result<Seat, LeaveFault>
    ensures { result ≡ seat_leaving tag seats.now.entries }
{
    let Some(seat) = seats.get(&tag).copied() else {
        return Err(LeaveFault::NoModule);
    };
    match seat.holder {
        None => Ok(seat),
        Some(batch) => Err(LeaveFault::Held(batch)),
    }
}

/// The first of these tags that has no seat.
pub(crate) fn first_missing(seats: &IndexMap<Name, Seat>, tags: &[Name]) -> Option<HoldFault>
    ensures { result ≡ first_of (map (seat_missing_at seats.now.entries) tags.now) }
{
    for tag in tags {
        if !seats.contains_key(tag) {
            return Some(HoldFault::NoModule(*tag));
        }
    }
    None
}

/// The first of these tags whose seat is held, with its holder.
pub(crate) fn first_busy(seats: &IndexMap<Name, Seat>, tags: &[Name]) -> Option<HoldFault>
    ensures { result ≡ first_of (map (seat_busy_at seats.now.entries) tags.now) }
{
    for tag in tags {
        if let Some(batch) = holder_of_seat(seats, *tag) {
            return Some(HoldFault::Busy { tag: *tag, batch });
        }
    }
    None
}

// Lets the batch hold the seat of this tag, if it has one.
fn hold(seats: &mut IndexMap<Name, Seat>, tag: Name, batch: Name)
    requires { IsDistinct bytes_eq (keys_of seats.old.entries) }
    ensures held { (other : List ℕ) → lookup (bytes_eq other) seats.new.entries
        ≡ option_map (λ seat. if bytes_eq tag other then seat_held_by batch seat else seat)
        (lookup (bytes_eq other) seats.old.entries) }
    ensures len { length seats.new.entries ≡ length seats.old.entries }
    ensures unique { IsDistinct bytes_eq (keys_of seats.new.entries) }
{
    if let Some(seat) = seats.get_mut(&tag) {
        seat.holder = Some(batch);
    }
}

/// Lets the batch hold the seats of these tags.
pub(crate) fn hold_each(seats: &mut IndexMap<Name, Seat>, tags: &[Name], batch: Name)
    requires { IsDistinct bytes_eq (keys_of seats.old.entries) }
    ensures held { (tag : List ℕ) → lookup (bytes_eq tag) seats.new.entries
        ≡ option_map (λ seat. if is_among tags.now tag then seat_held_by batch seat else seat)
        (lookup (bytes_eq tag) seats.old.entries) }
    ensures len { length seats.new.entries ≡ length seats.old.entries }
    ensures unique { IsDistinct bytes_eq (keys_of seats.new.entries) }
{
    for tag in tags {
        hold(seats, *tag, batch);
    }
}

/// Frees each seat that the batch holds.
pub(crate) fn free_each(seats: &mut IndexMap<Name, Seat>, batch: Name)
    ensures { seats.new.entries ≡ map (λ entry. (entry.0, seat_freed_from batch entry.1)) seats.old.entries }
{
    for index in 0..seats.len() {
        let (_, seat) = seats.pair_mut(index);
        free_from(seat, batch);
    }
}
