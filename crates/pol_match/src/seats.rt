//! Rows that hold places: one more row is seated along a chain of rows that change theirs.

ghost use Rattle.std.specs.Prelude.{◌≡◌, ◌<◌, ◌≤◌, ℕ, length, true, false, Some, IfNone, IfSome, IsTrue, MatchOption};
ghost use Rattle.std.specs.Prelude.{MatchBool};
ghost use Rattle.pol_match.specs.Places.{is_in};
ghost use Rattle.pol_match.specs.Seats.{AreInside, holder_at, IsKept, IsSeated, IsSeating, IsStuck, IsVacated, Sits};
ghost use Rattle.pol_match.specs.declared.limits.TheConstants.{MOST_PLACES};

use crate::places::Places;

// Makes the place free: its holder, if it has one, moves to a place that wasn't seen.
#[cycle(seat)]
fn vacate(rows: &[Places], holders: &mut [Option<usize>], seen: &mut Places, place: usize) -> bool
    requires inside { AreInside rows.now holders.old }
    requires few { length holders.old ≤ MOST_PLACES }
    requires place { place < length holders.old }
    requires seating { IsSeating rows.now holders.old seen.old }
    requires alone { (row : ℕ) → holder_at holders.old place ≡ Some row → Sits holders.old seen.old row → ⊥ }
    ensures { MatchBool result
        (IsVacated rows.now holders.old holders.new seen.old place)
        (IsKept rows.now holders.old holders.new seen.old seen.new place) }
{
    match holders[place] {
        None => true,
        Some(holder) => seat(rows, holders, seen, holder).is_some(),
    }
}

/// Gives the row the first place that it can have, and answers it: a place that wasn't seen, whose holder, if it has
/// one, moves to another in the same way. A row that holds a place that was seen keeps it. None, and no row moves,
/// where the row can't have a place; what was seen by then has no free place.
#[cycle(seat)]
pub(crate) fn seat(
    rows: &[Places],
    holders: &mut [Option<usize>],
    seen: &mut Places,
    row: usize,
) -> Option<usize>
    requires inside { AreInside rows.now holders.old }
    requires few { length holders.old ≤ MOST_PLACES }
    requires row { row < length rows.now }
    requires seating { IsSeating rows.now holders.old seen.old }
    requires alone { Sits holders.old seen.old row → ⊥ }
    ensures { MatchOption result
        (IsStuck rows.now holders.old holders.new seen.old seen.new row)
        (λ place. IsSeated rows.now holders.old holders.new seen.old row place) }
{
    while let Some(place) = rows[row].first_beyond(*seen) {
        seen.insert(place);
        if vacate(rows, holders, seen, place) {
            holders[place] = Some(row);
            return Some(place);
        }
    }
    None
}
