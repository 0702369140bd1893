//! Assigns to each row a place of its own, the least ones that the rows can have.

ghost use Rattle.std.specs.Prelude.{◌≡◌, ◌<◌, ◌≤◌, ℕ, length, true, None, IfOk, MatchResult};
ghost use Rattle.pol_match.specs.Seats.{AreInside, fits, holder_at};
ghost use Rattle.pol_match.specs.Assignments.{AreSeated, HaveNone, IsCrowded, IsFirstCrowd, IsLeastAssignment, IsReseated};
ghost use Rattle.pol_match.specs.Assignments.{IsSettled, IsUnseated};
ghost use Rattle.pol_match.specs.Outcomes.{IsOutcome};
ghost use Rattle.pol_match.specs.declared.limits.TheConstants.{MOST_PLACES};

use crate::places::Places;
use crate::seats::seat;
use std::alloc::{AllocError, Global};

// Gives each row a place; else answers the places that are too few for the rows that fit no others.
fn seat_all(rows: &[Places], holders: &mut [Option<usize>]) -> Result<(), Places>
    requires inside { AreInside rows.now holders.old }
    requires few { length holders.old ≤ MOST_PLACES }
    requires free { (place : ℕ) → holder_at holders.old place ≡ None }
    ensures { MatchResult result
        (λ _. AreSeated rows.now holders.new (length rows.now))
        (λ set. IsCrowded rows.now set × HaveNone rows.now × IsFirstCrowd rows.now set) }
{
    for row in 0..rows.len() {
        let mut seen = Places::new();
        if seat(rows, holders, &mut seen, row).is_none() {
            return Err(seen);
        }
    }
    Ok(())
}

// Frees the place that the row holds.
fn unseat(holders: &mut [Option<usize>], row: usize)
    ensures { IsUnseated holders.old holders.new row }
{
    for holder in holders.iter_mut() {
        if *holder == Some(row) {
            *holder = None;
        }
    }
}

// Gives the row the lowest place with which the rows above it can still have theirs; the settled places are those of
// the rows below it, and stay.
fn reseat(rows: &[Places], holders: &mut [Option<usize>], settled: Places, row: usize) -> usize
    requires inside { AreInside rows.now holders.old }
    requires few { length holders.old ≤ MOST_PLACES }
    requires row { row < length rows.now }
    requires seated { AreSeated rows.now holders.old (length rows.now) }
    requires settled { IsSettled holders.old settled row }
    ensures { IsReseated rows.now holders.old holders.new settled row result }
{
    unseat(holders, row);
    let mut seen = settled;
    seat(rows, holders, &mut seen, row).unwrap()
}

// Lowers the places of the rows, the first row first.
fn least_of(
    alloc: Global,
    rows: &[Places],
    holders: &mut [Option<usize>],
) -> Result<Vec<usize>, AllocError>
    requires inside { AreInside rows.now holders.old }
    requires few { length holders.old ≤ MOST_PLACES }
    requires seated { AreSeated rows.now holders.old (length rows.now) }
    ensures { IfOk result (λ places. IsLeastAssignment rows.now places.items) }
{
    let mut places = Vec::new(alloc);
    let mut settled = Places::new();
    for row in 0..rows.len() {
        let place = reseat(rows, holders, settled, row);
        settled.insert(place);
        places.push(place)?;
    }
    Ok(places)
}

/// What rows can have: the least places, each its own; or places that are too few for the rows that fit no others.
#[derive(Drop)]
pub(crate) enum Outcome {
    /// The place of each row.
    Assigned(Vec<usize>),
    /// More rows fit these places alone than there are.
    Crowded(Places),
}

/// The least places below `count` that the rows can have, each its own. Asks each row at most twice for a chain of rows
/// that change places, and looks at each place once for a chain.
///
/// # Errors
///
/// AllocError where there is no memory for a number for each place and each row.
pub(crate) fn assign(alloc: Global, rows: &[Places], count: usize) -> Result<Outcome, AllocError>
    requires inside { (row place : ℕ) → fits rows.now row place ≡ true → place < count }
    requires few { count ≤ MOST_PLACES }
    ensures { IfOk result (λ outcome. IsOutcome rows.now outcome) }
{
    let mut holders = vec![in alloc; None; count]?;
    match seat_all(rows, &mut holders) {
        Ok(()) => Ok(Outcome::Assigned(least_of(alloc, rows, &mut holders)?)),
        Err(places) => Ok(Outcome::Crowded(places)),
    }
}
