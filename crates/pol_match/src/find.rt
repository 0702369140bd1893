//! Finds how the roles of a chart can be bound to candidates.

ghost use Rattle.std.specs.Prelude.{◌≡◌, ◌<◌, ◌≤◌, ℕ, length, map, IfOk, slice_index_or, []};
ghost use Rattle.std.specs.List.{All};
ghost use Rattle.mtp_codes.specs.declared.limits.TheConstants.{MOST_MODULES};
ghost use Rattle.chart_core.specs.Charts.{plain_chart};
ghost use Rattle.chart_core.specs.Order.{plans_seen};
ghost use Rattle.chart_core.specs.Trees.{plain_node};
ghost use Rattle.mtp_procs.specs.Tests.{tests_in};
ghost use Rattle.pol_bind.specs.Gathered.{plain_tests};
ghost use Rattle.pol_bind.specs.PlainNeeds.{plain_needs};
ghost use Rattle.pol_bind.specs.Roles.{names_in};
ghost use Rattle.pol_events.specs.Bound.{tags_of};
ghost use Rattle.pol_match.specs.Places.{has_all, places_of};
ghost use Rattle.pol_match.specs.Fits.{is_reached, row_for, rows_for, steps_of, those_at, those_with};
ghost use Rattle.pol_match.specs.Candidates.{plain_candidates};
ghost use Rattle.pol_match.specs.Needed.{row_by};
ghost use Rattle.pol_match.specs.Bindings.{AreInOrder, tags_in};
ghost use Rattle.pol_match.specs.Assignments.{HaveNone, IsCrowded, IsFirstCrowd, IsLeastAssignment};
ghost use Rattle.pol_match.specs.Findings.{IsFinding, IsTold};
ghost use Rattle.pol_match.specs.declared.limits.TheConstants.{MOST_PLACES};

use crate::assignment::{Outcome, assign};
use crate::candidate::{Candidate, Found};
use crate::fit::fits;
use crate::places::Places;
use chart_core::{Chart, Role, Step, steps_in_order};
use mtp_codes::Name;
use pol_bind::{Needs, Test, needs_of, tests_in_order};
use pol_events::Bind;
use std::alloc::{AllocError, Global};

// The places of the candidates that fit a role that needs this.
fn row_of(needs: &Needs<'_>, candidates: &[Candidate]) -> Places
    requires { length candidates.now ≤ MOST_MODULES }
    ensures { result ≡ row_by (plain_needs needs.now) (plain_candidates candidates.now) }
{
    let mut row = Places::new();
    for (place, candidate) in candidates.iter().enumerate() {
        row.insert_if(place, fits(needs, candidate));
    }
    row
}

// The places of the candidates that fit the role.
fn row_of_role<'a>(
    alloc: Global,
    chart: &'a Chart,
    steps: &[&'a Step],
    tests: &[Test],
    role: Name,
    candidates: &[Candidate],
) -> Result<Places, AllocError>
    requires steps { plans_seen steps.now ≡ steps_of (plain_chart chart.now) }
    requires tests { plain_tests tests.now ≡ tests_in (plain_node chart.now.root) }
    requires few { length candidates.now ≤ MOST_MODULES }
    ensures { IfOk result (λ row. row ≡ row_for (plain_chart chart.now) (plain_candidates candidates.now) role) }
{
    let needs = needs_of(alloc, chart, steps, tests, role)?;
    Ok(row_of(&needs, candidates))
}

// For each of these roles the places of the candidates that fit it.
fn rows_of<'a>(
    alloc: Global,
    chart: &'a Chart,
    steps: &[&'a Step],
    tests: &[Test],
    roles: &[Role],
    candidates: &[Candidate],
) -> Result<Vec<Places>, AllocError>
    requires steps { plans_seen steps.now ≡ steps_of (plain_chart chart.now) }
    requires tests { plain_tests tests.now ≡ tests_in (plain_node chart.now.root) }
    requires few { length candidates.now ≤ MOST_MODULES }
    ensures { IfOk result (λ rows. rows.items
        ≡ map (row_for (plain_chart chart.now) (plain_candidates candidates.now)) (names_in roles.now)) }
{
    let mut rows = Vec::new(alloc);
    for role in roles {
        let row = row_of_role(alloc, chart, steps, tests, role.role, candidates)?;
        rows.push(row)?;
    }
    Ok(rows)
}

// The tag of the candidate at this place.
fn tag_at(candidates: &[Candidate], place: usize) -> Name
    requires { place < length candidates.now }
    ensures { result ≡ slice_index_or (tags_in (plain_candidates candidates.now)) place [] }
{
    candidates[place].tag
}

// Binds each role to the candidate at its place.
fn binds_at(
    alloc: Global,
    roles: &[Role],
    candidates: &[Candidate],
    places: &[usize],
) -> Result<Vec<Bind>, AllocError>
    requires long { length places.now ≡ length roles.now }
    requires inside { All (λ place. place < length candidates.now) places.now }
    ensures roles { IfOk result (λ binds. map (λ bind. bind.role) binds.items ≡ names_in roles.now) }
    ensures tags { IfOk result (λ binds. tags_of binds.items
        ≡ map (λ place. slice_index_or (tags_in (plain_candidates candidates.now)) place []) places.now) }
{
    let mut binds = Vec::new(alloc);
    for (at, role) in roles.iter().enumerate() {
        binds.push(Bind {
            role: role.role,
            tag: tag_at(candidates, places[at]),
        })?;
    }
    Ok(binds)
}

// The roles that fit no candidates but those at places of the set.
fn roles_within(
    alloc: Global,
    roles: &[Role],
    rows: &[Places],
    set: Places,
) -> Result<Vec<Name>, AllocError>
    requires { length rows.now ≡ length roles.now }
    ensures { IfOk result (λ names. names.items ≡ those_with (has_all set) rows.now (names_in roles.now)) }
{
    let mut names = Vec::new(alloc);
    for (at, role) in roles.iter().enumerate() {
        if set.contains_all(rows[at]) {
            names.push(role.role)?;
        }
    }
    Ok(names)
}

// Whether a row within the set has the place.
fn is_reached(rows: &[Places], set: Places, place: usize) -> bool
    requires { place < MOST_PLACES }
    ensures { result ≡ is_reached rows.now set place }
{
    rows.iter()
        .any(|row| set.contains_all(*row) && row.contains(place))
}

// The tags of the candidates that rows within the set have.
fn tags_reached(
    alloc: Global,
    candidates: &[Candidate],
    rows: &[Places],
    set: Places,
) -> Result<Vec<Name>, AllocError>
    requires { length candidates.now ≤ MOST_MODULES }
    ensures tags { IfOk result (λ tags. tags.items
        ≡ those_at (is_reached rows.now set) 0 (tags_in (plain_candidates candidates.now))) }
    ensures few { IfOk result (λ tags. length tags.items ≤ length (places_of set)) }
{
    let mut tags = Vec::new(alloc);
    for (place, candidate) in candidates.iter().enumerate() {
        if is_reached(rows, set, place) {
            tags.push(candidate.tag)?;
        }
    }
    Ok(tags)
}

// The binding by the least places.
fn binding_at(
    alloc: Global,
    chart: &Chart,
    candidates: &[Candidate],
    places: &[usize],
) -> Result<Found, AllocError>
    requires order { AreInOrder (plain_candidates candidates.now) }
    requires least { IsLeastAssignment (rows_for (plain_chart chart.now) (plain_candidates candidates.now)) places.now }
    ensures right { IfOk result (λ found. IsFinding (plain_chart chart.now) (plain_candidates candidates.now) found) }
    ensures told { IfOk result (λ found. IsTold (plain_chart chart.now) (plain_candidates candidates.now) found) }
{
    let binds = binds_at(alloc, &chart.roles, candidates, places)?;
    Ok(Found::Binding(binds))
}

// The shortage by the places that are too few for the rows within them.
fn shortage_within(
    alloc: Global,
    chart: &Chart,
    candidates: &[Candidate],
    rows: &[Places],
    set: Places,
) -> Result<Found, AllocError>
    requires few { length candidates.now ≤ MOST_MODULES }
    requires order { AreInOrder (plain_candidates candidates.now) }
    requires rows { rows.now ≡ rows_for (plain_chart chart.now) (plain_candidates candidates.now) }
    requires crowded { IsCrowded rows.now set }
    requires none { HaveNone rows.now }
    requires first { IsFirstCrowd rows.now set }
    ensures right { IfOk result (λ found. IsFinding (plain_chart chart.now) (plain_candidates candidates.now) found) }
    ensures told { IfOk result (λ found. IsTold (plain_chart chart.now) (plain_candidates candidates.now) found) }
{
    let roles = roles_within(alloc, &chart.roles, rows, set)?;
    let tags = tags_reached(alloc, candidates, rows, set)?;
    Ok(Found::Short { roles, tags })
}

/// How the roles of the chart can be bound to these candidates: at most `MOST_MODULES`, in byte order of their tags,
/// which are distinct.
///
/// Binding exactly where each role can have a candidate of its own that fits it; it is then the least by the tags in
/// the order of the roles. Else Short, with roles that fit only these fewer candidates: of the roles up to the first
/// with which they can't be bound, those without any one of which the others can be, and all others that fit only what
/// these fit. So what is found is a function of the chart and the candidates. A candidate fits a role where its
/// description covers it and each service of the role's steps is idle. What a role needs is gathered once, and each
/// candidate is asked once for it; the rest takes at most two searches along chains for each role.
///
/// # Errors
///
/// AllocError where there is no memory for a few numbers for each role, step, test and candidate.
pub fn find_binding(
    alloc: Global,
    chart: &Chart,
    candidates: &[Candidate],
) -> Result<Found, AllocError>
    requires few { length candidates.now ≤ MOST_MODULES }
    requires order { AreInOrder (plain_candidates candidates.now) }
    ensures right { IfOk result (λ found. IsFinding (plain_chart chart.now) (plain_candidates candidates.now) found) }
    ensures told { IfOk result (λ found. IsTold (plain_chart chart.now) (plain_candidates candidates.now) found) }
{
    let steps = steps_in_order(alloc, chart)?;
    let tests = tests_in_order(alloc, &chart.root)?;
    let rows = rows_of(alloc, chart, &steps, &tests, &chart.roles, candidates)?;
    match assign(alloc, &rows, candidates.len())? {
        Outcome::Assigned(places) => binding_at(alloc, chart, candidates, &places),
        Outcome::Crowded(set) => shortage_within(alloc, chart, candidates, &rows, set),
    }
}
