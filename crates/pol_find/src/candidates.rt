//! The modules that could be bound now.
ghost use Rattle.std.specs.Prelude.{◌≡◌, IfOk};
ghost use Rattle.std.specs.Option.{option_map};
ghost use Rattle.mtp_desc.specs.PlainDescription.{plain_description};
ghost use Rattle.pol_history.specs.Runs.{IsLegal};
ghost use Rattle.pol_core.specs.Plants.{plant_history};
ghost use Rattle.pol_match.specs.Candidates.{plain_candidate, plain_candidates};
ghost use Rattle.pol_find.specs.Candidates.{candidate_in, candidate_of, candidates_by, docked_candidate_of};
ghost use Rattle.pol_find.specs.Candidates.{idle_services, is_idle_at, spare_services};

use chart_cursor::Sight;
use mtp_codes::{Name, State};
use mtp_desc::Description;
use pol_core::{Docking, Plant};
use pol_match::Candidate;
use std::alloc::{AllocError, Global};

/// Which modules are candidates.
#[derive(Clone, Copy)]
pub(crate) enum Pool {
    /// Those that are docked, and held by no batch.
    Free,
    /// Those that are docked, held or not.
    Docked,
}

// Whether the service of the tag is seen, and is idle.
fn is_idle(plant: &Plant, tag: Name, service: Name) -> bool
    ensures { result ≡ is_idle_at (plant_history plant.now) tag service }
{
    match plant.view(tag, service) {
        Sight::Is(view) => view.control.state == State::Idle,
        Sight::Away | Sight::Unreported => false,
    }
}

// The services of the description that are idle at the tag.
fn idle_services(
    alloc: Global,
    plant: &Plant,
    tag: Name,
    description: &Description,
) -> Result<Vec<Name>, AllocError>
    ensures { IfOk result (λ idle. idle.items
        ≡ idle_services (plant_history plant.now) tag (plain_description description.now)) }
{
    let mut idle = Vec::new(alloc);
    for service in &description.services {
        if is_idle(plant, tag, service.name) {
            idle.push(service.name)?;
        }
    }
    Ok(idle)
}

// The tag as a candidate; None where it isn't docked, or a batch holds it.
fn candidate_of(alloc: Global, plant: &Plant, tag: Name) -> Result<Option<Candidate>, AllocError>
    ensures { IfOk result (λ found. option_map plain_candidate found ≡ candidate_of (plant_history plant.now) tag) }
{
    let Docking::Docked(_) = plant.docking(tag) else {
        return Ok(None);
    };
    if plant.holder(tag).is_some() {
        return Ok(None);
    }
    match plant.description(tag) {
        Some(description) => Ok(Some(Candidate {
            tag,
            description: description.clone()?,
            idle: idle_services(alloc, plant, tag, description)?,
        })),
        None => Ok(None),
    }
}

// The idle services of a tag that no batch holds; of one that a batch holds none.
fn spare_services(
    alloc: Global,
    plant: &Plant,
    tag: Name,
    description: &Description,
) -> Result<Vec<Name>, AllocError>
    ensures { IfOk result (λ spare. spare.items
        ≡ spare_services (plant_history plant.now) tag (plain_description description.now)) }
{
    match plant.holder(tag) {
        Some(_) => Ok(Vec::new(alloc)),
        None => idle_services(alloc, plant, tag, description),
    }
}

// The tag as a candidate to be held or watched; None where it isn't docked.
fn docked_candidate_of(
    alloc: Global,
    plant: &Plant,
    tag: Name,
) -> Result<Option<Candidate>, AllocError>
    ensures { IfOk result (λ found.
        option_map plain_candidate found ≡ docked_candidate_of (plant_history plant.now) tag) }
{
    let Docking::Docked(_) = plant.docking(tag) else {
        return Ok(None);
    };
    match plant.description(tag) {
        Some(description) => Ok(Some(Candidate {
            tag,
            description: description.clone()?,
            idle: spare_services(alloc, plant, tag, description)?,
        })),
        None => Ok(None),
    }
}

// The tag as a candidate of the pool.
fn candidate_in(
    alloc: Global,
    plant: &Plant,
    pool: Pool,
    tag: Name,
) -> Result<Option<Candidate>, AllocError>
    ensures { IfOk result (λ found.
        option_map plain_candidate found ≡ candidate_in pool (plant_history plant.now) tag) }
{
    match pool {
        Pool::Free => candidate_of(alloc, plant, tag),
        Pool::Docked => docked_candidate_of(alloc, plant, tag),
    }
}

/// The tags of the pool in byte order, each with its description and, where no batch holds it, with its idle services.
pub(crate) fn candidates(
    alloc: Global,
    plant: &Plant,
    pool: Pool,
) -> Result<Vec<Candidate>, AllocError>
    requires { IsLegal (plant_history plant.now) }
    ensures { IfOk result (λ candidates. plain_candidates candidates.items
        ≡ candidates_by (candidate_in pool (plant_history plant.now)) (plant_history plant.now)) }
{
    let mut candidates = Vec::new(alloc);
    let mut place = 0;
    while let Some(tag) = plant.tag_at(place) {
        if let Some(candidate) = candidate_in(alloc, plant, pool, tag)? {
            candidates.push(candidate)?;
        }
        place += 1;
    }
    Ok(candidates)
}
