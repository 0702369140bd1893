//! A batch: it starts, and then advances wherever it doesn't wait.
ghost use Rattle.std.specs.Prelude.{◌≡◌, IfOk, option_map};
ghost use Rattle.pol_events.specs.Events.{plain_event, start};
ghost use Rattle.pol_history.specs.Answers.{answer_of};
ghost use Rattle.pol_core.specs.Calls.{open_next, refusal};
ghost use Rattle.pol_core.specs.Plants.{plant_history};
ghost use Rattle.pol_site.specs.Following.{is_passing};
ghost use Rattle.pol_site.specs.Views.{plain_batch};
ghost use Rattle.pol_actors.specs.Batches.{advance_event, batch_event, goes_on, is_refusal_passing, stage_after};
ghost use Rattle.pol_actors.specs.Batches.{start_event};

use chart_core::Next;
use pol_core::Plant;
use pol_events::{Answer, Bind, Event, Rule};
use pol_site::SiteBatch;
use std::alloc::{AllocError, Global};

/// The stage of a batch.
#[derive(Clone, Copy, Debug, PartialEq, Eq)]
pub enum Stage {
    /// Its start wasn't sent yet.
    Unsent,
    /// Its start was refused for good.
    Refused,
    /// It was started.
    Started,
}

// Whether this is a rule for which a start waits.
fn is_passing(rule: &Rule) -> bool
    ensures { result ≡ is_passing rule.now }
{
    matches!(
        rule,
        Rule::NoModule { .. }
            | Rule::InExchange { .. }
            | Rule::NoRecipe
            | Rule::NotReported { .. }
            | Rule::NotIdle { .. }
            | Rule::Busy { .. }
    )
}

// Whether a start that would be answered so waits.
fn is_refusal_passing(would: &Result<(), Rule>) -> bool
    ensures { result ≡ is_refusal_passing would.now }
{
    match would {
        Ok(()) => false,
        Err(rule) => is_passing(rule),
    }
}

// Whether the start of the batch waits.
fn waits(batch: &SiteBatch, plant: &Plant) -> bool
    ensures { result ≡ is_refusal_passing (refusal (answer_of (plant_history plant.now)
        (start 0 batch.now.batch batch.now.recipe
        (record { held = batch.now.bind.items; watched = batch.now.watch.items })))) }
{
    is_refusal_passing(&plant.would_start(batch.batch, batch.recipe, &batch.bind, &batch.watch))
}

// The binds once more.
fn copied(alloc: Global, binds: &[Bind]) -> Result<Vec<Bind>, AllocError>
    ensures { IfOk result (λ all. all.items ≡ binds.now) }
{
    let mut all = Vec::new(alloc);
    for bind in binds {
        all.push(*bind)?;
    }
    Ok(all)
}

// The start of the batch, unless it waits.
fn start_event(alloc: Global, batch: &SiteBatch, plant: &Plant) -> Result<Option<Event>, AllocError>
    ensures { IfOk result (λ event. option_map plain_event event
        ≡ start_event (plant_history plant.now) (plain_batch batch.now)) }
{
    if waits(batch, plant) {
        return Ok(None);
    }
    let bind = copied(alloc, &batch.bind)?;
    let watch = copied(alloc, &batch.watch)?;
    Ok(Some(Event::Start {
        at: 0,
        batch: batch.batch,
        recipe: batch.recipe,
        bind,
        watch,
    }))
}

// Whether a batch of which this comes next goes on.
fn goes_on(next: &Option<Next>) -> bool
    ensures { result ≡ goes_on next.now }
{
    matches!(next, Some(Next::Did(_) | Next::Closed(_)))
}

// The advance of the batch, unless it waits or is closed.
fn advance_event(batch: &SiteBatch, plant: &Plant) -> Option<Event>
    ensures { option_map plain_event result
        ≡ advance_event batch.now.batch (open_next (plant_history plant.now) batch.now.batch) }
{
    let next = plant.would(batch.batch);
    if !goes_on(&next) {
        return None;
    }
    Some(Event::Advance {
        at: 0,
        batch: batch.batch,
    })
}

impl Stage {
    /// What the batch does next, as an event with the stamp 0: its start, or else its advance. None where it waits or
    /// has nothing more to do.
    ///
    /// # Errors
    ///
    /// Where there is no memory for the binds of the start.
    pub fn next_event(
        self,
        alloc: Global,
        batch: &SiteBatch,
        plant: &Plant,
    ) -> Result<Option<Event>, AllocError>
        ensures { IfOk result (λ event. option_map plain_event event
            ≡ batch_event (plant_history plant.now) (plain_batch batch.now) self) }
    {
        match self {
            Stage::Unsent => start_event(alloc, batch, plant),
            Stage::Refused => Ok(None),
            Stage::Started => Ok(advance_event(batch, plant)),
        }
    }

    /// The stage after the batch's event was answered so.
    pub fn after(self, answer: &Answer) -> Stage
        ensures { result ≡ stage_after self answer.now }
    {
        match self {
            Stage::Unsent => match answer {
                Answer::Refused(_) => Stage::Refused,
                _ => Stage::Started,
            },
            other => other,
        }
    }
}
