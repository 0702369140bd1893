//! The batches of a plant.
ghost use Rattle.std.specs.Prelude.{◌≡◌, ◌∷◌, ◌++◌, OnOk};
ghost use Rattle.json.specs.Token as token;
ghost use Rattle.event_json.specs.Written.{written_binds};
ghost use Rattle.pol_core.specs.Calls.{plain_started};
ghost use Rattle.pol_core.specs.Plants.{plant_history};
ghost use Rattle.pol_history.specs.Runs.{IsLegal};
ghost use Rattle.pol_record.specs.Objects.{data_tokens};
ghost use Rattle.pol_record.specs.Texts.{outcome_name};
ghost use Rattle.pol_overview.specs.Batches.{back_tokens, batch_data, batches_data, closed_object, course_data};
ghost use Rattle.pol_overview.specs.Batches.{front_tokens, hold_data, next_data, open_data};
ghost use Rattle.pol_overview.specs.Lists.{each_data};
ghost use Rattle.pol_overview.specs.Steps.{active_data, unheld_steps, waiting_data};

use crate::lists::{Listed, write_each};
use crate::steps::{held_steps, write_active, write_unheld, write_waiting};
use chart_core::Outcome;
use chart_cursor::WaitingNode;
use json::Writer;
use mtp_codes::Name;
use pol_core::{ActiveStep, Plant, Standing, Started};
use pol_events::{Bind, Event};
use pol_foresight::would_answer;
use pol_record::{outcome_name, write_answer, write_binds, write_text};
use std::alloc::{AllocError, Global};

// Writes binds under a key.
fn write_binds_at(writer: &mut Writer, key: &str, binds: &[Bind]) -> Result<(), AllocError>
    ensures tokens { OnOk result (writer.new.tokens
        ≡ writer.old.tokens ++ token.key key.now ∷ data_tokens (written_binds binds.now)) }
    ensures before { writer.new.before ≡ writer.old.before }
{
    writer.key(key)?;
    write_binds(writer, binds)
}

fn write_hold(writer: &mut Writer, hold: Option<bool>) -> Result<(), AllocError>
    ensures tokens { OnOk result (writer.new.tokens ≡ writer.old.tokens ++ data_tokens (hold_data hold)) }
    ensures before { writer.new.before ≡ writer.old.before }
{
    match hold {
        Some(hold) => writer.boolean(hold),
        None => writer.null(),
    }
}

fn write_closed(
    writer: &mut Writer,
    batch: Name,
    started: &Started<'_>,
    outcome: Outcome,
) -> Result<(), AllocError>
    ensures tokens { OnOk result (writer.new.tokens ≡ writer.old.tokens
        ++ data_tokens (closed_object batch (written_binds started.now.held.now) (outcome_name outcome)
        started.now.recipe (written_binds started.now.watched.now))) }
    ensures before { writer.new.before ≡ writer.old.before }
{
    writer.begin_object()?;
    write_text(writer, "batch", batch.as_str())?;
    write_binds_at(writer, "bind", started.held)?;
    write_text(writer, "outcome", outcome_name(outcome))?;
    write_text(writer, "recipe", started.recipe.as_str())?;
    write_binds_at(writer, "watch", started.watched)?;
    writer.end_object()
}

// Writes what an advance of a batch would be answered with now.
fn write_next(writer: &mut Writer, plant: &Plant, batch: Name) -> Result<(), AllocError>
    ensures tokens { OnOk result (writer.new.tokens
        ≡ writer.old.tokens ++ data_tokens (next_data (plant_history plant.now) batch)) }
    ensures before { writer.new.before ≡ writer.old.before }
{
    write_answer(
        writer,
        &would_answer(plant, &Event::Advance { at: 0, batch }),
    )
}

// Writes the first fields of an open batch with these active steps.
fn write_front(
    writer: &mut Writer,
    plant: &Plant,
    batch: Name,
    held: &[Bind],
    hold: Option<bool>,
    active: &[ActiveStep],
) -> Result<(), AllocError>
    ensures tokens { OnOk result (writer.new.tokens ≡ writer.old.tokens ++ front_tokens
        (each_data (active_data (plant_history plant.now)) active.now) batch (written_binds held.now) (hold_data hold)
        (next_data (plant_history plant.now) batch)) }
    ensures before { writer.new.before ≡ writer.old.before }
{
    writer.key("active")?;
    write_active(writer, plant, active)?;
    write_text(writer, "batch", batch.as_str())?;
    write_binds_at(writer, "bind", held)?;
    writer.key("hold")?;
    write_hold(writer, hold)?;
    writer.key("next")?;
    write_next(writer, plant, batch)
}

// Writes the last fields of an open batch: of these steps a hold should reach each, and these nodes wait.
fn write_back(
    writer: &mut Writer,
    plant: &Plant,
    started: &Started<'_>,
    stopping: bool,
    held: &[ActiveStep],
    waits: &[WaitingNode],
) -> Result<(), AllocError>
    ensures tokens { OnOk result (writer.new.tokens ≡ writer.old.tokens ++ back_tokens started.now.recipe stopping
        (unheld_steps (plant_history plant.now) held.now) (each_data waiting_data waits.now)
        (written_binds started.now.watched.now)) }
    ensures before { writer.new.before ≡ writer.old.before }
{
    write_text(writer, "outcome", "Running")?;
    write_text(writer, "recipe", started.recipe.as_str())?;
    writer.key("stopping")?;
    writer.boolean(stopping)?;
    writer.key("unheld")?;
    write_unheld(writer, plant, held)?;
    writer.key("waits")?;
    write_waiting(writer, waits)?;
    write_binds_at(writer, "watch", started.watched)
}

fn write_open(
    alloc: Global,
    writer: &mut Writer,
    plant: &Plant,
    batch: Name,
    started: &Started<'_>,
    standing: &Standing,
) -> Result<(), AllocError>
    ensures tokens { OnOk result (writer.new.tokens ≡ writer.old.tokens ++ data_tokens
        (open_data (plant_history plant.now) batch (plain_started started.now) standing.now.hold
        standing.now.is_stopping)) }
    ensures before { writer.new.before ≡ writer.old.before }
{
    let active = plant.active_steps(alloc, batch)?;
    let waits = plant.waiting_nodes(alloc, batch)?;
    let held = held_steps(standing.hold, &active);
    writer.begin_object()?;
    write_front(writer, plant, batch, started.held, standing.hold, &active)?;
    write_back(writer, plant, started, standing.is_stopping, held, &waits)?;
    writer.end_object()
}

fn write_course(
    alloc: Global,
    writer: &mut Writer,
    plant: &Plant,
    batch: Name,
    started: &Started<'_>,
    standing: &Standing,
) -> Result<(), AllocError>
    ensures tokens { OnOk result (writer.new.tokens ≡ writer.old.tokens ++ data_tokens
        (course_data (plant_history plant.now) batch (plain_started started.now) standing.now.outcome
        standing.now.hold standing.now.is_stopping)) }
    ensures before { writer.new.before ≡ writer.old.before }
{
    match standing.outcome {
        Some(outcome) => write_closed(writer, batch, started, outcome),
        None => write_open(alloc, writer, plant, batch, started, standing),
    }
}

// Writes a batch.
#[tactic(auto, using(crate::proofs::Described::told_batch, crate::proofs::Described::told_unstarted, crate::proofs::Described::told_unstanding))]
fn write_batch(
    alloc: Global,
    writer: &mut Writer,
    plant: &Plant,
    batch: Name,
) -> Result<(), AllocError>
    ensures tokens { OnOk result (writer.new.tokens
        ≡ writer.old.tokens ++ data_tokens (batch_data (plant_history plant.now) batch)) }
    ensures before { writer.new.before ≡ writer.old.before }
{
    let Some(started) = plant.started(batch) else {
        return writer.null();
    };
    let Some(standing) = plant.standing(batch) else {
        return writer.null();
    };
    write_course(alloc, writer, plant, batch, &started, &standing)
}

// The batches of a plant.
#[derive(Clone, Copy)]
struct Batches<'a> {
    alloc: Global,
    plant: &'a Plant,
}

impl Listed for Batches<'_> {
    ghost use Rattle.pol_core.specs.Plants.{plant_history};
    ghost use Rattle.pol_history.specs.Batches.{batches};
    ghost use Rattle.pol_overview.specs.Batches.{batch_data};

    ghost names = { λ list. batches (plant_history list.plant.now) };

    ghost told = { λ list. batch_data (plant_history list.plant.now) };

    fn name_at(&self, place: u32) -> Option<Name> {
        self.plant.batch_at(place)
    }

    fn write(&self, writer: &mut Writer, name: Name) -> Result<(), AllocError> {
        write_batch(self.alloc, writer, self.plant, name)
    }
}

/// Writes the batches that were started, in the order of their starts.
#[tactic(auto, using(crate::proofs::Lengths::few_batches))]
pub fn write_batches(alloc: Global, writer: &mut Writer, plant: &Plant) -> Result<(), AllocError>
    requires { IsLegal (plant_history plant.now) }
    ensures tokens { OnOk result (writer.new.tokens
        ≡ writer.old.tokens ++ data_tokens (batches_data (plant_history plant.now))) }
    ensures before { writer.new.before ≡ writer.old.before }
{
    write_each(writer, &Batches { alloc, plant })
}
