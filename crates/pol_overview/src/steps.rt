//! The steps of an open batch: those that are active, those that a hold doesn't reach, and what the nodes of its chart
//! wait for.
ghost use Rattle.std.specs.Prelude.{◌≡◌, ◌++◌, OnOk};
ghost use Rattle.pol_core.specs.Plants.{plant_history};
ghost use Rattle.pol_record.specs.Objects.{data_tokens};
ghost use Rattle.pol_record.specs.Rows.{forbid_name};
ghost use Rattle.pol_overview.specs.Lists.{each_data};
ghost use Rattle.pol_overview.specs.Steps.{active_data, held_steps, unheld_by, unheld_object, unheld_steps, waiting_data};

use crate::services::{write_number, write_sight};
use chart_cursor::{Sight, WaitingNode};
use json::Writer;
use mtp_codes::{Command, Forbid, Speaker};
use mtp_machine::by_command;
use mtp_modes::permitted;
use pol_core::{ActiveStep, Plant};
use pol_events::Answer;
use pol_record::{forbid_name, write_answer, write_text};
use std::alloc::AllocError;

// ---- active steps

#[tactic(auto, using(crate::proofs::Tokens::active_tokens))]
fn write_active_step(
    writer: &mut Writer,
    plant: &Plant,
    step: &ActiveStep,
) -> Result<(), AllocError>
    ensures tokens { OnOk result (writer.new.tokens
        ≡ writer.old.tokens ++ data_tokens (active_data (plant_history plant.now) step.now)) }
    ensures before { writer.new.before ≡ writer.old.before }
{
    let sight = plant.view(step.tag, step.service);
    writer.begin_object()?;
    write_text(writer, "service", step.service.as_str())?;
    write_text(writer, "step", step.step.as_str())?;
    write_text(writer, "tag", step.tag.as_str())?;
    writer.key("view")?;
    write_sight(writer, &sight)?;
    writer.end_object()
}

/// Writes active steps, each with what its service reported last.
pub fn write_active(
    writer: &mut Writer,
    plant: &Plant,
    steps: &[ActiveStep],
) -> Result<(), AllocError>
    ensures tokens { OnOk result (writer.new.tokens
        ≡ writer.old.tokens ++ data_tokens (each_data (active_data (plant_history plant.now)) steps.now)) }
    ensures before { writer.new.before ≡ writer.old.before }
{
    writer.begin_array()?;
    for step in steps {
        write_active_step(writer, plant, step)?;
    }
    writer.end_array()
}

// ---- steps that a hold doesn't reach

// Why a recipe may not send Hold to a service, by what is seen of it; None where it may, or where Hold doesn't lead out
// of its state.
fn unheld_by(sight: &Sight) -> Option<Forbid>
    ensures { result ≡ unheld_by sight.now }
{
    let Sight::Is(view) = sight else {
        return None;
    };
    by_command(view.control.state, Command::Hold)?;
    match permitted(view, Speaker::Recipe, Command::Hold) {
        Ok(()) => None,
        Err(forbid) => Some(forbid),
    }
}

#[tactic(auto, using(crate::proofs::Tokens::unheld_tokens))]
fn write_unheld_step(writer: &mut Writer, step: &ActiveStep, by: Forbid) -> Result<(), AllocError>
    ensures tokens { OnOk result (writer.new.tokens
        ≡ writer.old.tokens ++ data_tokens (unheld_object (forbid_name by) step.now.step step.now.tag)) }
    ensures before { writer.new.before ≡ writer.old.before }
{
    writer.begin_object()?;
    write_text(writer, "by", forbid_name(by))?;
    write_text(writer, "step", step.step.as_str())?;
    write_text(writer, "tag", step.tag.as_str())?;
    writer.end_object()
}

/// The steps of a batch that is frozen so, where their services are to be held.
pub fn held_steps(hold: Option<bool>, steps: &[ActiveStep]) -> &[ActiveStep]
    ensures { result.now ≡ held_steps hold steps.now }
{
    match hold {
        Some(true) => steps,
        _ => &[],
    }
}

/// Writes those of these steps that a hold doesn't reach.
pub fn write_unheld(
    writer: &mut Writer,
    plant: &Plant,
    steps: &[ActiveStep],
) -> Result<(), AllocError>
    ensures tokens { OnOk result (writer.new.tokens
        ≡ writer.old.tokens ++ data_tokens (unheld_steps (plant_history plant.now) steps.now)) }
    ensures before { writer.new.before ≡ writer.old.before }
{
    writer.begin_array()?;
    for step in steps {
        if let Some(by) = unheld_by(&plant.view(step.tag, step.service)) {
            write_unheld_step(writer, step, by)?;
        }
    }
    writer.end_array()
}

// ---- what nodes wait for

#[tactic(auto, using(crate::proofs::Tokens::waiting_tokens))]
fn write_waiting_node(writer: &mut Writer, node: &WaitingNode) -> Result<(), AllocError>
    ensures tokens { OnOk result (writer.new.tokens
        ≡ writer.old.tokens ++ data_tokens (waiting_data node.now)) }
    ensures before { writer.new.before ≡ writer.old.before }
{
    writer.begin_object()?;
    write_number(writer, "node", node.number)?;
    writer.key("obstacle")?;
    write_answer(writer, &Answer::Waiting(node.why))?;
    writer.end_object()
}

/// Writes awaited nodes that aren't ready, each with what stands in its way.
pub fn write_waiting(writer: &mut Writer, nodes: &[WaitingNode]) -> Result<(), AllocError>
    ensures tokens { OnOk result (writer.new.tokens
        ≡ writer.old.tokens ++ data_tokens (each_data waiting_data nodes.now)) }
    ensures before { writer.new.before ≡ writer.old.before }
{
    writer.begin_array()?;
    for node in nodes {
        write_waiting_node(writer, node)?;
    }
    writer.end_array()
}
