//! The modules of a plant.
ghost use Rattle.std.specs.Prelude.{◌≡◌, ◌++◌, OnOk};
ghost use Rattle.mtp_desc.specs.PlainDescription.{plain_description};
ghost use Rattle.pol_core.specs.Calls.{plain_docking};
ghost use Rattle.pol_core.specs.Plants.{plant_history};
ghost use Rattle.pol_history.specs.Batches.{watchers_of};
ghost use Rattle.pol_history.specs.Modules.{ticket_of};
ghost use Rattle.pol_history.specs.Runs.{IsLegal};
ghost use Rattle.pol_record.specs.Objects.{data_tokens};
ghost use Rattle.pol_overview.specs.Lists.{each_data, names_data};
ghost use Rattle.pol_overview.specs.Modules.{described_data, module_data, modules_data, ticket_data};

use crate::allowing::Allowing;
use crate::lists::{Listed, write_each, write_name_or_null};
use crate::services::write_services;
use crate::values::write_values;
use json::Writer;
use mtp_codes::Name;
use mtp_desc::Description;
use pol_core::{Docking, Plant};
use pol_record::write_text;
use std::alloc::{AllocError, Global};

// The batches that watch a module.
#[derive(Clone, Copy)]
struct Watchers<'a> {
    plant: &'a Plant,
    tag: Name,
}

impl Listed for Watchers<'_> {
    ghost use Rattle.serde_json.specs.Data.{string};
    ghost use Rattle.pol_core.specs.Plants.{plant_history};
    ghost use Rattle.pol_history.specs.Batches.{watchers_of};

    ghost names = { λ list. watchers_of (plant_history list.plant.now) list.tag };

    ghost told = { λ _. string };

    fn name_at(&self, place: u32) -> Option<Name> {
        self.plant.watcher(self.tag, place)
    }

    fn write(&self, writer: &mut Writer, name: Name) -> Result<(), AllocError> {
        writer.string(name.as_str())
    }
}

// Writes the batches that watch a module.
#[tactic(auto, using(crate::proofs::Lengths::few_watchers))]
fn write_watchers(writer: &mut Writer, plant: &Plant, tag: Name) -> Result<(), AllocError>
    requires { IsLegal (plant_history plant.now) }
    ensures tokens { OnOk result (writer.new.tokens
        ≡ writer.old.tokens ++ data_tokens (names_data (watchers_of (plant_history plant.now) tag))) }
    ensures before { writer.new.before ≡ writer.old.before }
{
    write_each(writer, &Watchers { plant, tag })
}

fn write_ticket(writer: &mut Writer, docking: Docking) -> Result<(), AllocError>
    ensures tokens { OnOk result (writer.new.tokens
        ≡ writer.old.tokens ++ data_tokens (ticket_data (ticket_of (plain_docking docking)))) }
    ensures before { writer.new.before ≡ writer.old.before }
{
    match docking {
        Docking::Away(ticket) => writer.u64(ticket as u64),
        Docking::Docked(_) | Docking::Absent => writer.null(),
    }
}

// Writes a module of this description.
fn write_described<A: Allowing>(
    writer: &mut Writer,
    plant: &Plant,
    allowing: &A,
    tag: Name,
    description: &Description,
) -> Result<(), AllocError>
    requires { IsLegal (plant_history plant.now) }
    ensures tokens { OnOk result (writer.new.tokens ≡ writer.old.tokens ++ data_tokens
        (described_data (A.allows allowing.now) (plant_history plant.now) tag (plain_description description.now))) }
    ensures before { writer.new.before ≡ writer.old.before }
{
    writer.begin_object()?;
    writer.key("holder")?;
    write_name_or_null(writer, plant.holder(tag))?;
    writer.key("services")?;
    write_services(writer, plant, allowing, tag, &description.services)?;
    write_text(writer, "tag", tag.as_str())?;
    writer.key("ticket")?;
    write_ticket(writer, plant.docking(tag))?;
    write_text(writer, "type", description.type_name.as_str())?;
    writer.key("values")?;
    write_values(writer, plant, tag, &description.variables)?;
    write_text(writer, "version", description.version_text.as_str())?;
    writer.key("watchers")?;
    write_watchers(writer, plant, tag)?;
    writer.end_object()
}

// Writes the module of a tag.
#[tactic(auto, using(crate::proofs::Described::told_absent, crate::proofs::Described::told_there))]
fn write_module<A: Allowing>(
    writer: &mut Writer,
    plant: &Plant,
    allowing: &A,
    tag: Name,
) -> Result<(), AllocError>
    requires { IsLegal (plant_history plant.now) }
    ensures tokens { OnOk result (writer.new.tokens ≡ writer.old.tokens
        ++ data_tokens (module_data (A.allows allowing.now) (plant_history plant.now) tag)) }
    ensures before { writer.new.before ≡ writer.old.before }
{
    match plant.description(tag) {
        Some(description) => write_described(writer, plant, allowing, tag, description),
        None => writer.null(),
    }
}

// Writes the modules of these tags.
fn write_tags<A: Allowing>(
    writer: &mut Writer,
    plant: &Plant,
    allowing: &A,
    tags: &[Name],
) -> Result<(), AllocError>
    requires { IsLegal (plant_history plant.now) }
    ensures tokens { OnOk result (writer.new.tokens ≡ writer.old.tokens
        ++ data_tokens (each_data (module_data (A.allows allowing.now) (plant_history plant.now)) tags.now)) }
    ensures before { writer.new.before ≡ writer.old.before }
{
    writer.begin_array()?;
    for tag in tags {
        write_module(writer, plant, allowing, *tag)?;
    }
    writer.end_array()
}

/// Writes the modules that are docked or away, in byte order of their tags.
pub fn write_modules<A: Allowing>(
    alloc: Global,
    writer: &mut Writer,
    plant: &Plant,
    allowing: &A,
) -> Result<(), AllocError>
    requires { IsLegal (plant_history plant.now) }
    ensures tokens { OnOk result (writer.new.tokens ≡ writer.old.tokens
        ++ data_tokens (modules_data (A.allows allowing.now) (plant_history plant.now))) }
    ensures before { OnOk result (writer.new.before ≡ writer.old.before) }
{
    let tags = plant.tags(alloc)?;
    write_tags(writer, plant, allowing, &tags)
}
