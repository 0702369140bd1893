//! The overview of a plant, as a line.
ghost use Rattle.std.specs.Prelude.{◌≡◌, ◌++◌, codes, length, OnOk};
ghost use Rattle.pol_core.specs.Plants.{plant_history};
ghost use Rattle.pol_core.specs.Recipes.{names_in};
ghost use Rattle.pol_history.specs.Looking.{recipes};
ghost use Rattle.pol_history.specs.Runs.{IsLegal};
ghost use Rattle.pol_record.specs.Objects.{data_tokens};
ghost use Rattle.pol_record.specs.Texts.{under_key};
ghost use Rattle.pol_overview.specs.Lists.{names_data};
ghost use Rattle.pol_overview.specs.Near.{near_limits};
ghost use Rattle.pol_overview.specs.Overview.{plant_data, plant_text};

use crate::allowing::Allowing;
use crate::batches::write_batches;
use crate::lists::{Listed, write_each};
use crate::modules::write_modules;
use crate::near::{near_limits, write_rules};
use json::Writer;
use mtp_codes::Name;
use pol_core::Plant;
use pol_events::Rule;
use pol_record::{ended_line, write_text};
use std::alloc::{AllocError, Global};
use std::mem;

// The recipes of a plant.
#[derive(Clone, Copy)]
struct Recipes<'a> {
    plant: &'a Plant,
}

impl Listed for Recipes<'_> {
    ghost use Rattle.serde_json.specs.Data.{string};
    ghost use Rattle.pol_core.specs.Plants.{plant_history};
    ghost use Rattle.pol_core.specs.Recipes.{names_in};
    ghost use Rattle.pol_history.specs.Looking.{recipes};

    ghost names = { λ list. names_in (recipes (plant_history list.plant.now)) };

    ghost told = { λ _. string };

    fn name_at(&self, place: u32) -> Option<Name> {
        self.plant.recipe_at(place)
    }

    fn write(&self, writer: &mut Writer, name: Name) -> Result<(), AllocError> {
        writer.string(name.as_str())
    }
}

#[tactic(auto, using(crate::proofs::Lengths::few_recipes))]
fn write_recipes(writer: &mut Writer, plant: &Plant) -> Result<(), AllocError>
    requires { IsLegal (plant_history plant.now) }
    ensures tokens { OnOk result (writer.new.tokens
        ≡ writer.old.tokens ++ data_tokens (names_data (names_in (recipes (plant_history plant.now))))) }
    ensures before { writer.new.before ≡ writer.old.before }
{
    write_each(writer, &Recipes { plant })
}

// Writes the overview of a plant, which has so many entries, and of whose limits these are near.
fn write_plant<A: Allowing>(
    alloc: Global,
    writer: &mut Writer,
    plant: &Plant,
    allowing: &A,
    entries: u64,
    near: &[Rule],
    file: &FileWords<'_>,
) -> Result<(), AllocError>
    requires legal { IsLegal (plant_history plant.now) }
    requires entries { entries ≡ length (plant_history plant.now) }
    requires near { near.now ≡ near_limits (plant_history plant.now) }
    ensures tokens { OnOk result (writer.new.tokens ≡ writer.old.tokens ++ data_tokens (under_key (codes "plant")
        (plant_data (A.allows allowing.now) (plant_history plant.now) file.now.begun.now file.now.sum.now))) }
    ensures before { OnOk result (writer.new.before ≡ writer.old.before) }
{
    writer.begin_object()?;
    writer.key("plant")?;
    writer.begin_object()?;
    writer.key("batches")?;
    write_batches(alloc, writer, plant)?;
    write_text(writer, "begun", file.begun)?;
    writer.key("entries")?;
    writer.u64(entries)?;
    writer.key("modules")?;
    write_modules(alloc, writer, plant, allowing)?;
    writer.key("near")?;
    write_rules(writer, near)?;
    writer.key("recipes")?;
    write_recipes(writer, plant)?;
    write_text(writer, "sum", file.sum)?;
    writer.end_object()?;
    writer.end_object()
}

/// What the file of a plant says of itself.
#[derive(Clone, Copy, Debug)]
pub struct FileWords<'a> {
    /// What its header says.
    pub begun: &'a str,
    /// The sum of its last record, in hex.
    pub sum: &'a str,
}

/// Puts the line of the overview of a plant behind what a buffer holds: its batches, what its file's header says, the
/// number of its entries, its modules, with the commands that would go out to each service now and that are allowed,
/// the limits that are near, its recipes, and the sum of its file's last record. Where there is no memory, what the
/// buffer held is lost.
#[tactic(auto, using(pol_record::proofs::Tokens::line_of_tokens))]
pub fn put_plant_line<A: Allowing>(
    alloc: Global,
    out: &mut Vec<u8>,
    plant: &Plant,
    allowing: &A,
    file: &FileWords<'_>,
) -> Result<(), AllocError>
    ensures { OnOk result (out.new.items ≡ out.old.items
        ++ plant_text (A.allows allowing.now) (plant_history plant.now) file.now.begun.now file.now.sum.now) }
{
    let entries = plant.history().len() as u64;
    let near = near_limits(alloc, plant)?;
    let mut writer = Writer::new(mem::replace(out, Vec::new(alloc)));
    write_plant(alloc, &mut writer, plant, allowing, entries, &near, file)?;
    *out = ended_line(writer)?;
    Ok(())
}
