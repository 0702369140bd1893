//! The variables of a module, with their values.
ghost use Rattle.std.specs.Prelude.{◌≡◌, ◌++◌, map, OnOk};
ghost use Rattle.mtp_assembly.specs.Plain.{plain_variable};
ghost use Rattle.pol_core.specs.Plants.{plant_history};
ghost use Rattle.pol_record.specs.Objects.{data_tokens};
ghost use Rattle.pol_overview.specs.Lists.{each_data};
ghost use Rattle.pol_overview.specs.Modules.{value_or_null, variable_data, variable_object};

use json::Writer;
use mtp_assembly::View;
use mtp_codes::{Name, Value};
use pol_core::Plant;
use pol_record::{write_scalar, write_text};
use std::alloc::AllocError;

fn write_value(writer: &mut Writer, value: &Option<Value>) -> Result<(), AllocError>
    ensures tokens { OnOk result (writer.new.tokens ≡ writer.old.tokens ++ data_tokens (value_or_null value.now)) }
    ensures before { writer.new.before ≡ writer.old.before }
{
    match value {
        Some(value) => write_scalar(writer, value),
        None => writer.null(),
    }
}

#[tactic(auto, using(crate::proofs::Tokens::variable_tokens))]
fn write_told(writer: &mut Writer, name: Name, value: &Option<Value>) -> Result<(), AllocError>
    ensures tokens { OnOk result (writer.new.tokens
        ≡ writer.old.tokens ++ data_tokens (variable_object name (value_or_null value.now))) }
    ensures before { writer.new.before ≡ writer.old.before }
{
    writer.begin_object()?;
    write_text(writer, "name", name.as_str())?;
    writer.key("value")?;
    write_value(writer, value)?;
    writer.end_object()
}

fn write_variable(
    writer: &mut Writer,
    plant: &Plant,
    tag: Name,
    variable: &View,
) -> Result<(), AllocError>
    ensures tokens { OnOk result (writer.new.tokens ≡ writer.old.tokens
        ++ data_tokens (variable_data (plant_history plant.now) tag (plain_variable variable.now))) }
    ensures before { writer.new.before ≡ writer.old.before }
{
    let value = plant.value(tag, variable.name);
    write_told(writer, variable.name, &value)
}

/// Writes the variables of a module, with their values.
pub fn write_values(
    writer: &mut Writer,
    plant: &Plant,
    tag: Name,
    variables: &[View],
) -> Result<(), AllocError>
    ensures tokens { OnOk result (writer.new.tokens ≡ writer.old.tokens
        ++ data_tokens (each_data (variable_data (plant_history plant.now) tag) (map plain_variable variables.now))) }
    ensures before { writer.new.before ≡ writer.old.before }
{
    writer.begin_array()?;
    for variable in variables {
        write_variable(writer, plant, tag, variable)?;
    }
    writer.end_array()
}
