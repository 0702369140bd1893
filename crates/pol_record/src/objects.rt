//! Fields as JSON objects, written token by token.
ghost use Rattle.std.specs.Prelude.{◌≡◌, ◌∷◌, ◌++◌, OnOk, true};
ghost use Rattle.json.specs.Token as token;
ghost use Rattle.mtp_json.specs.Written.{is_scalar, scalar_data};
ghost use Rattle.event_json.specs.Fields.{fields_of, plain_field, plain_field_value};
ghost use Rattle.pol_record.specs.Objects.{data_tokens, fields_data, reading_data, readings_data, value_data};

use event_json::{Field, FieldValue, Fields};
use json::Writer;
use mtp_codes::{Reading, Value};
use std::alloc::AllocError;

#[tactic(auto, using(crate::proofs::Tokens::whole_reading))]
fn write_reading(writer: &mut Writer, reading: Reading) -> Result<(), AllocError>
    ensures tokens { OnOk result (writer.new.tokens ≡ writer.old.tokens ++ data_tokens (reading_data reading)) }
    ensures before { writer.new.before ≡ writer.old.before }
{
    match reading {
        Reading::Whole(number) => writer.i64(number),
        Reading::Bit(bit) => writer.boolean(bit),
    }
}

/// Writes a value of a variable or of a parameter.
#[tactic(auto, using(crate::proofs::Tokens::whole_reading))]
pub fn write_scalar(writer: &mut Writer, value: &Value) -> Result<(), AllocError>
    ensures tokens { OnOk result (writer.new.tokens ≡ writer.old.tokens ++ data_tokens (scalar_data value.now)) }
    ensures before { writer.new.before ≡ writer.old.before }
    ensures held { is_scalar value.now ≡ true }
{
    match value {
        Value::Whole(number) => writer.i64(*number),
        Value::Bit(bit) => writer.boolean(*bit),
        Value::Text(text) => writer.string(text.as_str()),
    }
}

fn write_readings(writer: &mut Writer, readings: &[Reading]) -> Result<(), AllocError>
    ensures tokens { OnOk result (writer.new.tokens ≡ writer.old.tokens ++ data_tokens (readings_data readings.now)) }
    ensures before { writer.new.before ≡ writer.old.before }
{
    writer.begin_array()?;
    for reading in readings {
        write_reading(writer, *reading)?;
    }
    writer.end_array()
}

fn write_value(writer: &mut Writer, value: &FieldValue<'_>) -> Result<(), AllocError>
    ensures tokens { OnOk result (writer.new.tokens ≡ writer.old.tokens
        ++ data_tokens (value_data (plain_field_value value.now))) }
    ensures before { writer.new.before ≡ writer.old.before }
{
    match value {
        FieldValue::Text(text) => writer.string(text),
        FieldValue::Number(number) => writer.u64(*number as u64),
        FieldValue::Readings(readings) => write_readings(writer, readings),
    }
}

fn write_field(writer: &mut Writer, field: &Field<'_>) -> Result<(), AllocError>
    ensures tokens { OnOk result (writer.new.tokens ≡ writer.old.tokens
        ++ token.key (plain_field field.now).key ∷ data_tokens (value_data (plain_field field.now).value)) }
    ensures before { writer.new.before ≡ writer.old.before }
{
    writer.key(field.key)?;
    write_value(writer, &field.value)
}

/// Writes an object of these fields, in byte order of their keys.
pub fn write_fields(writer: &mut Writer, fields: &Fields<'_>) -> Result<(), AllocError>
    ensures tokens { OnOk result (writer.new.tokens ≡ writer.old.tokens
        ++ data_tokens (fields_data (fields_of fields.now))) }
    ensures before { writer.new.before ≡ writer.old.before }
{
    let sorted = fields.in_order();
    writer.begin_object()?;
    for field in sorted.as_slice() {
        write_field(writer, field)?;
    }
    writer.end_object()
}
