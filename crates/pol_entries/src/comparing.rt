//! Whether a value is the object of some fields.
ghost use Rattle.std.specs.Prelude.{◌≡◌, map};
ghost use Rattle.serde_json.specs.View.{items_view, members_view, view};
ghost use Rattle.event_json.specs.Fields.{plain_field, fields_of, number, text, plain_field_value};
ghost use Rattle.pol_entries.specs.Compared.{are_fields, are_readings, is_field, is_object, is_reading, is_value};
ghost use Rattle.pol_entries.specs.Compared.{is_whole};

use event_json::{Field, FieldValue, Fields};
use mtp_codes::Reading;
use serde_json::{Map, Value};

fn is_whole(value: &Value, number: i64) -> bool
    ensures { result ≡ is_whole number (view value.now) }
{
    if number < 0 {
        match value.as_i64() {
            Some(found) => found == number,
            None => false,
        }
    } else {
        match value.as_u64() {
            Some(found) => found == number as u64,
            None => false,
        }
    }
}

fn is_reading(value: &Value, reading: Reading) -> bool
    ensures { result ≡ is_reading reading (view value.now) }
{
    match reading {
        Reading::Whole(number) => is_whole(value, number),
        Reading::Bit(bit) => match value.as_bool() {
            Some(found) => found == bit,
            None => false,
        },
    }
}

fn are_readings(values: &[Value], readings: &[Reading]) -> bool
    ensures { result ≡ are_readings readings.now (items_view values.now) }
{
    let mut left = readings;
    let mut rest = values;
    while let Some((reading, others)) = left.split_first() {
        let Some((value, values)) = rest.split_first() else {
            return false;
        };
        if !is_reading(value, *reading) {
            return false;
        }
        left = others;
        rest = values;
    }
    rest.is_empty()
}

fn is_text(value: &Value, told: &str) -> bool
    ensures { result ≡ is_value (text told.now) (view value.now) }
{
    match value.as_str() {
        Some(found) => found == told,
        None => false,
    }
}

fn is_number(value: &Value, told: u32) -> bool
    ensures { result ≡ is_value (number told) (view value.now) }
{
    match value.as_u64() {
        Some(found) => found == told as u64,
        None => false,
    }
}

fn is_value(value: &Value, told: &FieldValue<'_>) -> bool
    ensures { result ≡ is_value (plain_field_value told.now) (view value.now) }
{
    match told {
        FieldValue::Text(text) => is_text(value, text),
        FieldValue::Number(number) => is_number(value, *number),
        FieldValue::Readings(readings) => match value.as_array() {
            Some(values) => are_readings(values, readings),
            None => false,
        },
    }
}

fn is_field(key: &str, value: &Value, field: &Field<'_>) -> bool
    ensures { result ≡ is_field key.now (view value.now) (plain_field field.now) }
{
    key == field.key && is_value(value, &field.value)
}

fn are_fields(members: &Map<String, Value>, fields: &[Field<'_>]) -> bool
    ensures { result ≡ are_fields (map plain_field fields.now) (members_view members.now.entries) }
{
    let mut rest = members.iter();
    for field in fields {
        let Some((key, value)) = rest.next() else {
            return false;
        };
        if !is_field(key.as_str(), value, field) {
            return false;
        }
    }
    rest.next().is_none()
}

/// Whether the value is the object of these fields.
pub fn is_object(value: &Value, fields: &Fields<'_>) -> bool
    ensures { result ≡ is_object (fields_of fields.now) (view value.now) }
{
    match value.as_object() {
        Some(members) => are_fields(members, fields.in_order().as_slice()),
        None => false,
    }
}
