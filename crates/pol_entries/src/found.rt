//! What is under the keys of an object, with a stand-in where nothing of the kind is there.
ghost use Rattle.std.specs.Prelude.{◌≡◌, codes, pos};
ghost use Rattle.mtp_codes.specs.Numbers.{greatest_i64, least_i64};
ghost use Rattle.mtp_codes.specs.declared.value.Reading.TheVariants.{Whole};
ghost use Rattle.mtp_json.specs.Leaf.{whole};
ghost use Rattle.serde_json.specs.View.{items_view, view};
ghost use Rattle.pol_entries.specs.Found.{command_at, few_readings, forbid_at, found_or, half_at, name_at, number_at};
ghost use Rattle.pol_entries.specs.Found.{reading_of, readings_at, state_at, text_at};

use chart_core::{MOST_READS, Readings};
use mtp_codes::{Command, Forbid, Name, Reading, State};
use mtp_json::{get_list, get_name, get_text, get_u64, whole_of};
use serde_json::Value;

/// The text under a key.
pub fn text_at<'a>(value: &'a Value, key: &str) -> &'a str
    ensures { result.now ≡ text_at key.now (view value.now) }
{
    match get_text(value, key) {
        Ok(text) => text,
        Err(_) => "",
    }
}

fn blank() -> Name
    ensures { result ≡ codes "-" }
{
    Name::of_bytes(b"-").unwrap()
}

/// The name under a key.
pub fn name_at(value: &Value, key: &str) -> Name
    ensures { result ≡ name_at key.now (view value.now) }
{
    match get_name(value, key) {
        Ok(name) => name,
        Err(_) => blank(),
    }
}

/// The number of 32 bits under a key.
pub fn number_at(value: &Value, key: &str) -> u32
    ensures { result ≡ number_at key.now (view value.now) }
{
    match get_u64(value, key) {
        Ok(number) if number <= u64::from(u32::MAX) => number as u32,
        _ => 0,
    }
}

/// The number of 16 bits under a key.
pub fn half_at(value: &Value, key: &str) -> u16
    ensures { result ≡ half_at key.now (view value.now) }
{
    let number = number_at(value, key);
    if number <= u32::from(u16::MAX) {
        number as u16
    } else {
        0
    }
}

/// The state whose code is under a key.
pub fn state_at(value: &Value, key: &str) -> State
    ensures { result ≡ state_at key.now (view value.now) }
{
    State::of_code(number_at(value, key)).unwrap_or(State::Idle)
}

/// The command whose code is under a key.
pub fn command_at(value: &Value, key: &str) -> Command
    ensures { result ≡ command_at key.now (view value.now) }
{
    Command::of_code(number_at(value, key)).unwrap_or(Command::Reset)
}

/// Why a command is forbidden, by the word under a key.
pub fn forbid_at(value: &Value, key: &str) -> Forbid
    ensures { result ≡ forbid_at key.now (view value.now) }
{
    match text_at(value, key) {
        "ModeForbids" => Forbid::ModeForbids,
        "SelfCompletes" => Forbid::SelfCompletes,
        "StateForbids" => Forbid::StateForbids,
        _ => Forbid::NotEnabled,
    }
}

fn whole(value: &Value) -> Reading
    ensures { result ≡ Whole (found_or (pos 0) (whole least_i64 greatest_i64 (view value.now))) }
{
    match whole_of(value, i64::MIN, i64::MAX) {
        Ok(number) => Reading::Whole(number),
        Err(_) => Reading::Whole(0),
    }
}

fn reading_of(value: &Value) -> Reading
    ensures { result ≡ reading_of (view value.now) }
{
    match value.as_bool() {
        Some(bit) => Reading::Bit(bit),
        None => whole(value),
    }
}

#[tactic(auto, using(mtp_json::proofs::Lists::length_of_view, crate::proofs::Compared::few_read))]
fn few_readings(values: &[Value]) -> Readings
    ensures { result ≡ few_readings (items_view values.now) }
{
    let mut readings = Readings::new();
    if values.len() > MOST_READS {
        return readings;
    }
    for value in values {
        readings = readings.with(reading_of(value));
    }
    readings
}

/// The readings under a key, if a node reads as many.
pub fn readings_at(value: &Value, key: &str) -> Readings
    ensures { result ≡ readings_at key.now (view value.now) }
{
    match get_list(value, key) {
        Ok(values) => few_readings(values),
        Err(_) => Readings::new(),
    }
}
