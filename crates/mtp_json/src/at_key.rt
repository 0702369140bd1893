//! The value at a key of an object, or the fault with its path.

ghost use Rattle.std.specs.Prelude.{◌≡◌, ◌≤◌, length, IfOk, IfSome, IsTrue, option_map};
ghost use Rattle.serde_json.specs.View.{items_view, view};
ghost use Rattle.mtp_codes.specs.Codes.{command_codes, state_codes};
ghost use Rattle.mtp_codes.specs.Names.{is_name};
ghost use Rattle.mtp_codes.specs.Numbers.{greatest_i32, greatest_i64, greatest_u64, is_between, is_within, least_i32, least_i64};
ghost use Rattle.mtp_json.specs.Form.{field, required, required_or, optional};
ghost use Rattle.mtp_json.specs.ReadsAs.{ReadsAs, seen};
ghost use Rattle.mtp_json.specs.Leaf.{anything, code, count, items_in, name, scalar, text, text_to, truth, whole, word};
ghost use Rattle.mtp_json.specs.Written.{is_scalar};

use crate::fault::{FaultKind, JsonRefusal};
use crate::fields::{get_bool, get_name, get_text, get_u64, get_whole, get_word};
use crate::leaves::scalar_of;
use crate::placed::keyed;
use crate::words::Words;
use mtp_codes::{Command, Name, Short, State};
use serde_json::Value;
use std::alloc::Global;

/// A whole number from `low` to `high`.
pub fn whole_at(
    alloc: Global,
    object: &Value,
    key: &str,
    low: i64,
    high: i64,
) -> Result<i64, JsonRefusal>
    requires { IsTrue (is_name key.now) }
    ensures gives { ReadsAs (λ number. number) result (required key.now (whole low high) (view object.now)) }
    ensures range { IfOk result (λ z. IsTrue (is_within low high z)) }
{
    keyed(alloc, key, get_whole(object, key, low, high))
}

/// A whole number of 64 bits.
pub fn i64_at(alloc: Global, object: &Value, key: &str) -> Result<i64, JsonRefusal>
    requires { IsTrue (is_name key.now) }
    ensures gives { ReadsAs (λ number. number) result
        (required key.now (whole least_i64 greatest_i64) (view object.now)) }
    ensures range { IfOk result (λ z. IsTrue (is_within least_i64 greatest_i64 z)) }
{
    keyed(alloc, key, get_whole(object, key, i64::MIN, i64::MAX))
}

/// A whole number of 32 bits.
pub fn i32_at(alloc: Global, object: &Value, key: &str) -> Result<i32, JsonRefusal>
    requires { IsTrue (is_name key.now) }
    ensures gives { ReadsAs (λ number. number) result
        (required key.now (whole least_i32 greatest_i32) (view object.now)) }
    ensures range { IfOk result (λ z. IsTrue (is_within least_i32 greatest_i32 z)) }
{
    let number = whole_at(alloc, object, key, -2147483648, 2147483647)?;
    Ok(number as i32)
}

/// A whole number from 0 to 18446744073709551615.
pub fn u64_at(alloc: Global, object: &Value, key: &str) -> Result<u64, JsonRefusal>
    requires { IsTrue (is_name key.now) }
    ensures { ReadsAs (λ number. number) result (required key.now (count 0 greatest_u64) (view object.now)) }
{
    keyed(alloc, key, get_u64(object, key))
}

fn get_u32(object: &Value, key: &str, low: u32, high: u32) -> Result<u32, FaultKind>
    ensures value { result ≡ field key.now (count low high) (view object.now) }
    ensures range { IfOk result (λ n. IsTrue (is_between low high n)) }
{
    let number = get_whole(object, key, low as i64, high as i64)?;
    Ok(number as u32)
}

/// A whole number from `low` to `high`, neither negative.
pub fn u32_at(
    alloc: Global,
    object: &Value,
    key: &str,
    low: u32,
    high: u32,
) -> Result<u32, JsonRefusal>
    requires { IsTrue (is_name key.now) }
    ensures gives { ReadsAs (λ number. number) result (required key.now (count low high) (view object.now)) }
    ensures range { IfOk result (λ n. IsTrue (is_between low high n)) }
{
    keyed(alloc, key, get_u32(object, key, low, high))
}

/// A whole number from `low` to `high`, neither negative nor above 65535.
pub fn u16_at(
    alloc: Global,
    object: &Value,
    key: &str,
    low: u16,
    high: u16,
) -> Result<u16, JsonRefusal>
    requires { IsTrue (is_name key.now) }
    ensures gives { ReadsAs (λ number. number) result (required key.now (count low high) (view object.now)) }
    ensures range { IfOk result (λ n. IsTrue (is_between low high n)) }
{
    let number = u32_at(alloc, object, key, low as u32, high as u32)?;
    Ok(number as u16)
}

/// A truth value.
pub fn truth_at(alloc: Global, object: &Value, key: &str) -> Result<bool, JsonRefusal>
    requires { IsTrue (is_name key.now) }
    ensures { ReadsAs (λ truth. truth) result (required key.now truth (view object.now)) }
{
    keyed(alloc, key, get_bool(object, key))
}

/// A truth value, or `absent` where the key is absent.
pub fn truth_or(alloc: Global, object: &Value, key: &str, absent: bool) -> Result<bool, JsonRefusal>
    requires { IsTrue (is_name key.now) }
    ensures { ReadsAs (λ truth. truth) result (required_or key.now absent truth (view object.now)) }
{
    if object.get(key).is_none() {
        return Ok(absent);
    }
    truth_at(alloc, object, key)
}

/// A name.
pub fn name_at(alloc: Global, object: &Value, key: &str) -> Result<Name, JsonRefusal>
    requires { IsTrue (is_name key.now) }
    ensures gives { ReadsAs (λ name. name) result (required key.now name (view object.now)) }
    ensures form { IfOk result (λ bytes. IsTrue (is_name bytes)) }
{
    keyed(alloc, key, get_name(object, key))
}

/// A text of any length.
pub fn text_at<'a>(alloc: Global, object: &'a Value, key: &str) -> Result<&'a str, JsonRefusal>
    requires { IsTrue (is_name key.now) }
    ensures { ReadsAs (λ text. text.now) result (required key.now text (view object.now)) }
{
    keyed(alloc, key, get_text(object, key))
}

fn get_short(object: &Value, key: &str, limit: usize) -> Result<Short, FaultKind>
    requires { limit ≤ 254 }
    ensures { result ≡ field key.now (text_to limit) (view object.now) }
{
    let text = get_text(object, key)?;
    if text.len() > limit {
        return Err(FaultKind::OutOfRange);
    }
    Short::of_text(text).ok_or(FaultKind::OutOfRange)
}

/// A text of at most `limit` bytes.
pub fn short_at(
    alloc: Global,
    object: &Value,
    key: &str,
    limit: usize,
) -> Result<Short, JsonRefusal>
    requires key { IsTrue (is_name key.now) }
    requires limit { limit ≤ 254 }
    ensures { ReadsAs (λ text. text) result (required key.now (text_to limit) (view object.now)) }
{
    keyed(alloc, key, get_short(object, key, limit))
}

fn get_scalar(object: &Value, key: &str) -> Result<mtp_codes::Value, FaultKind>
    ensures value { result ≡ field key.now scalar (view object.now) }
    ensures form { IfOk result (λ found. IsTrue (is_scalar found)) }
{
    scalar_of(object.get(key).ok_or(FaultKind::Missing)?)
}

/// A value of a variable or of a parameter.
pub fn scalar_at(alloc: Global, object: &Value, key: &str) -> Result<mtp_codes::Value, JsonRefusal>
    requires { IsTrue (is_name key.now) }
    ensures gives { ReadsAs (λ found. found) result (required key.now scalar (view object.now)) }
    ensures form { IfOk result (λ found. IsTrue (is_scalar found)) }
{
    keyed(alloc, key, get_scalar(object, key))
}

fn get_state(object: &Value, key: &str) -> Result<State, FaultKind>
    ensures { result ≡ field key.now (code state_codes) (view object.now) }
{
    let number = get_u32(object, key, 0, u32::MAX)?;
    State::of_code(number).ok_or(FaultKind::OutOfRange)
}

/// A state by its code.
pub fn state_at(alloc: Global, object: &Value, key: &str) -> Result<State, JsonRefusal>
    requires { IsTrue (is_name key.now) }
    ensures { ReadsAs (λ state. state) result (required key.now (code state_codes) (view object.now)) }
{
    keyed(alloc, key, get_state(object, key))
}

fn get_command(object: &Value, key: &str) -> Result<Command, FaultKind>
    ensures { result ≡ field key.now (code command_codes) (view object.now) }
{
    let number = get_u32(object, key, 0, u32::MAX)?;
    Command::of_code(number).ok_or(FaultKind::OutOfRange)
}

/// A command by its code.
pub fn command_at(alloc: Global, object: &Value, key: &str) -> Result<Command, JsonRefusal>
    requires { IsTrue (is_name key.now) }
    ensures { ReadsAs (λ command. command) result (required key.now (code command_codes) (view object.now)) }
{
    keyed(alloc, key, get_command(object, key))
}

/// A word of the table.
pub fn word_at<T: Words>(alloc: Global, object: &Value, key: &str) -> Result<T::Item, JsonRefusal>
    requires { IsTrue (is_name key.now) }
    ensures { ReadsAs (λ meaning. meaning) result (required key.now (word T.words) (view object.now)) }
{
    keyed(alloc, key, get_word::<T>(object, key))
}

/// Any value.
pub fn value_at<'a>(alloc: Global, object: &'a Value, key: &str) -> Result<&'a Value, JsonRefusal>
    requires { IsTrue (is_name key.now) }
    ensures { ReadsAs (λ value. view value.now) result (required key.now anything (view object.now)) }
{
    keyed(alloc, key, object.get(key).ok_or(FaultKind::Missing))
}

/// The items of a list of `low` to `high` items: WrongKind for what is no list, OutOfRange for one of another size.
#[tactic(auto, using(crate::proofs::Lists::length_of_view))]
pub fn list_in<'a>(value: &'a Value, low: usize, high: usize) -> Result<&'a [Value], FaultKind>
    ensures value { seen (λ list. items_view list.now) result ≡ items_in low high (view value.now) }
    ensures size { IfOk result (λ list. IsTrue (is_between low high (length list.now))) }
{
    let list = value.as_array().ok_or(FaultKind::WrongKind)?;
    if low <= list.len() && list.len() <= high {
        Ok(list.as_slice())
    } else {
        Err(FaultKind::OutOfRange)
    }
}

/// A list of `low` to `high` items.
pub fn list_at<'a>(
    alloc: Global,
    object: &'a Value,
    key: &str,
    low: usize,
    high: usize,
) -> Result<&'a [Value], JsonRefusal>
    requires { IsTrue (is_name key.now) }
    ensures gives { ReadsAs (λ list. items_view list.now) result
        (required key.now (items_in low high) (view object.now)) }
    ensures size { IfOk result (λ list. IsTrue (is_between low high (length list.now))) }
{
    let found = match object.get(key) {
        Some(value) => list_in(value, low, high),
        None => Err(FaultKind::Missing),
    };
    keyed(alloc, key, found)
}

/// A list of `low` to `high` items, if the key is there.
pub fn list_if<'a>(
    alloc: Global,
    object: &'a Value,
    key: &str,
    low: usize,
    high: usize,
) -> Result<Option<&'a [Value]>, JsonRefusal>
    requires { IsTrue (is_name key.now) }
    ensures gives { ReadsAs (option_map (λ list. items_view list.now)) result
        (optional key.now (items_in low high) (view object.now)) }
    ensures size { IfOk result (λ found. IfSome found (λ list. IsTrue (is_between low high (length list.now)))) }
{
    match object.get(key) {
        Some(value) => Ok(Some(keyed(alloc, key, list_in(value, low, high))?)),
        None => Ok(None),
    }
}
