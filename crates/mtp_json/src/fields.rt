//! The value at a key of an object, or what is wrong with it. An absent key is Missing, also where the value is no
//! object.

ghost use Rattle.std.specs.Prelude.{◌≡◌, List, Some, None, Ok, Err, IfOk, IsTrue, string_bytes};
ghost use Rattle.std.specs.BTreeMap.{keys as map_keys};
ghost use Rattle.std.specs.List.{list_all};
ghost use Rattle.serde_json.specs.View.{items_view, members_view, view};
ghost use Rattle.mtp_codes.specs.Names.{is_name};
ghost use Rattle.mtp_codes.specs.Numbers.{greatest_u64, is_within};
ghost use Rattle.mtp_json.specs.Form.{all_listed, field, is_listed, only_keys};
ghost use Rattle.mtp_json.specs.ReadsAs.{seen};
ghost use Rattle.mtp_json.specs.Leaf.{an_object, count, items, name, text, truth, whole, word};

use crate::fault::FaultKind;
use crate::leaves::{name_of, whole_of};
use crate::words::Words;
use mtp_codes::Name;
use serde_json::{Map, Value};

/// A whole number from `low` to `high`: WrongKind for what `serde_json` holds as no whole number, as `1.0`.
pub fn get_whole(object: &Value, key: &str, low: i64, high: i64) -> Result<i64, FaultKind>
    ensures value { result ≡ field key.now (whole low high) (view object.now) }
    ensures range { IfOk result (λ z. IsTrue (is_within low high z)) }
{
    whole_of(object.get(key).ok_or(FaultKind::Missing)?, low, high)
}

/// A whole number of 64 bits that is not negative.
pub fn get_u64(object: &Value, key: &str) -> Result<u64, FaultKind>
    ensures { result ≡ field key.now (count 0 greatest_u64) (view object.now) }
{
    let value = object.get(key).ok_or(FaultKind::Missing)?;
    if let Some(number) = value.as_u64() {
        Ok(number)
    } else if value.is_i64() {
        Err(FaultKind::OutOfRange)
    } else {
        Err(FaultKind::WrongKind)
    }
}

/// A truth value.
pub fn get_bool(object: &Value, key: &str) -> Result<bool, FaultKind>
    ensures { result ≡ field key.now truth (view object.now) }
{
    let value = object.get(key).ok_or(FaultKind::Missing)?;
    value.as_bool().ok_or(FaultKind::WrongKind)
}

/// A name: OutOfRange for another text.
pub fn get_name(object: &Value, key: &str) -> Result<Name, FaultKind>
    ensures value { result ≡ field key.now name (view object.now) }
    ensures form { IfOk result (λ bytes. IsTrue (is_name bytes)) }
{
    name_of(object.get(key).ok_or(FaultKind::Missing)?)
}

/// A text of any length.
pub fn get_text<'a>(object: &'a Value, key: &str) -> Result<&'a str, FaultKind>
    ensures { seen (λ text. text.now) result ≡ field key.now text (view object.now) }
{
    let value = object.get(key).ok_or(FaultKind::Missing)?;
    value.as_str().ok_or(FaultKind::WrongKind)
}

/// A word of the table: OutOfRange for another text.
pub fn get_word<T: Words>(object: &Value, key: &str) -> Result<T::Item, FaultKind>
    ensures { result ≡ field key.now (word T.words) (view object.now) }
{
    let value = object.get(key).ok_or(FaultKind::Missing)?;
    let text = value.as_str().ok_or(FaultKind::WrongKind)?;
    T::of_text(text).ok_or(FaultKind::OutOfRange)
}

/// A list of any length.
pub fn get_list<'a>(object: &'a Value, key: &str) -> Result<&'a [Value], FaultKind>
    ensures { seen (λ list. items_view list.now) result ≡ field key.now items (view object.now) }
{
    let value = object.get(key).ok_or(FaultKind::Missing)?;
    let list = value.as_array().ok_or(FaultKind::WrongKind)?;
    Ok(list.as_slice())
}

/// An object.
pub fn get_object<'a>(object: &'a Value, key: &str) -> Result<&'a Value, FaultKind>
    ensures { seen (λ inner. view inner.now) result ≡ field key.now an_object (view object.now) }
{
    let value = object.get(key).ok_or(FaultKind::Missing)?;
    if value.is_object() {
        Ok(value)
    } else {
        Err(FaultKind::WrongKind)
    }
}

fn is_listed(keys: &str, name: &str) -> bool
    ensures { result ≡ is_listed keys.now name.now }
{
    keys.split(' ').any(|word| word == name)
}

fn lists_all(keys: &str, map: &Map<String, Value>) -> bool
    ensures { result ≡ list_all (λ key. is_listed keys.now (string_bytes key)) (map_keys map.now) }
{
    map.keys().all(|key| is_listed(keys, key.as_str()))
}

#[tactic(auto, using(crate::proofs::Keys::all_listed_by_keys))]
fn all_listed(keys: &str, map: &Map<String, Value>) -> bool
    ensures { result ≡ all_listed keys.now (members_view map.now.entries) }
{
    lists_all(keys, map)
}

/// Whether the value is an object with no key but these, which are given in one text with one space between neighbours:
/// WrongKind for what is no object, Unknown for another key.
pub fn only(object: &Value, keys: &str) -> Result<(), FaultKind>
    ensures { result ≡ only_keys keys.now (view object.now) }
{
    let map = object.as_object().ok_or(FaultKind::WrongKind)?;
    if all_listed(keys, map) {
        Ok(())
    } else {
        Err(FaultKind::Unknown)
    }
}
