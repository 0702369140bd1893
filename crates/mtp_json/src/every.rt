//! Values that have a form of their own, one by one and in lists.

ghost use Rattle.std.specs.Prelude.{◌≡◌, List, map, length, IsTrue, IfOk, IfSome, option_map};
ghost use Rattle.serde_json.specs.Data.{Data};
ghost use Rattle.serde_json.specs.View.{items_view, view};
ghost use Rattle.mtp_codes.specs.Names.{is_name};
ghost use Rattle.mtp_codes.specs.Numbers.{is_between};
ghost use Rattle.mtp_json.specs.Form.{each, nested, nested_if_there, list, list_if_there, list_or_none};
ghost use Rattle.mtp_json.specs.ReadsAs.{ReadsAs};
ghost use Rattle.mtp_json.specs.ReadResult.{ReadResult, under};

use crate::at_key::{list_at, list_if, value_at};
use crate::fault::JsonRefusal;
use crate::placed::{in_place, under};
use serde_json::Value;
use std::alloc::Global;

/// A form by which the values of one type are read from JSON. By it a crate may have its own form of a type of any
/// crate.
pub trait FromJson {
    type Item: Drop;

    ghost Form: { Type 0 };

    ghost plain: { Self.Item → Form };

    ghost form: { Data → ReadResult Form };

    /// The value that the form gives, or the first fault in reading order.
    fn read(alloc: Global, value: &Value) -> Result<Self::Item, JsonRefusal>
        ensures { ReadsAs plain result (form (view value.now)) };
}

/// Each of these values by the form, from first to last; a fault has the place in front of its path.
pub fn read_every<T: FromJson>(alloc: Global, values: &[Value]) -> Result<Vec<T::Item>, JsonRefusal>
    ensures gives { ReadsAs (λ found. map T.plain found.items) result (each T.form 0 (items_view values.now)) }
    ensures size { IfOk result (λ found. length found.items ≡ length values.now) }
{
    let mut found = Vec::new(alloc);
    for (i, value) in values.iter().enumerate() {
        let item = in_place(i, T::read(alloc, value))?;
        found.push(item)?;
    }
    Ok(found)
}

#[tactic(auto, using(crate::proofs::Each::gives_below, crate::proofs::Each::length_below))]
fn read_under<T: FromJson>(
    alloc: Global,
    key: &str,
    values: &[Value],
) -> Result<Vec<T::Item>, JsonRefusal>
    requires { IsTrue (is_name key.now) }
    ensures gives { ReadsAs (λ found. map T.plain found.items) result
        (under key.now (each T.form 0 (items_view values.now))) }
    ensures size { IfOk result (λ found. length found.items ≡ length values.now) }
{
    under(key, read_every::<T>(alloc, values))
}

/// A list of `low` to `high` items at a key that must be there.
pub fn list_of<T: FromJson>(
    alloc: Global,
    object: &Value,
    key: &str,
    low: usize,
    high: usize,
) -> Result<Vec<T::Item>, JsonRefusal>
    requires { IsTrue (is_name key.now) }
    ensures gives { ReadsAs (λ found. map T.plain found.items) result (list key.now low high T.form (view object.now)) }
    ensures size { IfOk result (λ found. IsTrue (is_between low high (length found.items))) }
{
    let values = list_at(alloc, object, key, low, high)?;
    read_under::<T>(alloc, key, values)
}

/// A list of `low` to `high` items at a key that may be absent, and then the list is empty.
pub fn list_or_none<T: FromJson>(
    alloc: Global,
    object: &Value,
    key: &str,
    low: usize,
    high: usize,
) -> Result<Vec<T::Item>, JsonRefusal>
    requires { IsTrue (is_name key.now) }
    ensures gives { ReadsAs (λ found. map T.plain found.items) result
        (list_or_none key.now low high T.form (view object.now)) }
    ensures size { IfOk result (λ found. IsTrue (is_between 0 high (length found.items))) }
{
    match list_if(alloc, object, key, low, high)? {
        Some(values) => read_under::<T>(alloc, key, values),
        None => Ok(Vec::new(alloc)),
    }
}

/// A list of `low` to `high` items at a key that may be absent, and then there is no list.
pub fn list_if_there<T: FromJson>(
    alloc: Global,
    object: &Value,
    key: &str,
    low: usize,
    high: usize,
) -> Result<Option<Vec<T::Item>>, JsonRefusal>
    requires { IsTrue (is_name key.now) }
    ensures gives { ReadsAs (option_map (λ found. map T.plain found.items)) result
        (list_if_there key.now low high T.form (view object.now)) }
    ensures size { IfOk result (λ there. IfSome there (λ found. IsTrue (is_between low high (length found.items)))) }
{
    match list_if(alloc, object, key, low, high)? {
        Some(values) => Ok(Some(read_under::<T>(alloc, key, values)?)),
        None => Ok(None),
    }
}

#[tactic(auto, using(crate::proofs::Each::gives_below))]
fn form_under<T: FromJson>(alloc: Global, key: &str, value: &Value) -> Result<T::Item, JsonRefusal>
    requires { IsTrue (is_name key.now) }
    ensures { ReadsAs T.plain result (under key.now (T.form (view value.now))) }
{
    under(key, T::read(alloc, value))
}

/// The value at a key that must be there, by its type's form.
pub fn form_at<T: FromJson>(
    alloc: Global,
    object: &Value,
    key: &str,
) -> Result<T::Item, JsonRefusal>
    requires { IsTrue (is_name key.now) }
    ensures { ReadsAs T.plain result (nested key.now T.form (view object.now)) }
{
    let value = value_at(alloc, object, key)?;
    form_under::<T>(alloc, key, value)
}

/// The value at a key that may be absent, by its type's form.
pub fn form_if_there<T: FromJson>(
    alloc: Global,
    object: &Value,
    key: &str,
) -> Result<Option<T::Item>, JsonRefusal>
    requires { IsTrue (is_name key.now) }
    ensures { ReadsAs (option_map T.plain) result (nested_if_there key.now T.form (view object.now)) }
{
    match object.get(key) {
        Some(value) => Ok(Some(form_under::<T>(alloc, key, value)?)),
        None => Ok(None),
    }
}
