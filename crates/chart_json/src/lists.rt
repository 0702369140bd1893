//! Lists that have a least size and no greatest.

ghost use Rattle.std.specs.Prelude.{◌≡◌, IsTrue};
ghost use Rattle.serde_json.specs.View.{items_view, view};
ghost use Rattle.mtp_codes.specs.Names.{is_name};
ghost use Rattle.mtp_json.specs.Form.{required};
ghost use Rattle.mtp_json.specs.ReadsAs.{ReadsAs, seen};
ghost use Rattle.chart_json.specs.Form.{items_from};

use mtp_json::{FaultKind, JsonRefusal, keyed};
use serde_json::Value;
use std::alloc::Global;

#[tactic(auto, using(mtp_json::proofs::Lists::length_of_view))]
fn list_from(value: &Value, low: usize) -> Result<&[Value], FaultKind>
    ensures { seen (λ list. items_view list.now) result ≡ items_from low (view value.now) }
{
    let list = value.as_array().ok_or(FaultKind::WrongKind)?;
    if low <= list.len() {
        Ok(list.as_slice())
    } else {
        Err(FaultKind::OutOfRange)
    }
}

/// A list of at least `low` items.
pub fn list_from_at<'a>(
    alloc: Global,
    object: &'a Value,
    key: &str,
    low: usize,
) -> Result<&'a [Value], JsonRefusal>
    requires { IsTrue (is_name key.now) }
    ensures { ReadsAs (λ list. items_view list.now) result (required key.now (items_from low) (view object.now)) }
{
    let found = match object.get(key) {
        Some(value) => list_from(value, low),
        None => Err(FaultKind::Missing),
    };
    keyed(alloc, key, found)
}
