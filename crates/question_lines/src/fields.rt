//! Numbers in questions that may be absent, and the event in a question.
ghost use Rattle.std.specs.Prelude.{◌≡◌, IsTrue, option_map};
ghost use Rattle.serde_json.specs.Find.{get};
ghost use Rattle.serde_json.specs.View.{view};
ghost use Rattle.mtp_codes.specs.Names.{is_name};
ghost use Rattle.mtp_json.specs.Form.{optional, required};
ghost use Rattle.mtp_json.specs.Leaf.{anything, count};
ghost use Rattle.mtp_json.specs.ReadsAs.{ReadsAs};

use mtp_json::{FaultKind, JsonRefusal, keyed, u32_at};
use serde_json::Value;
use std::alloc::Global;

/// A whole number from `low` to `high`, or None where the key is absent.
pub fn u32_if(
    alloc: Global,
    object: &Value,
    key: &str,
    low: u32,
    high: u32,
) -> Result<Option<u32>, JsonRefusal>
    requires { IsTrue (is_name key.now) }
    ensures { ReadsAs (λ found. found) result (optional key.now (count low high) (view object.now)) }
{
    if object.get(key).is_none() {
        return Ok(None);
    }
    let number = u32_at(alloc, object, key, low, high)?;
    Ok(Some(number))
}

fn taken(value: Value, key: &str) -> Option<Value>
    ensures { option_map view result ≡ get key.now (view value) }
{
    match value {
        Value::Object(members) => {
            let mut members = members;
            members.remove(key)
        }
        _ => None,
    }
}

/// The value at a key that must be there, taken out of its object.
pub fn take_at(alloc: Global, object: Value, key: &str) -> Result<Value, JsonRefusal>
    requires { IsTrue (is_name key.now) }
    ensures { ReadsAs view result (required key.now anything (view object)) }
{
    keyed(alloc, key, taken(object, key).ok_or(FaultKind::Missing))
}
