//! Who gives an event, and the value of an event without this person.
ghost use Rattle.std.specs.Prelude.{◌≡◌, codes, IsTrue};
ghost use Rattle.serde_json.specs.View.{members_view, view};
ghost use Rattle.mtp_codes.specs.Names.{is_name};
ghost use Rattle.mtp_json.specs.Form.{optional};
ghost use Rattle.mtp_json.specs.Leaf.{name};
ghost use Rattle.mtp_json.specs.ReadsAs.{ReadsAs};
ghost use Rattle.named_lines.specs.Named.{person_in, person_of};
ghost use Rattle.named_lines.specs.Without.{without, without_member};

use crate::kinds::is_desk;
use event_json::{EventKind, KindWords};
use mtp_codes::Name;
use mtp_json::{JsonRefusal, name_at, object_here, u64_at, word_at};
use serde_json::{Map, Value};
use std::alloc::Global;

/// A name, or None where the key is absent.
pub fn name_if(alloc: Global, object: &Value, key: &str) -> Result<Option<Name>, JsonRefusal>
    requires { IsTrue (is_name key.now) }
    ensures { ReadsAs (λ found. found) result (optional key.now name (view object.now)) }
{
    if object.get(key).is_none() {
        return Ok(None);
    }
    let name = name_at(alloc, object, key)?;
    Ok(Some(name))
}

fn read_by(alloc: Global, value: &Value, kind: EventKind) -> Result<Option<Name>, JsonRefusal>
    ensures { ReadsAs (λ person. person) result (person_of (view value.now) kind) }
{
    if is_desk(kind) {
        let person = name_at(alloc, value, "by")?;
        return Ok(Some(person));
    }
    name_if(alloc, value, "by")
}

/// Who gives the event that a value says, asked behind its kind and its stamp.
#[tactic(auto, unfolding(crate::specs::Named::person_in))]
pub fn read_person(alloc: Global, value: &Value) -> Result<Option<Name>, JsonRefusal>
    ensures { ReadsAs (λ person. person) result (person_in (view value.now)) }
{
    object_here(alloc, value)?;
    let kind = word_at::<KindWords>(alloc, value, "ev")?;
    u64_at(alloc, value, "at")?;
    read_by(alloc, value, kind)
}

fn take_out(members: &mut Map<String, Value>, key: &str)
    ensures { members_view members.new.entries ≡ without_member key.now (members_view members.old.entries) }
{
    members.remove(key);
}

/// The value without the member at `by`.
pub fn without_person(value: Value) -> Value
    ensures { view result ≡ without (codes "by") (view value) }
{
    match value {
        Value::Object(members) => {
            let mut members = members;
            take_out(&mut members, "by");
            Value::Object(members)
        }
        other => other,
    }
}
