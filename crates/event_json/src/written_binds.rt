//! Writing which module plays which role.
ghost use Rattle.std.specs.Prelude.{◌≡◌, IfOk, IsTrue, true};
ghost use Rattle.std.specs.List.{list_all};
ghost use Rattle.serde_json.specs.Data.{string};
ghost use Rattle.serde_json.specs.View.{members_view, view};
ghost use Rattle.mtp_codes.specs.Names.{is_name};
ghost use Rattle.pol_events.specs.Orderly.{rise};
ghost use Rattle.event_json.specs.Ranges.{is_bind_in_range};
ghost use Rattle.event_json.specs.Written.{bind_members, written_binds};

use mtp_codes::Name;
use pol_events::Bind;
use serde_json::{Map, Value, json};
use std::alloc::{AllocError, Global};

fn name_value(alloc: Global, name: Name) -> Result<Value, AllocError>
    ensures value { IfOk result (λ value. view value ≡ string name) }
    ensures form { is_name name ≡ true }
{
    let text = name.as_str();
    json!(in alloc; text)
}

fn bind_members(alloc: Global, binds: &[Bind]) -> Result<Map<String, Value>, AllocError>
    requires { IsTrue (rise binds.now) }
    ensures value { IfOk result (λ members. members_view members.entries ≡ bind_members binds.now) }
    ensures held { IfOk result (λ _. list_all is_bind_in_range binds.now ≡ true) }
{
    let mut members = Map::new(alloc);
    for bind in binds {
        let role = String::from_str(alloc, bind.role.as_str())?;
        let tag = name_value(alloc, bind.tag)?;
        members.insert(role, tag)?;
    }
    Ok(members)
}

/// What a start binds, as an object from role to tag. The roles have to be in byte order, each once.
#[tactic(auto, unfolding(crate::specs::Written::written_binds))]
pub fn write_binds(alloc: Global, binds: &[Bind]) -> Result<Value, AllocError>
    requires { IsTrue (rise binds.now) }
    ensures value { IfOk result (λ value. view value ≡ written_binds binds.now) }
    ensures held { IfOk result (λ _. list_all is_bind_in_range binds.now ≡ true) }
{
    Ok(Value::Object(bind_members(alloc, binds)?))
}
