//! Which module plays which role, in JSON: an object from role to tag.
ghost use Rattle.std.specs.Prelude.{◌≡◌, List, is_some, IfOk, IsTrue, true};
ghost use Rattle.std.specs.BTreeMap.{values as map_values};
ghost use Rattle.std.specs.List.{list_all};
ghost use Rattle.serde_json.specs.Find.{as_object, as_str};
ghost use Rattle.serde_json.specs.View.{members_view, view};
ghost use Rattle.mtp_codes.specs.Names.{is_name};
ghost use Rattle.mtp_json.specs.ReadsAs.{ReadsAs, seen};
ghost use Rattle.pol_events.specs.Orderly.{rise};
ghost use Rattle.event_json.specs.Binds.{are_texts, bind_of, binds_of, binds_or_none, each_bind, few_texts};

use mtp_codes::{MOST_BINDS, Name};
use mtp_json::{FaultKind, FromJson, JsonRefusal, form_if_there, here, name_of};
use pol_events::Bind;
use serde_json::{Map, Value};
use std::alloc::Global;

fn read_bind(alloc: Global, role: &str, tag: &Value) -> Result<Bind, JsonRefusal>
    ensures { ReadsAs (λ bind. bind) result (bind_of role.now (view tag.now)) }
{
    let role = here(
        alloc,
        Name::of_bytes(role.as_bytes()).ok_or(FaultKind::OutOfRange),
    )?;
    let tag = here(alloc, name_of(tag))?;
    Ok(Bind { role, tag })
}

fn read_each(alloc: Global, members: &Map<String, Value>) -> Result<Vec<Bind>, JsonRefusal>
    ensures gives { ReadsAs (λ binds. binds.items) result (each_bind (members_view members.now.entries)) }
    ensures order { IfOk result (λ binds. rise binds.items ≡ true) }
{
    let mut binds = Vec::new(alloc);
    for (role, tag) in members.iter() {
        let bind = read_bind(alloc, role.as_str(), tag)?;
        binds.push(bind)?;
    }
    Ok(binds)
}

fn all_texts(members: &Map<String, Value>) -> bool
    ensures { result ≡ list_all (λ tag. is_some (as_str (view tag))) (map_values members.now) }
{
    members.values().all(Value::is_string)
}

#[tactic(auto, using(crate::proofs::Members::texts_by_values))]
fn are_texts(members: &Map<String, Value>) -> bool
    ensures { result ≡ are_texts (members_view members.now.entries) }
{
    all_texts(members)
}

#[tactic(auto, using(crate::proofs::Members::as_many))]
fn few_texts(value: &Value) -> Result<&Map<String, Value>, FaultKind>
    ensures { seen (λ members. members_view members.now.entries) result ≡ few_texts (as_object (view value.now)) }
{
    let members = value.as_object().ok_or(FaultKind::WrongKind)?;
    if !are_texts(members) {
        return Err(FaultKind::WrongKind);
    }
    if members.len() > MOST_BINDS {
        return Err(FaultKind::OutOfRange);
    }
    Ok(members)
}

#[tactic(auto, unfolding(crate::specs::Binds::binds_of), using(pol_events::proofs::Rising::by_role_rising))]
fn read_binds(alloc: Global, value: &Value) -> Result<Vec<Bind>, JsonRefusal>
    ensures { ReadsAs (λ binds. binds.items) result (binds_of (view value.now)) }
{
    let members = here(alloc, few_texts(value))?;
    read_each(alloc, members)
}

/// The form of what a start binds.
pub struct BindsJson;

impl FromJson for BindsJson {
    ghost use Rattle.pol_events.specs.declared.event.Bind.{Bind};

    type Item = Vec<Bind>;

    ghost Form = { List Bind };

    ghost plain = { λ binds. binds.items };

    ghost form = { binds_of };

    fn read(alloc: Global, value: &Value) -> Result<Vec<Bind>, JsonRefusal> {
        read_binds(alloc, value)
    }
}

/// The binds at a key, and none where the key is absent.
pub fn binds_or_none(alloc: Global, object: &Value, key: &str) -> Result<Vec<Bind>, JsonRefusal>
    requires { IsTrue (is_name key.now) }
    ensures { ReadsAs (λ binds. binds.items) result (binds_or_none key.now (view object.now)) }
{
    match form_if_there::<BindsJson>(alloc, object, key)? {
        Some(binds) => Ok(binds),
        None => Ok(Vec::new(alloc)),
    }
}
