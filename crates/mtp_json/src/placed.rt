//! Faults with their paths, which are built on the way out.

ghost use Rattle.std.specs.Prelude.{◌≡◌, ◌∷◌, [], IfOk, OnOk, IsTrue, false};
ghost use Rattle.mtp_codes.specs.Names.{is_name};
ghost use Rattle.mtp_json.specs.Form.{nothing_but, object_here, refused_if};
ghost use Rattle.mtp_json.specs.ReadsAs.{ReadsUnder, RefusalUnder, ReadsAs, ReadsHere, ReadsAtKey};
ghost use Rattle.mtp_json.specs.ReadResult.{under};
ghost use Rattle.serde_json.specs.View.{view};

use crate::fault::{FaultKind, JsonFault, JsonRefusal};
use crate::fields::only;
use crate::path::{Path, PathPart};
use mtp_codes::Name;
use serde_json::Value;
use std::alloc::Global;

/// The step to a key that is a name.
fn key_part(key: &str) -> PathPart
    requires { IsTrue (is_name key.now) }
    ensures { result ≡ PathPart.Key key.now }
{
    match Name::of_bytes(key.as_bytes()) {
        Some(name) => PathPart::Key(name),
        None => unreachable!(),
    }
}

/// What was found at a key of an object, with the key as the path where it is a fault.
pub fn keyed<T>(alloc: Global, key: &str, found: Result<T, FaultKind>) -> Result<T, JsonRefusal>
    requires { IsTrue (is_name key.now) }
    ensures { ReadsAtKey key.now found result }
{
    match found {
        Ok(value) => Ok(value),
        Err(kind) => {
            let mut path = Path::new(alloc);
            path.add(key_part(key))?;
            Err(JsonRefusal::Fault(JsonFault { kind, path }))
        }
    }
}

/// What was found of the value itself, with the empty path where it is a fault.
pub fn here<T>(alloc: Global, found: Result<T, FaultKind>) -> Result<T, JsonRefusal>
    ensures { ReadsHere found result }
{
    match found {
        Ok(value) => Ok(value),
        Err(kind) => Err(JsonRefusal::Fault(JsonFault {
            kind,
            path: Path::new(alloc),
        })),
    }
}

fn beneath(part: PathPart, refusal: JsonRefusal) -> JsonRefusal
    ensures { RefusalUnder part refusal result }
{
    match refusal {
        JsonRefusal::Memory => JsonRefusal::Memory,
        JsonRefusal::Fault(JsonFault { kind, path }) => {
            let mut path = path;
            match path.add_first(part) {
                Ok(()) => JsonRefusal::Fault(JsonFault { kind, path }),
                Err(_) => JsonRefusal::Memory,
            }
        }
    }
}

/// What was read below a key: a fault gets the key in front of its path.
pub fn under<T>(key: &str, read: Result<T, JsonRefusal>) -> Result<T, JsonRefusal>
    requires { IsTrue (is_name key.now) }
    ensures { ReadsUnder (PathPart.Key key.now) read result }
{
    match read {
        Ok(value) => Ok(value),
        Err(refusal) => Err(beneath(key_part(key), refusal)),
    }
}

/// What was read at a place of a list: a fault gets the place in front of its path.
pub fn in_place<T>(place: usize, read: Result<T, JsonRefusal>) -> Result<T, JsonRefusal>
    ensures { ReadsUnder (PathPart.Place place) read result }
{
    match read {
        Ok(value) => Ok(value),
        Err(refusal) => Err(beneath(PathPart::Place(place as u64), refusal)),
    }
}

/// Asks that the value is an object: else WrongKind at its own path.
pub fn object_here(alloc: Global, value: &Value) -> Result<(), JsonRefusal>
    ensures { ReadsAs (λ unit. unit) result (object_here (view value.now)) }
{
    let found = if value.is_object() {
        Ok(())
    } else {
        Err(FaultKind::WrongKind)
    };
    here(alloc, found)
}

/// Asks that the object has no key but these, which are given in one text with one space between neighbours: else
/// Unknown at the object's path.
pub fn nothing_but(alloc: Global, object: &Value, keys: &str) -> Result<(), JsonRefusal>
    ensures { ReadsAs (λ unit. unit) result (nothing_but keys.now (view object.now)) }
{
    here(alloc, only(object, keys))
}

/// A rule of a form's own: a fault of this kind, at the path of the value itself, where the rule is broken.
pub fn refused_if(alloc: Global, broken: bool, kind: FaultKind) -> Result<(), JsonRefusal>
    ensures gives { ReadsAs (λ unit. unit) result (refused_if broken kind) }
    ensures kept { OnOk result (broken ≡ false) }
{
    let found = if broken { Err(kind) } else { Ok(()) };
    here(alloc, found)
}

/// A rule of a form's own: a fault of this kind, at the path of a key, where the rule is broken.
#[tactic(auto, using(crate::proofs::Each::gives_below))]
pub fn refused_under(
    alloc: Global,
    key: &str,
    broken: bool,
    kind: FaultKind,
) -> Result<(), JsonRefusal>
    requires { IsTrue (is_name key.now) }
    ensures gives { ReadsAs (λ unit. unit) result (under key.now (refused_if broken kind)) }
    ensures kept { OnOk result (broken ≡ false) }
{
    under(key, refused_if(alloc, broken, kind))
}
