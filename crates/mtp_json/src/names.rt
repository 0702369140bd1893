//! Names as items of lists.

ghost use Rattle.std.specs.Prelude.{List, ℕ};
ghost use Rattle.std.specs.Str.{bytes_eq};
ghost use Rattle.mtp_json.specs.Leaf.{name};
ghost use Rattle.mtp_json.specs.ReadResult.{here};
ghost use Rattle.serde_json.specs.Data.{string};

use crate::alike::Alike;
use crate::every::FromJson;
use crate::fault::JsonRefusal;
use crate::leaves::name_of;
use crate::placed::here;
use crate::written::ToJson;
use mtp_codes::Name;
use serde_json::{Value, json};
use std::alloc::{AllocError, Global};

/// The form of a name: a text.
pub struct NameJson;

impl FromJson for NameJson {
    type Item = Name;

    ghost Form = { List ℕ };

    ghost plain = { λ bytes. bytes };

    ghost form = { λ value. here (name value) };

    fn read(alloc: Global, value: &Value) -> Result<Name, JsonRefusal> {
        here(alloc, name_of(value))
    }
}

impl Alike for NameJson {
    type Item = Name;

    ghost Form = { List ℕ };

    ghost plain = { λ bytes. bytes };

    ghost same = { bytes_eq };

    fn is_like(item: &Name, other: &Name) -> bool {
        item.as_bytes() == other.as_bytes()
    }
}

impl ToJson for NameJson {
    type Item = Name;

    ghost Form = { List ℕ };

    ghost plain = { λ bytes. bytes };

    ghost written = { string };

    fn write(alloc: Global, item: &Name) -> Result<Value, AllocError> {
        let text = item.as_str();
        json!(in alloc; text)
    }
}
