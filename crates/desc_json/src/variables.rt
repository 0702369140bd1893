//! Variables in JSON.

ghost use Rattle.std.specs.Prelude.{◌≡◌, IfOk};
ghost use Rattle.serde_json.specs.View.{view};
ghost use Rattle.mtp_assembly.specs.Plain.{PlainVariable, plain_variable};
ghost use Rattle.mtp_json.specs.ReadsAs.{ReadsAs};
ghost use Rattle.desc_json.specs.Form.{variable_of};
ghost use Rattle.mtp_desc.specs.Plain.{same_variable};
ghost use Rattle.desc_json.specs.Written.{written_variable};

use crate::words::VariableWords;
use mtp_assembly::{View, ViewKind};
use mtp_json::{Alike, FromJson, JsonRefusal, ToJson, name_at, nothing_but, object_here, word_at};
use serde_json::{Value, json};
use std::alloc::{AllocError, Global};

/// The form of a variable.
pub struct VariableJson;

#[tactic(auto, unfolding(crate::specs::Form::variable_of))]
fn read_variable(alloc: Global, value: &Value) -> Result<View, JsonRefusal>
    ensures { ReadsAs plain_variable result (variable_of (view value.now)) }
{
    object_here(alloc, value)?;
    let name = name_at(alloc, value, "name")?;
    let kind = word_at::<VariableWords>(alloc, value, "kind")?;
    nothing_but(alloc, value, "name kind")?;
    Ok(View { name, kind })
}

impl FromJson for VariableJson {
    type Item = View;

    ghost Form = { PlainVariable };

    ghost plain = { plain_variable };

    ghost form = { variable_of };

    fn read(alloc: Global, value: &Value) -> Result<View, JsonRefusal> {
        read_variable(alloc, value)
    }
}

impl Alike for VariableJson {
    type Item = View;

    ghost Form = { PlainVariable };

    ghost plain = { plain_variable };

    ghost same = { same_variable };

    fn is_like(item: &View, other: &View) -> bool {
        item.name == other.name
    }
}

#[tactic(auto, unfolding(crate::specs::Written::written_variable))]
fn write_variable(alloc: Global, variable: &View) -> Result<Value, AllocError>
    ensures { IfOk result (λ value. view value ≡ written_variable (plain_variable variable.now)) }
{
    let name = variable.name.as_str();
    match variable.kind {
        ViewKind::Ana => json!(in alloc; {"kind": "AnaView", "name": name}),
        ViewKind::DInt => json!(in alloc; {"kind": "DIntView", "name": name}),
        ViewKind::Bin => json!(in alloc; {"kind": "BinView", "name": name}),
        ViewKind::Text => json!(in alloc; {"kind": "StringView", "name": name}),
    }
}

impl ToJson for VariableJson {
    type Item = View;

    ghost Form = { PlainVariable };

    ghost plain = { plain_variable };

    ghost written = { written_variable };

    fn write(alloc: Global, item: &View) -> Result<Value, AllocError> {
        write_variable(alloc, item)
    }
}
