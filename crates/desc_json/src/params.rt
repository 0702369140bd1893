//! Parameters in JSON.

ghost use Rattle.std.specs.Prelude.{◌≡◌, IfOk, IsTrue};
ghost use Rattle.serde_json.specs.View.{view};
ghost use Rattle.mtp_codes.specs.Names.{is_name};
ghost use Rattle.mtp_codes.specs.Numbers.{greatest_i32, greatest_i64, least_i32, least_i64};
ghost use Rattle.mtp_assembly.specs.Kinds.{is_ordered};
ghost use Rattle.mtp_assembly.specs.Plain.{PlainParam, plain_param};
ghost use Rattle.mtp_json.specs.ReadsAs.{ReadsAs};
ghost use Rattle.desc_json.specs.Form.{free_param, param_of, ranged_param};
ghost use Rattle.mtp_desc.specs.Plain.{same_param};
ghost use Rattle.desc_json.specs.Written.{written_param};

use crate::words::{ParamWord, ParamWords};
use mtp_assembly::{Param, ParamKind};
use mtp_codes::Name;
use mtp_json::{
    Alike, FaultKind, FromJson, JsonRefusal, ToJson, i32_at, i64_at, name_at, nothing_but,
    object_here, refused_if, word_at,
};
use serde_json::{Value, json};
use std::alloc::{AllocError, Global};

/// The form of a parameter.
pub struct ParamJson;

#[tactic(auto, unfolding(crate::specs::Form::ranged_param))]
fn ana_param(alloc: Global, value: &Value, name: Name) -> Result<Param, JsonRefusal>
    requires { IsTrue (is_name name) }
    ensures { ReadsAs plain_param result (ranged_param name least_i64 greatest_i64 ParamKind.Ana (view value.now)) }
{
    let min = i64_at(alloc, value, "min")?;
    let max = i64_at(alloc, value, "max")?;
    nothing_but(alloc, value, "name kind min max")?;
    refused_if(alloc, max < min, FaultKind::Unsound)?;
    Ok(Param {
        name,
        kind: ParamKind::Ana { min, max },
    })
}

#[tactic(auto, unfolding(crate::specs::Form::ranged_param))]
fn dint_param(alloc: Global, value: &Value, name: Name) -> Result<Param, JsonRefusal>
    requires { IsTrue (is_name name) }
    ensures { ReadsAs plain_param result (ranged_param name least_i32 greatest_i32 ParamKind.DInt (view value.now)) }
{
    let min = i32_at(alloc, value, "min")?;
    let max = i32_at(alloc, value, "max")?;
    nothing_but(alloc, value, "name kind min max")?;
    refused_if(alloc, max < min, FaultKind::Unsound)?;
    Ok(Param {
        name,
        kind: ParamKind::DInt { min, max },
    })
}

#[tactic(auto, unfolding(crate::specs::Form::free_param))]
fn free_param(
    alloc: Global,
    value: &Value,
    name: Name,
    kind: ParamKind,
) -> Result<Param, JsonRefusal>
    requires name { IsTrue (is_name name) }
    requires kind { IsTrue (is_ordered kind) }
    ensures { ReadsAs plain_param result (free_param name kind (view value.now)) }
{
    nothing_but(alloc, value, "name kind")?;
    Ok(Param { name, kind })
}

#[tactic(auto, unfolding(crate::specs::Form::param_of))]
fn read_param(alloc: Global, value: &Value) -> Result<Param, JsonRefusal>
    ensures { ReadsAs plain_param result (param_of (view value.now)) }
{
    object_here(alloc, value)?;
    let name = name_at(alloc, value, "name")?;
    match word_at::<ParamWords>(alloc, value, "kind")? {
        ParamWord::Ana => ana_param(alloc, value, name),
        ParamWord::DInt => dint_param(alloc, value, name),
        ParamWord::Bin => free_param(alloc, value, name, ParamKind::Bin),
        ParamWord::Text => free_param(alloc, value, name, ParamKind::Text),
    }
}

impl FromJson for ParamJson {
    type Item = Param;

    ghost Form = { PlainParam };

    ghost plain = { plain_param };

    ghost form = { param_of };

    fn read(alloc: Global, value: &Value) -> Result<Param, JsonRefusal> {
        read_param(alloc, value)
    }
}

impl Alike for ParamJson {
    type Item = Param;

    ghost Form = { PlainParam };

    ghost plain = { plain_param };

    ghost same = { same_param };

    fn is_like(item: &Param, other: &Param) -> bool {
        item.name == other.name
    }
}

#[tactic(auto, unfolding(crate::specs::Written::written_param))]
fn write_param(alloc: Global, param: &Param) -> Result<Value, AllocError>
    ensures { IfOk result (λ value. view value ≡ written_param (plain_param param.now)) }
{
    let name = param.name.as_str();
    match param.kind {
        ParamKind::Ana { min, max } => {
            json!(in alloc; {"kind": "AnaServParam", "max": max, "min": min, "name": name})
        }
        ParamKind::DInt { min, max } => {
            json!(in alloc; {"kind": "DIntServParam", "max": max, "min": min, "name": name})
        }
        ParamKind::Bin => json!(in alloc; {"kind": "BinServParam", "name": name}),
        ParamKind::Text => json!(in alloc; {"kind": "StringServParam", "name": name}),
    }
}

impl ToJson for ParamJson {
    type Item = Param;

    ghost Form = { PlainParam };

    ghost plain = { plain_param };

    ghost written = { written_param };

    fn write(alloc: Global, item: &Param) -> Result<Value, AllocError> {
        write_param(alloc, item)
    }
}
