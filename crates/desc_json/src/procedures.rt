//! Procedures in JSON.

ghost use Rattle.std.specs.Prelude.{◌≡◌, IfOk, codes};
ghost use Rattle.serde_json.specs.Data.{boolean, member, no_members, number as whole, object, unsigned};
ghost use Rattle.serde_json.specs.View.{view};
ghost use Rattle.mtp_json.specs.ReadsAs.{ReadsAs};
ghost use Rattle.desc_json.specs.Form.{procedure_of};
ghost use Rattle.mtp_desc.specs.Plain.{PlainProcedure, same_procedure};
ghost use Rattle.mtp_desc.specs.PlainProcedure.{plain_procedure};
ghost use Rattle.desc_json.specs.Written.{written_procedure};

use crate::params::ParamJson;
use mtp_desc::{GREATEST_PROCEDURE, MOST_PARAMS, Procedure};
use mtp_json::{
    Alike, FromJson, JsonRefusal, ToJson, list_or_none, nothing_but, object_here, truth_or, u16_at,
    unlike_under, write_list,
};
use serde_json::{Value, json};
use std::alloc::{AllocError, Global};

/// The form of a procedure.
pub struct ProcedureJson;

#[tactic(auto, unfolding(crate::specs::Form::procedure_of))]
fn read_procedure(alloc: Global, value: &Value) -> Result<Procedure, JsonRefusal>
    ensures { ReadsAs plain_procedure result (procedure_of (view value.now)) }
{
    object_here(alloc, value)?;
    let number = u16_at(alloc, value, "number", 1, GREATEST_PROCEDURE)?;
    let is_default = truth_or(alloc, value, "default", false)?;
    let self_completing = truth_or(alloc, value, "self_completing", false)?;
    let params = list_or_none::<ParamJson>(alloc, value, "params", 0, MOST_PARAMS)?;
    nothing_but(alloc, value, "number default self_completing params")?;
    unlike_under::<ParamJson>(alloc, "params", &params)?;
    Ok(Procedure {
        number,
        is_default,
        self_completing,
        params,
    })
}

impl FromJson for ProcedureJson {
    type Item = Procedure;

    ghost Form = { PlainProcedure };

    ghost plain = { plain_procedure };

    ghost form = { procedure_of };

    fn read(alloc: Global, value: &Value) -> Result<Procedure, JsonRefusal> {
        read_procedure(alloc, value)
    }
}

impl Alike for ProcedureJson {
    type Item = Procedure;

    ghost Form = { PlainProcedure };

    ghost plain = { plain_procedure };

    ghost same = { same_procedure };

    fn is_like(item: &Procedure, other: &Procedure) -> bool {
        item.number == other.number
    }
}

fn procedure_object(
    alloc: Global,
    is_default: bool,
    number: u16,
    params: Value,
    self_completing: bool,
) -> Result<Value, AllocError>
    ensures { IfOk result (λ value. view value ≡ object
        (member (codes "default") (boolean is_default)
        (member (codes "number") (whole (unsigned number))
        (member (codes "params") (view params)
        (member (codes "self_completing") (boolean self_completing) no_members))))) }
{
    json!(in alloc; {
        "default": is_default,
        "number": number,
        "params": params,
        "self_completing": self_completing
    })
}

#[tactic(auto, unfolding(crate::specs::Written::written_procedure))]
fn write_procedure(alloc: Global, procedure: &Procedure) -> Result<Value, AllocError>
    ensures { IfOk result (λ value. view value ≡ written_procedure (plain_procedure procedure.now)) }
{
    let params = write_list::<ParamJson>(alloc, &procedure.params)?;
    procedure_object(
        alloc,
        procedure.is_default,
        procedure.number,
        params,
        procedure.self_completing,
    )
}

impl ToJson for ProcedureJson {
    type Item = Procedure;

    ghost Form = { PlainProcedure };

    ghost plain = { plain_procedure };

    ghost written = { written_procedure };

    fn write(alloc: Global, item: &Procedure) -> Result<Value, AllocError> {
        write_procedure(alloc, item)
    }
}
