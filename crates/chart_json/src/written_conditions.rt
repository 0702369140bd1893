//! Conditions as JSON.

ghost use Rattle.std.specs.Prelude.{◌≡◌, IfOk, IsTrue, codes};
ghost use Rattle.serde_json.specs.Data.{array, member, no_members, object, string};
ghost use Rattle.serde_json.specs.View.{items_view, view};
ghost use Rattle.chart_core.specs.Formulas.{plain_condition, formulas, test};
ghost use Rattle.chart_json.specs.Sound.{are_formulas_sound, is_compared_sound, is_formula_sound};
ghost use Rattle.chart_json.specs.Words.{op_word};
ghost use Rattle.chart_json.specs.Written.{written_compared, written_formula, written_formulas};

use chart_core::{Condition, Op};
use mtp_codes::{Name, Reading};
use serde_json::{Value, json};
use std::alloc::{AllocError, Global};

fn op_word(op: Op) -> &'static str
    ensures { result.now ≡ op_word op }
{
    match op {
        Op::Lt => "lt",
        Op::Le => "le",
        Op::Eq => "eq",
        Op::Ne => "ne",
        Op::Ge => "ge",
        Op::Gt => "gt",
    }
}

fn write_compared(alloc: Global, against: Reading) -> Result<Value, AllocError>
    ensures value { IfOk result (λ value. view value ≡ written_compared against) }
    ensures sound { IfOk result (λ _. IsTrue (is_compared_sound against)) }
{
    match against {
        Reading::Whole(number) => json!(in alloc; number),
        Reading::Bit(bit) => json!(in alloc; bit),
    }
}

fn test_object(
    alloc: Global,
    op: Op,
    role: Name,
    variable: Name,
    against: Value,
) -> Result<Value, AllocError>
    ensures { IfOk result (λ value. view value ≡ object
        (member (codes "op") (string (op_word op))
        (member (codes "role") (string role)
        (member (codes "test") (string variable)
        (member (codes "value") (view against) no_members))))) }
{
    let op = op_word(op);
    let role = role.as_str();
    let variable = variable.as_str();
    json!(in alloc; {"op": op, "role": role, "test": variable, "value": against})
}

#[tactic(auto, unfolding(crate::specs::Written::written_formula))]
fn write_test(
    alloc: Global,
    role: Name,
    variable: Name,
    op: Op,
    against: Reading,
) -> Result<Value, AllocError>
    ensures value { IfOk result (λ value. view value ≡ written_formula (test role variable op against)) }
    ensures sound { IfOk result (λ _. IsTrue (is_formula_sound (test role variable op against))) }
{
    let against = write_compared(alloc, against)?;
    test_object(alloc, op, role, variable, against)
}

/// A condition, with every key of its kind.
#[cycle(written)]
#[tactic(auto, unfolding(crate::specs::Written::written_formula))]
pub fn write_condition(alloc: Global, condition: &Condition) -> Result<Value, AllocError>
    ensures value { IfOk result (λ value. view value ≡ written_formula (plain_condition condition.now)) }
    ensures sound { IfOk result (λ _. IsTrue (is_formula_sound (plain_condition condition.now))) }
{
    match condition {
        Condition::Const(holds) => json!(in alloc; {"const": *holds}),
        Condition::All(all) => {
            let all = write_each(alloc, all)?;
            json!(in alloc; {"all": all})
        }
        Condition::Any(any) => {
            let any = write_each(alloc, any)?;
            json!(in alloc; {"any": any})
        }
        Condition::Not(inner) => {
            let inner = write_condition(alloc, inner)?;
            json!(in alloc; {"not": inner})
        }
        Condition::Test {
            role,
            var,
            op,
            value,
        } => write_test(alloc, *role, *var, *op, *value),
    }
}

#[cycle(written)]
fn write_each(alloc: Global, conditions: &[Condition]) -> Result<Value, AllocError>
    ensures value { IfOk result (λ value. view value ≡ array (written_formulas (formulas conditions.now))) }
    ensures sound { IfOk result (λ _. IsTrue (are_formulas_sound (formulas conditions.now))) }
{
    let mut list = Vec::new(alloc);
    for each in conditions {
        list.push(write_condition(alloc, each)?)?;
    }
    Ok(Value::Array(list))
}
