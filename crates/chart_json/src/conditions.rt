//! Conditions in JSON.

ghost use Rattle.std.specs.Prelude.{◌≡◌, Err, IsTrue, codes, map};
ghost use Rattle.serde_json.specs.View.{items_view, view};
ghost use Rattle.mtp_codes.specs.Names.{is_name};
ghost use Rattle.mtp_json.specs.Form.{each, required};
ghost use Rattle.mtp_json.specs.ReadsAs.{ReadsAs};
ghost use Rattle.mtp_json.specs.ReadResult.{here as found_here, under};
ghost use Rattle.chart_core.specs.Formulas.{Formula, plain_condition};
ghost use Rattle.chart_core.specs.Form.{may_compare};
ghost use Rattle.chart_json.specs.Form.{all_form, any_form, compared, condition_by_key, condition_of, const_form, formula_of, not_form, test_form};

use crate::sizes::is_small;
use crate::words::OpWords;
use chart_core::{Condition, MOST_JOINED, Op};
use mtp_codes::Reading;
use mtp_json::{
    FaultKind, FromJson, JsonRefusal, in_place, keyed, list_at, name_at, nothing_but, object_here,
    refused_if, truth_at, under, value_at, whole_of, word_at,
};
use serde_json::Value;
use std::alloc::Global;

fn compared_of(value: &Value) -> Result<Reading, FaultKind>
    ensures { result ≡ compared (view value.now) }
{
    match value {
        Value::Bool(bit) => Ok(Reading::Bit(*bit)),
        Value::Number(_) => {
            let number = whole_of(value, i64::MIN, i64::MAX)?;
            Ok(Reading::Whole(number))
        }
        _ => Err(FaultKind::WrongKind),
    }
}

fn compared_at(alloc: Global, object: &Value) -> Result<Reading, JsonRefusal>
    ensures { ReadsAs (λ against. against) result (required (codes "value") compared (view object.now)) }
{
    let found = match object.get("value") {
        Some(value) => compared_of(value),
        None => Err(FaultKind::Missing),
    };
    keyed(alloc, "value", found)
}

// Whether a test may compare with this by the operator: a truth value has no order.
fn may_compare(op: Op, against: Reading) -> bool
    ensures { result ≡ may_compare op against }
{
    match against {
        Reading::Whole(_) => true,
        Reading::Bit(_) => matches!(op, Op::Eq | Op::Ne),
    }
}

#[tactic(auto, unfolding(crate::specs::Form::const_form))]
fn read_const(alloc: Global, value: &Value) -> Result<Condition, JsonRefusal>
    ensures { ReadsAs plain_condition result (const_form (view value.now)) }
{
    let holds = truth_at(alloc, value, "const")?;
    nothing_but(alloc, value, "const")?;
    Ok(Condition::Const(holds))
}

#[tactic(auto, unfolding(crate::specs::Form::test_form))]
fn read_test(alloc: Global, value: &Value) -> Result<Condition, JsonRefusal>
    ensures { ReadsAs plain_condition result (test_form (view value.now)) }
{
    let var = name_at(alloc, value, "test")?;
    let role = name_at(alloc, value, "role")?;
    let op = word_at::<OpWords>(alloc, value, "op")?;
    let against = compared_at(alloc, value)?;
    nothing_but(alloc, value, "test role op value")?;
    refused_if(alloc, !may_compare(op, against), FaultKind::Unsound)?;
    Ok(Condition::Test {
        role,
        var,
        op,
        value: against,
    })
}

// The refusal of an object that is no condition of any kind.
fn refused_kind(alloc: Global) -> Result<Condition, JsonRefusal>
    ensures { ReadsAs plain_condition result (under (codes "const") (found_here (Err FaultKind.Missing))) }
{
    keyed(alloc, "const", Err(FaultKind::Missing))
}

// The condition that an object is by the first of these keys that is there.
#[cycle(condition)]
#[tactic(auto, unfolding(crate::specs::Form::condition_by_key))]
fn read_by_key(alloc: Global, value: &Value) -> Result<Condition, JsonRefusal>
    ensures { ReadsAs plain_condition result (condition_by_key formula_of (view value.now)) }
{
    if value.get("const").is_some() {
        read_const(alloc, value)
    } else if value.get("all").is_some() {
        read_all(alloc, value)
    } else if value.get("any").is_some() {
        read_any(alloc, value)
    } else if value.get("not").is_some() {
        read_not(alloc, value)
    } else if value.get("test").is_some() {
        read_test(alloc, value)
    } else {
        refused_kind(alloc)
    }
}

#[cycle(condition)]
fn read_inner(alloc: Global, value: &Value) -> Result<Condition, JsonRefusal>
    ensures { ReadsAs plain_condition result (formula_of (view value.now)) }
{
    object_here(alloc, value)?;
    read_by_key(alloc, value)
}

#[cycle(condition)]
#[tactic(auto, unfolding(crate::specs::Form::all_form))]
fn read_all(alloc: Global, value: &Value) -> Result<Condition, JsonRefusal>
    ensures { ReadsAs plain_condition result (all_form formula_of (view value.now)) }
{
    let values = list_at(alloc, value, "all", 1, MOST_JOINED)?;
    let all = read_each_under(alloc, "all", values)?;
    nothing_but(alloc, value, "all")?;
    Ok(Condition::All(all))
}

#[cycle(condition)]
#[tactic(auto, unfolding(crate::specs::Form::any_form))]
fn read_any(alloc: Global, value: &Value) -> Result<Condition, JsonRefusal>
    ensures { ReadsAs plain_condition result (any_form formula_of (view value.now)) }
{
    let values = list_at(alloc, value, "any", 1, MOST_JOINED)?;
    let any = read_each_under(alloc, "any", values)?;
    nothing_but(alloc, value, "any")?;
    Ok(Condition::Any(any))
}

#[cycle(condition)]
#[tactic(auto, unfolding(crate::specs::Form::not_form))]
fn read_not(alloc: Global, value: &Value) -> Result<Condition, JsonRefusal>
    ensures { ReadsAs plain_condition result (not_form formula_of (view value.now)) }
{
    let inner = value_at(alloc, value, "not")?;
    let condition = read_under(alloc, "not", inner)?;
    nothing_but(alloc, value, "not")?;
    Ok(Condition::Not(Box::new(alloc, condition)?))
}

#[cycle(condition)]
#[tactic(auto, using(mtp_json::proofs::Each::gives_below))]
fn read_under(alloc: Global, key: &str, value: &Value) -> Result<Condition, JsonRefusal>
    requires { IsTrue (is_name key.now) }
    ensures { ReadsAs plain_condition result (under key.now (formula_of (view value.now))) }
{
    under(key, read_inner(alloc, value))
}

#[cycle(condition)]
#[tactic(auto, using(mtp_json::proofs::Each::gives_below))]
fn read_each_under(
    alloc: Global,
    key: &str,
    values: &[Value],
) -> Result<Vec<Condition>, JsonRefusal>
    requires { IsTrue (is_name key.now) }
    ensures { ReadsAs (λ found. map plain_condition found.items) result
        (under key.now (each formula_of 0 (items_view values.now))) }
{
    under(key, read_each(alloc, values))
}

// The list is gone over here, since a form that contains itself is no instance of `FromJson`.
#[cycle(condition)]
fn read_each(alloc: Global, values: &[Value]) -> Result<Vec<Condition>, JsonRefusal>
    ensures { ReadsAs (λ found. map plain_condition found.items) result (each formula_of 0 (items_view values.now)) }
{
    let mut found = Vec::new(alloc);
    for (i, value) in values.iter().enumerate() {
        let condition = in_place(i, read_inner(alloc, value))?;
        found.push(condition)?;
    }
    found.shrink_to_fit();
    Ok(found)
}

/// The condition that this value is in the form of; else the first fault in reading order. Its size is asked last.
#[tactic(auto, unfolding(crate::specs::Form::condition_of))]
pub fn read_condition(alloc: Global, value: &Value) -> Result<Condition, JsonRefusal>
    ensures { ReadsAs plain_condition result (condition_of (view value.now)) }
{
    let condition = read_inner(alloc, value)?;
    refused_if(alloc, !is_small(&condition), FaultKind::OutOfRange)?;
    Ok(condition)
}

/// The form of a condition.
pub struct ConditionJson;

impl FromJson for ConditionJson {
    type Item = Condition;

    ghost Form = { Formula };

    ghost plain = { plain_condition };

    ghost form = { condition_of };

    fn read(alloc: Global, value: &Value) -> Result<Condition, JsonRefusal> {
        read_condition(alloc, value)
    }
}
