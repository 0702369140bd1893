//! Nodes in JSON.

ghost use Rattle.std.specs.Prelude.{◌≡◌, Err, IfOk, IsTrue, codes, map};
ghost use Rattle.serde_json.specs.View.{items_view, view};
ghost use Rattle.mtp_codes.specs.Names.{is_name};
ghost use Rattle.mtp_json.specs.Form.{each};
ghost use Rattle.mtp_json.specs.ReadsAs.{ReadsAs};
ghost use Rattle.mtp_json.specs.ReadResult.{here as found_here, under};
ghost use Rattle.chart_core.specs.Form.{is_tree_formed};
ghost use Rattle.chart_core.specs.Trees.{plain_arm, plain_node};
ghost use Rattle.chart_json.specs.Form.{arm_of, loop_form, node_by_key, par_form, sel_form, seq_form, step_form, tree_of};

use crate::conditions::ConditionJson;
use crate::lists::list_from_at;
use crate::steps::read_step;
use chart_core::{Arm, MOST_ARMS, Node};
use mtp_json::{
    FaultKind, JsonRefusal, form_at, in_place, keyed, list_at, nothing_but, object_here, under,
    value_at,
};
use serde_json::Value;
use std::alloc::Global;

#[tactic(auto, unfolding(crate::specs::Form::step_form))]
fn read_step_node(alloc: Global, value: &Value) -> Result<Node, JsonRefusal>
    ensures { ReadsAs plain_node result (step_form (view value.now)) }
{
    let step = read_step(alloc, value)?;
    Ok(Node::Step(step))
}

// The refusal of an object that is no node of any kind.
fn refused_kind(alloc: Global) -> Result<Node, JsonRefusal>
    ensures { ReadsAs plain_node result (under (codes "step") (found_here (Err FaultKind.Missing))) }
{
    keyed(alloc, "step", Err(FaultKind::Missing))
}

// The node that an object is by the first of these keys that is there.
#[cycle(node)]
#[tactic(auto, unfolding(crate::specs::Form::node_by_key))]
fn read_by_key(alloc: Global, value: &Value) -> Result<Node, JsonRefusal>
    ensures { ReadsAs plain_node result (node_by_key tree_of (view value.now)) }
{
    if value.get("step").is_some() {
        read_step_node(alloc, value)
    } else if value.get("seq").is_some() {
        read_seq(alloc, value)
    } else if value.get("par").is_some() {
        read_par(alloc, value)
    } else if value.get("sel").is_some() {
        read_sel(alloc, value)
    } else if value.get("loop").is_some() {
        read_loop(alloc, value)
    } else {
        refused_kind(alloc)
    }
}

#[cycle(node)]
fn read_inner(alloc: Global, value: &Value) -> Result<Node, JsonRefusal>
    ensures { ReadsAs plain_node result (tree_of (view value.now)) }
{
    object_here(alloc, value)?;
    read_by_key(alloc, value)
}

#[cycle(node)]
#[tactic(auto, unfolding(crate::specs::Form::seq_form))]
fn read_seq(alloc: Global, value: &Value) -> Result<Node, JsonRefusal>
    ensures { ReadsAs plain_node result (seq_form tree_of (view value.now)) }
{
    let values = list_from_at(alloc, value, "seq", 1)?;
    let nodes = read_each_under(alloc, "seq", values)?;
    nothing_but(alloc, value, "seq")?;
    Ok(Node::Seq(nodes))
}

#[cycle(node)]
#[tactic(auto, unfolding(crate::specs::Form::par_form))]
fn read_par(alloc: Global, value: &Value) -> Result<Node, JsonRefusal>
    ensures { ReadsAs plain_node result (par_form tree_of (view value.now)) }
{
    let values = list_from_at(alloc, value, "par", 2)?;
    let nodes = read_each_under(alloc, "par", values)?;
    nothing_but(alloc, value, "par")?;
    Ok(Node::Par(nodes))
}

#[cycle(node)]
#[tactic(auto, unfolding(crate::specs::Form::sel_form))]
fn read_sel(alloc: Global, value: &Value) -> Result<Node, JsonRefusal>
    ensures { ReadsAs plain_node result (sel_form tree_of (view value.now)) }
{
    let values = list_at(alloc, value, "sel", 1, MOST_ARMS)?;
    let arms = read_arms_under(alloc, "sel", values)?;
    nothing_but(alloc, value, "sel")?;
    Ok(Node::Sel(arms))
}

#[cycle(node)]
#[tactic(auto, unfolding(crate::specs::Form::loop_form))]
fn read_loop(alloc: Global, value: &Value) -> Result<Node, JsonRefusal>
    ensures { ReadsAs plain_node result (loop_form tree_of (view value.now)) }
{
    let inner = value_at(alloc, value, "loop")?;
    let body = read_under(alloc, "loop", inner)?;
    let until = form_at::<ConditionJson>(alloc, value, "until")?;
    nothing_but(alloc, value, "loop until")?;
    Ok(Node::Loop(Box::new(alloc, body)?, until))
}

#[cycle(node)]
#[tactic(auto, unfolding(crate::specs::Form::arm_of))]
fn read_arm(alloc: Global, value: &Value) -> Result<Arm, JsonRefusal>
    ensures { ReadsAs plain_arm result (arm_of tree_of (view value.now)) }
{
    object_here(alloc, value)?;
    let when = form_at::<ConditionJson>(alloc, value, "when")?;
    let inner = value_at(alloc, value, "then")?;
    let body = read_under(alloc, "then", inner)?;
    nothing_but(alloc, value, "when then")?;
    Ok(Arm { when, body })
}

#[cycle(node)]
#[tactic(auto, using(mtp_json::proofs::Each::gives_below))]
fn read_under(alloc: Global, key: &str, value: &Value) -> Result<Node, JsonRefusal>
    requires { IsTrue (is_name key.now) }
    ensures { ReadsAs plain_node result (under key.now (tree_of (view value.now))) }
{
    under(key, read_inner(alloc, value))
}

#[cycle(node)]
#[tactic(auto, using(mtp_json::proofs::Each::gives_below))]
fn read_each_under(alloc: Global, key: &str, values: &[Value]) -> Result<Vec<Node>, JsonRefusal>
    requires { IsTrue (is_name key.now) }
    ensures { ReadsAs (λ found. map plain_node found.items) result
        (under key.now (each tree_of 0 (items_view values.now))) }
{
    under(key, read_each(alloc, values))
}

#[cycle(node)]
#[tactic(auto, using(mtp_json::proofs::Each::gives_below))]
fn read_arms_under(alloc: Global, key: &str, values: &[Value]) -> Result<Vec<Arm>, JsonRefusal>
    requires { IsTrue (is_name key.now) }
    ensures { ReadsAs (λ found. map plain_arm found.items) result
        (under key.now (each (arm_of tree_of) 0 (items_view values.now))) }
{
    under(key, read_each_arm(alloc, values))
}

// The two lists are gone over here, since a form that contains itself is no instance of `FromJson`.
#[cycle(node)]
fn read_each(alloc: Global, values: &[Value]) -> Result<Vec<Node>, JsonRefusal>
    ensures { ReadsAs (λ found. map plain_node found.items) result (each tree_of 0 (items_view values.now)) }
{
    let mut found = Vec::new(alloc);
    for (i, value) in values.iter().enumerate() {
        let node = in_place(i, read_inner(alloc, value))?;
        found.push(node)?;
    }
    found.shrink_to_fit();
    Ok(found)
}

#[cycle(node)]
fn read_each_arm(alloc: Global, values: &[Value]) -> Result<Vec<Arm>, JsonRefusal>
    ensures { ReadsAs (λ found. map plain_arm found.items) result (each (arm_of tree_of) 0 (items_view values.now)) }
{
    let mut found = Vec::new(alloc);
    for (i, value) in values.iter().enumerate() {
        let arm = in_place(i, read_arm(alloc, value))?;
        found.push(arm)?;
    }
    found.shrink_to_fit();
    Ok(found)
}

/// The node that this value is in the form of, with all that is in it; else the first fault in reading order, with its
/// path.
pub fn read_node(alloc: Global, value: &Value) -> Result<Node, JsonRefusal>
    ensures gives { ReadsAs plain_node result (tree_of (view value.now)) }
    ensures formed { IfOk result (λ node. IsTrue (is_tree_formed (plain_node node))) }
{
    read_inner(alloc, value)
}
