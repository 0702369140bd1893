//! Nodes as JSON.

ghost use Rattle.std.specs.Prelude.{◌≡◌, ◌&&◌, IfOk, IsTrue};
ghost use Rattle.serde_json.specs.Data.{array};
ghost use Rattle.serde_json.specs.View.{view};
ghost use Rattle.chart_core.specs.Formulas.{plain_condition};
ghost use Rattle.chart_core.specs.Trees.{arms, plain_node, trees};
ghost use Rattle.chart_json.specs.Sound.{are_arms_sound, are_trees_sound, is_formula_sound, is_tree_sound};
ghost use Rattle.chart_json.specs.Written.{written_arm, written_arms, written_formula, written_tree, written_trees};

use crate::written_conditions::write_condition;
use crate::written_steps::write_step;
use chart_core::{Arm, Node};
use serde_json::{Value, json};
use std::alloc::{AllocError, Global};

/// A node and all that is in it, with every key of its kind.
#[cycle(written)]
#[tactic(auto, unfolding(crate::specs::Written::written_tree))]
pub fn write_node(alloc: Global, node: &Node) -> Result<Value, AllocError>
    ensures value { IfOk result (λ value. view value ≡ written_tree (plain_node node.now)) }
    ensures sound { IfOk result (λ _. IsTrue (is_tree_sound (plain_node node.now))) }
{
    match node {
        Node::Step(step) => write_step(alloc, step),
        Node::Seq(nodes) => {
            let seq = write_each(alloc, nodes)?;
            json!(in alloc; {"seq": seq})
        }
        Node::Par(nodes) => {
            let par = write_each(alloc, nodes)?;
            json!(in alloc; {"par": par})
        }
        Node::Sel(arms) => {
            let sel = write_arms(alloc, arms)?;
            json!(in alloc; {"sel": sel})
        }
        Node::Loop(body, until) => {
            let body = write_node(alloc, body)?;
            let until = write_condition(alloc, until)?;
            json!(in alloc; {"loop": body, "until": until})
        }
    }
}

#[cycle(written)]
fn write_each(alloc: Global, nodes: &[Node]) -> Result<Value, AllocError>
    ensures value { IfOk result (λ value. view value ≡ array (written_trees (trees nodes.now))) }
    ensures sound { IfOk result (λ _. IsTrue (are_trees_sound (trees nodes.now))) }
{
    let mut list = Vec::new(alloc);
    for node in nodes {
        list.push(write_node(alloc, node)?)?;
    }
    Ok(Value::Array(list))
}

#[cycle(written)]
fn write_arm(alloc: Global, arm: &Arm) -> Result<Value, AllocError>
    ensures value { IfOk result (λ value. view value
        ≡ written_arm (written_formula (plain_condition arm.now.when)) (written_tree (plain_node arm.now.body))) }
    ensures sound { IfOk result
        (λ _. IsTrue (is_formula_sound (plain_condition arm.now.when) && is_tree_sound (plain_node arm.now.body))) }
{
    let when = write_condition(alloc, &arm.when)?;
    let body = write_node(alloc, &arm.body)?;
    json!(in alloc; {"then": body, "when": when})
}

#[cycle(written)]
fn write_arms(alloc: Global, each: &[Arm]) -> Result<Value, AllocError>
    ensures value { IfOk result (λ value. view value ≡ array (written_arms (arms each.now))) }
    ensures sound { IfOk result (λ _. IsTrue (are_arms_sound (arms each.now))) }
{
    let mut list = Vec::new(alloc);
    for arm in each {
        list.push(write_arm(alloc, arm)?)?;
    }
    Ok(Value::Array(list))
}
