//! The number of a step, by its name.
ghost use Rattle.std.specs.Prelude.{◌≡◌, ◌+◌, ◌<◌, ◌^◌};
ghost use Rattle.std.specs.Result.{IfErr, result_ok};
ghost use Rattle.chart_core.specs.Charts.{plain_chart};
ghost use Rattle.chart_core.specs.Numbers.{number_named, number_in, number_among, number_in_arms};
ghost use Rattle.chart_core.specs.Trees.{plain_node, trees, arms, size, sizes, arm_sizes, steps};
ghost use Rattle.chart_core.specs.Valid.{IsValid};

use super::chart::Chart;
use super::node::{Arm, Node};
use mtp_codes::Name;

// The number of the first step of this tree that has the name, or where there is none the number behind the tree's last
// node; the tree's first node has this number.
#[cycle(numbered)]
fn number_in(node: &Node, number: u32, name: Name) -> Result<u32, u32>
    requires { number + size (plain_node node.now) < 2 ^ 32 }
    ensures found { result_ok result ≡ number_in name (plain_node node.now) number }
    ensures behind { IfErr result (λ behind. behind ≡ number + size (plain_node node.now)) }
{
    match node {
        Node::Step(step) if step.name == name => Ok(number),
        Node::Step(_) => Err(number + 1),
        Node::Seq(kids) => number_among(kids, number + 1, name),
        Node::Par(kids) => number_among(kids, number + 1, name),
        Node::Sel(each) => number_in_arms(each, number + 1, name),
        Node::Loop(body, _) => number_in(body, number + 1, name),
    }
}

// The number of the first step of these nodes that has the name, or where there is none the number behind their last
// node; the first of them has this number.
#[cycle(numbered)]
fn number_among(kids: &[Node], first: u32, name: Name) -> Result<u32, u32>
    requires { first + sizes (trees kids.now) < 2 ^ 32 }
    ensures found { result_ok result ≡ number_among name (trees kids.now) first }
    ensures behind { IfErr result (λ behind. behind ≡ first + sizes (trees kids.now)) }
{
    let mut number = first;
    for kid in kids {
        match number_in(kid, number, name) {
            Ok(found) => return Ok(found),
            Err(behind) => number = behind,
        }
    }
    Err(number)
}

// The number of the first step of these arms that has the name, or where there is none the number behind their last
// node; the first of their bodies has this number.
#[cycle(numbered)]
fn number_in_arms(each: &[Arm], first: u32, name: Name) -> Result<u32, u32>
    requires { first + arm_sizes (arms each.now) < 2 ^ 32 }
    ensures found { result_ok result ≡ number_in_arms name (arms each.now) first }
    ensures behind { IfErr result (λ behind. behind ≡ first + arm_sizes (arms each.now)) }
{
    let mut number = first;
    for arm in each {
        match number_in(&arm.body, number, name) {
            Ok(found) => return Ok(found),
            Err(behind) => number = behind,
        }
    }
    Err(number)
}

/// The number of the step with this name in the valid chart; None where no step has it. Walks the chart's nodes once.
pub fn step_number(chart: &Chart, name: Name) -> Option<u32>
    requires { IsValid (plain_chart chart.now) }
    ensures { result ≡ number_named name (steps (plain_chart chart.now).root 0) }
{
    number_in(&chart.root, 0, name).ok()
}
