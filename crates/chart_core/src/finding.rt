//! The first step of a tree that passes a test.

ghost use Rattle.std.specs.Prelude.{◌≡◌, is_some, option_copied, option_map};
ghost use Rattle.chart_core.specs.Finding.{first_passing, first_passing_among, first_passing_in_arms};
ghost use Rattle.chart_core.specs.Trees.{arms, plain_node, plain_step, trees};

use super::node::{Arm, Node, Step};

/// A test of steps.
pub trait StepTest {
    ghost use Rattle.std.specs.Prelude.{◌≡◌, Bool};
    ghost use Rattle.chart_core.specs.Trees.{PlainStep, plain_step};

    ghost test: { Self → PlainStep → Bool };

    /// Whether the step passes.
    fn passes(&self, step: &Step) -> bool
        ensures { result ≡ test self.now (plain_step step.now) };
}

/// The first step of the tree, in chart order, that passes; None where none does. Walks the tree once, and takes no
/// memory.
#[cycle(find)]
pub fn find_step<'a, T: StepTest>(node: &'a Node, test: &T) -> Option<&'a Step>
    ensures { option_map plain_step (option_copied result) ≡ first_passing (T.test test.now) (plain_node node.now) }
{
    match node {
        Node::Step(step) => { if test.passes(step) { Some(step) } else { None } }
        Node::Seq(kids) => find_among(kids, test),
        Node::Par(kids) => find_among(kids, test),
        Node::Sel(each) => find_in_arms(each, test),
        Node::Loop(body, _) => find_step(body, test),
    }
}

#[cycle(find)]
fn find_among<'a, T: StepTest>(kids: &'a [Node], test: &T) -> Option<&'a Step>
    ensures { option_map plain_step (option_copied result) ≡ first_passing_among (T.test test.now) (trees kids.now) }
{
    for kid in kids {
        if let Some(step) = find_step(kid, test) {
            return Some(step);
        }
    }
    None
}

#[cycle(find)]
fn find_in_arms<'a, T: StepTest>(each: &'a [Arm], test: &T) -> Option<&'a Step>
    ensures { option_map plain_step (option_copied result) ≡ first_passing_in_arms (T.test test.now) (arms each.now) }
{
    for arm in each {
        if let Some(step) = find_step(&arm.body, test) {
            return Some(step);
        }
    }
    None
}

/// Whether some step of the tree passes. Walks the tree until it finds one.
pub fn has_passing<T: StepTest>(node: &Node, test: &T) -> bool
    ensures { result ≡ is_some (first_passing (T.test test.now) (plain_node node.now)) }
{
    find_step(node, test).is_some()
}
