//! The first test of a chart with a property.

ghost use Rattle.std.specs.Prelude.{◌≡◌};
ghost use Rattle.chart_core.specs.Formulas.{plain_condition, formulas};
ghost use Rattle.chart_core.specs.Trees.{arm_conditions, arms, plain_finish, plain_node, trees};
ghost use Rattle.mtp_procs.specs.Covers.{variable_of_first};
ghost use Rattle.mtp_procs.specs.Tests.{tests_in};
ghost use Rattle.pol_bind.specs.Walks.{variable_among, variable_in, variable_in_finish, variable_under};
ghost use Rattle.pol_bind.specs.Walks.{variable_under_all, variable_under_arms};

use chart_core::{Arm, Condition, Node};
use mtp_codes::{Name, Reading};

/// A property of tests.
pub trait Picks {
    ghost use Rattle.std.specs.Prelude.{◌≡◌, Bool};
    ghost use Rattle.mtp_procs.specs.Tests.{PlainTest};

    ghost property: { Self → PlainTest → Bool };

    /// Whether a test of this variable of the role against this value has the property.
    fn picks(&self, role: Name, variable: Name, value: Reading) -> bool
        ensures { result ≡ property self.now (record { role = role; variable = variable; value = value }) };
}

#[cycle(first)]
fn first_in<P: Picks>(condition: &Condition, wanted: &P) -> Option<Name>
    ensures { result ≡ variable_in (P.property wanted.now) (plain_condition condition.now) }
{
    match condition {
        Condition::Const(_) => None,
        Condition::All(all) => first_among(all, wanted),
        Condition::Any(any) => first_among(any, wanted),
        Condition::Not(inner) => first_in(inner, wanted),
        Condition::Test {
            role,
            var,
            value,
            ..
        } => {
            if wanted.picks(*role, *var, *value) {
                Some(*var)
            } else {
                None
            }
        }
    }
}

#[cycle(first)]
fn first_among<P: Picks>(conditions: &[Condition], wanted: &P) -> Option<Name>
    ensures { result ≡ variable_among (P.property wanted.now) (formulas conditions.now) }
{
    for each in conditions {
        if let Some(variable) = first_in(each, wanted) {
            return Some(variable);
        }
    }
    None
}

fn first_in_finish<P: Picks>(finish: &Option<Condition>, wanted: &P) -> Option<Name>
    ensures { result ≡ variable_in_finish (P.property wanted.now) (plain_finish finish.now) }
{
    match finish {
        Some(condition) => first_in(condition, wanted),
        None => None,
    }
}

fn first_of_choice<P: Picks>(each: &[Arm], wanted: &P) -> Option<Name>
    ensures { result ≡ variable_among (P.property wanted.now) (arm_conditions (arms each.now)) }
{
    for arm in each {
        if let Some(variable) = first_in(&arm.when, wanted) {
            return Some(variable);
        }
    }
    None
}

#[cycle(walk)]
fn first_below<P: Picks>(node: &Node, wanted: &P) -> Option<Name>
    ensures { result ≡ variable_under (P.property wanted.now) (plain_node node.now) }
{
    match node {
        Node::Step(step) => first_in_finish(&step.finish, wanted),
        Node::Seq(kids) => first_under(kids, wanted),
        Node::Par(kids) => first_under(kids, wanted),
        Node::Sel(each) => match first_of_choice(each, wanted) {
            Some(variable) => Some(variable),
            None => first_in_arms(each, wanted),
        },
        Node::Loop(body, until) => match first_in(until, wanted) {
            Some(variable) => Some(variable),
            None => first_below(body, wanted),
        },
    }
}

#[cycle(walk)]
fn first_under<P: Picks>(kids: &[Node], wanted: &P) -> Option<Name>
    ensures { result ≡ variable_under_all (P.property wanted.now) (trees kids.now) }
{
    for kid in kids {
        if let Some(variable) = first_below(kid, wanted) {
            return Some(variable);
        }
    }
    None
}

#[cycle(walk)]
fn first_in_arms<P: Picks>(each: &[Arm], wanted: &P) -> Option<Name>
    ensures { result ≡ variable_under_arms (P.property wanted.now) (arms each.now) }
{
    for arm in each {
        if let Some(variable) = first_below(&arm.body, wanted) {
            return Some(variable);
        }
    }
    None
}

/// The variable of the first test of the tree, in chart order, that has the property. Walks the tree once.
#[tactic(auto, using(crate::proofs::Firsts::test_under_is))]
pub fn first_test<P: Picks>(root: &Node, wanted: &P) -> Option<Name>
    ensures { result ≡ variable_of_first (P.property wanted.now) (tests_in (plain_node root.now)) }
{
    first_below(root, wanted)
}
