//! The tests of a chart in chart order, gathered into a list.

ghost use Rattle.std.specs.Prelude.{◌≡◌, ◌++◌, IfOk, OnOk};
ghost use Rattle.chart_core.specs.Formulas.{formulas, plain_condition};
ghost use Rattle.chart_core.specs.Trees.{arm_conditions, arms, plain_finish, plain_node, trees};
ghost use Rattle.mtp_procs.specs.Tests.{finish_tests, tests_in, tests_in_all, tests_in_arms, tests_of, tests_of_all};
ghost use Rattle.pol_bind.specs.Gathered.{plain_tests};

use chart_core::{Arm, Condition, Node};
use mtp_codes::{Name, Reading};
use std::alloc::{AllocError, Global};

/// A test in a condition of a chart: which variable of which role it reads, and what it compares with.
#[derive(Clone, Copy)]
pub struct Test {
    /// The role whose module reports the variable.
    pub role: Name,
    /// The name of the variable.
    pub variable: Name,
    /// The value that the reading is compared with.
    pub value: Reading,
}

#[cycle(condition)]
fn put_tests_of(condition: &Condition, found: &mut Vec<Test>) -> Result<(), AllocError>
    ensures { OnOk result (plain_tests found.new.items
        ≡ plain_tests found.old.items ++ tests_of (plain_condition condition.now)) }
{
    match condition {
        Condition::Const(_) => Ok(()),
        Condition::All(all) => put_tests_of_all(all, found),
        Condition::Any(any) => put_tests_of_all(any, found),
        Condition::Not(inner) => put_tests_of(inner, found),
        Condition::Test {
            role,
            var,
            value,
            ..
        } => {
            found.push(Test {
                role: *role,
                variable: *var,
                value: *value,
            })?;
            Ok(())
        }
    }
}

#[cycle(condition)]
fn put_tests_of_all(conditions: &[Condition], found: &mut Vec<Test>) -> Result<(), AllocError>
    ensures { OnOk result (plain_tests found.new.items
        ≡ plain_tests found.old.items ++ tests_of_all (formulas conditions.now)) }
{
    for each in conditions {
        put_tests_of(each, found)?;
    }
    Ok(())
}

fn put_finish(finish: &Option<Condition>, found: &mut Vec<Test>) -> Result<(), AllocError>
    ensures { OnOk result (plain_tests found.new.items
        ≡ plain_tests found.old.items ++ finish_tests (plain_finish finish.now)) }
{
    match finish {
        Some(condition) => put_tests_of(condition, found),
        None => Ok(()),
    }
}

fn put_choice(each: &[Arm], found: &mut Vec<Test>) -> Result<(), AllocError>
    ensures { OnOk result (plain_tests found.new.items
        ≡ plain_tests found.old.items ++ tests_of_all (arm_conditions (arms each.now))) }
{
    for arm in each {
        put_tests_of(&arm.when, found)?;
    }
    Ok(())
}

#[cycle(gather)]
fn gather(node: &Node, found: &mut Vec<Test>) -> Result<(), AllocError>
    ensures { OnOk result (plain_tests found.new.items
        ≡ plain_tests found.old.items ++ tests_in (plain_node node.now)) }
{
    match node {
        Node::Step(step) => put_finish(&step.finish, found),
        Node::Seq(kids) => gather_all(kids, found),
        Node::Par(kids) => gather_all(kids, found),
        Node::Sel(each) => {
            put_choice(each, found)?;
            gather_arms(each, found)
        }
        Node::Loop(body, until) => {
            put_tests_of(until, found)?;
            gather(body, found)
        }
    }
}

#[cycle(gather)]
fn gather_all(kids: &[Node], found: &mut Vec<Test>) -> Result<(), AllocError>
    ensures { OnOk result (plain_tests found.new.items
        ≡ plain_tests found.old.items ++ tests_in_all (trees kids.now)) }
{
    for kid in kids {
        gather(kid, found)?;
    }
    Ok(())
}

#[cycle(gather)]
fn gather_arms(each: &[Arm], found: &mut Vec<Test>) -> Result<(), AllocError>
    ensures { OnOk result (plain_tests found.new.items
        ≡ plain_tests found.old.items ++ tests_in_arms (arms each.now)) }
{
    for arm in each {
        gather(&arm.body, found)?;
    }
    Ok(())
}

/// The tests of the tree, in chart order: a node's own before those below it. Walks the tree once.
///
/// # Errors
///
/// AllocError where there is no memory for an entry for each test.
pub fn tests_in_order(alloc: Global, root: &Node) -> Result<Vec<Test>, AllocError>
    ensures { IfOk result (λ tests. plain_tests tests.items ≡ tests_in (plain_node root.now)) }
{
    let mut found = Vec::new(alloc);
    gather(root, &mut found)?;
    Ok(found)
}
