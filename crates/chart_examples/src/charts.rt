//! Worked charts: which are valid, and the first fault of the others.

ghost use Rattle.std.specs.Prelude.{◌≤◌, map, length, IfOk, IsTrue};
ghost use Rattle.chart_core.specs.Form.{is_formula_formed, is_finish_formed, is_tree_formed};
ghost use Rattle.chart_core.specs.Formulas.{plain_condition};
ghost use Rattle.chart_core.specs.Trees.{Tree, plain_node, plain_finish};
ghost use Rattle.chart_core.specs.Roles.{plain_role, are_roles_formed};

use chart_core::{Chart, ChartFault, Condition, Node, Op, Role, Step};
use given::named;
use mtp_codes::{Reading, Short};
use semver::VersionReq;
use std::alloc::Global;
use std::test::*;

// A role for modules of this type, in the versions that the text allows.
fn role(alloc: Global, name: &str, type_name: &str, wants: &str) -> Result<Role, Fail>
    ensures { IfOk result (λ role. length role.wants ≤ 64) }
{
    let wants = Short::of_text(wants).ok_or("no text")?;
    if wants.as_str().len() > 64 {
        return Err("too long".into());
    }
    let req = match VersionReq::parse(alloc, wants.as_str()) {
        Ok(req) => req,
        Err(_) => return Err("no requirement".into()),
    };
    Ok(Role {
        role: named(name)?,
        type_name: named(type_name)?,
        wants,
        req,
    })
}

// Two roles: A for dosers and B for mixers.
fn roles(alloc: Global) -> Result<Vec<Role>, Fail>
    ensures { IfOk result
        (λ roles. (root : Tree)
        → IsTrue (are_roles_formed (record { roles = map plain_role roles.items; root = root }))) }
{
    let doser = role(alloc, "A", "Doser", "^1")?;
    let mixer = role(alloc, "B", "Mixer", "^2")?;
    if mixer.role == doser.role {
        return Err("one role twice".into());
    }
    Ok(vec![in alloc; doser, mixer]?)
}

fn at_least(variable: &str, role: &str, value: i64) -> Result<Condition, Fail>
    ensures { IfOk result (λ condition. IsTrue (is_formula_formed (plain_condition condition))) }
{
    Ok(Condition::Test {
        role: named(role)?,
        var: named(variable)?,
        op: Op::Ge,
        value: Reading::Whole(value),
    })
}

fn step(
    alloc: Global,
    name: &str,
    role: &str,
    service: &str,
    finish: Option<Condition>,
) -> Result<Node, Fail>
    requires { IsTrue (is_finish_formed (plain_finish finish)) }
    ensures { IfOk result (λ node. IsTrue (is_tree_formed (plain_node node))) }
{
    Ok(Node::Step(Step {
        name: named(name)?,
        role: named(role)?,
        service: named(service)?,
        procedure: 1,
        settings: Vec::new(alloc),
        finish,
    }))
}

fn in_turn(alloc: Global, one: Node, other: Node) -> Result<Node, Fail>
    requires one { IsTrue (is_tree_formed (plain_node one)) }
    requires other { IsTrue (is_tree_formed (plain_node other)) }
    ensures { IfOk result (λ node. IsTrue (is_tree_formed (plain_node node))) }
{
    Ok(Node::Seq(vec![in alloc; one, other]?))
}

fn at_once(alloc: Global, one: Node, other: Node) -> Result<Node, Fail>
    requires one { IsTrue (is_tree_formed (plain_node one)) }
    requires other { IsTrue (is_tree_formed (plain_node other)) }
    ensures { IfOk result (λ node. IsTrue (is_tree_formed (plain_node node))) }
{
    Ok(Node::Par(vec![in alloc; one, other]?))
}

// The node below this many sequences of one child.
fn below(alloc: Global, node: Node, above: u32) -> Result<Node, Fail>
    requires { IsTrue (is_tree_formed (plain_node node)) }
    ensures { IfOk result (λ node. IsTrue (is_tree_formed (plain_node node))) }
{
    if above == 0 {
        return Ok(node);
    }
    Ok(Node::Seq(vec![in alloc; below(alloc, node, above - 1)?]?))
}

fn chart(alloc: Global, root: Node) -> Result<Chart, Fail>
    requires { IsTrue (is_tree_formed (plain_node root)) }
{
    let roles = roles(alloc)?;
    Ok(Chart { roles, root })
}

// Doses until the level is 1500, and then stirs and heats.
fn mix(alloc: Global) -> Result<Node, Fail>
    ensures { IfOk result (λ node. IsTrue (is_tree_formed (plain_node node))) }
{
    let fill = step(alloc, "fill", "A", "dose", None)?;
    let filled = Node::Loop(Box::new(alloc, fill)?, at_least("level", "A", 1500)?);
    let stir = step(alloc, "stir", "B", "stir", Some(at_least("temp", "B", 60)?))?;
    let heat = step(alloc, "heat", "B", "heat", None)?;
    in_turn(alloc, filled, at_once(alloc, stir, heat)?)
}

// Two steps of one name after another.
fn one_name_twice(alloc: Global) -> Result<Node, Fail>
    ensures { IfOk result (λ node. IsTrue (is_tree_formed (plain_node node))) }
{
    let one = step(alloc, "s1", "A", "dose", None)?;
    let other = step(alloc, "s1", "B", "dose", None)?;
    in_turn(alloc, one, other)
}

// Two steps at once with one service.
fn one_service_twice(alloc: Global) -> Result<Node, Fail>
    ensures { IfOk result (λ node. IsTrue (is_tree_formed (plain_node node))) }
{
    let one = step(alloc, "s1", "A", "dose", None)?;
    let other = step(alloc, "s2", "A", "dose", None)?;
    at_once(alloc, one, other)
}

// A step below this many sequences.
fn deep(alloc: Global, above: u32) -> Result<Node, Fail>
    ensures { IfOk result (λ node. IsTrue (is_tree_formed (plain_node node))) }
{
    below(alloc, step(alloc, "s1", "A", "dose", None)?, above)
}

// What is said of the chart with these nodes.
fn said(alloc: Global, root: Node) -> Result<Result<(), ChartFault>, Fail>
    requires { IsTrue (is_tree_formed (plain_node root)) }
{
    Ok(chart(alloc, root)?.valid())
}

#[test]
fn the_first_fault_of_a_chart_is_told(rt: HostRuntime) -> Result<(), Fail> {
    let alloc = rt.alloc();
    let twice = Err(ChartFault::StepTwice { node: 2 });
    let same = Err(ChartFault::SameService { node: 2 });
    let too_deep = Err(ChartFault::TooDeep { node: 16 });
    assert_eq!(rt; said(alloc, mix(alloc)?)?, Ok(()));
    assert_eq!(rt; said(alloc, one_name_twice(alloc)?)?, twice);
    assert_eq!(rt; said(alloc, one_service_twice(alloc)?)?, same);
    assert_eq!(rt; said(alloc, deep(alloc, 16)?)?, too_deep);
    assert_eq!(rt; said(alloc, deep(alloc, 15)?)?, Ok(()));
    Ok(())
}
