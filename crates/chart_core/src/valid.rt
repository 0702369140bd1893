//! Whether a chart is valid.
ghost use Rattle.std.specs.Prelude.{◌≡◌, ◌+◌, ◌*◌, ◌<◌, ◌≤◌, ◌↔◌, ◌∷◌, [], map, length, nat_lt, Some, IsTrue, IsOk, IfOk, IfErr, IfNone};
ghost use Rattle.mtp_codes.specs.Names.{is_among};
ghost use Rattle.mtp_codes.specs.Faults.{first_of, when};
ghost use Rattle.chart_core.specs.Formulas.{plain_condition, formulas};
ghost use Rattle.chart_core.specs.Trees.{plain_node, trees, arms, arm_conditions, plain_step, plain_finish, leaf};
ghost use Rattle.chart_core.specs.Form.{is_tree_formed, are_trees_formed, are_arms_formed};
ghost use Rattle.chart_core.specs.Roles.{plain_role};
ghost use Rattle.chart_core.specs.Charts.{plain_chart};
ghost use Rattle.chart_core.specs.Valid.{reads_unknown, some_reads_unknown, finish_conditions, visit, node_fault, chart_fault, IsValid};
ghost use Rattle.chart_core.specs.Reads.{reads_of};
ghost use Rattle.chart_core.specs.Runs.{arm_reads, loop_reads};
ghost use Rattle.chart_core.specs.Walks.{walked, walked_all, walked_arms};
ghost use Rattle.chart_core.specs.declared.limits.TheConstants.{DEEPEST_NODE, MOST_READS, MOST_STEPS};

use super::chart::Chart;
use super::condition::Condition;
use super::fault::ChartFault;
use super::limits::{DEEPEST_NODE, MOST_STEPS};
use super::node::{Arm, Node, Step};
use super::reads::{reads_of_arms, reads_of_condition};
use super::role::Role;
use super::steps::{has_clash, is_named};
use mtp_codes::Name;

/// How far a walk through a chart has come: the number of the next node, and how many steps come before it.
#[derive(Clone, Copy)]
pub struct Reached {
    pub number: u32,
    pub steps: u32,
}

fn is_role(roles: &[Role], name: Name) -> bool
    ensures { result ≡ is_among (map (λ role. role.role) (map plain_role roles.now)) name }
{
    for each in roles {
        if each.role == name {
            return true;
        }
    }
    false
}

// Whether the condition reads a role that isn't one of these.
#[cycle(unknown)]
fn has_unknown(condition: &Condition, roles: &[Role]) -> bool
    ensures { result ≡ reads_unknown (plain_condition condition.now)
        (map (λ role. role.role) (map plain_role roles.now)) }
{
    match condition {
        Condition::Const(_) => false,
        Condition::All(all) => some_has_unknown(all, roles),
        Condition::Any(any) => some_has_unknown(any, roles),
        Condition::Not(inner) => has_unknown(inner, roles),
        Condition::Test { role, .. } => !is_role(roles, *role),
    }
}

#[cycle(unknown)]
fn some_has_unknown(conditions: &[Condition], roles: &[Role]) -> bool
    ensures { result ≡ some_reads_unknown (formulas conditions.now)
        (map (λ role. role.role) (map plain_role roles.now)) }
{
    for each in conditions {
        if has_unknown(each, roles) {
            return true;
        }
    }
    false
}

fn an_arm_has_unknown(each: &[Arm], roles: &[Role]) -> bool
    ensures { result ≡ some_reads_unknown (arm_conditions (arms each.now))
        (map (λ role. role.role) (map plain_role roles.now)) }
{
    for arm in each {
        if has_unknown(&arm.when, roles) {
            return true;
        }
    }
    false
}

// Whether a selection reads more than four variables.
fn arms_read_too_much(each: &[Arm]) -> bool
    ensures { result ≡ nat_lt MOST_READS (length (arm_reads (arms each.now))) }
{
    match reads_of_arms(each) {
        Some(_) => false,
        None => true,
    }
}

// Whether a loop or a step's finish reads more than four variables.
fn reads_too_much(condition: &Condition) -> bool
    ensures { result ≡ nat_lt MOST_READS (length (loop_reads (plain_condition condition.now))) }
{
    match reads_of_condition(condition) {
        Some(_) => false,
        None => true,
    }
}

fn finish_has_unknown(finish: &Option<Condition>, roles: &[Role]) -> bool
    ensures { result ≡ some_reads_unknown (finish_conditions (plain_finish finish.now))
        (map (λ role. role.role) (map plain_role roles.now)) }
{
    match finish {
        Some(condition) => has_unknown(condition, roles),
        None => false,
    }
}

fn finish_reads_too_much(finish: &Option<Condition>) -> bool
    ensures { result ≡ nat_lt MOST_READS (length (reads_of (finish_conditions (plain_finish finish.now)))) }
{
    match finish {
        Some(condition) => reads_too_much(condition),
        None => false,
    }
}

fn step_fault(step: &Step, depth: u32, here: Reached, chart: &Chart) -> Option<ChartFault>
    ensures fault { result ≡ node_fault (plain_chart chart.now)
        (visit (leaf (plain_step step.now)) here.number depth here.steps) }
    ensures shallow { IfNone result (depth ≤ DEEPEST_NODE) }
    ensures few { IfNone result (here.steps < MOST_STEPS) }
{
    let node = here.number;
    if depth > DEEPEST_NODE {
        return Some(ChartFault::TooDeep { node });
    }
    if here.steps >= MOST_STEPS {
        return Some(ChartFault::TooManySteps { node });
    }
    if is_named(&chart.root, node, step.name) {
        return Some(ChartFault::StepTwice { node });
    }
    if !is_role(&chart.roles, step.role) || finish_has_unknown(&step.finish, &chart.roles) {
        return Some(ChartFault::UnknownRole { node });
    }
    if has_clash(&chart.root, node, step.role, step.service) {
        return Some(ChartFault::SameService { node });
    }
    if finish_reads_too_much(&step.finish) {
        return Some(ChartFault::TooManyReads { node });
    }
    None
}

// The fault of a node that is no step: too deep, reads a role that isn't there, reads too much.
fn other_fault(node: u32, depth: u32, unknown: bool, too_much: bool) -> Option<ChartFault>
    ensures fault { result
        ≡ first_of
        (when (nat_lt DEEPEST_NODE depth) (ChartFault.TooDeep node)
        ∷ when unknown (ChartFault.UnknownRole node)
        ∷ when too_much (ChartFault.TooManyReads node) ∷ []) }
    ensures shallow { IfNone result (depth ≤ DEEPEST_NODE) }
{
    if depth > DEEPEST_NODE {
        return Some(ChartFault::TooDeep { node });
    }
    if unknown {
        return Some(ChartFault::UnknownRole { node });
    }
    if too_much {
        return Some(ChartFault::TooManyReads { node });
    }
    None
}

#[cycle(walk)]
fn walk(node: &Node, depth: u32, here: Reached, chart: &Chart) -> Result<Reached, ChartFault>
    requires formed { IsTrue (is_tree_formed (plain_node node.now)) }
    requires deep { depth ≤ DEEPEST_NODE + 1 }
    requires near { here.number < DEEPEST_NODE * here.steps + depth }
    requires few { here.steps ≤ MOST_STEPS }
    ensures value { result ≡ walked (plain_chart chart.now) (plain_node node.now) depth here }
    ensures near { IfOk result (λ there. there.number ≤ DEEPEST_NODE * there.steps) }
    ensures few { IfOk result (λ there. there.steps ≤ MOST_STEPS) }
{
    let next = Reached {
        number: here.number + 1,
        steps: here.steps,
    };
    match node {
        Node::Step(step) => match step_fault(step, depth, here, chart) {
            Some(fault) => Err(fault),
            None => Ok(Reached {
                number: here.number + 1,
                steps: here.steps + 1,
            }),
        },
        Node::Seq(kids) | Node::Par(kids) => match other_fault(here.number, depth, false, false) {
            Some(fault) => Err(fault),
            None => walk_all(kids, depth + 1, next, chart),
        },
        Node::Sel(each) => {
            match other_fault(
                here.number,
                depth,
                an_arm_has_unknown(each, &chart.roles),
                arms_read_too_much(each),
            ) {
                Some(fault) => Err(fault),
                None => walk_arms(each, depth + 1, next, chart),
            }
        }
        Node::Loop(body, until) => {
            match other_fault(
                here.number,
                depth,
                has_unknown(until, &chart.roles),
                reads_too_much(until),
            ) {
                Some(fault) => Err(fault),
                None => walk(body, depth + 1, next, chart),
            }
        }
    }
}

#[cycle(walk)]
fn walk_all(kids: &[Node], depth: u32, first: Reached, chart: &Chart) -> Result<Reached, ChartFault>
    requires formed { IsTrue (are_trees_formed (trees kids.now)) }
    requires some { 0 < length kids.now }
    requires below { 0 < depth }
    requires deep { depth ≤ DEEPEST_NODE + 1 }
    requires near { first.number < DEEPEST_NODE * first.steps + depth }
    requires few { first.steps ≤ MOST_STEPS }
    ensures value { result ≡ walked_all (plain_chart chart.now) (trees kids.now) depth first }
    ensures near { IfOk result (λ there. there.number ≤ DEEPEST_NODE * there.steps) }
    ensures few { IfOk result (λ there. there.steps ≤ MOST_STEPS) }
{
    let mut here = first;
    for kid in kids {
        here = walk(kid, depth, here, chart)?;
    }
    Ok(here)
}

#[cycle(walk)]
fn walk_arms(each: &[Arm], depth: u32, first: Reached, chart: &Chart) -> Result<Reached, ChartFault>
    requires formed { IsTrue (are_arms_formed (arms each.now)) }
    requires some { 0 < length each.now }
    requires below { 0 < depth }
    requires deep { depth ≤ DEEPEST_NODE + 1 }
    requires near { first.number < DEEPEST_NODE * first.steps + depth }
    requires few { first.steps ≤ MOST_STEPS }
    ensures value { result ≡ walked_arms (plain_chart chart.now) (arms each.now) depth first }
    ensures near { IfOk result (λ there. there.number ≤ DEEPEST_NODE * there.steps) }
    ensures few { IfOk result (λ there. there.steps ≤ MOST_STEPS) }
{
    let mut here = first;
    for arm in each {
        here = walk(&arm.body, depth, here, chart)?;
    }
    Ok(here)
}

impl Chart {
    /// Whether the chart is valid; else the first fault of the first node in chart order that has one. Takes no memory.
    pub fn valid(&self) -> Result<(), ChartFault>
        ensures ok { IsOk result ↔ IsValid (plain_chart self.now) }
        ensures fault { IfErr result (λ fault. chart_fault (plain_chart self.now) ≡ Some fault) }
    {
        let start = Reached {
            number: 0,
            steps: 0,
        };
        match walk(&self.root, 1, start, self) {
            Ok(_) => Ok(()),
            Err(fault) => Err(fault),
        }
    }
}
