//! The steps of a chart in chart order, and whether a step is active after a log.
ghost use Rattle.std.specs.Prelude.{◌≡◌, ◌++◌, map, option_map, IfOk, OnOk};
ghost use Rattle.chart_core.specs.Trees.{plain_node, trees, arms, plain_step, steps};
ghost use Rattle.chart_core.specs.Active.{phase_by, phase_after, is_running};
ghost use Rattle.chart_core.specs.Order.{step_plans, all_step_plans, arm_step_plans, plans_seen};

use super::chart::Chart;
use super::entry::LogEntry;
use super::node::{Arm, Node, Step};
use mtp_codes::Name;
use std::alloc::{AllocError, Global};

#[cycle(order)]
fn put_steps<'a>(node: &'a Node, found: &mut Vec<&'a Step>) -> Result<(), AllocError>
    ensures { OnOk result
        (plans_seen found.new.items ≡ plans_seen found.old.items ++ step_plans (plain_node node.now)) }
{
    match node {
        Node::Step(step) => {
            found.push(step)?;
            Ok(())
        }
        Node::Seq(kids) => put_all(kids, found),
        Node::Par(kids) => put_all(kids, found),
        Node::Sel(each) => put_arms(each, found),
        Node::Loop(body, _) => put_steps(body, found),
    }
}

#[cycle(order)]
fn put_all<'a>(kids: &'a [Node], found: &mut Vec<&'a Step>) -> Result<(), AllocError>
    ensures { OnOk result (plans_seen found.new.items ≡ plans_seen found.old.items ++ all_step_plans (trees kids.now)) }
{
    for kid in kids {
        put_steps(kid, found)?;
    }
    Ok(())
}

#[cycle(order)]
fn put_arms<'a>(each: &'a [Arm], found: &mut Vec<&'a Step>) -> Result<(), AllocError>
    ensures { OnOk result (plans_seen found.new.items ≡ plans_seen found.old.items ++ arm_step_plans (arms each.now)) }
{
    for arm in each {
        put_steps(&arm.body, found)?;
    }
    Ok(())
}

/// The steps of the chart in chart order. Walks the chart's nodes once.
///
/// # Errors
///
/// AllocError where there is no memory for one reference for each step.
#[tactic(auto, using(crate::proofs::Ordered::plans_are))]
pub fn steps_in_order(alloc: Global, chart: &Chart) -> Result<Vec<&Step>, AllocError>
    ensures { IfOk result (λ found. map (λ step. plain_step step.now) found.items
        ≡ map (λ placed. placed.step) (steps (plain_node chart.now.root) 0)) }
{
    let mut found = Vec::new(alloc);
    put_steps(&chart.root, &mut found)?;
    Ok(found)
}

// Whether the entry leaves the step running, where it is an entry of it.
fn leaves_running(name: Name, entry: &LogEntry) -> Option<bool>
    ensures { result ≡ option_map is_running (phase_by name entry.now) }
{
    match entry {
        LogEntry::Start { step, .. } | LogEntry::Finish { step, .. } | LogEntry::Reset { step, .. }
            if *step == name => { Some(true) }
        LogEntry::End { step } | LogEntry::Stop { step, .. } | LogEntry::Left { step, .. }
            if *step == name => { Some(false) }
        _ => None,
    }
}

/// Whether the step of this name is active after the log: its last entry is Start, Finish or Reset.
pub fn is_active(log: &[LogEntry], name: Name) -> bool
    ensures { result ≡ is_running (phase_after log.now name) }
{
    let mut active = false;
    for entry in log {
        if let Some(running) = leaves_running(name, entry) {
            active = running;
        }
    }
    active
}
