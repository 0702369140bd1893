//! The rules of a start: its binds against the roles of the recipe, then its modules one after another.
ghost use Rattle.std.specs.Prelude.{◌≡◌, IfOk};
ghost use Rattle.mtp_codes.specs.Names.{same_name};
ghost use Rattle.mtp_codes.specs.Faults.{first_of};
ghost use Rattle.chart_core.specs.Charts.{plain_chart};
ghost use Rattle.chart_core.specs.Roles.{role_names};
ghost use Rattle.chart_core.specs.Order.{plans_seen};
ghost use Rattle.pol_events.specs.Events.{plain_history};
ghost use Rattle.pol_events.specs.Bound.{given, plain_allocation};
ghost use Rattle.pol_history.specs.Looking.{past};
ghost use Rattle.pol_history.specs.Modules.{description_by};
ghost use Rattle.pol_history.specs.Rules.{busy, busy_role, module_rule, modules_unfit, not_covered, not_ready};
ghost use Rattle.pol_history.specs.Rules.{steps_in, unready};
ghost use Rattle.pol_bind.specs.Roles.{names_in};
ghost use Rattle.pol_audit.specs.Holding.{services_in};

use crate::batches::holder_of;
use crate::module_rules::{in_exchange, no_module, not_idle, not_reported};
use crate::modules::description_of;
use crate::past::Past;
use chart_core::{Chart, Role, Step, steps_in_order};
use mtp_codes::Name;
use pol_bind::covers;
use pol_events::{Allocation, Bind, Rule, bound_tag};
use std::alloc::{AllocError, Global};

// The module can't play the role.
fn not_covered(history: &Past<'_, '_>, chart: &Chart, role: Name, tag: Name) -> Option<Rule>
    ensures { result ≡ not_covered (plain_chart chart.now) role
        (description_by (past tag (plain_history history.now))) }
{
    match covers(chart, role, description_of(history, tag)?) {
        Ok(()) => None,
        Err(rule) => Some(rule),
    }
}

fn is_of_role(step: &Step, role: Name) -> bool
    ensures { result ≡ same_name step.now.role role }
{
    step.role == role
}

fn unready(history: &Past<'_, '_>, tag: Name, service: Name) -> Option<Rule>
    ensures { result ≡ unready tag (past tag (plain_history history.now)) service }
{
    match not_reported(history, tag, service) {
        Some(rule) => Some(rule),
        None => not_idle(history, tag, service),
    }
}

// The first service of the role's steps that wasn't reported or isn't idle.
fn first_unready(history: &Past<'_, '_>, tag: Name, role: Name, steps: &[&Step]) -> Option<Rule>
    ensures { result ≡ not_ready tag (past tag (plain_history history.now)) (services_in role (plans_seen steps.now)) }
{
    for step in steps {
        if !is_of_role(step, role) {
            continue;
        }
        if let Some(rule) = unready(history, tag, step.service) {
            return Some(rule);
        }
    }
    None
}

// The first thing that is wrong with the module of a role.
fn module_rule(
    history: &Past<'_, '_>,
    chart: &Chart,
    steps: &[&Step],
    role: Name,
    tag: Option<Name>,
) -> Option<Rule>
    requires { plans_seen steps.now ≡ steps_in (plain_chart chart.now) }
    ensures { result ≡ module_rule (plain_history history.now) (plain_chart chart.now) role tag }
{
    let tag = tag?;
    first_of(&[
        no_module(history, tag),
        in_exchange(history, tag),
        not_covered(history, chart, role, tag),
        first_unready(history, tag, role, steps),
    ])
}

fn first_unfit(
    history: &Past<'_, '_>,
    chart: &Chart,
    binds: Allocation<'_>,
    steps: &[&Step],
    roles: &[Role],
) -> Option<Rule>
    requires { plans_seen steps.now ≡ steps_in (plain_chart chart.now) }
    ensures { result ≡ modules_unfit (plain_history history.now) (plain_chart chart.now)
        (given (plain_allocation binds.entry)) (names_in roles.now) }
{
    for role in roles {
        if let Some(rule) = module_rule(history, chart, steps, role.role, binds.tag_of(role.role)) {
            return Some(rule);
        }
    }
    None
}

/// The first thing that is wrong with a module, over the roles of the chart.
pub fn modules_unfit(
    alloc: Global,
    history: &Past<'_, '_>,
    chart: &Chart,
    binds: Allocation<'_>,
) -> Result<Option<Rule>, AllocError>
    ensures { IfOk result (λ rule. rule
        ≡ modules_unfit (plain_history history.now) (plain_chart chart.now) (given (plain_allocation binds.entry))
        (role_names (plain_chart chart.now))) }
{
    let steps = steps_in_order(alloc, chart)?;
    Ok(first_unfit(history, chart, binds, &steps, &chart.roles))
}

fn busy_role(history: &Past<'_, '_>, tag: Option<Name>) -> Option<Rule>
    ensures { result ≡ busy_role (plain_history history.now) tag }
{
    let tag = tag?;
    let batch = holder_of(history, tag)?;
    Some(Rule::Busy { tag, batch })
}

/// The first module over these roles that is held.
pub fn busy(history: &Past<'_, '_>, binds: &[Bind], roles: &[Role]) -> Option<Rule>
    ensures { result ≡ busy (plain_history history.now) binds.now (names_in roles.now) }
{
    for role in roles {
        if let Some(rule) = busy_role(history, bound_tag(binds, role.role)) {
            return Some(rule);
        }
    }
    None
}

/// The first of these rules that holds.
pub fn first_of(rules: &[Option<Rule>]) -> Option<Rule>
    ensures { result ≡ first_of rules.now }
{
    for rule in rules {
        if rule.is_some() {
            return *rule;
        }
    }
    None
}
