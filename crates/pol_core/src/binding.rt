//! What the tables say against a start: its binds against the roles of the recipe, then its modules one after another.
ghost use Rattle.std.specs.Prelude.{◌≡◌, [], is_some, option_map};
ghost use Rattle.mtp_procs.specs.Covers.{cover_fault};
ghost use Rattle.chart_core.specs.Charts.{plain_chart};
ghost use Rattle.chart_core.specs.Roles.{role_names};
ghost use Rattle.chart_core.specs.Trees.{plain_node, plain_step};
ghost use Rattle.pol_bind.specs.Roles.{names_in};
ghost use Rattle.pol_events.specs.Bound.{bound_tag, given, plain_allocation};
ghost use Rattle.pol_events.specs.Refusals.{cover_rule};
ghost use Rattle.pol_slots.specs.Slots.{slot_description};
ghost use Rattle.pol_core.specs.Judging.{sight_unready, step_unready, first_unready, slot_rule, role_rule, table_unfit};
ghost use Rattle.pol_core.specs.Judging.{tag_busy, table_busy, bind_rule};

use chart_core::{Chart, Node, Role, Step, StepTest, find_step};
use chart_cursor::Sight;
use mtp_codes::{Name, State};
use pol_bind::{covers, one_module_twice, role_unbound, role_unknown, watched_step};
use pol_events::{Allocation, Bind, Rule, bound_tag};
use pol_slots::Slot;
use pol_table::Table;

// The service of a docked module wasn't reported, or isn't idle.
fn service_unready(tag: Name, service: Name, sight: &Sight) -> Option<Rule>
    ensures { result ≡ sight_unready tag service sight.now }
{
    match sight {
        Sight::Away => None,
        Sight::Unreported => Some(Rule::NotReported { tag, name: service }),
        Sight::Is(view) => {
            if view.control.state == State::Idle {
                None
            } else {
                Some(Rule::NotIdle {
                    tag,
                    service,
                    state: view.control.state,
                })
            }
        }
    }
}

// The steps of a role whose service wasn't reported, or isn't idle.
#[derive(Clone, Copy)]
struct Unready<'a> {
    slot: &'a Slot,
    tag: Name,
    role: Name,
}

impl<'a> Unready<'a> {
    // The rule that a step meets, where it is one of them.
    fn found_of(&self, step: &Step) -> Option<Rule>
        ensures { result ≡ step_unready self.now.slot.now self.now.tag self.now.role (plain_step step.now) }
    {
        if step.role == self.role {
            service_unready(self.tag, step.service, &self.slot.view(step.service))
        } else {
            None
        }
    }
}

impl<'a> StepTest for Unready<'a> {
    ghost test = { λ wanted step. is_some (step_unready wanted.slot.now wanted.tag wanted.role step) };

    fn passes(&self, step: &Step) -> bool {
        self.found_of(step).is_some()
    }
}

// The rule that the first of them meets.
fn first_unready(root: &Node, slot: &Slot, tag: Name, role: Name) -> Option<Rule>
    ensures { result ≡ first_unready slot.now tag role (plain_node root.now) }
{
    let wanted = Unready { slot, tag, role };
    let step = find_step(root, &wanted)?;
    wanted.found_of(step)
}

// The module can't play the role.
fn not_covered(chart: &Chart, role: Name, slot: &Slot) -> Option<Rule>
    ensures { result ≡ option_map (cover_rule role)
        (cover_fault (plain_chart chart.now) role (slot_description slot.now)) }
{
    match covers(chart, role, slot.description()) {
        Ok(()) => None,
        Err(rule) => Some(rule),
    }
}

// What is wrong with a slot for a role.
fn slot_rule(chart: &Chart, slot: &Slot, role: Name, tag: Name) -> Option<Rule>
    ensures { result ≡ slot_rule (plain_chart chart.now) role tag slot.now }
{
    if let Some(ticket) = slot.ticket() {
        return Some(Rule::InExchange { tag, ticket });
    }
    if let Some(rule) = not_covered(chart, role, slot) {
        return Some(rule);
    }
    first_unready(&chart.root, slot, tag, role)
}

// What is wrong with the module of a role, if it has one.
fn role_rule(modules: &Table<Slot>, chart: &Chart, role: Name, tag: Option<Name>) -> Option<Rule>
    ensures { result ≡ role_rule modules.now (plain_chart chart.now) role tag }
{
    let tag = tag?;
    match modules.get(tag) {
        None => Some(Rule::NoModule { tag }),
        Some(slot) => slot_rule(chart, slot, role, tag),
    }
}

// The first thing that is wrong with a module, over the roles of the chart.
fn first_unfit(
    modules: &Table<Slot>,
    chart: &Chart,
    binds: Allocation<'_>,
    roles: &[Role],
) -> Option<Rule>
    ensures { result ≡ table_unfit modules.now (plain_chart chart.now) (given (plain_allocation binds.entry))
        (names_in roles.now) }
{
    for role in roles {
        if let Some(rule) = role_rule(modules, chart, role.role, binds.tag_of(role.role)) {
            return Some(rule);
        }
    }
    None
}

fn tag_busy(modules: &Table<Slot>, tag: Option<Name>) -> Option<Rule>
    ensures { result ≡ tag_busy modules.now tag }
{
    let tag = tag?;
    let batch = modules.holder(tag)?;
    Some(Rule::Busy { tag, batch })
}

// The first module over these roles that is held.
fn first_busy(modules: &Table<Slot>, binds: &[Bind], roles: &[Role]) -> Option<Rule>
    ensures { result ≡ table_busy modules.now binds.now (names_in roles.now) }
{
    for role in roles {
        if let Some(rule) = tag_busy(modules, bound_tag(binds, role.role)) {
            return Some(rule);
        }
    }
    None
}

/// The first rule of a start that its binds and its modules break. It takes no memory.
pub fn bind_rule(modules: &Table<Slot>, chart: &Chart, binds: Allocation<'_>) -> Option<Rule>
    ensures { result ≡ bind_rule modules.now (plain_chart chart.now) (plain_allocation binds.entry) }
{
    if let Some(rule) = role_unbound(binds, &chart.roles) {
        return Some(rule);
    }
    if let Some(rule) = role_unknown(binds, &chart.roles) {
        return Some(rule);
    }
    if let Some(rule) = one_module_twice(binds, &chart.roles) {
        return Some(rule);
    }
    if let Some(rule) = watched_step(binds.watched, &chart.root, &chart.roles) {
        return Some(rule);
    }
    if let Some(rule) = first_unfit(modules, chart, binds, &chart.roles) {
        return Some(rule);
    }
    first_busy(modules, binds.held, &chart.roles)
}
