//! The rules that are decided by a module's past: each says whether it holds, and with which fields.
ghost use Rattle.std.specs.Prelude.{◌≡◌, map};
ghost use Rattle.mtp_desc.specs.PlainService.{plain_service};
ghost use Rattle.pol_events.specs.Events.{plain_history};
ghost use Rattle.pol_events.specs.Refusals.{forbidden, in_exchange, value_misfit, no_service, no_variable, not_an_edge};
ghost use Rattle.pol_events.specs.Refusals.{not_at_rest, service_not_at_rest, wrong_ticket};
ghost use Rattle.pol_history.specs.Looking.{past};
ghost use Rattle.pol_history.specs.Modules.{docking_by, ticket_of, description_by, control_by, view_by};
ghost use Rattle.pol_history.specs.Batches.{holder_of};
ghost use Rattle.pol_history.specs.Rules.{by_description, by_holder, by_view, module_not_at_rest, no_module, not_idle};
ghost use Rattle.pol_history.specs.Rules.{not_in_exchange, not_reported, plant_full, tag_taken};
ghost use Rattle.pol_audit.specs.Holding.{held_by};

use crate::batches::holder_of;
use crate::modules::{Docking, description_of, docking_of, view_of};
use crate::past::Past;
use mtp_assembly::check_view;
use mtp_codes::{Command, MOST_MODULES, Name, Speaker, State, Value};
use mtp_desc::Service;
use mtp_machine::{edge, is_at_rest};
use mtp_modes::{ServiceView, permitted};
use pol_events::Rule;

/// The tag is docked or away already.
#[tactic(auto, using(crate::proofs::Ruled::taken_is))]
pub fn tag_taken(history: &Past<'_, '_>, tag: Name) -> Option<Rule>
    ensures { result ≡ tag_taken (docking_by (past tag (plain_history history.now))) }
{
    match docking_of(history, tag) {
        Docking::Absent => None,
        Docking::Docked => Some(Rule::TagTaken),
        Docking::Away { .. } => Some(Rule::TagTaken),
    }
}

/// The tag is neither docked nor away.
#[tactic(auto, using(crate::proofs::Ruled::no_module_is))]
pub fn no_module(history: &Past<'_, '_>, tag: Name) -> Option<Rule>
    ensures { result ≡ no_module tag (docking_by (past tag (plain_history history.now))) }
{
    match docking_of(history, tag) {
        Docking::Absent => Some(Rule::NoModule { tag }),
        Docking::Docked => None,
        Docking::Away { .. } => None,
    }
}

/// The tag's module is away.
#[tactic(auto, using(crate::proofs::Ruled::in_exchange_is))]
pub fn in_exchange(history: &Past<'_, '_>, tag: Name) -> Option<Rule>
    ensures { result ≡ in_exchange tag (ticket_of (docking_by (past tag (plain_history history.now)))) }
{
    match docking_of(history, tag) {
        Docking::Absent => None,
        Docking::Docked => None,
        Docking::Away { ticket } => Some(Rule::InExchange { tag, ticket }),
    }
}

/// The tag's module isn't away.
#[tactic(auto, using(crate::proofs::Ruled::not_in_exchange_is))]
pub fn not_in_exchange(history: &Past<'_, '_>, tag: Name) -> Option<Rule>
    ensures { result ≡ not_in_exchange (docking_by (past tag (plain_history history.now))) }
{
    match docking_of(history, tag) {
        Docking::Absent => None,
        Docking::Docked => Some(Rule::NotInExchange),
        Docking::Away { .. } => None,
    }
}

/// The ticket isn't that of the exchange.
#[tactic(auto, using(crate::proofs::Ruled::wrong_ticket_is))]
pub fn wrong_ticket(history: &Past<'_, '_>, tag: Name, ticket: u32) -> Option<Rule>
    ensures { result ≡ wrong_ticket ticket (ticket_of (docking_by (past tag (plain_history history.now)))) }
{
    match docking_of(history, tag) {
        Docking::Absent => None,
        Docking::Docked => None,
        Docking::Away { ticket: kept } => {
            if kept == ticket {
                None
            } else {
                Some(Rule::WrongTicket {
                    kept,
                    given: ticket,
                })
            }
        }
    }
}

/// 64 tags are docked or away.
pub fn plant_full(history: &Past<'_, '_>) -> Option<Rule>
    ensures { result ≡ plant_full (plain_history history.now) }
{
    if history.present().len() >= MOST_MODULES {
        Some(Rule::PlantFull)
    } else {
        None
    }
}

/// A batch holds the module.
pub fn held(history: &Past<'_, '_>, tag: Name) -> Option<Rule>
    ensures { result ≡ by_holder held_by (holder_of (plain_history history.now) tag) }
{
    let batch = holder_of(history, tag)?;
    Some(Rule::Held { batch })
}

/// The module's description lacks the service.
pub fn no_service(history: &Past<'_, '_>, tag: Name, service: Name) -> Option<Rule>
    ensures { result ≡ by_description (no_service service) (description_by (past tag (plain_history history.now))) }
{
    let description = description_of(history, tag)?;
    match description.service(service) {
        Some(_) => None,
        None => Some(Rule::NoService),
    }
}

/// The state may not follow the one that the service reported last.
pub fn not_an_edge(history: &Past<'_, '_>, tag: Name, service: Name, to: State) -> Option<Rule>
    ensures { result ≡ not_an_edge to (control_by service (past tag (plain_history history.now))) }
{
    let from = history.control(tag, service)?.state;
    if from == to || edge(from, to) {
        None
    } else {
        Some(Rule::NotAnEdge { from, to })
    }
}

/// The module's description lacks the variable.
pub fn no_variable(history: &Past<'_, '_>, tag: Name, name: Name) -> Option<Rule>
    ensures { result ≡ by_description (no_variable name) (description_by (past tag (plain_history history.now))) }
{
    let description = description_of(history, tag)?;
    match description.variable(name) {
        Some(_) => None,
        None => Some(Rule::NoVariable),
    }
}

/// The value doesn't fit the variable.
pub fn misfit(history: &Past<'_, '_>, tag: Name, name: Name, value: &Value) -> Option<Rule>
    ensures { result ≡ by_description (value_misfit name value.now)
        (description_by (past tag (plain_history history.now))) }
{
    let description = description_of(history, tag)?;
    let variable = description.variable(name)?;
    match check_view(variable, value) {
        Ok(()) => None,
        Err(fault) => Some(fault.into()),
    }
}

/// The service wasn't reported since its module was docked.
pub fn not_reported(history: &Past<'_, '_>, tag: Name, service: Name) -> Option<Rule>
    ensures { result ≡ not_reported tag service (view_by service (past tag (plain_history history.now))) }
{
    match view_of(history, tag, service) {
        Some(_) => None,
        None => Some(Rule::NotReported { tag, name: service }),
    }
}

/// The service is in another state than Idle.
pub fn not_idle(history: &Past<'_, '_>, tag: Name, service: Name) -> Option<Rule>
    ensures { result ≡ not_idle tag service (view_by service (past tag (plain_history history.now))) }
{
    match view_of(history, tag, service)?.control.state {
        State::Idle => None,
        state => Some(Rule::NotIdle {
            tag,
            service,
            state,
        }),
    }
}

// The rule against the operator's command, by what the service last reported.
fn forbidden_by_view(view: &ServiceView, command: Command) -> Option<Rule>
    ensures { result ≡ forbidden command view.now }
{
    match permitted(view, Speaker::Operator, command) {
        Ok(()) => None,
        Err(forbid) => Some(forbid.into()),
    }
}

/// The operator may not send the command to the service.
pub fn forbidden(history: &Past<'_, '_>, tag: Name, service: Name, command: Command) -> Option<Rule>
    ensures { result ≡ by_view (forbidden command) (view_by service (past tag (plain_history history.now))) }
{
    let view = view_of(history, tag, service)?;
    forbidden_by_view(&view, command)
}

// The service was reported in a state that isn't at rest.
fn service_not_at_rest(history: &Past<'_, '_>, tag: Name, service: Name) -> Option<Rule>
    ensures { result ≡ service_not_at_rest service (control_by service (past tag (plain_history history.now))) }
{
    let state = history.control(tag, service)?.state;
    if is_at_rest(state) {
        None
    } else {
        Some(Rule::NotAtRest { service, state })
    }
}

// The first of the services that isn't at rest.
fn first_not_at_rest(history: &Past<'_, '_>, tag: Name, services: &[Service]) -> Option<Rule>
    ensures { result ≡ not_at_rest (λ service. control_by service (past tag (plain_history history.now)))
        (map plain_service services.now) }
{
    for service in services {
        if let Some(rule) = service_not_at_rest(history, tag, service.name) {
            return Some(rule);
        }
    }
    None
}

/// The module isn't at rest; the first service that isn't, in the description's order.
pub fn not_at_rest(history: &Past<'_, '_>, tag: Name) -> Option<Rule>
    ensures { result ≡ by_description (module_not_at_rest (past tag (plain_history history.now)))
        (description_by (past tag (plain_history history.now))) }
{
    let description = description_of(history, tag)?;
    first_not_at_rest(history, tag, &description.services)
}
