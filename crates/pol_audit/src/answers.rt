//! The answer to an event: the first rule of its kind that holds, else what is answered otherwise.
ghost use Rattle.std.specs.Prelude.{◌≡◌, ◌≤◌, ◌∷◌, [], length, IfOk};
ghost use Rattle.mtp_codes.specs.Faults.{first_of};
ghost use Rattle.mtp_codes.specs.declared.limits.TheConstants.{LONGEST_HISTORY};
ghost use Rattle.mtp_desc.specs.PlainDescription.{plain_description};
ghost use Rattle.chart_core.specs.Charts.{plain_chart};
ghost use Rattle.chart_core.specs.Roles.{role_names};
ghost use Rattle.pol_events.specs.Bound.{plain_allocation};
ghost use Rattle.pol_events.specs.Events.{plain_event, plain_history, unplug, report, variable, start, freeze, thaw};
ghost use Rattle.pol_events.specs.Events.{desk, exchange_begin, exchange_end, exchange_cancel};
ghost use Rattle.pol_history.specs.Looking.{past, past_of_batch, recipes};
ghost use Rattle.pol_history.specs.Modules.{docking_by};
ghost use Rattle.pol_history.specs.Batches.{start_by};
ghost use Rattle.pol_history.specs.Rules.{batch_closed, no_batch, plant_full, recipe_known, recipes_full, tag_taken};
ghost use Rattle.pol_history.specs.Answers.{advanced, answer_of, otherwise, rules, stopped};
ghost use Rattle.pol_history.specs.Runs.{IsOrderly};
ghost use Rattle.pol_bind.specs.Roles.{names_in};
ghost use Rattle.pol_audit.specs.Placed.{IsPlaced};

use crate::batch_rules::{
    active_step, already_frozen, batch_closed, batch_known, batches_full, held_back, no_batch,
    not_frozen, recipe_known, recipes_full, watched,
};
use crate::batches::chart_named;
use crate::following::next_of;
use crate::module_rules::{
    forbidden, held, in_exchange, misfit, no_module, no_service, no_variable, not_an_edge,
    not_at_rest, not_in_exchange, not_reported, plant_full, tag_taken, wrong_ticket,
};
use crate::modules::next_ticket;
use crate::past::Past;
use crate::places::{Places, placed};
use crate::start_rules::{busy, first_of, modules_unfit};
use chart_core::{Chart, LogEntry, Role};
use mtp_assembly::ServiceControl;
use mtp_codes::{Command, LONGEST_HISTORY, Name, Value};
use mtp_desc::Description;
use pol_bind::{one_module_twice, role_unbound, role_unknown, watched_step};
use pol_events::{Allocation, Answer, Entry, Event, Next, Outcome, Rule};
use std::alloc::{AllocError, Global};

fn plug_rule(history: &Past<'_, '_>, tag: Name) -> Option<Rule>
    ensures { result ≡ first_of
        (tag_taken (docking_by (past tag (plain_history history.now))) ∷ plant_full (plain_history history.now) ∷ []) }
{
    first_of(&[tag_taken(history, tag), plant_full(history)])
}

fn unplug_rule(history: &Past<'_, '_>, tag: Name) -> Option<Rule>
    ensures { result ≡ first_of (rules (plain_history history.now) (unplug 0 tag)) }
{
    first_of(&[
        no_module(history, tag),
        in_exchange(history, tag),
        held(history, tag),
        watched(history, tag),
    ])
}

fn report_rule(
    history: &Past<'_, '_>,
    tag: Name,
    service: Name,
    control: &ServiceControl,
) -> Option<Rule>
    ensures { result ≡ first_of (rules (plain_history history.now) (report 0 tag service control.now)) }
{
    first_of(&[
        no_module(history, tag),
        in_exchange(history, tag),
        no_service(history, tag, service),
        not_an_edge(history, tag, service, control.state),
    ])
}

fn variable_rule(history: &Past<'_, '_>, tag: Name, name: Name, value: &Value) -> Option<Rule>
    ensures { result ≡ first_of (rules (plain_history history.now) (variable 0 tag name value.now)) }
{
    first_of(&[
        no_module(history, tag),
        in_exchange(history, tag),
        no_variable(history, tag, name),
        misfit(history, tag, name, value),
    ])
}

fn recipe_rule(history: &Past<'_, '_>, name: Name) -> Option<Rule>
    ensures { result ≡ first_of
        (recipe_known name (recipes (plain_history history.now))
        ∷ recipes_full (recipes (plain_history history.now)) ∷ []) }
{
    first_of(&[recipe_known(history, name), recipes_full(history)])
}

// The roles that binds are checked against.
fn roles_of(chart: &Chart) -> &[Role]
    ensures { names_in result.now ≡ role_names (plain_chart chart.now) }
{
    &chart.roles
}

fn start_rule(
    alloc: Global,
    history: &Past<'_, '_>,
    batch: Name,
    name: Name,
    binds: Allocation<'_>,
) -> Result<Option<Rule>, AllocError>
    ensures { IfOk result (λ rule. rule ≡ first_of
        (rules (plain_history history.now) (start 0 batch name (plain_allocation binds.entry)))) }
{
    let Some(chart) = chart_named(history, name) else {
        return Ok(Some(Rule::NoRecipe));
    };
    let roles = roles_of(chart);
    Ok(first_of(&[
        batch_known(history, batch),
        role_unbound(binds, roles),
        role_unknown(binds, roles),
        one_module_twice(binds, roles),
        watched_step(binds.watched, &chart.root, roles),
        modules_unfit(alloc, history, chart, binds)?,
        busy(history, binds.held, roles),
        batches_full(history),
    ]))
}

// The rules that each event of an open batch has.
fn open_rule(history: &Past<'_, '_>, batch: Name) -> Option<Rule>
    ensures { result ≡ first_of
        (no_batch (start_by (past_of_batch batch (plain_history history.now)))
        ∷ batch_closed (past_of_batch batch (plain_history history.now)) ∷ []) }
{
    first_of(&[no_batch(history, batch), batch_closed(history, batch)])
}

fn freeze_rule(history: &Past<'_, '_>, batch: Name, hold: bool) -> Option<Rule>
    ensures { result ≡ first_of (rules (plain_history history.now) (freeze 0 batch hold)) }
{
    first_of(&[
        no_batch(history, batch),
        batch_closed(history, batch),
        already_frozen(history, batch, hold),
    ])
}

fn thaw_rule(history: &Past<'_, '_>, batch: Name) -> Option<Rule>
    ensures { result ≡ first_of (rules (plain_history history.now) (thaw 0 batch)) }
{
    first_of(&[
        no_batch(history, batch),
        batch_closed(history, batch),
        not_frozen(history, batch),
    ])
}

fn desk_rule(history: &Past<'_, '_>, tag: Name, service: Name, command: Command) -> Option<Rule>
    ensures { result ≡ first_of (rules (plain_history history.now) (desk 0 tag service command)) }
{
    first_of(&[
        no_module(history, tag),
        in_exchange(history, tag),
        no_service(history, tag, service),
        not_reported(history, tag, service),
        forbidden(history, tag, service, command),
    ])
}

fn begin_rule(alloc: Global, history: &Past<'_, '_>, tag: Name) -> Result<Option<Rule>, AllocError>
    ensures { IfOk result (λ rule. rule ≡ first_of (rules (plain_history history.now) (exchange_begin 0 tag))) }
{
    Ok(first_of(&[
        no_module(history, tag),
        in_exchange(history, tag),
        active_step(alloc, history, tag)?,
        not_at_rest(history, tag),
    ]))
}

fn end_rule(
    history: &Past<'_, '_>,
    tag: Name,
    ticket: u32,
    description: &Description,
) -> Option<Rule>
    ensures { result ≡ first_of
        (rules (plain_history history.now) (exchange_end 0 tag ticket (plain_description description.now))) }
{
    first_of(&[
        no_module(history, tag),
        not_in_exchange(history, tag),
        wrong_ticket(history, tag, ticket),
        held_back(history, tag, description),
    ])
}

fn cancel_rule(history: &Past<'_, '_>, tag: Name, ticket: u32) -> Option<Rule>
    ensures { result ≡ first_of (rules (plain_history history.now) (exchange_cancel 0 tag ticket)) }
{
    first_of(&[
        no_module(history, tag),
        not_in_exchange(history, tag),
        wrong_ticket(history, tag, ticket),
    ])
}

// The first rule that refuses the event, where the history has room.
fn event_rule(
    alloc: Global,
    history: &Past<'_, '_>,
    event: &Event,
) -> Result<Option<Rule>, AllocError>
    ensures { IfOk result (λ rule. rule ≡ first_of (rules (plain_history history.now) (plain_event event.now))) }
{
    match event {
        Event::Recipe { recipe, .. } => Ok(recipe_rule(history, *recipe)),
        Event::Start {
            batch,
            recipe,
            bind,
            watch,
            ..
        } => {
            let binds = Allocation {
                held: bind,
                watched: watch,
            };
            start_rule(alloc, history, *batch, *recipe, binds)
        }
        Event::Advance { batch, .. }
        | Event::StopBatch { batch, .. }
        | Event::Abandon { batch, .. } => Ok(open_rule(history, *batch)),
        Event::Freeze { batch, hold, .. } => Ok(freeze_rule(history, *batch, *hold)),
        Event::Thaw { batch, .. } => Ok(thaw_rule(history, *batch)),
        Event::Plug { tag, .. } => Ok(plug_rule(history, *tag)),
        Event::Unplug { tag, .. } => Ok(unplug_rule(history, *tag)),
        Event::Report {
            tag,
            service,
            control,
            ..
        } => Ok(report_rule(history, *tag, *service, control)),
        Event::Variable {
            tag,
            name,
            value,
            ..
        } => Ok(variable_rule(history, *tag, *name, value)),
        Event::Desk {
            tag,
            service,
            command,
            ..
        } => Ok(desk_rule(history, *tag, *service, *command)),
        Event::ExchangeBegin { tag, .. } => begin_rule(alloc, history, *tag),
        Event::ExchangeEnd {
            tag,
            ticket,
            desc,
            ..
        } => Ok(end_rule(history, *tag, *ticket, desc)),
        Event::ExchangeCancel { tag, ticket, .. } => Ok(cancel_rule(history, *tag, *ticket)),
    }
}

// The next entry of a batch, as the answer to its advance.
fn advanced(next: Option<Next>) -> Answer
    ensures { result ≡ advanced next }
{
    match next {
        None => Answer::Done,
        Some(Next::Did(entry)) => Answer::Did(entry),
        Some(Next::Waiting(why)) => Answer::Waiting(why),
        Some(Next::Closed(outcome)) => Answer::Closed(outcome),
    }
}

// The answer to a stop: StopAsked goes into the log, unless the batch is being stopped already.
fn stopped(history: &Past<'_, '_>, batch: Name) -> Answer
    ensures { result ≡ stopped (past_of_batch batch (plain_history history.now)) }
{
    let log = history.log(batch);
    if log.has_broken() || log.was_stopped() {
        Answer::Done
    } else {
        Answer::Did(LogEntry::StopAsked)
    }
}

// The answer to an event that no rule refuses.
fn otherwise(alloc: Global, history: &Past<'_, '_>, event: &Event) -> Result<Answer, AllocError>
    requires { length history.now ≤ LONGEST_HISTORY }
    ensures { IfOk result (λ answer. answer ≡ otherwise (plain_history history.now) (plain_event event.now)) }
{
    match event {
        Event::Advance { batch, .. } => Ok(advanced(next_of(alloc, history, *batch)?)),
        Event::StopBatch { batch, .. } => Ok(stopped(history, *batch)),
        Event::Abandon { .. } => Ok(Answer::Closed(Outcome::Abandoned)),
        Event::Desk {
            tag,
            service,
            command,
            ..
        } => Ok(Answer::Did(LogEntry::Asked {
            tag: *tag,
            service: *service,
            command: *command,
        })),
        Event::ExchangeBegin { tag, .. } => Ok(Answer::Ticket(next_ticket(history, *tag))),
        _ => Ok(Answer::Done),
    }
}

// The answer to an event after the entries of an indexed history.
fn answered(alloc: Global, history: &Past<'_, '_>, event: &Event) -> Result<Answer, AllocError>
    ensures { IfOk result (λ answer. answer
        ≡ answer_of (plain_history history.now) (plain_event event.now)) }
{
    if history.len() >= LONGEST_HISTORY {
        return Ok(Answer::Refused(Rule::HistoryFull));
    }
    match event_rule(alloc, history, event)? {
        Some(rule) => Ok(Answer::Refused(rule)),
        None => otherwise(alloc, history, event),
    }
}

/// The answer to an event after these entries, of which this is the index.
pub fn answered_by<'a>(
    alloc: Global,
    entries: &'a [Entry],
    places: &Places<'a>,
    event: &Event,
) -> Result<Answer, AllocError>
    requires { IsPlaced places.now (plain_history entries.now) }
    ensures { IfOk result (λ answer. answer
        ≡ answer_of (plain_history entries.now) (plain_event event.now)) }
{
    let past = Past { entries, places };
    answered(alloc, &past, event)
}

/// The answer to an event after a history, the oldest entry first: the one that `pol_history` defines. It is a refusal
/// with HistoryFull where the history has 200,000 entries; else with the first rule that holds, of those that the
/// event's kind has, in their order; and where none holds, the answer that the kind is given otherwise.
///
/// The charts of the history are valid, and each start holds at most 64 modules and watches at most 64, both in byte
/// order of the roles, each role once, as that of every line does.
///
/// # Errors
///
/// AllocError where there is no memory: for the index of the history, for the steps or the marks of a batch's chart, or
/// for the roles of a start.
pub fn says(alloc: Global, history: &[Entry], event: &Event) -> Result<Answer, AllocError>
    requires { IsOrderly (plain_history history.now) }
    ensures { IfOk result (λ answer. answer ≡ answer_of (plain_history history.now) (plain_event event.now)) }
{
    let places = placed(alloc, history)?;
    answered_by(alloc, history, &places, event)
}
