//! What an event is answered by the tables, and what it changes in them.
ghost use Rattle.std.specs.Prelude.{◌≡◌, IsTrue, IsOk, IfOk, OnErr, false};
ghost use Rattle.pol_events.specs.Events.{plain_event};
ghost use Rattle.pol_events.specs.Orderly.{is_orderly};
ghost use Rattle.pol_history.specs.Answers.{is_full};
ghost use Rattle.pol_history.specs.Looking.{History};
ghost use Rattle.pol_core.specs.Exchanges.{HaveBegunFew};
ghost use Rattle.pol_core.specs.Mirrors.{Mirrors, Answers};
ghost use Rattle.pol_core.specs.Plants.{is_spared};
ghost use Rattle.pol_core.specs.Recipes.{AreValid};

use crate::batches::{abandon, advance, freeze, stop, thaw};
use crate::exchanges::{exchange_begin, exchange_cancel, exchange_end};
use crate::modules::{desk, plug, report, unplug, variable};
use crate::recipes::recipe;
use crate::starting::start;
use chart_core::Chart;
use indexmap::IndexMap;
use mtp_codes::Name;
use pol_events::{Allocation, Answer, Event};
use pol_runs::Run;
use pol_slots::Slot;
use pol_table::Table;
use std::alloc::{AllocError, Global};
use std::sync::Arc;

/// Answers an event by the tables, and changes them as the event does. AllocError where there is no memory; then what
/// they keep is as it was. What each kind of event costs:
///
/// - Report, Variable, Desk, ExchangeCancel: the tag and the service or variable are found by their hashes.
/// - Plug, Unplug: the tag by its hash; a plug makes a place for each service and variable.
/// - ExchangeBegin, ExchangeEnd: besides, each service of the module, or each step and read of the holder's chart.
/// - Advance: the batch by its hash, at most three walks over its chart, and what is seen at the open nodes.
/// - Freeze, Thaw, StopBatch: the batch by its hash. Abandon, and an advance that closes: each module besides.
/// - Recipe: its name by its hash. Start: one walk over the chart for each role, and the batch's run, which is made.
pub fn answer_event(
    alloc: Global,
    modules: &mut Table<Slot>,
    runs: &mut IndexMap<Name, Run>,
    recipes: &mut IndexMap<Name, Arc<Chart>>,
    event: &Event,
) -> Result<Answer, AllocError>
    requires orderly { IsTrue (is_orderly (plain_event event.now)) }
    requires valid { AreValid recipes.old.entries }
    requires few { HaveBegunFew modules.old }
    ensures answered { IfOk result (λ answer. (history : History)
        → Mirrors modules.old runs.old.entries recipes.old.entries history → is_full history ≡ false
        → Answers history (plain_event event.now) answer modules.new runs.new.entries recipes.new.entries) }
    ensures kept { OnErr result ((history : History) → Mirrors modules.old runs.old.entries recipes.old.entries history
        → Mirrors modules.new runs.new.entries recipes.new.entries history) }
    ensures spared { IsTrue (is_spared (plain_event event.now)) → IsOk result }
{
    match event {
        Event::Plug { tag, desc, .. } => plug(alloc, modules, *tag, desc),
        Event::Unplug { tag, .. } => Ok(unplug(modules, *tag)),
        Event::Report {
            tag,
            service,
            control,
            ..
        } => Ok(report(modules, *tag, *service, *control)),
        Event::Variable {
            tag,
            name,
            value,
            ..
        } => Ok(variable(modules, *tag, *name, value)),
        Event::Recipe {
            recipe: name,
            chart,
            ..
        } => recipe(recipes, *name, chart),
        Event::Start {
            batch,
            recipe: name,
            bind,
            watch,
            ..
        } => {
            let binds = Allocation {
                held: bind,
                watched: watch,
            };
            start(alloc, modules, runs, recipes, *batch, *name, binds)
        }
        Event::Advance { batch, .. } => Ok(advance(modules, runs, *batch)),
        Event::Freeze { batch, hold, .. } => Ok(freeze(runs, *batch, *hold)),
        Event::Thaw { batch, .. } => Ok(thaw(runs, *batch)),
        Event::StopBatch { batch, .. } => Ok(stop(runs, *batch)),
        Event::Abandon { batch, .. } => Ok(abandon(modules, runs, *batch)),
        Event::Desk {
            tag,
            service,
            command,
            ..
        } => Ok(desk(modules, *tag, *service, *command)),
        Event::ExchangeBegin { tag, .. } => Ok(exchange_begin(modules, runs, *tag)),
        Event::ExchangeEnd {
            tag,
            ticket,
            desc,
            ..
        } => exchange_end(modules, runs, *tag, *ticket, desc),
        Event::ExchangeCancel { tag, ticket, .. } => Ok(exchange_cancel(modules, *tag, *ticket)),
    }
}
