//! The rules that are decided by recipes, by a batch's past and by the holders of modules.
ghost use Rattle.std.specs.Prelude.{◌≡◌, IfOk, Some, map, option_and_then};
ghost use Rattle.std.specs.Option.{option_map};
ghost use Rattle.mtp_codes.specs.Faults.{first_of};
ghost use Rattle.mtp_desc.specs.PlainDescription.{plain_description};
ghost use Rattle.pol_events.specs.Events.{plain_history};
ghost use Rattle.pol_events.specs.Bound.{bound_tag, given, is_tag, plain_allocation, step_on};
ghost use Rattle.pol_events.specs.declared.answer.Rule.TheVariants.{Watched};
ghost use Rattle.pol_history.specs.Looking.{past_of_batch, recipes};
ghost use Rattle.pol_history.specs.Batches.{holder_of, start_by};
ghost use Rattle.pol_history.specs.Rules.{active_step, active_step_on, already_frozen, batch_closed, batch_known};
ghost use Rattle.pol_history.specs.Rules.{batches_full, held_back, no_batch, not_frozen, recipe_known, recipes_full};
ghost use Rattle.pol_history.specs.Rules.{uncovered_by, uncovered_in, watched};
ghost use Rattle.pol_audit.specs.Starts.{active_seen, watchers_in};

use crate::batches::{
    chart_named, holder_of, outcome_of, recipe_count, start_count, start_of, watcher_by,
};
use crate::following::{chart_steps, is_active_step};
use crate::freezes::{is_frozen, is_holding};
use crate::log::Log;
use crate::past::Past;
use chart_core::Step;
use mtp_codes::{MOST_BATCHES, MOST_RECIPES, Name};
use mtp_desc::Description;
use pol_bind::held_back_by;
use pol_events::{Allocation, Entry, Rule};
use std::alloc::{AllocError, Global};

/// A recipe of this name is known.
pub fn recipe_known(history: &Past<'_, '_>, name: Name) -> Option<Rule>
    ensures { result ≡ recipe_known name (recipes (plain_history history.now)) }
{
    match chart_named(history, name) {
        Some(_) => Some(Rule::RecipeKnown),
        None => None,
    }
}

/// 64 recipes are known.
pub fn recipes_full(history: &Past<'_, '_>) -> Option<Rule>
    ensures { result ≡ recipes_full (recipes (plain_history history.now)) }
{
    if recipe_count(history) >= MOST_RECIPES {
        Some(Rule::RecipesFull)
    } else {
        None
    }
}

/// The batch was started.
pub fn batch_known(history: &Past<'_, '_>, batch: Name) -> Option<Rule>
    ensures { result ≡ batch_known (start_by (past_of_batch batch (plain_history history.now))) }
{
    match start_of(history, batch) {
        Some(_) => Some(Rule::BatchKnown),
        None => None,
    }
}

/// The batch wasn't started.
pub fn no_batch(history: &Past<'_, '_>, batch: Name) -> Option<Rule>
    ensures { result ≡ no_batch (start_by (past_of_batch batch (plain_history history.now))) }
{
    match start_of(history, batch) {
        Some(_) => None,
        None => Some(Rule::NoBatch),
    }
}

/// The batch is closed.
pub fn batch_closed(history: &Past<'_, '_>, batch: Name) -> Option<Rule>
    ensures { result ≡ batch_closed (past_of_batch batch (plain_history history.now)) }
{
    match outcome_of(history, batch) {
        Some(_) => Some(Rule::BatchClosed),
        None => None,
    }
}

/// The batch is frozen, and either the freeze doesn't hold the services or they are held already.
pub fn already_frozen(history: &Past<'_, '_>, batch: Name, hold: bool) -> Option<Rule>
    ensures { result ≡ already_frozen hold (past_of_batch batch (plain_history history.now)) }
{
    if is_frozen(history, batch) && (!hold || is_holding(history, batch)) {
        Some(Rule::AlreadyFrozen)
    } else {
        None
    }
}

/// The batch isn't frozen.
pub fn not_frozen(history: &Past<'_, '_>, batch: Name) -> Option<Rule>
    ensures { result ≡ not_frozen (past_of_batch batch (plain_history history.now)) }
{
    if is_frozen(history, batch) {
        None
    } else {
        Some(Rule::NotFrozen)
    }
}

/// 128 batches were started.
pub fn batches_full(history: &Past<'_, '_>) -> Option<Rule>
    ensures { result ≡ batches_full (plain_history history.now) }
{
    if start_count(history) >= MOST_BATCHES {
        Some(Rule::BatchesFull)
    } else {
        None
    }
}

fn is_on(binds: Allocation<'_>, role: Name, tag: Name) -> bool
    ensures { result ≡ is_tag tag (bound_tag (given (plain_allocation binds.entry)) role) }
{
    match binds.tag_of(role) {
        Some(other) => other == tag,
        None => false,
    }
}

// The name of the first active step whose role has the tag.
fn step_on(binds: Allocation<'_>, tag: Name, steps: &[&Step], log: &Log<'_>) -> Option<Name>
    ensures { result ≡ option_map (λ step. step.name)
        (step_on (given (plain_allocation binds.entry)) tag (active_seen log.now.whole.now steps.now)) }
{
    for step in steps {
        if !is_active_step(step, log) {
            continue;
        }
        if is_on(binds, step.role, tag) {
            return Some(step.name);
        }
    }
    None
}

// The batch has an active step on the module.
fn active_step_of(
    alloc: Global,
    history: &Past<'_, '_>,
    tag: Name,
    batch: Name,
) -> Result<Option<Rule>, AllocError>
    ensures { IfOk result (λ rule. rule ≡ active_step_on (recipes (plain_history history.now)) tag batch
        (past_of_batch batch (plain_history history.now))) }
{
    let Some(start) = start_of(history, batch) else {
        return Ok(None);
    };
    let Some(chart) = chart_named(history, start.recipe) else {
        return Ok(None);
    };
    let log = history.log(batch);
    let steps = chart_steps(alloc, chart)?;
    match step_on(start.binds, tag, &steps, &log) {
        Some(step) => Ok(Some(Rule::ActiveStep { batch, step })),
        None => Ok(None),
    }
}

/// The batch that holds the module has an active step on it.
pub fn active_step(
    alloc: Global,
    history: &Past<'_, '_>,
    tag: Name,
) -> Result<Option<Rule>, AllocError>
    ensures { IfOk result (λ rule. rule ≡ active_step (plain_history history.now) tag) }
{
    match holder_of(history, tag) {
        Some(batch) => active_step_of(alloc, history, tag, batch),
        None => Ok(None),
    }
}

// What of the batch's chart the new module doesn't cover.
fn uncovered_by(
    history: &Past<'_, '_>,
    tag: Name,
    description: &Description,
    batch: Name,
) -> Option<Rule>
    ensures { result ≡ uncovered_by (recipes (plain_history history.now)) tag (plain_description description.now) batch
        (past_of_batch batch (plain_history history.now)) }
{
    let Some(start) = start_of(history, batch) else {
        return None;
    };
    let Some(chart) = chart_named(history, start.recipe) else {
        return None;
    };
    let Some(role) = start.binds.role_of(tag) else {
        return None;
    };
    match held_back_by(chart, role, description) {
        Some(missing) => Some(Rule::HeldBack { batch, missing }),
        None => None,
    }
}

// The first of the batches that watch the module, as a rule.
fn first_watcher(history: &Past<'_, '_>, starts: &[&Entry], tag: Name) -> Option<Rule>
    ensures { result ≡ first_of (map (λ batch. Some (Watched batch))
        (watchers_in (plain_history history.now) tag starts.now)) }
{
    for entry in starts {
        if let Some(batch) = watcher_by(history, entry, tag) {
            return Some(Rule::Watched { batch });
        }
    }
    None
}

/// The module is watched.
pub fn watched(history: &Past<'_, '_>, tag: Name) -> Option<Rule>
    ensures { result ≡ watched (plain_history history.now) tag }
{
    first_watcher(history, history.starts(), tag)
}

// The new module doesn't cover its role in the batch that holds the tag.
fn held_back_by_holder(history: &Past<'_, '_>, tag: Name, description: &Description) -> Option<Rule>
    ensures { result ≡ option_and_then
        (uncovered_in (plain_history history.now) tag (plain_description description.now))
        (holder_of (plain_history history.now) tag) }
{
    let batch = holder_of(history, tag)?;
    uncovered_by(history, tag, description, batch)
}

// The new module doesn't cover its role in a batch that watches the tag; the first such batch.
fn held_back_by_watcher(
    history: &Past<'_, '_>,
    starts: &[&Entry],
    tag: Name,
    description: &Description,
) -> Option<Rule>
    ensures { result ≡ first_of (map (uncovered_in (plain_history history.now) tag (plain_description description.now))
        (watchers_in (plain_history history.now) tag starts.now)) }
{
    for entry in starts {
        if let Some(batch) = watcher_by(history, entry, tag) {
            if let Some(rule) = uncovered_by(history, tag, description, batch) {
                return Some(rule);
            }
        }
    }
    None
}

/// The new module doesn't cover its role in the batch that holds the tag, or else in one that watches it.
pub fn held_back(history: &Past<'_, '_>, tag: Name, description: &Description) -> Option<Rule>
    ensures { result ≡ held_back (plain_history history.now) tag (plain_description description.now) }
{
    match held_back_by_holder(history, tag, description) {
        Some(rule) => Some(rule),
        None => held_back_by_watcher(history, history.starts(), tag, description),
    }
}
