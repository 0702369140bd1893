//! Writing the lines of events that name a batch.
ghost use Rattle.std.specs.Prelude.{◌≡◌, ◌&&◌, codes, IfOk, IsTrue, true};
ghost use Rattle.serde_json.specs.Data.{member, no_members};
ghost use Rattle.serde_json.specs.View.{view};
ghost use Rattle.mtp_codes.specs.Names.{is_name};
ghost use Rattle.pol_events.specs.Events.{start};
ghost use Rattle.pol_events.specs.Orderly.{rise};
ghost use Rattle.pol_events.specs.Bound.{plain_allocation};
ghost use Rattle.event_json.specs.Ranges.{is_in_range, is_stamped};
ghost use Rattle.event_json.specs.Written.{start_with, written_batch, written_freeze, written_start};

use crate::written_binds::write_binds;
use mtp_codes::Name;
use pol_events::Allocation;
use serde_json::{Value, json};
use std::alloc::{AllocError, Global};

#[tactic(auto, unfolding(crate::specs::Written::start_with))]
fn start_object(
    alloc: Global,
    at: u64,
    batch: Name,
    recipe: Name,
    bind: Value,
) -> Result<Value, AllocError>
    ensures value { IfOk result (λ value. view value ≡ start_with at batch recipe (view bind) no_members) }
    ensures held { is_stamped at batch && is_name recipe ≡ true }
{
    let batch = batch.as_str();
    let recipe = recipe.as_str();
    json!(in alloc; {"at": at, "batch": batch, "bind": bind, "ev": "start", "recipe": recipe})
}

#[tactic(auto, unfolding(crate::specs::Written::start_with))]
fn watching_object(
    alloc: Global,
    at: u64,
    batch: Name,
    recipe: Name,
    bind: Value,
    watch: Value,
) -> Result<Value, AllocError>
    ensures value { IfOk result (λ value. view value
        ≡ start_with at batch recipe (view bind) (member (codes "watch") (view watch) no_members)) }
    ensures held { is_stamped at batch && is_name recipe ≡ true }
{
    let batch = batch.as_str();
    let recipe = recipe.as_str();
    json!(in alloc; {"at": at, "batch": batch, "bind": bind, "ev": "start", "recipe": recipe, "watch": watch})
}

/// A start with every key of its form; `watch` is there only where something is watched.
pub fn write_start(
    alloc: Global,
    at: u64,
    batch: Name,
    recipe: Name,
    binds: Allocation<'_>,
) -> Result<Value, AllocError>
    requires held { IsTrue (rise binds.held.now) }
    requires watched { IsTrue (rise binds.watched.now) }
    ensures value { IfOk result (λ value. view value ≡ written_start at batch recipe (plain_allocation binds.entry)) }
    ensures held { IfOk result (λ _. is_in_range (start at batch recipe (plain_allocation binds.entry)) ≡ true) }
{
    let bind = write_binds(alloc, binds.held)?;
    if binds.watched.is_empty() {
        return start_object(alloc, at, batch, recipe, bind);
    }
    let watch = write_binds(alloc, binds.watched)?;
    watching_object(alloc, at, batch, recipe, bind, watch)
}

/// A freeze with every key of its form.
#[tactic(auto, unfolding(crate::specs::Written::written_freeze))]
pub fn write_freeze(alloc: Global, at: u64, batch: Name, hold: bool) -> Result<Value, AllocError>
    ensures value { IfOk result (λ value. view value ≡ written_freeze at batch hold) }
    ensures held { is_stamped at batch ≡ true }
{
    let batch = batch.as_str();
    json!(in alloc; {"at": at, "batch": batch, "ev": "freeze", "hold": hold})
}

/// An event, by its word, that names a batch and nothing more.
#[tactic(auto, unfolding(crate::specs::Written::written_batch))]
pub fn write_of_batch(alloc: Global, word: &str, at: u64, batch: Name) -> Result<Value, AllocError>
    ensures value { IfOk result (λ value. view value ≡ written_batch word.now at batch) }
    ensures held { is_stamped at batch ≡ true }
{
    let batch = batch.as_str();
    json!(in alloc; {"at": at, "batch": batch, "ev": word})
}
