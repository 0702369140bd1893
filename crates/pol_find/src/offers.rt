//! What a new batch of a recipe is offered: modules to hold, and modules to watch.
ghost use Rattle.std.specs.Prelude.{◌≡◌, ◌++◌, ◌≤◌, length, IfOk, OnOk};
ghost use Rattle.mtp_codes.specs.declared.limits.TheConstants.{MOST_MODULES};
ghost use Rattle.chart_core.specs.Charts.{plain_chart};
ghost use Rattle.chart_core.specs.Order.{plans_seen};
ghost use Rattle.pol_events.specs.BindRules.{has_step};
ghost use Rattle.pol_match.specs.Bindings.{AreInOrder};
ghost use Rattle.pol_match.specs.Candidates.{plain_candidates};
ghost use Rattle.pol_record.specs.Objects.{data_tokens};
ghost use Rattle.pol_find.specs.Lines.{offer_object};
ghost use Rattle.pol_find.specs.Offers.{allocation_of, offer_of, plain_offer};
ghost use Rattle.pol_find.specs.Recipes.{plain_recipe};

use crate::lines::{by_role, write_short, write_watch};
use crate::recipes::Recipe;
use chart_core::{Chart, Step, steps_in_order};
use json::Writer;
use mtp_codes::Name;
use pol_events::Bind;
use pol_match::{Candidate, Found, find_binding};
use pol_record::{write_binds, write_text};
use std::alloc::{AllocError, Global};

// What a start could hold and watch, in byte order of roles.
#[derive(Drop)]
struct Offer {
    held: Vec<Bind>,
    watched: Vec<Bind>,
}

// Whether one of the steps is of the role.
fn has_step(steps: &[&Step], role: Name) -> bool
    ensures { result ≡ has_step (plans_seen steps.now) role }
{
    for step in steps {
        if step.role == role {
            return true;
        }
    }
    false
}

// A binding as a start takes it: modules of roles with a step are held, the others are watched.
fn offered(alloc: Global, chart: &Chart, binds: &[Bind]) -> Result<Offer, AllocError>
    ensures { IfOk result (λ offer. plain_offer offer ≡ allocation_of (plain_chart chart.now) binds.now) }
{
    let steps = steps_in_order(alloc, chart)?;
    let mut held = Vec::new(alloc);
    let mut watched = Vec::new(alloc);
    for bind in binds {
        if has_step(&steps, bind.role) {
            held.push(*bind)?;
        } else {
            watched.push(*bind)?;
        }
    }
    Ok(Offer {
        held: by_role(alloc, held)?,
        watched: by_role(alloc, watched)?,
    })
}

// Writes the object of a recipe that can be started so.
#[tactic(auto, using(crate::proofs::Tokens::offer_tokens))]
fn write_startable(
    writer: &mut Writer,
    recipe: Name,
    held: &[Bind],
    watched: &[Bind],
) -> Result<(), AllocError>
    ensures tokens { OnOk result (writer.new.tokens ≡ writer.old.tokens
        ++ data_tokens (offer_object (record { held = held.now; watched = watched.now }) recipe)) }
    ensures before { writer.new.before ≡ writer.old.before }
{
    writer.begin_object()?;
    writer.key("bind")?;
    write_binds(writer, held)?;
    write_text(writer, "recipe", recipe.as_str())?;
    write_watch(writer, watched)?;
    writer.end_object()
}

/// Writes what a new batch of a recipe is offered of the candidates, or that they are too few.
pub(crate) fn write_offer(
    alloc: Global,
    writer: &mut Writer,
    recipe: &Recipe<'_>,
    candidates: &[Candidate],
) -> Result<(), AllocError>
    requires few { length candidates.now ≤ MOST_MODULES }
    requires order { AreInOrder (plain_candidates candidates.now) }
    ensures tokens { OnOk result (writer.new.tokens
        ≡ writer.old.tokens ++ data_tokens (offer_of (plain_candidates candidates.now) (plain_recipe recipe.now))) }
    ensures before { writer.new.before ≡ writer.old.before }
{
    match find_binding(alloc, recipe.chart, candidates)? {
        Found::Binding(binds) => {
            let offer = offered(alloc, recipe.chart, &binds)?;
            write_startable(writer, recipe.name, &offer.held, &offer.watched)
        }
        Found::Short { roles, tags } => write_short(writer, recipe.name, &roles, &tags),
    }
}
