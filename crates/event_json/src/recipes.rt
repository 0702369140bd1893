//! The lines of recipes.
ghost use Rattle.serde_json.specs.View.{view};
ghost use Rattle.mtp_json.specs.ReadsAs.{ReadsAs};
ghost use Rattle.pol_events.specs.Events.{plain_event};
ghost use Rattle.event_json.specs.Forms.{recipe_in};

use chart_json::{make_chart, node_at, roles_at};
use mtp_json::{JsonRefusal, name_at, nothing_but, u64_at};
use pol_events::Event;
use serde_json::Value;
use std::alloc::Global;
use std::sync::Arc;

/// A recipe by its form.
#[tactic(auto, unfolding(crate::specs::Forms::recipe_in))]
pub fn read_recipe(alloc: Global, value: &Value) -> Result<Event, JsonRefusal>
    ensures { ReadsAs plain_event result (recipe_in (view value.now)) }
{
    let at = u64_at(alloc, value, "at")?;
    let recipe = name_at(alloc, value, "recipe")?;
    let roles = roles_at(alloc, value)?;
    let root = node_at(alloc, value)?;
    nothing_but(alloc, value, "ev at recipe roles chart")?;
    let chart = make_chart(alloc, roles, root)?;
    let chart = Arc::new(alloc, chart)?;
    Ok(Event::Recipe { at, recipe, chart })
}
