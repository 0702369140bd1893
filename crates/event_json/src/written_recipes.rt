//! Writing the lines of recipes.
ghost use Rattle.std.specs.Prelude.{◌≡◌, IfOk, true};
ghost use Rattle.serde_json.specs.View.{view};
ghost use Rattle.chart_core.specs.Charts.{plain_chart};
ghost use Rattle.chart_json.specs.Written.{written_roles, written_tree};
ghost use Rattle.pol_events.specs.Events.{recipe};
ghost use Rattle.event_json.specs.Ranges.{is_in_range, is_stamped};
ghost use Rattle.event_json.specs.Written.{written_recipe};

use chart_core::Chart;
use chart_json::write_chart;
use mtp_codes::Name;
use serde_json::{Value, json};
use std::alloc::{AllocError, Global};

#[tactic(auto, unfolding(crate::specs::Written::written_recipe))]
fn recipe_object(
    alloc: Global,
    at: u64,
    name: Name,
    roles: Value,
    root: Value,
) -> Result<Value, AllocError>
    ensures value { IfOk result (λ value. view value ≡ written_recipe at name (view roles) (view root)) }
    ensures held { is_stamped at name ≡ true }
{
    let name = name.as_str();
    json!(in alloc; {"at": at, "chart": root, "ev": "recipe", "recipe": name, "roles": roles})
}

/// A recipe with every key of its form.
pub fn write_recipe(alloc: Global, at: u64, name: Name, chart: &Chart) -> Result<Value, AllocError>
    ensures value { IfOk result (λ value. view value
        ≡ written_recipe at name (written_roles (plain_chart chart.now).roles)
        (written_tree (plain_chart chart.now).root)) }
    ensures held { IfOk result (λ _. is_in_range (recipe at name (plain_chart chart.now)) ≡ true) }
{
    let (roles, root) = write_chart(alloc, chart)?;
    recipe_object(alloc, at, name, roles, root)
}
