//! Recipes that are made known.
ghost use Rattle.std.specs.Prelude.{◌≡◌, ℕ, ◌+◌, ◌++◌, ◌∷◌, [], List, length, Some, None, IfOk, OnOk, OnErr, true, if◌then◌else◌};
ghost use Rattle.std.specs.Prelude.{is_some, slice_get};
ghost use Rattle.std.specs.Map.{keys_of, lookup};
ghost use Rattle.std.specs.Str.{bytes_eq};
ghost use Rattle.chart_core.specs.Charts.{plain_chart};
ghost use Rattle.pol_events.specs.Events.{recipe};
ghost use Rattle.pol_events.specs.Orderly.{is_valid};
ghost use Rattle.pol_history.specs.Batches.{chart_named};
ghost use Rattle.pol_history.specs.Looking.{History, recipes};
ghost use Rattle.pol_core.specs.Recipes.{RecipeAnswers, RecipesMirror, names_in};

use chart_core::Chart;
use indexmap::IndexMap;
use mtp_codes::{MOST_RECIPES, Name};
use pol_events::{Answer, Rule};
use std::alloc::AllocError;
use std::sync::Arc;

// Keeps the chart of a new name.
fn keep(
    recipes: &mut IndexMap<Name, Arc<Chart>>,
    name: Name,
    chart: Arc<Chart>,
) -> Result<(), AllocError>
    requires { lookup (bytes_eq name) recipes.old.entries ≡ None }
    ensures looks { OnOk result ((other : List ℕ) → lookup (bytes_eq other) recipes.new.entries
        ≡ (if bytes_eq name other then Some chart else lookup (bytes_eq other) recipes.old.entries)) }
    ensures count { OnOk result (length recipes.new.entries ≡ length recipes.old.entries + 1) }
    ensures order { OnOk result (keys_of recipes.new.entries ≡ keys_of recipes.old.entries ++ name ∷ []) }
    ensures unchanged { OnErr result (recipes.new.entries ≡ recipes.old.entries) }
{
    match recipes.insert(name, chart) {
        Ok(_) => Ok(()),
        Err(_) => Err(AllocError),
    }
}

/// A recipe is made known. AllocError where there is no memory; then the recipes are as they were.
pub fn recipe(
    recipes: &mut IndexMap<Name, Arc<Chart>>,
    name: Name,
    chart: &Arc<Chart>,
) -> Result<Answer, AllocError>
    requires { is_valid (plain_chart chart.now.value) ≡ true }
    ensures answered { IfOk result (λ answer. RecipeAnswers (λ at. recipe at name (plain_chart chart.now.value))
        recipes.old.entries answer recipes.new.entries) }
    ensures unchanged { OnErr result (recipes.new.entries ≡ recipes.old.entries) }
{
    if recipes.contains_key(&name) {
        return Ok(Answer::Refused(Rule::RecipeKnown));
    }
    if recipes.len() >= MOST_RECIPES {
        return Ok(Answer::Refused(Rule::RecipesFull));
    }
    let chart = chart.clone()?;
    keep(recipes, name, chart)?;
    Ok(Answer::Done)
}

/// Whether a recipe of this name is known.
pub fn knows_recipe(known: &IndexMap<Name, Arc<Chart>>, name: Name) -> bool
    ensures { (history : History) → RecipesMirror known.now.entries history
        → result ≡ is_some (chart_named name (recipes history)) }
{
    known.contains_key(&name)
}

/// How many recipes are known.
pub fn recipe_count(known: &IndexMap<Name, Arc<Chart>>) -> usize
    ensures { (history : History) → RecipesMirror known.now.entries history → result ≡ length (recipes history) }
{
    known.len()
}

/// The name of the recipe at this place, from 0, in the order in which they were made known.
pub fn recipe_at(known: &IndexMap<Name, Arc<Chart>>, place: u32) -> Option<Name>
    ensures { (history : History) → RecipesMirror known.now.entries history
        → result ≡ slice_get (names_in (recipes history)) place }
{
    let (name, _) = known.get_index(place as usize)?;
    Some(*name)
}
