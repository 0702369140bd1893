//! What a recipe and a start would be answered.
ghost use Rattle.std.specs.Prelude.{◌≡◌, ℕ};
ghost use Rattle.mtp_codes.specs.Faults.{first_of};
ghost use Rattle.chart_core.specs.Roles.{PlainChart};
ghost use Rattle.pol_events.specs.Events.{recipe, start};
ghost use Rattle.pol_history.specs.Answers.{rules};
ghost use Rattle.pol_core.specs.Plants.{plant_history};
ghost use Rattle.pol_core.specs.Seats.{done_or_refused};
ghost use Rattle.pol_foresight.specs.Foreseen.{IsForeseenAt};

use crate::modules::done_unless;
use mtp_codes::{MOST_RECIPES, Name};
use pol_core::Plant;
use pol_events::{Answer, Bind, Rule};

// The rule that a recipe would be refused by.
fn recipe_rule(plant: &Plant, name: Name) -> Option<Rule>
    ensures { (at : ℕ) (chart : PlainChart)
        → result ≡ first_of (rules (plant_history plant.now) (recipe at name chart)) }
{
    if plant.knows_recipe(name) {
        return Some(Rule::RecipeKnown);
    }
    if plant.recipe_count() as usize >= MOST_RECIPES {
        return Some(Rule::RecipesFull);
    }
    None
}

/// A recipe would be made known.
pub fn recipe(plant: &Plant, name: Name) -> Answer
    ensures { (chart : PlainChart) → IsForeseenAt plant.now (λ at. recipe at name chart) result }
{
    done_unless(recipe_rule(plant, name))
}

/// An event that would be done, unless it is refused.
pub fn done_or_refused(refused: Result<(), Rule>) -> Answer
    ensures { result ≡ done_or_refused refused }
{
    match refused {
        Ok(()) => Answer::Done,
        Err(rule) => Answer::Refused(rule),
    }
}

/// A batch would be started.
pub fn start(plant: &Plant, batch: Name, recipe: Name, bind: &[Bind], watch: &[Bind]) -> Answer
    ensures { IsForeseenAt plant.now
        (λ at. start at batch recipe (record { held = bind.now; watched = watch.now })) result }
{
    done_or_refused(plant.would_start(batch, recipe, bind, watch))
}
