//! The limits of a plant that are nearly reached.
ghost use Rattle.std.specs.Prelude.{◌≡◌, ◌++◌, IfOk, OnOk};
ghost use Rattle.pol_core.specs.Plants.{plant_history};
ghost use Rattle.pol_record.specs.Objects.{data_tokens};
ghost use Rattle.pol_overview.specs.Near.{is_near, near_if, near_limits, rules_data};

use event_json::rule_row;
use json::Writer;
use mtp_codes::{LONGEST_HISTORY, MOST_BATCHES, MOST_RECIPES};
use pol_core::Plant;
use pol_events::Rule;
use std::alloc::{AllocError, Global};

// Whether at most a tenth of a limit is left.
fn is_near(count: usize, limit: usize) -> bool
    ensures { result ≡ is_near count limit }
{
    limit - limit / 10 <= count
}

// Puts the rule that refuses at a limit behind others, where that is near.
fn put_if_near(
    rules: &mut Vec<Rule>,
    rule: Rule,
    count: usize,
    limit: usize,
) -> Result<(), AllocError>
    ensures { OnOk result (rules.new.items ≡ rules.old.items ++ near_if rule count limit) }
{
    if is_near(count, limit) {
        rules.push(rule)?;
    }
    Ok(())
}

/// The rules of a plant whose limits are near, so that at most a tenth of each is left: `HistoryFull` of its entries,
/// `BatchesFull` of the batches that were started, and `RecipesFull` of its recipes.
pub fn near_limits(alloc: Global, plant: &Plant) -> Result<Vec<Rule>, AllocError>
    ensures { IfOk result (λ rules. rules.items ≡ near_limits (plant_history plant.now)) }
{
    let mut rules = Vec::new(alloc);
    let entries = plant.history().len();
    put_if_near(&mut rules, Rule::HistoryFull, entries, LONGEST_HISTORY)?;
    put_if_near(
        &mut rules,
        Rule::BatchesFull,
        plant.batch_count(),
        MOST_BATCHES,
    )?;
    put_if_near(
        &mut rules,
        Rule::RecipesFull,
        plant.recipe_count(),
        MOST_RECIPES,
    )?;
    Ok(rules)
}

/// Writes the names of rules.
pub fn write_rules(writer: &mut Writer, rules: &[Rule]) -> Result<(), AllocError>
    ensures tokens { OnOk result (writer.new.tokens ≡ writer.old.tokens ++ data_tokens (rules_data rules.now)) }
    ensures before { writer.new.before ≡ writer.old.before }
{
    writer.begin_array()?;
    for rule in rules {
        writer.string(rule_row(rule).name)?;
    }
    writer.end_array()
}
