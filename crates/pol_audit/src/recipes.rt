//! The accepted recipes of a history. Each event of a history is as a line says it, so their charts are valid.
ghost use Rattle.std.specs.Prelude.{◌≡◌, ◌∷◌, ◌++◌, [], IfSome, OnOk, true, length, if◌then◌else◌};
ghost use Rattle.std.specs.Option.{option_map};
ghost use Rattle.chart_core.specs.Charts.{plain_chart};
ghost use Rattle.chart_core.specs.Valid.{IsValid};
ghost use Rattle.pol_events.specs.Events.{plain_entry, plain_event};
ghost use Rattle.pol_events.specs.Orderly.{is_orderly};
ghost use Rattle.pol_history.specs.Batches.{charted, chart_named};
ghost use Rattle.pol_history.specs.Looking.{is_accepted_recipe};
ghost use Rattle.pol_audit.specs.Listed.{all_orderly, listed};

use crate::entries::is_of_recipe;
use chart_core::Chart;
use mtp_codes::Name;
use pol_events::{Entry, Event};
use std::alloc::{AllocError, Global};
use std::sync::Arc;

fn charted(event: &Event, name: Name) -> Option<&Arc<Chart>>
    ensures { option_map (λ chart. plain_chart chart.now.value) result ≡ charted name (plain_event event.now) }
{
    match event {
        Event::Recipe { recipe, chart, .. } if *recipe == name => Some(chart),
        _ => None,
    }
}

/// The entries that are accepted recipes.
#[derive(Drop)]
pub struct Recipes<'a> {
    pub entries: Vec<&'a Entry>,
    ghost orderly: { all_orderly (listed entries.items) ≡ true },
}

impl<'a> Recipes<'a> {
    /// No recipe yet.
    pub fn new(alloc: Global) -> Recipes<'a>
        ensures { result.entries.items ≡ [] }
    {
        Recipes {
            entries: Vec::new(alloc),
        }
    }

    /// Takes one more entry of the history, where it is an accepted recipe.
    pub fn add(&mut self, entry: &'a Entry) -> Result<(), AllocError>
        requires { is_orderly (plain_event entry.now.event) ≡ true }
        ensures { OnOk result (self.new.entries.items ≡ self.old.entries.items
            ++ (if is_accepted_recipe (plain_entry entry.now) then entry.entry ∷ [] else [])) }
    {
        if is_of_recipe(entry) {
            self.entries.push(entry)?;
        }
        Ok(())
    }

    /// How many recipes there are.
    pub fn len(&self) -> usize
        ensures { result ≡ length self.now.entries.items }
    {
        self.entries.len()
    }

    /// The chart of the newest recipe of this name.
    pub fn chart(&self, name: Name) -> Option<&Arc<Chart>>
        ensures chart { option_map (λ chart. plain_chart chart.now.value) result
            ≡ chart_named name (listed self.now.entries.items) }
        ensures valid { IfSome result (λ chart. IsValid (plain_chart chart.now.value)) }
    {
        self.entries
            .iter()
            .rev()
            .find_map(|entry| charted(&entry.event, name))
    }
}
