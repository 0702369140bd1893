//! The recipes that a history makes known.
ghost use Rattle.std.specs.Prelude.{◌≡◌};
ghost use Rattle.std.specs.Option.{option_map};
ghost use Rattle.pol_events.specs.Events.{plain_entry};
ghost use Rattle.pol_find.specs.Recipes.{made_known, plain_recipe};

use chart_core::Chart;
use mtp_codes::Name;
use pol_events::{Entry, Event};

/// A recipe.
#[derive(Clone, Copy)]
pub(crate) struct Recipe<'a> {
    /// Its name.
    pub(crate) name: Name,
    /// Its chart.
    pub(crate) chart: &'a Chart,
}

/// The recipe that an entry makes known; None for a refused one, and for any other event.
pub(crate) fn made_known(entry: &Entry) -> Option<Recipe<'_>>
    ensures { option_map plain_recipe result ≡ made_known (plain_entry entry.now) }
{
    match &entry.event {
        Event::Recipe { recipe, chart, .. } if entry.answer.is_accepted() => Some(Recipe {
            name: *recipe,
            chart,
        }),
        _ => None,
    }
}
