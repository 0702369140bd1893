//! Whether an entry of a history is an accepted recipe.
ghost use Rattle.std.specs.Prelude.{◌≡◌};
ghost use Rattle.pol_events.specs.Events.{plain_entry};
ghost use Rattle.pol_history.specs.Looking.{is_accepted_recipe};

use pol_events::{Entry, Subject};

/// Whether the entry is an accepted recipe.
pub fn is_of_recipe(entry: &Entry) -> bool
    ensures { result ≡ is_accepted_recipe (plain_entry entry.now) }
{
    matches!(entry.event.subject(), Subject::Recipe(_)) && entry.answer.is_accepted()
}
