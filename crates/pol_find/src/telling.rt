//! What ends the output: the line of each recipe in their order, and the last line.
ghost use Rattle.std.specs.Prelude.{◌≡◌, ◌≤◌, length, filter_map, map, IfOk, OnOk, OnErr};
ghost use Rattle.mtp_codes.specs.declared.limits.TheConstants.{MOST_MODULES};
ghost use Rattle.pol_io.specs.Causes.{HasCauseOf};
ghost use Rattle.pol_jobs.specs.Written.{Closes, ClosesPart};
ghost use Rattle.pol_events.specs.Events.{plain_entry};
ghost use Rattle.pol_core.specs.Plants.{plant_history};
ghost use Rattle.pol_match.specs.Bindings.{AreInOrder};
ghost use Rattle.pol_match.specs.Candidates.{plain_candidates};
ghost use Rattle.pol_find.specs.Found.{IsFound, Tells, TellsEach};
ghost use Rattle.pol_record.specs.Texts.{line_text};
ghost use Rattle.pol_find.specs.Recipes.{made_known, plain_recipe};
ghost use Rattle.pol_find.specs.Told.{AreToldRightly, told_of};

use crate::candidates::{Pool, candidates};
use crate::lines::bad_line;
use crate::recipes::{Recipe, made_known};
use crate::told::write_told;
use json::Writer;
use pol_core::Plant;
use pol_events::Entry;
use pol_io::Sink;
use pol_jobs::{PutFault, put};
use pol_match::Candidate;
use pol_record::ended_line;
use std::alloc::{AllocError, Global};

// The line of what is written of a recipe.
#[tactic(auto, using(pol_record::proofs::Tokens::line_of_tokens))]
fn recipe_line(
    alloc: Global,
    recipe: &Recipe<'_>,
    candidates: &[Candidate],
) -> Result<Vec<u8>, AllocError>
    requires few { length candidates.now ≤ MOST_MODULES }
    requires order { AreInOrder (plain_candidates candidates.now) }
    ensures { IfOk result (λ line.
        line.items ≡ line_text (told_of (plain_candidates candidates.now) (plain_recipe recipe.now))) }
{
    let mut writer = Writer::new(Vec::new(alloc));
    write_told(alloc, &mut writer, recipe, candidates)?;
    ended_line(writer)
}

// Writes the line of a recipe.
fn put_recipe<K: Sink>(
    alloc: Global,
    recipe: &Recipe<'_>,
    candidates: &[Candidate],
    sink: &mut K,
) -> Result<(), PutFault>
    requires few { length candidates.now ≤ MOST_MODULES }
    requires order { AreInOrder (plain_candidates candidates.now) }
    ensures text { OnOk result (Closes (Tells (plain_candidates candidates.now) (plain_recipe recipe.now))
        (K.held sink.old) (K.held sink.new)) }
    ensures part { OnErr result (ClosesPart (Tells (plain_candidates candidates.now) (plain_recipe recipe.now))
        (K.held sink.old) (K.held sink.new)) }
    ensures cause { HasCauseOf PutFault.Write (K.faults sink.old) (K.faults sink.new) result }
{
    put(sink, &recipe_line(alloc, recipe, candidates)?)
}

// Writes the line of each recipe that these entries make known.
fn put_recipes<K: Sink>(
    alloc: Global,
    entries: &[Entry],
    candidates: &[Candidate],
    sink: &mut K,
) -> Result<(), PutFault>
    requires few { length candidates.now ≤ MOST_MODULES }
    requires order { AreInOrder (plain_candidates candidates.now) }
    requires right { AreToldRightly (plain_candidates candidates.now)
        (filter_map made_known (map plain_entry entries.now)) }
    ensures text { OnOk result (Closes
        (TellsEach (plain_candidates candidates.now) (filter_map made_known (map plain_entry entries.now)))
        (K.held sink.old) (K.held sink.new)) }
    ensures part { OnErr result (ClosesPart
        (TellsEach (plain_candidates candidates.now) (filter_map made_known (map plain_entry entries.now)))
        (K.held sink.old) (K.held sink.new)) }
    ensures cause { HasCauseOf PutFault.Write (K.faults sink.old) (K.faults sink.new) result }
{
    for entry in entries {
        if let Some(recipe) = made_known(entry) {
            put_recipe(alloc, &recipe, candidates, sink)?;
        }
    }
    Ok(())
}

/// Writes the line of each recipe of the plant, with the modules that could be bound now, and the last line with this
/// number of lines at fault.
pub(crate) fn close<K: Sink>(
    alloc: Global,
    plant: &Plant,
    bad: u64,
    sink: &mut K,
) -> Result<(), PutFault>
    ensures text { OnOk result (Closes (IsFound (plant_history plant.now) bad) (K.held sink.old) (K.held sink.new)) }
    ensures part { OnErr result
        (ClosesPart (IsFound (plant_history plant.now) bad) (K.held sink.old) (K.held sink.new)) }
    ensures cause { HasCauseOf PutFault.Write (K.faults sink.old) (K.faults sink.new) result }
{
    let history = plant.history();
    let candidates = candidates(alloc, plant, Pool::Free)?;
    put_recipes(alloc, history, &candidates, sink)?;
    put(sink, &bad_line(alloc, bad)?)
}
