//! The bindings of all recipes of a plant in one line.
ghost use Rattle.std.specs.Prelude.{◌≡◌, ◌++◌, ◌≤◌, codes, filter_map, length, map, OnOk};
ghost use Rattle.mtp_codes.specs.declared.limits.TheConstants.{MOST_MODULES};
ghost use Rattle.pol_events.specs.Events.{plain_entry};
ghost use Rattle.pol_core.specs.Plants.{plant_history};
ghost use Rattle.pol_match.specs.Bindings.{AreInOrder};
ghost use Rattle.pol_match.specs.Candidates.{plain_candidates};
ghost use Rattle.pol_record.specs.Objects.{data_tokens};
ghost use Rattle.pol_record.specs.Texts.{line_text, under_key};
ghost use Rattle.pol_find.specs.Bindings.{bindings_text};
ghost use Rattle.pol_find.specs.Offers.{offers_of};
ghost use Rattle.pol_find.specs.Recipes.{made_known};

use crate::candidates::{Pool, candidates};
use crate::offers::write_offer;
use crate::recipes::made_known;
use json::Writer;
use pol_core::Plant;
use pol_events::Entry;
use pol_match::Candidate;
use pol_record::ended_line;
use std::alloc::{AllocError, Global};
use std::mem;

// Writes what each recipe that these entries make known is offered, as a list.
fn write_each(
    alloc: Global,
    writer: &mut Writer,
    entries: &[Entry],
    candidates: &[Candidate],
) -> Result<(), AllocError>
    requires few { length candidates.now ≤ MOST_MODULES }
    requires order { AreInOrder (plain_candidates candidates.now) }
    ensures tokens { OnOk result (writer.new.tokens ≡ writer.old.tokens ++ data_tokens (offers_of
        (plain_candidates candidates.now) (filter_map made_known (map plain_entry entries.now)))) }
    ensures before { writer.new.before ≡ writer.old.before }
{
    writer.begin_array()?;
    for entry in entries {
        if let Some(recipe) = made_known(entry) {
            write_offer(alloc, writer, &recipe, candidates)?;
        }
    }
    writer.end_array()
}

// Writes the object of the bindings.
#[tactic(auto, using(crate::proofs::Tokens::bindings_tokens))]
fn write_bindings(
    alloc: Global,
    writer: &mut Writer,
    entries: &[Entry],
    candidates: &[Candidate],
) -> Result<(), AllocError>
    requires few { length candidates.now ≤ MOST_MODULES }
    requires order { AreInOrder (plain_candidates candidates.now) }
    ensures tokens { OnOk result (writer.new.tokens ≡ writer.old.tokens ++ data_tokens (under_key (codes "bindings")
        (offers_of (plain_candidates candidates.now) (filter_map made_known (map plain_entry entries.now))))) }
    ensures before { writer.new.before ≡ writer.old.before }
{
    writer.begin_object()?;
    writer.key("bindings")?;
    write_each(alloc, writer, entries, candidates)?;
    writer.end_object()
}

// Puts the line of the bindings of these entries' recipes behind what a buffer holds.
#[tactic(auto, using(pol_record::proofs::Tokens::line_of_tokens))]
fn put_line(
    alloc: Global,
    out: &mut Vec<u8>,
    entries: &[Entry],
    candidates: &[Candidate],
) -> Result<(), AllocError>
    requires few { length candidates.now ≤ MOST_MODULES }
    requires order { AreInOrder (plain_candidates candidates.now) }
    ensures { OnOk result (out.new.items ≡ out.old.items ++ line_text (under_key (codes "bindings")
        (offers_of (plain_candidates candidates.now) (filter_map made_known (map plain_entry entries.now))))) }
{
    let mut writer = Writer::new(mem::replace(out, Vec::new(alloc)));
    write_bindings(alloc, &mut writer, entries, candidates)?;
    *out = ended_line(writer)?;
    Ok(())
}

/// Puts the line of the bindings behind what a buffer holds: of each recipe of the plant, in the order in which they
/// were made known, which modules a new batch could hold now and which it could watch, or that there are too few. A
/// role without a step is watched, by any module that is docked. The line is a function of the plant's history.
///
/// # Errors
///
/// AllocError where there is no memory for the line, or for what the finder needs; what the buffer held is lost then.
pub fn put_bindings_line(alloc: Global, out: &mut Vec<u8>, plant: &Plant) -> Result<(), AllocError>
    ensures { OnOk result (out.new.items ≡ out.old.items ++ bindings_text (plant_history plant.now)) }
{
    let history = plant.history();
    let candidates = candidates(alloc, plant, Pool::Docked)?;
    put_line(alloc, out, history, &candidates)
}
