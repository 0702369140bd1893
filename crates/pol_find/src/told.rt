//! What is written of a recipe.
ghost use Rattle.std.specs.Prelude.{◌≡◌, ◌++◌, ◌≤◌, length, OnOk};
ghost use Rattle.mtp_codes.specs.declared.limits.TheConstants.{MOST_MODULES};
ghost use Rattle.pol_match.specs.Bindings.{AreInOrder};
ghost use Rattle.pol_match.specs.Candidates.{plain_candidates};
ghost use Rattle.pol_record.specs.Objects.{data_tokens};
ghost use Rattle.pol_find.specs.Recipes.{plain_recipe};
ghost use Rattle.pol_find.specs.Told.{told_of};

use crate::lines::{by_role, write_bound, write_short};
use crate::recipes::Recipe;
use json::Writer;
use pol_match::{Candidate, Found, find_binding};
use std::alloc::{AllocError, Global};

/// Writes how a recipe can be bound to the candidates, or that it can't.
pub(crate) fn write_told(
    alloc: Global,
    writer: &mut Writer,
    recipe: &Recipe<'_>,
    candidates: &[Candidate],
) -> Result<(), AllocError>
    requires few { length candidates.now ≤ MOST_MODULES }
    requires order { AreInOrder (plain_candidates candidates.now) }
    ensures tokens { OnOk result (writer.new.tokens
        ≡ writer.old.tokens ++ data_tokens (told_of (plain_candidates candidates.now) (plain_recipe recipe.now))) }
    ensures before { writer.new.before ≡ writer.old.before }
{
    match find_binding(alloc, recipe.chart, candidates)? {
        Found::Binding(binds) => write_bound(writer, recipe.name, &by_role(alloc, binds)?),
        Found::Short { roles, tags } => write_short(writer, recipe.name, &roles, &tags),
    }
}
