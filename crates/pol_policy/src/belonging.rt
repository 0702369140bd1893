//! Who belongs to the groups that rules list.
ghost use Rattle.std.specs.Prelude.{◌≡◌, ◌<◌, ◌≤◌, ◌&&◌, ◌||◌, ℕ, List, length, IfOk, OnOk, slice_index_or};
ghost use Rattle.mtp_codes.specs.Names.{is_among};
ghost use Rattle.pol_policy.specs.Names.{name_has};
ghost use Rattle.pol_policy.specs.Places.{has};
ghost use Rattle.pol_policy.specs.Tables.{IsAbove, IsReach, above_has, member_has};
ghost use Rattle.pol_policy.specs.declared.parts.Group.{Group as group_type};
ghost use Rattle.pol_policy.specs.declared.limits.TheConstants.{MOST_PLACES};

use crate::name_index::NameIndex;
use crate::parts::Group;
use crate::place_set::PlaceSet;
use crate::reach::reach;
use mtp_codes::Name;
use std::alloc::{AllocError, Global};

// The places of a name, where they are wanted.
fn places_if(index: &NameIndex, name: Name, wanted: bool) -> PlaceSet
    ensures { (place : ℕ) → has result place ≡ (wanted && name_has index.now name place) }
{
    if wanted {
        index.places_of(name)
    } else {
        PlaceSet::new()
    }
}

// The places of the groups that lead to this one.
fn places_above(groups: &[Group], sets: &[PlaceSet], index: &NameIndex, last: usize) -> PlaceSet
    requires reach { IsReach groups.now groups.now sets.now }
    requires inside { last < length groups.now }
    ensures { (group : group_type) (place : ℕ) → has result place
        ≡ above_has groups.now index.now (slice_index_or groups.now last group) place }
{
    let mut places = PlaceSet::new();
    for (from, group) in groups.iter().enumerate() {
        let leads = sets[from].contains(last);
        places = places.union(places_if(index, group.group, leads));
    }
    places
}

// For each group the places of the groups that lead to it.
fn all_above(
    alloc: Global,
    groups: &[Group],
    sets: &[PlaceSet],
    index: &NameIndex,
) -> Result<Vec<PlaceSet>, AllocError>
    requires { IsReach groups.now groups.now sets.now }
    ensures { IfOk result (λ above. IsAbove groups.now index.now above.items) }
{
    let mut above = Vec::new(alloc);
    for last in 0..groups.len() {
        above.push(places_above(groups, sets, index, last))?;
    }
    Ok(above)
}

// Gives these places to each of the names.
fn give_each(index: &mut NameIndex, names: &[Name], places: PlaceSet) -> Result<(), AllocError>
    ensures { OnOk result ((name : List ℕ) (place : ℕ) → name_has index.new name place
        ≡ (name_has index.old name place || (is_among names.now name && has places place))) }
{
    for name in names {
        index.add_all(*name, places)?;
    }
    Ok(())
}

// Gives each member the places of its groups.
fn give_members(
    index: &mut NameIndex,
    groups: &[Group],
    above: &[PlaceSet],
) -> Result<(), AllocError>
    requires { IsAbove groups.now index.old above.now }
    ensures { OnOk result ((name : List ℕ) (place : ℕ) → name_has index.new name place
        ≡ member_has groups.now index.old name place) }
{
    for (i, group) in groups.iter().enumerate() {
        give_each(index, &group.members, above[i])?;
    }
    Ok(())
}

/// Gives the places of each group to its members, and to the members of the groups to which it leads.
pub(crate) fn give_to_members(
    alloc: Global,
    index: &mut NameIndex,
    groups: &[Group],
) -> Result<(), AllocError>
    requires { length groups.now ≤ MOST_PLACES }
    ensures { OnOk result ((name : List ℕ) (place : ℕ) → name_has index.new name place
        ≡ member_has groups.now index.old name place) }
{
    let sets = reach(alloc, groups)?;
    let above = all_above(alloc, groups, &sets, index)?;
    give_members(index, groups, &above)
}
