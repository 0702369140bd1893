//! Which groups lead to which.
ghost use Rattle.std.specs.Prelude.{◌≡◌, ◌<◌, ◌≤◌, ◌&&◌, ◌||◌, ℕ, [], length, IfOk, slice_index_or};
ghost use Rattle.mtp_codes.specs.Names.{is_among};
ghost use Rattle.pol_policy.specs.Places.{has};
ghost use Rattle.pol_policy.specs.Tables.{IsReach, is_next_group};
ghost use Rattle.pol_policy.specs.declared.place_set.PlaceSet.{PlaceSet as place_set_type};
ghost use Rattle.pol_policy.specs.declared.limits.TheConstants.{MOST_PLACES};

use crate::parts::Group;
use crate::place_set::PlaceSet;
use crate::places::{Test, places_where};
use mtp_codes::Name;
use std::alloc::{AllocError, Global};

fn has_member(group: &Group, name: Name) -> bool
    ensures { result ≡ is_among group.now.members.items name }
{
    group.members.iter().any(|member| *member == name)
}

// A group is next to this one, or is the same.
#[derive(Clone, Copy)]
struct IsNext<'a> {
    group: &'a Group,
}

impl<'a> Test for IsNext<'a> {
    type Item = Group;

    ghost test = { λ asked other. is_next_group asked.group.now other };

    fn passes(&self, item: &Group) -> bool {
        self.group.group == item.group || has_member(self.group, item.group)
    }
}

// For each group the groups that are next to it.
fn next_groups(alloc: Global, groups: &[Group]) -> Result<Vec<PlaceSet>, AllocError>
    requires { length groups.now ≤ MOST_PLACES }
    ensures { IfOk result (λ sets. IsReach [] groups.now sets.items) }
{
    let mut sets = Vec::new(alloc);
    for group in groups {
        sets.push(places_where(&IsNext { group }, groups))?;
    }
    Ok(sets)
}

// Whatever leads to this group leads on from it.
fn lead_through(sets: &mut [PlaceSet], place: usize)
    requires { place < length sets.old }
    ensures whole { length sets.new ≡ length sets.old }
    ensures each { (from : ℕ) (set : place_set_type) → from < length sets.old → (other : ℕ) →
        has (slice_index_or sets.new from set) other
        ≡ (has (slice_index_or sets.old from set) other
        || (has (slice_index_or sets.old from set) place && has (slice_index_or sets.old place set) other)) }
{
    let through = sets[place];
    for set in sets.iter_mut() {
        if set.contains(place) {
            *set = set.union(through);
        }
    }
}

// Whatever leads to a group leads on from it, group by group.
fn lead_through_all(groups: &[Group], sets: &mut [PlaceSet])
    requires { IsReach [] groups.now sets.old }
    ensures reach { IsReach groups.now groups.now sets.new }
    ensures whole { length sets.new ≡ length sets.old }
{
    for place in (0..groups.len()).rev() {
        lead_through(sets, place);
    }
}

/// For each group the groups to which it leads.
#[tactic(auto, using(crate::proofs::Reaching::written_whole))]
pub(crate) fn reach(alloc: Global, groups: &[Group]) -> Result<Vec<PlaceSet>, AllocError>
    requires { length groups.now ≤ MOST_PLACES }
    ensures { IfOk result (λ sets. IsReach groups.now groups.now sets.items) }
{
    let mut sets = next_groups(alloc, groups)?;
    lead_through_all(groups, &mut sets);
    Ok(sets)
}
