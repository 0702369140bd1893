//! The rules of a list by the people whom they are for, and by whether they allow.
ghost use Rattle.std.specs.Prelude.{◌≡◌, ◌≤◌, ℕ, Bool, List, length, map, not, IfOk};
ghost use Rattle.pol_policy.specs.Deciding.{verdict_among};
ghost use Rattle.pol_policy.specs.Places.{IsPlacesOf, has};
ghost use Rattle.pol_policy.specs.Policies.{PlainGroup, plain_group};
ghost use Rattle.pol_policy.specs.Tables.{IsPeopleOf, is_for};
ghost use Rattle.pol_policy.specs.declared.limits.TheConstants.{MOST_PLACES};

use crate::belonging::give_to_members;
use crate::listing::{Who, index_of};
use crate::name_index::NameIndex;
use crate::parts::Group;
use crate::place_set::PlaceSet;
use crate::places::{Test, places_where};
use crate::rule::Rule;
use crate::ruling::{first_rule, verdict_by};
use crate::verdict::Verdict;
use mtp_codes::Name;
use std::alloc::{AllocError, Global};
use std::marker::PhantomData;

/// For each person the places of the rules that are for them; and which rules allow.
#[derive(Drop)]
pub struct PeopleTable {
    who: NameIndex,
    allowing: PlaceSet,
    denying: PlaceSet,
}

// A rule allows.
struct Allowing<R> {
    of: PhantomData<R>,
}

impl<R: Rule> Test for Allowing<R> {
    type Item = R;

    ghost test = { λ _ rule. R.allows (R.plain rule) };

    fn passes(&self, item: &R) -> bool {
        item.allows()
    }
}

// A rule denies.
struct Denying<R> {
    of: PhantomData<R>,
}

impl<R: Rule> Test for Denying<R> {
    type Item = R;

    ghost test = { λ _ rule. not (R.allows (R.plain rule)) };

    fn passes(&self, item: &R) -> bool {
        !item.allows()
    }
}

impl PeopleTable {
    /// The table of these rules among these groups.
    pub fn new<R: Rule>(
        alloc: Global,
        groups: &[Group],
        rules: &[R],
    ) -> Result<PeopleTable, AllocError>
        requires groups { length groups.now ≤ MOST_PLACES }
        requires rules { length rules.now ≤ MOST_PLACES }
        ensures { IfOk result (λ table. IsPeopleOf R.allows R.people (map plain_group groups.now)
            (map R.plain rules.now) table) }
    {
        let mut who = index_of::<Who<R>>(alloc, rules)?;
        give_to_members(alloc, &mut who, groups)?;
        Ok(PeopleTable {
            who,
            allowing: places_where(&Allowing { of: PhantomData }, rules),
            denying: places_where(&Denying { of: PhantomData }, rules),
        })
    }

    /// The places of the rules that are for this person.
    pub fn places_of(&self, person: Name) -> PlaceSet
        ensures { (place : ℕ) → has result place ≡ is_for self.now person place }
    {
        self.who.places_of(person)
    }

    /// The verdict of the rules that match, by their places: allowed where one of them allows and none denies, with
    /// the first that allows; else denied, with the first that denies, if one does.
    pub fn verdict<R: Rule>(&self, rules: &[R], matching: PlaceSet) -> Verdict
        ensures { (groups : List PlainGroup) (matches : R.Plain → Bool)
            → IsPeopleOf R.allows R.people groups (map R.plain rules.now) self.now
            → IsPlacesOf matches (map R.plain rules.now) matching
            → result ≡ verdict_among R.named R.allows matches (map R.plain rules.now) }
    {
        let denying = first_rule(rules, matching, self.denying);
        let allowing = first_rule(rules, matching, self.allowing);
        verdict_by(denying, allowing)
    }
}
