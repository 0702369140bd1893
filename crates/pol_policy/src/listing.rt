//! The names that rules list, with the places of the rules.
ghost use Rattle.std.specs.Prelude.{◌≡◌, ◌==◌, ◌<◌, ◌≤◌, ◌&&◌, ◌||◌, ℕ, List, Option, length, IfOk, OnOk};
ghost use Rattle.std.specs.Option.{option_map};
ghost use Rattle.mtp_codes.specs.Names.{is_among, same_name};
ghost use Rattle.pol_policy.specs.Allowing.{lists};
ghost use Rattle.pol_policy.specs.Names.{name_has};
ghost use Rattle.pol_policy.specs.Places.{passes_at};
ghost use Rattle.pol_policy.specs.Policies.{plain_rule};
ghost use Rattle.pol_policy.specs.declared.limits.TheConstants.{MOST_PLACES};

use crate::name_index::NameIndex;
use crate::parts::PolicyRule;
use crate::rule::Rule;
use mtp_codes::Name;
use std::alloc::{AllocError, Global};
use std::marker::PhantomData;

/// One of the lists of names of a rule.
pub(crate) trait NameList {
    type Rule;

    ghost names: { Self.Rule → Option (List (List ℕ)) };

    /// The list, if the rule has it.
    fn of(rule: &Self::Rule) -> Option<&[Name]>
        ensures { option_map (λ list. list.now) result ≡ names rule.now };
}

/// The people of a rule.
pub(crate) struct Who<R> {
    of: PhantomData<R>,
}

impl<R: Rule> NameList for Who<R> {
    type Rule = R;

    ghost names = { λ rule. R.people (R.plain rule) };

    fn of(rule: &R) -> Option<&[Name]> {
        rule.who()
    }
}

/// The tags of a rule.
pub(crate) struct Tags;

impl NameList for Tags {
    type Rule = PolicyRule;

    ghost names = { λ rule. (plain_rule rule).tags };

    fn of(rule: &PolicyRule) -> Option<&[Name]> {
        match &rule.tags {
            Some(list) => Some(list.as_slice()),
            None => None,
        }
    }
}

/// The services of a rule.
pub(crate) struct Services;

impl NameList for Services {
    type Rule = PolicyRule;

    ghost names = { λ rule. (plain_rule rule).services };

    fn of(rule: &PolicyRule) -> Option<&[Name]> {
        match &rule.services {
            Some(list) => Some(list.as_slice()),
            None => None,
        }
    }
}

// Gives the place to each of these names.
fn add_each(index: &mut NameIndex, names: &[Name], place: usize) -> Result<(), AllocError>
    requires { place < MOST_PLACES }
    ensures { OnOk result ((name : List ℕ) (other : ℕ) → name_has index.new name other
        ≡ (name_has index.old name other || (is_among names.now name && (other == place)))) }
{
    for name in names {
        index.add(*name, place)?;
    }
    Ok(())
}

// Gives the place to each name of a list, or to every name where there is none.
fn add_listed(index: &mut NameIndex, names: Option<&[Name]>, place: usize) -> Result<(), AllocError>
    requires { place < MOST_PLACES }
    ensures { OnOk result ((name : List ℕ) (other : ℕ) → name_has index.new name other
        ≡ ((lists same_name (option_map (λ list. list.now) names.entry) name && other == place)
        || name_has index.old name other)) }
{
    match names {
        Some(names) => add_each(index, names, place),
        None => {
            index.add_to_all(place);
            Ok(())
        }
    }
}

/// The index of the names in one of the lists of these rules.
#[tactic(auto, using(crate::proofs::Passing::passes_more))]
pub(crate) fn index_of<L: NameList>(
    alloc: Global,
    rules: &[L::Rule],
) -> Result<NameIndex, AllocError>
    requires { length rules.now ≤ MOST_PLACES }
    ensures { IfOk result (λ index. (name : List ℕ) (place : ℕ) → name_has index name place
        ≡ passes_at (λ rule. lists same_name (L.names rule) name) rules.now place) }
{
    let mut index = NameIndex::new(alloc);
    for (place, rule) in rules.iter().enumerate() {
        add_listed(&mut index, L::of(rule), place)?;
    }
    Ok(index)
}
