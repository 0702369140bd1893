//! The first rules that match, and the verdict that they give.
ghost use Rattle.std.specs.Prelude.{◌≡◌, ◌&&◌, Bool, map, find, slice_get};
ghost use Rattle.std.specs.Option.{option_and_then, option_map};
ghost use Rattle.pol_policy.specs.Deciding.{verdict_by};
ghost use Rattle.pol_policy.specs.Places.{IsPlacesOf};

use crate::place_set::PlaceSet;
use crate::rule::Rule;
use crate::verdict::Verdict;
use mtp_codes::Name;

// The name of the rule at a place.
fn name_at<R: Rule>(rules: &[R], place: Option<usize>) -> Option<Name>
    ensures { result ≡ option_map (λ rule. R.named (R.plain rule)) (option_and_then (slice_get rules.now) place) }
{
    match rules.get(place?) {
        Some(rule) => Some(rule.name()),
        None => None,
    }
}

// The name of the rule at the first of these places.
fn rule_at<R: Rule>(rules: &[R], places: PlaceSet) -> Option<Name>
    ensures { (test : R.Plain → Bool)
        → IsPlacesOf test (map R.plain rules.now) places
        → result ≡ option_map R.named (find test (map R.plain rules.now)) }
{
    name_at(rules, places.first())
}

/// The first rule that matches and is of this kind.
pub(crate) fn first_rule<R: Rule>(rules: &[R], matching: PlaceSet, kind: PlaceSet) -> Option<Name>
    ensures { (matches is_kind : R.Plain → Bool)
        → IsPlacesOf matches (map R.plain rules.now) matching
        → IsPlacesOf is_kind (map R.plain rules.now) kind
        → result ≡ option_map R.named (find (λ rule. matches rule && is_kind rule) (map R.plain rules.now)) }
{
    rule_at(rules, matching.intersection(kind))
}

/// The verdict by the first rule that denies and the first that allows.
pub(crate) fn verdict_by(denying: Option<Name>, allowing: Option<Name>) -> Verdict
    ensures { result ≡ verdict_by denying allowing }
{
    match (denying, allowing) {
        (Some(rule), _) => Verdict::Denied(Some(rule)),
        (None, Some(rule)) => Verdict::Allowed(rule),
        (None, None) => Verdict::Denied(None),
    }
}
