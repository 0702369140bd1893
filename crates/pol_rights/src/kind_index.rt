//! For each kind of line the places of some rules.
ghost use Rattle.std.specs.Prelude.{◌≡◌, ◌≤◌, length};
ghost use Rattle.std.specs.List.{list_any};
ghost use Rattle.event_json.specs.declared.kind.EventKind.{EventKind as kind_type};
ghost use Rattle.pol_policy.specs.Allowing.{lists};
ghost use Rattle.pol_policy.specs.Places.{IsPlacesOf};
ghost use Rattle.pol_policy.specs.declared.limits.TheConstants.{MOST_PLACES};
ghost use Rattle.pol_rights.specs.Rules.{plain_line_rule};
ghost use Rattle.pol_rights.specs.Tables.{places_of_kind};
ghost use Rattle.pol_rights.specs.Verdicts.{same_kind};

use crate::line_rule::LineRule;
use event_json::EventKind;
use pol_policy::{PlaceSet, Test, places_where};

/// For each kind of line the places of the rules that list it.
#[derive(Clone, Copy)]
pub(crate) struct KindIndex {
    plug: PlaceSet,
    unplug: PlaceSet,
    report: PlaceSet,
    variable: PlaceSet,
    recipe: PlaceSet,
    start: PlaceSet,
    advance: PlaceSet,
    freeze: PlaceSet,
    thaw: PlaceSet,
    stop: PlaceSet,
    abandon: PlaceSet,
    desk: PlaceSet,
    exchange_begin: PlaceSet,
    exchange_end: PlaceSet,
    exchange_cancel: PlaceSet,
}

fn has_kind(kinds: &[EventKind], kind: EventKind) -> bool
    ensures { result ≡ list_any (λ each. same_kind each kind) kinds.now }
{
    kinds.iter().any(|each| *each == kind)
}

// A rule lists this kind.
#[derive(Clone, Copy)]
struct Lists {
    kind: EventKind,
}

impl Test for Lists {
    type Item = LineRule;

    ghost test = { λ asked rule. lists same_kind (plain_line_rule rule).kinds asked.kind };

    fn passes(&self, item: &LineRule) -> bool {
        match &item.kinds {
            Some(kinds) => has_kind(kinds, self.kind),
            None => true,
        }
    }
}

// The places of the rules that list a kind.
fn places_of(rules: &[LineRule], kind: EventKind) -> PlaceSet
    requires { length rules.now ≤ MOST_PLACES }
    ensures { IsPlacesOf (λ rule. lists same_kind (plain_line_rule rule).kinds kind) rules.now result }
{
    places_where(&Lists { kind }, rules)
}

impl KindIndex {
    /// The index of the kinds that these rules list.
    pub fn new(rules: &[LineRule]) -> KindIndex
        requires { length rules.now ≤ MOST_PLACES }
        ensures { (kind : kind_type) → IsPlacesOf (λ rule. lists same_kind (plain_line_rule rule).kinds kind)
            rules.now (places_of_kind result kind) }
    {
        KindIndex {
            plug: places_of(rules, EventKind::Plug),
            unplug: places_of(rules, EventKind::Unplug),
            report: places_of(rules, EventKind::Report),
            variable: places_of(rules, EventKind::Variable),
            recipe: places_of(rules, EventKind::Recipe),
            start: places_of(rules, EventKind::Start),
            advance: places_of(rules, EventKind::Advance),
            freeze: places_of(rules, EventKind::Freeze),
            thaw: places_of(rules, EventKind::Thaw),
            stop: places_of(rules, EventKind::Stop),
            abandon: places_of(rules, EventKind::Abandon),
            desk: places_of(rules, EventKind::Desk),
            exchange_begin: places_of(rules, EventKind::ExchangeBegin),
            exchange_end: places_of(rules, EventKind::ExchangeEnd),
            exchange_cancel: places_of(rules, EventKind::ExchangeCancel),
        }
    }

    /// The places of a kind.
    pub fn places_of(&self, kind: EventKind) -> PlaceSet
        ensures { result ≡ places_of_kind self.now kind }
    {
        match kind {
            EventKind::Plug => self.plug,
            EventKind::Unplug => self.unplug,
            EventKind::Report => self.report,
            EventKind::Variable => self.variable,
            EventKind::Recipe => self.recipe,
            EventKind::Start => self.start,
            EventKind::Advance => self.advance,
            EventKind::Freeze => self.freeze,
            EventKind::Thaw => self.thaw,
            EventKind::Stop => self.stop,
            EventKind::Abandon => self.abandon,
            EventKind::Desk => self.desk,
            EventKind::ExchangeBegin => self.exchange_begin,
            EventKind::ExchangeEnd => self.exchange_end,
            EventKind::ExchangeCancel => self.exchange_cancel,
        }
    }
}
