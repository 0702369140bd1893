//! The rules of lines by what they match.
ghost use Rattle.std.specs.Prelude.{◌≡◌, ◌≤◌, ◌&&◌, ℕ, length, map, is_none, IfOk};
ghost use Rattle.pol_policy.specs.Places.{has};
ghost use Rattle.pol_policy.specs.Policies.{plain_group};
ghost use Rattle.pol_policy.specs.declared.limits.TheConstants.{MOST_PLACES};
ghost use Rattle.pol_rights.specs.Rules.{plain_line_rule};
ghost use Rattle.pol_rights.specs.Tables.{IsLineTableOf, has_giver, places_of_kind};

use crate::kind_index::KindIndex;
use crate::line_rule::LineRule;
use event_json::EventKind;
use mtp_codes::Name;
use pol_policy::{Group, PeopleTable, PlaceSet, Test, places_where};
use std::alloc::{AllocError, Global};

/// For each person, for lines that name nobody, and for each kind of line the places of the rules that match by it; and
/// which rules allow.
#[derive(Drop)]
pub(crate) struct LineTable {
    pub people: PeopleTable,
    unnamed: PlaceSet,
    kinds: KindIndex,
}

// A rule is for everybody.
#[derive(Clone, Copy)]
struct ForEverybody;

impl Test for ForEverybody {
    type Item = LineRule;

    ghost test = { λ _ rule. is_none (plain_line_rule rule).who };

    fn passes(&self, item: &LineRule) -> bool {
        item.who.is_none()
    }
}

impl LineTable {
    /// The table of these rules of lines among these groups.
    pub fn new(alloc: Global, groups: &[Group], rules: &[LineRule]) -> Result<LineTable, AllocError>
        requires groups { length groups.now ≤ MOST_PLACES }
        requires rules { length rules.now ≤ MOST_PLACES }
        ensures { IfOk result (λ table. IsLineTableOf (map plain_group groups.now)
            (map plain_line_rule rules.now) table) }
    {
        let people = PeopleTable::new(alloc, groups, rules)?;
        Ok(LineTable {
            people,
            unnamed: places_where(&ForEverybody, rules),
            kinds: KindIndex::new(rules),
        })
    }

    // The places of the rules that match by whoever gives a line.
    fn places_by(&self, by: Option<Name>) -> PlaceSet
        ensures { (place : ℕ) → has result place ≡ has_giver self.now by place }
    {
        match by {
            Some(person) => self.people.places_of(person),
            None => self.unnamed,
        }
    }

    /// The places of the rules that match.
    pub fn matching(&self, by: Option<Name>, kind: EventKind) -> PlaceSet
        ensures { (place : ℕ) → has result place
            ≡ (has_giver self.now by place && has (places_of_kind self.now.kinds kind) place) }
    {
        self.places_by(by).intersection(self.kinds.places_of(kind))
    }
}
