//! The rules of a policy by what they match.
ghost use Rattle.std.specs.Prelude.{◌≡◌, ◌≤◌, ◌&&◌, ℕ, length, IfOk};
ghost use Rattle.pol_policy.specs.Names.{name_has};
ghost use Rattle.pol_policy.specs.Places.{has};
ghost use Rattle.pol_policy.specs.Policies.{policy_form};
ghost use Rattle.pol_policy.specs.Tables.{IsTableOf, is_for, places_of_command};
ghost use Rattle.pol_policy.specs.declared.limits.TheConstants.{MOST_PLACES};

use crate::command_index::CommandIndex;
use crate::listing::{Services, Tags, index_of};
use crate::name_index::NameIndex;
use crate::parts::{Group, PolicyRule};
use crate::people_table::PeopleTable;
use crate::place_set::PlaceSet;
use mtp_codes::{Command, Name};
use std::alloc::{AllocError, Global};

/// For each person, tag, service and command the places of the rules that match by it; and which rules allow.
#[derive(Drop)]
pub(crate) struct RuleTable {
    pub people: PeopleTable,
    tags: NameIndex,
    services: NameIndex,
    commands: CommandIndex,
}

impl RuleTable {
    /// The table of a policy's groups and rules.
    pub fn new(
        alloc: Global,
        groups: &[Group],
        rules: &[PolicyRule],
    ) -> Result<RuleTable, AllocError>
        requires groups { length groups.now ≤ MOST_PLACES }
        requires rules { length rules.now ≤ MOST_PLACES }
        ensures { IfOk result (λ table. IsTableOf (policy_form groups.now rules.now) table) }
    {
        let people = PeopleTable::new(alloc, groups, rules)?;
        let tags = index_of::<Tags>(alloc, rules)?;
        let services = index_of::<Services>(alloc, rules)?;
        Ok(RuleTable {
            people,
            tags,
            services,
            commands: CommandIndex::new(rules),
        })
    }

    /// The places of the rules that match.
    pub fn matching(&self, person: Name, tag: Name, service: Name, command: Command) -> PlaceSet
        ensures { (place : ℕ) → has result place
            ≡ (is_for self.now.people person place && (name_has self.now.tags tag place
            && (name_has self.now.services service place
            && has (places_of_command self.now.commands command) place))) }
    {
        let by_module = self.tags.places_of(tag).intersection(
            self.services
                .places_of(service)
                .intersection(self.commands.places_of(command)),
        );
        self.people.places_of(person).intersection(by_module)
    }
}
