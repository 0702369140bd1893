//! The rules of lines of a policy.
ghost use Rattle.std.specs.Prelude.{◌≡◌, List, map};
ghost use Rattle.pol_policy.specs.Policies.{PlainGroup};
ghost use Rattle.pol_rights.specs.Rules.{plain_line_rule};
ghost use Rattle.pol_rights.specs.Tables.{IsLineTableOf};
ghost use Rattle.pol_rights.specs.Verdicts.{verdict_by_rules};

use crate::line_rule::LineRule;
use crate::line_table::LineTable;
use event_json::EventKind;
use mtp_codes::Name;
use pol_policy::Verdict;

/// The rules of who may give which kinds of lines.
#[derive(Drop)]
pub struct LineRules {
    /// The rules, in their order: at most 256, no two of one name.
    pub rules: Vec<LineRule>,
    // For each person, for nobody, and for each kind the rules that match by it.
    pub(crate) table: LineTable,
}

impl LineRules {
    /// The verdict on a line that this person gives, or nobody who is named.
    pub(crate) fn judge(&self, by: Option<Name>, kind: EventKind) -> Verdict
        ensures { (groups : List PlainGroup)
            → IsLineTableOf groups (map plain_line_rule self.now.rules.items) self.now.table
            → result ≡ verdict_by_rules groups by kind (map plain_line_rule self.now.rules.items) }
    {
        let matching = self.table.matching(by, kind);
        self.table.people.verdict(&self.rules, matching)
    }
}
