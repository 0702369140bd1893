//! The policy of a plant.
ghost use Rattle.std.specs.Prelude.{map};
ghost use Rattle.std.specs.Option.{ForSome};
ghost use Rattle.pol_policy.specs.Policies.{plain_group};
ghost use Rattle.pol_rights.specs.Rules.{plain_line_rule};
ghost use Rattle.pol_rights.specs.Tables.{IsLineTableOf};

use crate::line_rules::LineRules;
use pol_policy::Policy;

/// The policy of a plant: who may send which commands, and who may give which kinds of lines.
#[derive(Drop)]
pub struct PlantPolicy {
    /// Who may send which commands of the desk to which services.
    pub commands: Policy,
    /// Who may give which lines of the other kinds; where it is absent, anybody may give them.
    pub lines: Option<LineRules>,
    ghost tabled: { ForSome lines (λ rules. IsLineTableOf (map plain_group commands.groups.items)
        (map plain_line_rule rules.rules.items) rules.table) },
}
