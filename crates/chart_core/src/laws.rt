//! Laws of valid charts: each is the contract of a function with an empty body.
ghost use Rattle.chart_core.specs.Laws.{NamesAreDistinct, NamesTellSteps, StepsHaveRoles, NothingIsPartial};

/// In a valid chart no two steps have one name.
pub fn names_are_distinct()
    ensures names { NamesAreDistinct }
    ensures steps { NamesTellSteps }
{}

/// In a valid chart the role of each step is one of the chart's roles.
#[tactic(auto, using(crate::proofs::Lawful::roles_of_steps))]
pub fn steps_have_roles()
    ensures { StepsHaveRoles }
{}

/// The empty log is a partial run of each valid chart.
#[tactic(auto, using(crate::proofs::Lawful::nothing_partial))]
pub fn nothing_is_partial()
    ensures { NothingIsPartial }
{}
