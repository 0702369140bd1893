//! The steps of a role: whether there is one, and the first that a module can't do.

ghost use Rattle.std.specs.Prelude.{◌≡◌, map};
ghost use Rattle.mtp_desc.specs.PlainDescription.{plain_description};
ghost use Rattle.chart_core.specs.Trees.{plain_step, steps, plain_node};
ghost use Rattle.mtp_procs.specs.Covers.{is_refused, is_refused_step, name_of_first};
ghost use Rattle.pol_bind.specs.Roles.{is_of_role};
ghost use Rattle.pol_events.specs.BindRules.{has_step};

use chart_core::{Node, Step, StepTest, find_step, has_passing};
use mtp_codes::Name;
use mtp_desc::Description;
use mtp_procs::{StepDemand, check_step};

// Whether the module can't do what the step demands.
pub(crate) fn is_refused(step: &Step, description: &Description) -> bool
    ensures { result ≡ is_refused (plain_description description.now) (plain_step step.now) }
{
    let demand = StepDemand {
        service: step.service,
        procedure: step.procedure,
        settings: &step.settings,
        finishes: step.finish.is_some(),
    };
    match check_step(description, &demand) {
        Ok(()) => false,
        Err(_) => true,
    }
}

// The steps of a role.
#[derive(Clone, Copy)]
struct OfRole {
    role: Name,
}

impl StepTest for OfRole {
    ghost test = { λ wanted step. is_of_role wanted.role step };

    fn passes(&self, step: &Step) -> bool {
        step.role == self.role
    }
}

// Of the steps of a role: those that the module can't do.
#[derive(Clone, Copy)]
struct Refused<'a> {
    role: Name,
    description: &'a Description,
}

impl<'a> StepTest for Refused<'a> {
    ghost test = { λ wanted step. is_refused_step wanted.role (plain_description wanted.description.now) step };

    fn passes(&self, step: &Step) -> bool {
        step.role == self.role && is_refused(step, self.description)
    }
}

/// Whether a step of the chart is of the role. Walks the chart until it finds one.
#[tactic(auto, using(crate::proofs::Stepped::found_is))]
pub fn has_step(root: &Node, role: Name) -> bool
    ensures { result ≡ has_step (map (λ placed. placed.step) (steps (plain_node root.now) 0)) role }
{
    let wanted = OfRole { role };
    has_passing(root, &wanted)
}

/// The name of the first step of the role in chart order that the module can't do. Walks the chart once.
#[tactic(auto, using(crate::proofs::Stepped::first_named))]
pub fn refused_step(root: &Node, role: Name, description: &Description) -> Option<Name>
    ensures { result ≡ name_of_first (is_refused_step role (plain_description description.now))
        (steps (plain_node root.now) 0) }
{
    let wanted = Refused { role, description };
    let step = find_step(root, &wanted)?;
    Some(step.name)
}
