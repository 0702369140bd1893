//! The settings of a chart's steps.
ghost use Rattle.std.specs.Prelude.{◌≡◌, option_copied, option_map};
ghost use Rattle.chart_core.specs.Finding.{first_passing};
ghost use Rattle.chart_core.specs.Trees.{plain_node};
ghost use Rattle.pol_core.specs.Calls.{is_named};

use chart_core::{Node, Step, StepTest, find_step};
use mtp_codes::{Name, Setting};

// The steps of a name.
#[derive(Clone, Copy)]
struct Named {
    name: Name,
}

impl StepTest for Named {
    ghost test = { λ wanted step. is_named wanted.name step };

    fn passes(&self, step: &Step) -> bool {
        step.name == self.name
    }
}

/// The settings of the step of this name; None where no step has it. Walks the chart's nodes once.
pub fn settings_in(root: &Node, name: Name) -> Option<&[Setting]>
    ensures { option_copied result
        ≡ option_map (λ step. step.settings) (first_passing (is_named name) (plain_node root.now)) }
{
    let wanted = Named { name };
    let step = find_step(root, &wanted)?;
    Some(&step.settings)
}
