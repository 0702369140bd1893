//! The first step of a chart that runs, by its marks.
ghost use Rattle.std.specs.Prelude.{◌≡◌, ◌+◌, ◌<◌, ◌≤◌, ◌^◌, length};
ghost use Rattle.chart_core.specs.Sizes.{HasSizes, sizes_of};
ghost use Rattle.chart_core.specs.Trees.{plain_node, plain_step, leaf, size};
ghost use Rattle.chart_core.specs.Progress.{marks_of};
ghost use Rattle.chart_cursor.specs.OpenNodes.{phase_of, open_nodes};
ghost use Rattle.chart_cursor.specs.Running.{first_running, has_role, is_wanted, name_of, placed_of, running_node};

use super::visitor::Visitor;
use super::walking::walk;
use chart_core::{Arm, Condition, Node, Progress, Step};
use mtp_codes::Name;

/// A step that runs.
#[derive(Clone, Copy, Debug, PartialEq, Eq)]
pub struct RunningStep {
    /// The number of its node in chart order, the root's being 0.
    pub number: u32,
    /// Its name, which no other step of the chart has.
    pub name: Name,
    /// The role whose module runs it.
    pub role: Name,
    /// The service of that module that it commands.
    pub service: Name,
}

/// The name of the step that was found.
pub fn name_alone(found: Option<RunningStep>) -> Option<Name>
    ensures { result ≡ name_of found }
{
    found.map(|step| step.name)
}

/// The number and the name of the step that was found.
pub fn placed_alone(found: Option<RunningStep>) -> Option<(u32, Name)>
    ensures { result ≡ placed_of found }
{
    found.map(|step| (step.number, step.name))
}

fn is_of_role(step: &Step, role: Option<Name>) -> bool
    ensures { result ≡ has_role role (plain_step step.now) }
{
    match role {
        Some(role) => step.role == role,
        None => true,
    }
}

// Looks for the first step that runs, from a number on, and of a role where one is given.
#[derive(Clone, Copy)]
struct FirstRunning {
    from: u32,
    role: Option<Name>,
    found: Option<RunningStep>,
}

/// The step, where it has come so far that it runs, from a number on, and is of the role where one is given.
pub fn running_step(
    step: &Step,
    number: u32,
    progress: Progress,
    from: u32,
    role: Option<Name>,
) -> Option<RunningStep>
    ensures { result ≡ running_node (is_wanted from role) number (leaf (plain_step step.now)) (phase_of progress) }
{
    let runs = matches!(
        progress,
        Progress::Begun | Progress::Finished | Progress::WasReset
    );
    if runs && from <= number && is_of_role(step, role) {
        Some(RunningStep {
            number,
            name: step.name,
            role: step.role,
            service: step.service,
        })
    } else {
        None
    }
}

impl Visitor for FirstRunning {
    ghost use Rattle.chart_cursor.specs.Looks.{look_running};

    ghost after = { look_running };

    fn step(&mut self, step: &Step, number: u32, progress: Progress) {
        if self.found.is_none() {
            self.found = running_step(step, number, progress, self.from, self.role);
        }
    }

    fn choice(&mut self, _each: &[Arm], _number: u32) {}

    fn turn(&mut self, _body: &Node, _until: &Condition, _number: u32) {}
}

/// The first step that runs in this tree, from the number `from` on, and of the role where one is given. The tree's
/// first node has the number `number`. Walks its nodes once.
pub fn first_running(
    node: &Node,
    number: u32,
    marks: &[Progress],
    node_sizes: &[u32],
    from: u32,
    role: Option<Name>,
) -> Option<RunningStep>
    requires fits { number + size (plain_node node.now) ≤ length marks.now }
    requires short { length marks.now < 2 ^ 32 }
    requires sized { length node_sizes.now ≡ length marks.now }
    requires sizes { HasSizes (plain_node node.now) number (sizes_of node_sizes.now) }
    ensures { result ≡ first_running (is_wanted from role)
        (open_nodes (plain_node node.now) number (marks_of marks.now)) }
{
    let mut running = FirstRunning {
        from,
        role,
        found: None,
    };
    walk(node, number, marks, node_sizes, &mut running);
    running.found
}
