//! The running steps of a chart, and its awaited nodes that aren't ready, listed by its marks.
//!
//! Each of them is found by its place, by a walk of its own, so that no walk takes memory.
ghost use Rattle.std.specs.Prelude.{◌≡◌, ◌+◌, ◌<◌, ◌≤◌, ◌^◌, length, slice_get, IfOk};
ghost use Rattle.chart_core.specs.Sizes.{HasSizes, sizes_of};
ghost use Rattle.chart_core.specs.Trees.{plain_node, size};
ghost use Rattle.chart_core.specs.Progress.{marks_of};
ghost use Rattle.chart_cursor.specs.OpenNodes.{open_nodes};
ghost use Rattle.chart_cursor.specs.Listing.{running_from, waiting_among, waiting_in};

use super::next::CursorNext;
use super::ready::{ready_choice, ready_loop, ready_step};
use super::running::{RunningStep, running_step};
use super::sight::Seen;
use super::sought::Sought;
use super::visitor::Visitor;
use super::walking::walk;
use chart_core::{Arm, Condition, Node, Progress, Step, Why};
use std::alloc::{AllocError, Global};

// ---- the running steps

// Looks for the running step at a place among those from a number on.
#[derive(Clone, Copy)]
struct RunningAt {
    from: u32,
    sought: Sought<RunningStep>,
}

impl Visitor for RunningAt {
    ghost use Rattle.chart_cursor.specs.Looks.{look_running_at};

    ghost after = { look_running_at };

    fn step(&mut self, step: &Step, number: u32, progress: Progress) {
        self.sought
            .meet(running_step(step, number, progress, self.from, None));
    }

    fn choice(&mut self, _each: &[Arm], _number: u32) {}

    fn turn(&mut self, _body: &Node, _until: &Condition, _number: u32) {}
}

// The running step of this tree at a place among those from the number `from` on.
fn running_at(
    node: &Node,
    number: u32,
    marks: &[Progress],
    node_sizes: &[u32],
    from: u32,
    place: u32,
) -> Option<RunningStep>
    requires fits { number + size (plain_node node.now) ≤ length marks.now }
    requires short { length marks.now < 2 ^ 32 }
    requires sized { length node_sizes.now ≡ length marks.now }
    requires sizes { HasSizes (plain_node node.now) number (sizes_of node_sizes.now) }
    ensures { result
        ≡ slice_get (running_from from (open_nodes (plain_node node.now) number (marks_of marks.now))) place }
{
    let mut running = RunningAt {
        from,
        sought: Sought::at(place),
    };
    walk(node, number, marks, node_sizes, &mut running);
    running.sought.found
}

/// The steps that run in this tree, from the number `from` on, in chart order. The tree's first node has the number
/// `number`. Walks its nodes once for each of them, and once more.
pub fn running_steps(
    alloc: Global,
    node: &Node,
    number: u32,
    marks: &[Progress],
    node_sizes: &[u32],
    from: u32,
) -> Result<Vec<RunningStep>, AllocError>
    requires fits { number + size (plain_node node.now) ≤ length marks.now }
    requires short { length marks.now < 2 ^ 32 }
    requires sized { length node_sizes.now ≡ length marks.now }
    requires sizes { HasSizes (plain_node node.now) number (sizes_of node_sizes.now) }
    ensures { IfOk result (λ steps. steps.items
        ≡ running_from from (open_nodes (plain_node node.now) number (marks_of marks.now))) }
{
    let mut steps = Vec::new(alloc);
    for place in 0..marks.len() as u32 {
        match running_at(node, number, marks, node_sizes, from, place) {
            Some(step) => steps.push(step)?,
            None => return Ok(steps),
        }
    }
    Ok(steps)
}

// ---- the awaited nodes that aren't ready

/// An awaited node that isn't ready.
#[derive(Clone, Copy, Debug, PartialEq, Eq)]
pub struct WaitingNode {
    /// The number of the node in chart order, the root's being 0.
    pub number: u32,
    /// What stands in its way.
    pub why: Why,
}

// The node with this number, where what comes next of it is an obstacle.
fn waiting_in(number: u32, next: CursorNext) -> Option<WaitingNode>
    ensures { result ≡ waiting_in number next }
{
    match next {
        CursorNext::Wait(why) => Some(WaitingNode { number, why }),
        CursorNext::Entry(_) | CursorNext::Whole => None,
    }
}

// Looks for the awaited node at a place among those that aren't ready, by what is seen of the modules.
#[derive(Drop)]
struct WaitingAt<'a, S: Seen> {
    seen: &'a S,
    sought: Sought<WaitingNode>,
}

impl<'a, S: Seen> Visitor for WaitingAt<'a, S> {
    ghost use Rattle.chart_cursor.specs.Looks.{look_waiting_at};

    ghost after = { look_waiting_at S.sights };

    fn step(&mut self, step: &Step, number: u32, progress: Progress) {
        let next = ready_step(step, progress, self.seen);
        self.sought.meet(waiting_in(number, next));
    }

    fn choice(&mut self, each: &[Arm], number: u32) {
        let next = ready_choice(each, number, self.seen);
        self.sought.meet(waiting_in(number, next));
    }

    fn turn(&mut self, _body: &Node, until: &Condition, number: u32) {
        let next = ready_loop(until, number, self.seen);
        self.sought.meet(waiting_in(number, next));
    }
}

// The awaited node of this tree at a place among those that aren't ready.
fn waiting_at<S: Seen>(
    node: &Node,
    number: u32,
    marks: &[Progress],
    node_sizes: &[u32],
    seen: &S,
    place: u32,
) -> Option<WaitingNode>
    requires fits { number + size (plain_node node.now) ≤ length marks.now }
    requires short { length marks.now < 2 ^ 32 }
    requires sized { length node_sizes.now ≡ length marks.now }
    requires sizes { HasSizes (plain_node node.now) number (sizes_of node_sizes.now) }
    ensures { result ≡ slice_get (waiting_among (S.sights seen.now)
        (open_nodes (plain_node node.now) number (marks_of marks.now))) place }
{
    let mut waiting = WaitingAt {
        seen,
        sought: Sought::at(place),
    };
    walk(node, number, marks, node_sizes, &mut waiting);
    waiting.sought.found
}

/// The awaited nodes of this tree that aren't ready, by what is seen of the modules, in chart order. The tree's first
/// node has the number `number`. Walks its nodes once for each of them, and once more.
pub fn waiting_nodes<S: Seen>(
    alloc: Global,
    node: &Node,
    number: u32,
    marks: &[Progress],
    node_sizes: &[u32],
    seen: &S,
) -> Result<Vec<WaitingNode>, AllocError>
    requires fits { number + size (plain_node node.now) ≤ length marks.now }
    requires short { length marks.now < 2 ^ 32 }
    requires sized { length node_sizes.now ≡ length marks.now }
    requires sizes { HasSizes (plain_node node.now) number (sizes_of node_sizes.now) }
    ensures { IfOk result (λ nodes. nodes.items
        ≡ waiting_among (S.sights seen.now) (open_nodes (plain_node node.now) number (marks_of marks.now))) }
{
    let mut nodes = Vec::new(alloc);
    for place in 0..marks.len() as u32 {
        match waiting_at(node, number, marks, node_sizes, seen, place) {
            Some(waiting) => nodes.push(waiting)?,
            None => return Ok(nodes),
        }
    }
    Ok(nodes)
}
