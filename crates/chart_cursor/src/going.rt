//! What broke in a chart and what comes next in it, by its marks.
ghost use Rattle.std.specs.Prelude.{◌≡◌, ◌+◌, ◌<◌, ◌≤◌, ◌^◌, length};
ghost use Rattle.chart_core.specs.Sizes.{HasSizes, sizes_of};
ghost use Rattle.chart_core.specs.Trees.{plain_node, size};
ghost use Rattle.chart_core.specs.Progress.{marks_of};
ghost use Rattle.chart_cursor.specs.Broken.{first_broken_node};
ghost use Rattle.chart_cursor.specs.OpenNodes.{open_nodes, first_among};

use super::breaking::broken_running;
use super::next::CursorNext;
use super::ready::{ready_by, ready_choice, ready_loop};
use super::scanning::earlier;
use super::sight::Seen;
use super::visitor::Visitor;
use super::walking::walk;
use chart_core::{Arm, Condition, LogEntry, Node, Progress, Step};

// Looks for what broke and for what comes next, by one look at each step's service.
#[derive(Drop)]
struct Going<'a, S: Seen> {
    seen: &'a S,
    found: Option<LogEntry>,
    next: CursorNext,
}

impl<'a, S: Seen> Visitor for Going<'a, S> {
    ghost use Rattle.chart_cursor.specs.Looks.{look_going};

    ghost after = { look_going S.sights };

    fn step(&mut self, step: &Step, number: u32, progress: Progress) {
        let is_ready = matches!(self.next, CursorNext::Entry(_));
        if is_ready && self.found.is_some() {
            return;
        }
        let sight = self.seen.view(step.role, step.service);
        if self.found.is_none() {
            self.found = broken_running(step, progress, sight);
        }
        if !is_ready {
            self.next = earlier(self.next, ready_by(step, progress, sight, self.seen));
        }
    }

    fn choice(&mut self, each: &[Arm], number: u32) {
        if let CursorNext::Entry(_) = self.next {
            return;
        }
        self.next = earlier(self.next, ready_choice(each, number, self.seen));
    }

    fn turn(&mut self, _body: &Node, until: &Condition, number: u32) {
        if let CursorNext::Entry(_) = self.next {
            return;
        }
        self.next = earlier(self.next, ready_loop(until, number, self.seen));
    }
}

/// The entry Broke of the first running step of this tree whose service is seen stopped or aborted, and what comes next
/// in the tree; its first node has this number. Walks its nodes once, and looks at most once at each step's service.
pub fn broken_and_next<S: Seen>(
    node: &Node,
    number: u32,
    marks: &[Progress],
    node_sizes: &[u32],
    seen: &S,
) -> (Option<LogEntry>, CursorNext)
    requires fits { number + size (plain_node node.now) ≤ length marks.now }
    requires short { length marks.now < 2 ^ 32 }
    requires sized { length node_sizes.now ≡ length marks.now }
    requires sizes { HasSizes (plain_node node.now) number (sizes_of node_sizes.now) }
    ensures broken { result.0 ≡ first_broken_node (S.sights seen.now)
        (open_nodes (plain_node node.now) number (marks_of marks.now)) }
    ensures next { result.1 ≡ first_among (S.sights seen.now)
        (open_nodes (plain_node node.now) number (marks_of marks.now)) }
{
    let mut going = Going {
        seen,
        found: None,
        next: CursorNext::Whole,
    };
    walk(node, number, marks, node_sizes, &mut going);
    (going.found, going.next)
}
