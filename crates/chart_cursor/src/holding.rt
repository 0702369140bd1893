//! The running steps of a chart whose services are to be held or unheld, by its marks.
//!
//! Flags, one for each node by its number, say which of them were asked to hold already, or were held.
ghost use Rattle.std.specs.Prelude.{◌≡◌, ◌+◌, ◌<◌, ◌≤◌, ◌^◌, length, if◌then◌else◌};
ghost use Rattle.std.specs.List.{list_any};
ghost use Rattle.chart_core.specs.Sizes.{HasSizes, sizes_of};
ghost use Rattle.chart_core.specs.Trees.{plain_node, plain_step, size};
ghost use Rattle.chart_core.specs.Progress.{marks_of};
ghost use Rattle.chart_cursor.specs.declared.next.CursorNext.TheVariants.{Whole};
ghost use Rattle.chart_cursor.specs.OpenNodes.{phase_of, open_nodes};
ghost use Rattle.chart_cursor.specs.NextEntry.{hold_step, is_held, is_over, is_under_way, unhold_row};
ghost use Rattle.chart_cursor.specs.Ready.{on_sight};
ghost use Rattle.chart_cursor.specs.Holding.{flag_at, is_unasked, hold_running, first_hold_node, unhold_running, first_unhold_node};

use super::next::CursorNext;
use super::ready::{command, tag_for};
use super::scanning::earlier;
use super::sight::{Seen, Sight};
use super::visitor::Visitor;
use super::walking::walk;
use chart_core::{Arm, Condition, LogEntry, Node, Progress, Step, Why};
use mtp_codes::{Command, Name, Speaker, State};
use mtp_modes::{ServiceView, permitted};

// The flag of the node with this number; there is none behind the last.
fn flag_at(flags: &[bool], number: u32) -> bool
    ensures { result ≡ flag_at flags.now number }
{
    match flags.get(number as usize) {
        Some(flag) => *flag,
        None => false,
    }
}

// Whether a flag is set.
fn has_flag(flags: &[bool]) -> bool
    ensures { result ≡ list_any (λ flag. flag) flags.now }
{
    flags.iter().any(|flag| *flag)
}

// ---- held

/// The entry Hold of the step on the module of this tag, by what is seen of its service: where a recipe may send it
/// Hold.
pub fn hold_step(step: &Step, tag: Name, sight: Sight) -> Option<LogEntry>
    ensures { result ≡ hold_step (plain_step step.now) tag sight }
{
    match sight {
        Sight::Is(view) if permitted(&view, Speaker::Recipe, Command::Hold).is_ok() => {
            Some(LogEntry::Hold {
                step: step.name,
                tag,
                service: step.service,
            })
        }
        _ => None,
    }
}

// The entry Hold of the step, where it runs and may be sent Hold.
fn hold_running<S: Seen>(step: &Step, progress: Progress, seen: &S) -> Option<LogEntry>
    ensures { result ≡ hold_running (S.sights seen.now) (plain_step step.now) (phase_of progress) }
{
    match progress {
        Progress::Begun | Progress::Finished | Progress::WasReset => hold_step(
            step,
            tag_for(seen, step.role),
            seen.view(step.role, step.service),
        ),
        _ => None,
    }
}

// Looks for the first running step that may be sent Hold, from a number on, without those that have a flag.
#[derive(Drop)]
struct FirstHold<'a, S: Seen> {
    seen: &'a S,
    from: u32,
    asked: &'a [bool],
    found: Option<LogEntry>,
}

impl<'a, S: Seen> Visitor for FirstHold<'a, S> {
    ghost use Rattle.chart_cursor.specs.Looks.{look_hold};

    ghost after = { look_hold S.sights };

    fn step(&mut self, step: &Step, number: u32, progress: Progress) {
        if self.found.is_none() && self.from <= number && !flag_at(self.asked, number) {
            self.found = hold_running(step, progress, self.seen);
        }
    }

    fn choice(&mut self, _each: &[Arm], _number: u32) {}

    fn turn(&mut self, _body: &Node, _until: &Condition, _number: u32) {}
}

/// The entry Hold of the first running step of this tree that may be sent Hold, from the number `from` on, without
/// those whose flag is set in `asked`. The tree's first node has the number `number`. Walks its nodes once.
pub fn first_hold<S: Seen>(
    node: &Node,
    number: u32,
    marks: &[Progress],
    node_sizes: &[u32],
    seen: &S,
    from: u32,
    asked: &[bool],
) -> Option<LogEntry>
    requires fits { number + size (plain_node node.now) ≤ length marks.now }
    requires short { length marks.now < 2 ^ 32 }
    requires sized { length node_sizes.now ≡ length marks.now }
    requires sizes { HasSizes (plain_node node.now) number (sizes_of node_sizes.now) }
    ensures { result ≡ first_hold_node (S.sights seen.now) (is_unasked from asked.now)
        (open_nodes (plain_node node.now) number (marks_of marks.now)) }
{
    let mut hold = FirstHold {
        seen,
        from,
        asked,
        found: None,
    };
    walk(node, number, marks, node_sizes, &mut hold);
    hold.found
}

// ---- unheld

fn is_over(state: State) -> bool
    ensures { result ≡ is_over state }
{
    matches!(state, State::Completed | State::Resetting | State::Idle)
}

fn is_held(state: State) -> bool
    ensures { result ≡ is_held state }
{
    matches!(state, State::Held)
}

// What comes next of a step whose service has this view and is owed an Unhold.
fn unhold_row(step: &Step, tag: Name, view: &ServiceView) -> CursorNext
    ensures { result ≡ unhold_row (plain_step step.now) tag view.now }
{
    let state = view.control.state;
    if !is_held(state) {
        return CursorNext::Wait(Why::InState {
            step: step.name,
            state,
        });
    }
    command(
        step,
        view,
        Command::Unhold,
        LogEntry::Unhold {
            step: step.name,
            tag,
            service: step.service,
        },
    )
}

/// What comes next of a step that was held, on the module of this tag, by what is seen of its service: an Unhold or
/// what stands in its way; Whole where the service is over.
pub fn unhold_step(step: &Step, tag: Name, sight: Sight) -> CursorNext
    ensures { result ≡ (if is_under_way sight then on_sight (plain_step step.now) tag sight
        (unhold_row (plain_step step.now) tag) else Whole) }
{
    match sight {
        Sight::Is(view) if !is_over(view.control.state) => unhold_row(step, tag, &view),
        _ => CursorNext::Whole,
    }
}

// What comes next of a step that was held, where it runs.
fn unhold_running<S: Seen>(step: &Step, progress: Progress, seen: &S) -> CursorNext
    ensures { result ≡ unhold_running (S.sights seen.now) (plain_step step.now) (phase_of progress) }
{
    match progress {
        Progress::Begun | Progress::Finished | Progress::WasReset => unhold_step(
            step,
            tag_for(seen, step.role),
            seen.view(step.role, step.service),
        ),
        _ => CursorNext::Whole,
    }
}

// Looks for what comes next of the running steps that have a flag.
#[derive(Drop)]
struct FirstUnhold<'a, S: Seen> {
    seen: &'a S,
    held: &'a [bool],
    next: CursorNext,
}

impl<'a, S: Seen> Visitor for FirstUnhold<'a, S> {
    ghost use Rattle.chart_cursor.specs.Looks.{look_unhold};

    ghost after = { look_unhold S.sights };

    fn step(&mut self, step: &Step, number: u32, progress: Progress) {
        if flag_at(self.held, number) {
            self.next = earlier(self.next, unhold_running(step, progress, self.seen));
        }
    }

    fn choice(&mut self, _each: &[Arm], _number: u32) {}

    fn turn(&mut self, _body: &Node, _until: &Condition, _number: u32) {}
}

/// What comes next of the running steps of this tree whose flag is set in `held`, without those whose services are
/// over: the first Unhold, else the first obstacle; Whole where there is no such step. The tree's first node has the
/// number `number`. Walks its nodes once, where a flag is set at all.
pub fn first_unhold<S: Seen>(
    node: &Node,
    number: u32,
    marks: &[Progress],
    node_sizes: &[u32],
    seen: &S,
    held: &[bool],
) -> CursorNext
    requires fits { number + size (plain_node node.now) ≤ length marks.now }
    requires short { length marks.now < 2 ^ 32 }
    requires sized { length node_sizes.now ≡ length marks.now }
    requires sizes { HasSizes (plain_node node.now) number (sizes_of node_sizes.now) }
    ensures { result ≡ first_unhold_node (S.sights seen.now) (flag_at held.now)
        (open_nodes (plain_node node.now) number (marks_of marks.now)) }
{
    if !has_flag(held) {
        return CursorNext::Whole;
    }
    let mut unhold = FirstUnhold {
        seen,
        held,
        next: CursorNext::Whole,
    };
    walk(node, number, marks, node_sizes, &mut unhold);
    unhold.next
}
