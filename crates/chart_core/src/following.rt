//! What one more entry changes, and whether a part of a chart is done.
ghost use Rattle.std.specs.Prelude.{◌≡◌, ◌+◌, ◌<◌, ◌≤◌, ◌^◌, false, length, is_some, IfSome, None};
ghost use Rattle.chart_core.specs.Formulas.{plain_condition};
ghost use Rattle.chart_core.specs.Reads.{stored};
ghost use Rattle.chart_core.specs.Trees.{plain_node, trees, arms, arm_conditions, plain_step, leaf, size, sizes, arm_sizes};
ghost use Rattle.chart_core.specs.Entries.{chart_entry, stage_of};
ghost use Rattle.chart_core.specs.Runs.{is_first_true, with_condition, right_arm, decision_at, arm_reads, course, in_turn, at_once, arm_at};
ghost use Rattle.chart_core.specs.Progress.{marks_of};
ghost use Rattle.chart_core.specs.Deciding.{judged_until, round_change};
ghost use Rattle.chart_core.specs.Changes.{is_done, is_ended, next_progress, put_at, choose_at, change_by, FitsIn};
ghost use Rattle.chart_core.specs.Following.{change_in, behind_in};
ghost use Rattle.chart_core.specs.declared.limits.TheConstants.{MOST_READS};

use super::condition::Condition;
use super::entry::LogEntry;
use super::node::{Arm, Node, Step};
use super::progress::{Change, Progress};
use super::reads::{Read, reads_of_arms, reads_of_condition};
use super::size::{arms_count, node_count};
use super::truth::is_true;
use mtp_codes::Reading;

/// What was found of a part of a chart.
#[derive(Clone, Copy)]
pub enum Followed {
    /// The entry may come next in the part, and changes this.
    Changes(Change),
    /// The part is done; this is the number behind its last node.
    Done(u32),
    /// Neither: the part isn't done, and the entry may not come next in it.
    Open,
}

impl Followed {
    /// What the entry changes, where it may come next.
    pub fn change(self) -> Option<Change>
        ensures { result ≡ change_in self }
    {
        match self {
            Followed::Changes(change) => Some(change),
            _ => None,
        }
    }

    /// Whether the part is done.
    pub fn is_done(self) -> bool
        ensures { result ≡ is_some (behind_in self) }
    {
        matches!(self, Followed::Done(_))
    }
}

// What was found of a part that isn't done.
fn open_or(change: Option<Change>) -> Followed
    ensures change { change_in result ≡ change }
    ensures open { behind_in result ≡ None }
{
    match change {
        Some(change) => Followed::Changes(change),
        None => Followed::Open,
    }
}

// Whether the arm at this place is the first whose condition is true.
fn is_first(each: &[Arm], place: u32, reads: &[Read], values: &[Reading]) -> bool
    ensures { result ≡ is_first_true (arm_conditions (arms each.now)) place (stored reads.now values.now) }
{
    for (i, arm) in each.iter().enumerate() {
        let now = is_true(&arm.when, reads, values);
        if i == place as usize {
            return now;
        }
        if now {
            return false;
        }
    }
    false
}

// How far the step has come after the entry, where it may come next.
fn step_next(step: &Step, progress: Progress, entry: &LogEntry) -> Option<Progress>
    ensures { result ≡ next_progress (is_some (plain_step step.now).finish) progress
        (stage_of (plain_step step.now) (chart_entry entry.now)) }
{
    match (entry, progress) {
        (
            LogEntry::Start {
                step: name,
                service,
                procedure,
                ..
            },
            Progress::Untouched,
        ) if *name == step.name && *service == step.service && *procedure == step.procedure => {
            Some(Progress::Begun)
        }
        (
            LogEntry::Finish {
                step: name,
                service,
                ..
            },
            Progress::Begun,
        ) if *name == step.name && *service == step.service && step.finish.is_some() => {
            Some(Progress::Finished)
        }
        (
            LogEntry::Reset {
                step: name,
                service,
                ..
            },
            Progress::Begun | Progress::Finished,
        ) if *name == step.name && *service == step.service => { Some(Progress::WasReset) }
        (LogEntry::End { step: name }, Progress::WasReset) if *name == step.name => {
            Some(Progress::Ended)
        }
        _ => None,
    }
}

// The arm that the entry chooses at this selection, where that is right.
#[tactic(auto, using(crate::proofs::Counts::count_arms))]
fn choice(each: &[Arm], number: u32, entry: &LogEntry) -> Option<u32>
    ensures { result ≡ right_arm (arms each.now) false
        (decision_at number (arm_reads (arms each.now)) (with_condition entry.now)) }
{
    match entry {
        LogEntry::Chose { node, arm, values } => {
            let list = values.as_list();
            match reads_of_arms(each) {
                Some(reads) => {
                    if *node == number
                        && list.len() == reads.len()
                        && (*arm as usize) < each.len()
                        && is_first(each, *arm, &reads, list)
                    {
                        Some(*arm)
                    } else {
                        None
                    }
                }
                None => None,
            }
        }
        _ => None,
    }
}

// Whether the condition is true on these readings; None where they aren't as many as it reads.
fn until_holds(until: &Condition, values: &[Reading]) -> Option<bool>
    requires { length values.now ≤ MOST_READS }
    ensures { result ≡ judged_until (plain_condition until.now) values.now }
{
    match reads_of_condition(until) {
        Some(reads) => {
            if values.len() == reads.len() {
                Some(is_true(until, &reads, values))
            } else {
                None
            }
        }
        None => None,
    }
}

// What the entry changes at a loop whose body is done.
fn round(number: u32, below: u32, until: &Condition, entry: &LogEntry) -> Option<Change>
    requires { number < below }
    ensures value { result ≡ round_change number below (plain_condition until.now) (with_condition entry.now) }
    ensures inside { IfSome result (FitsIn below) }
{
    match entry {
        LogEntry::Turn { node, values } => match until_holds(until, values.as_list()) {
            Some(false) => {
                if *node == number {
                    Some(Change::Clear {
                        above: number,
                        below,
                    })
                } else {
                    None
                }
            }
            _ => None,
        },
        LogEntry::Leave { node, values } => match until_holds(until, values.as_list()) {
            Some(true) => {
                if *node == number {
                    Some(Change::Put {
                        place: number,
                        to: Progress::Left,
                    })
                } else {
                    None
                }
            }
            _ => None,
        },
        _ => None,
    }
}

fn put(place: u32, to: Option<Progress>) -> Option<Change>
    ensures value { result ≡ put_at place to }
    ensures inside { IfSome result (FitsIn (place + 1)) }
{
    match to {
        Some(to) => Some(Change::Put { place, to }),
        None => None,
    }
}

fn choose(place: u32, arm: Option<u32>) -> Option<Change>
    ensures value { result ≡ choose_at place arm }
    ensures inside { IfSome result (FitsIn (place + 1)) }
{
    match arm {
        Some(arm) => Some(Change::Put {
            place,
            to: Progress::Chosen(arm),
        }),
        None => None,
    }
}

// What was found of a step.
#[tactic(auto, using(crate::proofs::Changing::ended_stays))]
fn follow_step(step: &Step, number: u32, progress: Progress, entry: &LogEntry) -> Followed
    requires { number + 1 < 2 ^ 32 }
    ensures change { change_in result ≡ put_at number (next_progress (is_some (plain_step step.now).finish) progress
        (stage_of (plain_step step.now) (chart_entry entry.now))) }
    ensures inside { IfSome (change_in result) (FitsIn (number + 1)) }
    ensures done { is_some (behind_in result) ≡ is_ended progress }
    ensures behind { IfSome (behind_in result) (λ behind. behind ≡ number + 1) }
{
    match progress {
        Progress::Ended => Followed::Done(number + 1),
        _ => open_or(put(number, step_next(step, progress, entry))),
    }
}

/// What is found of this tree, whose first node has this number; `marks` has how far each node has come. Walks the
/// tree's nodes up to the one that the entry changes, of a sequence up to the first that isn't done.
#[cycle(follow)]
pub fn follow(node: &Node, number: u32, marks: &[Progress], entry: &LogEntry) -> Followed
    requires fits { number + size (plain_node node.now) ≤ length marks.now }
    requires short { length marks.now < 2 ^ 32 }
    ensures change { change_in result ≡ change_by (course (plain_node node.now) number) (marks_of marks.now)
        (with_condition entry.now) }
    ensures inside { IfSome (change_in result) (FitsIn (number + size (plain_node node.now))) }
    ensures done { is_some (behind_in result) ≡ is_done (course (plain_node node.now) number) (marks_of marks.now) }
    ensures behind { IfSome (behind_in result) (λ behind. behind ≡ number + size (plain_node node.now)) }
{
    let progress = marks[number as usize];
    match node {
        Node::Step(step) => follow_step(step, number, progress, entry),
        Node::Seq(kids) => follow_in_turn(kids, number + 1, marks, entry),
        Node::Par(kids) => follow_at_once(kids, number + 1, marks, entry),
        Node::Sel(each) => match progress {
            Progress::Untouched => open_or(choose(number, choice(each, number, entry))),
            Progress::Chosen(arm) => follow_arm(each, arm, number + 1, marks, entry),
            _ => Followed::Open,
        },
        Node::Loop(body, until) => match progress {
            Progress::Untouched => match follow(body, number + 1, marks, entry) {
                Followed::Done(below) => open_or(round(number, below, until, entry)),
                Followed::Changes(change) => Followed::Changes(change),
                Followed::Open => Followed::Open,
            },
            Progress::Left => Followed::Done(number + 1 + node_count(body)),
            _ => Followed::Open,
        },
    }
}

// Ends at the first of these that isn't done.
#[cycle(follow)]
fn follow_in_turn(kids: &[Node], first: u32, marks: &[Progress], entry: &LogEntry) -> Followed
    requires fits { first + sizes (trees kids.now) ≤ length marks.now }
    requires short { length marks.now < 2 ^ 32 }
    ensures change { change_in result ≡ change_by (in_turn (trees kids.now) first) (marks_of marks.now)
        (with_condition entry.now) }
    ensures inside { IfSome (change_in result) (FitsIn (first + sizes (trees kids.now))) }
    ensures done { is_some (behind_in result) ≡ is_done (in_turn (trees kids.now) first) (marks_of marks.now) }
    ensures behind { IfSome (behind_in result) (λ behind. behind ≡ first + sizes (trees kids.now)) }
{
    let mut number = first;
    for kid in kids {
        match follow(kid, number, marks, entry) {
            Followed::Done(behind) => number = behind,
            Followed::Changes(change) => return Followed::Changes(change),
            Followed::Open => return Followed::Open,
        }
    }
    Followed::Done(number)
}

// Ends at the first of these that the entry changes.
#[cycle(follow)]
fn follow_at_once(kids: &[Node], first: u32, marks: &[Progress], entry: &LogEntry) -> Followed
    requires fits { first + sizes (trees kids.now) ≤ length marks.now }
    requires short { length marks.now < 2 ^ 32 }
    ensures change { change_in result ≡ change_by (at_once (trees kids.now) first) (marks_of marks.now)
        (with_condition entry.now) }
    ensures inside { IfSome (change_in result) (FitsIn (first + sizes (trees kids.now))) }
    ensures done { is_some (behind_in result) ≡ is_done (at_once (trees kids.now) first) (marks_of marks.now) }
    ensures behind { IfSome (behind_in result) (λ behind. behind ≡ first + sizes (trees kids.now)) }
{
    let mut done = true;
    let mut number = first;
    for kid in kids {
        match follow(kid, number, marks, entry) {
            Followed::Changes(change) => return Followed::Changes(change),
            Followed::Done(behind) => number = behind,
            Followed::Open => {
                done = false;
                number += node_count(kid);
            }
        }
    }
    if done {
        Followed::Done(number)
    } else {
        Followed::Open
    }
}

#[cycle(follow)]
fn follow_arm(each: &[Arm], arm: u32, first: u32, marks: &[Progress], entry: &LogEntry) -> Followed
    requires fits { first + arm_sizes (arms each.now) ≤ length marks.now }
    requires short { length marks.now < 2 ^ 32 }
    ensures change { change_in result ≡ change_by (arm_at (arms each.now) first arm) (marks_of marks.now)
        (with_condition entry.now) }
    ensures inside { IfSome (change_in result) (FitsIn (first + arm_sizes (arms each.now))) }
    ensures done { is_some (behind_in result) ≡ is_done (arm_at (arms each.now) first arm) (marks_of marks.now) }
    ensures behind { IfSome (behind_in result) (λ behind. behind ≡ first + arm_sizes (arms each.now)) }
{
    let mut number = first;
    for (i, each_arm) in each.iter().enumerate() {
        if i == arm as usize {
            return match follow(&each_arm.body, number, marks, entry) {
                Followed::Done(behind) => Followed::Done(behind + arms_count(&each[i + 1..])),
                Followed::Changes(change) => Followed::Changes(change),
                Followed::Open => Followed::Open,
            };
        }
        number += node_count(&each_arm.body);
    }
    Followed::Done(number)
}
