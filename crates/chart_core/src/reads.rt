//! What the conditions of a deciding node read.
ghost use Rattle.std.specs.Prelude.{◌≡◌, ◌≤◌, ◌<◌, length, IsTrue, IsFalse, IfSome, IfNone, slice_get};
ghost use Rattle.chart_core.specs.Formulas.{plain_condition, formulas};
ghost use Rattle.chart_core.specs.Reads.{has_read, with_read, with_reads, with_all_reads, place_of, reads_of};
ghost use Rattle.chart_core.specs.Trees.{arms, arm_conditions};
ghost use Rattle.chart_core.specs.Runs.{arm_reads, loop_reads};
ghost use Rattle.chart_core.specs.declared.limits.TheConstants.{MOST_READS};

use super::condition::Condition;
use super::limits::MOST_READS;
use super::node::Arm;
use arrayvec::ArrayVec;
use mtp_codes::Name;

/// A variable that a condition reads: `var` of the module that plays `role`.
#[derive(Clone, Copy, Debug, PartialEq, Eq)]
pub struct Read {
    /// The role whose module reports the variable.
    pub role: Name,
    /// The name of the variable.
    pub var: Name,
}

impl Default for Read {
    // What is in a place that holds no read yet.
    fn default() -> Read {
        let blank = Name::of_bytes(b"-").unwrap();
        Read {
            role: blank,
            var: blank,
        }
    }
}

/// The distinct variables that a deciding node reads, in order of first appearance: at most four.
pub type Reads = ArrayVec<Read, MOST_READS>;

fn has(reads: &[Read], read: Read) -> bool
    ensures { result ≡ has_read read reads.now }
{
    for each in reads {
        if *each == read {
            return true;
        }
    }
    false
}

// Adds the variable where it isn't there yet; false where there is no room for it.
fn add(role: Name, var: Name, reads: &mut Reads) -> bool
    requires { length reads.old.items ≤ MOST_READS }
    ensures few { IsTrue result → length reads.new.items ≤ MOST_READS }
    ensures yes { IsTrue result → reads.new.items ≡ with_read (record { role = role; var = var }) reads.old.items }
    ensures no { IsFalse result → MOST_READS < length (with_read (record { role = role; var = var }) reads.old.items) }
{
    if has(reads, Read { role, var }) {
        return true;
    }
    if reads.is_full() {
        return false;
    }
    reads.push(Read { role, var });
    true
}

// Adds what the condition reads; false where that is too much.
#[cycle(gather)]
fn gather(condition: &Condition, reads: &mut Reads) -> bool
    requires { length reads.old.items ≤ MOST_READS }
    ensures few { IsTrue result → length reads.new.items ≤ MOST_READS }
    ensures yes { IsTrue result → reads.new.items ≡ with_reads (plain_condition condition.now) reads.old.items }
    ensures no { IsFalse result → MOST_READS < length (with_reads (plain_condition condition.now) reads.old.items) }
{
    match condition {
        Condition::Const(_) => true,
        Condition::All(all) => gather_all(all, reads),
        Condition::Any(any) => gather_all(any, reads),
        Condition::Not(inner) => gather(inner, reads),
        Condition::Test { role, var, .. } => add(*role, *var, reads),
    }
}

#[cycle(gather)]
#[tactic(auto, using(crate::proofs::Growing::all_grow))]
fn gather_all(conditions: &[Condition], reads: &mut Reads) -> bool
    requires { length reads.old.items ≤ MOST_READS }
    ensures few { IsTrue result → length reads.new.items ≤ MOST_READS }
    ensures yes { IsTrue result → reads.new.items ≡ with_all_reads (formulas conditions.now) reads.old.items }
    ensures no { IsFalse result → MOST_READS < length (with_all_reads (formulas conditions.now) reads.old.items) }
{
    for each in conditions {
        if !gather(each, reads) {
            return false;
        }
    }
    true
}

/// What a selection reads over all its arms; None exactly where that is more than four variables.
#[tactic(auto, using(crate::proofs::Growing::all_grow))]
pub fn reads_of_arms(each: &[Arm]) -> Option<Reads>
    ensures some { IfSome result (λ reads. reads.items ≡ arm_reads (arms each.now)) }
    ensures few { IfSome result (λ reads. length reads.items ≤ MOST_READS) }
    ensures none { IfNone result (MOST_READS < length (arm_reads (arms each.now))) }
{
    let mut reads = ArrayVec::new();
    for arm in each {
        if !gather(&arm.when, &mut reads) {
            return None;
        }
    }
    Some(reads)
}

/// What a loop or a step's finish reads; None exactly where that is more than four variables.
pub fn reads_of_condition(condition: &Condition) -> Option<Reads>
    ensures some { IfSome result (λ reads. reads.items ≡ loop_reads (plain_condition condition.now)) }
    ensures few { IfSome result (λ reads. length reads.items ≤ MOST_READS) }
    ensures none { IfNone result (MOST_READS < length (loop_reads (plain_condition condition.now))) }
{
    let mut reads = ArrayVec::new();
    if gather(condition, &mut reads) {
        Some(reads)
    } else {
        None
    }
}

/// The place of the variable among these, or their number where it isn't one of them.
pub fn place_among(read: Read, reads: &[Read]) -> usize
    ensures { result ≡ place_of read reads.now }
{
    for (i, each) in reads.iter().enumerate() {
        if *each == read {
            return i;
        }
    }
    reads.len()
}
