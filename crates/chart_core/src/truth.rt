//! Whether a condition is true on stored readings.
ghost use Rattle.std.specs.Prelude.{◌≡◌, slice_get};
ghost use Rattle.chart_core.specs.Formulas.{plain_condition, formulas, compares, compares_whole, compares_bits, holds, all_hold, some_holds};
ghost use Rattle.chart_core.specs.Reads.{stored};

use super::condition::{Condition, Op};
use super::reads::{Read, place_among};
use mtp_codes::{Name, Reading};

fn compares_numbers(op: Op, left: i64, right: i64) -> bool
    ensures { result ≡ compares_whole op left right }
{
    match op {
        Op::Lt => left < right,
        Op::Le => left <= right,
        Op::Eq => left == right,
        Op::Ne => left != right,
        Op::Ge => left >= right,
        Op::Gt => left > right,
    }
}

fn compares_truths(op: Op, left: bool, right: bool) -> bool
    ensures { result ≡ compares_bits op left right }
{
    match op {
        Op::Eq => left == right,
        Op::Ne => left != right,
        Op::Lt | Op::Le | Op::Ge | Op::Gt => false,
    }
}

/// Whether the reading and the value are of one kind and compare as the operator says.
pub fn passes(op: Op, reading: Reading, value: Reading) -> bool
    ensures { result ≡ compares op reading value }
{
    match (reading, value) {
        (Reading::Whole(left), Reading::Whole(right)) => compares_numbers(op, left, right),
        (Reading::Bit(left), Reading::Bit(right)) => compares_truths(op, left, right),
        _ => false,
    }
}

fn stored_reading(role: Name, var: Name, reads: &[Read], values: &[Reading]) -> Option<Reading>
    ensures { result ≡ stored reads.now values.now role var }
{
    values.get(place_among(Read { role, var }, reads)).copied()
}

/// Whether the condition is true on these readings, which are stored in the order of these reads. Costs one walk of the
/// condition, and for each test a walk of the reads.
#[cycle(truth)]
pub fn is_true(condition: &Condition, reads: &[Read], values: &[Reading]) -> bool
    ensures { result ≡ holds (plain_condition condition.now) (stored reads.now values.now) }
{
    match condition {
        Condition::Const(value) => *value,
        Condition::All(all) => are_all_true(all, reads, values),
        Condition::Any(any) => is_some_true(any, reads, values),
        Condition::Not(inner) => !is_true(inner, reads, values),
        Condition::Test {
            role,
            var,
            op,
            value,
        } => match stored_reading(*role, *var, reads, values) {
            Some(reading) => passes(*op, reading, *value),
            None => false,
        },
    }
}

#[cycle(truth)]
fn are_all_true(all: &[Condition], reads: &[Read], values: &[Reading]) -> bool
    ensures { result ≡ all_hold (formulas all.now) (stored reads.now values.now) }
{
    for each in all {
        if !is_true(each, reads, values) {
            return false;
        }
    }
    true
}

#[cycle(truth)]
fn is_some_true(any: &[Condition], reads: &[Read], values: &[Reading]) -> bool
    ensures { result ≡ some_holds (formulas any.now) (stored reads.now values.now) }
{
    for each in any {
        if is_true(each, reads, values) {
            return true;
        }
    }
    false
}
