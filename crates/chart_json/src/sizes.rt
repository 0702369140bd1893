//! How large a condition is: how many tests it has, and how deep it is nested.

ghost use Rattle.std.specs.Prelude.{◌≡◌, ◌-◌, nat_le};
ghost use Rattle.chart_core.specs.Formulas.{plain_condition, formulas};
ghost use Rattle.chart_core.specs.Form.{nesting, nestings, test_count, test_counts};
ghost use Rattle.chart_json.specs.Form.{is_small};
ghost use Rattle.chart_core.specs.declared.limits.TheConstants.{MOST_TESTS};

use chart_core::{Condition, DEEPEST_CONDITION, MOST_TESTS};

// How many of `room` tests are left beside those of the condition: none where it has more.
#[cycle(room)]
fn room_beside(condition: &Condition, room: u32) -> u32
    ensures { result ≡ room - test_count (plain_condition condition.now) }
{
    match condition {
        Condition::Const(_) => room,
        Condition::All(all) => room_beside_all(all, room),
        Condition::Any(any) => room_beside_all(any, room),
        Condition::Not(inner) => room_beside(inner, room),
        Condition::Test { .. } => room.saturating_sub(1),
    }
}

#[cycle(room)]
fn room_beside_all(conditions: &[Condition], room: u32) -> u32
    ensures { result ≡ room - test_counts (formulas conditions.now) }
{
    let mut left = room;
    for each in conditions {
        left = room_beside(each, left);
    }
    left
}

// Whether the condition is nested at most this deep.
#[cycle(shallow)]
fn is_shallow(condition: &Condition, depth: u32) -> bool
    ensures { result ≡ nat_le (nesting (plain_condition condition.now)) depth }
{
    if depth == 0 {
        return false;
    }
    match condition {
        Condition::Const(_) => true,
        Condition::All(all) => are_shallow(all, depth - 1),
        Condition::Any(any) => are_shallow(any, depth - 1),
        Condition::Not(inner) => is_shallow(inner, depth - 1),
        Condition::Test { .. } => true,
    }
}

#[cycle(shallow)]
fn are_shallow(conditions: &[Condition], depth: u32) -> bool
    ensures { result ≡ nat_le (nestings (formulas conditions.now)) depth }
{
    for each in conditions {
        if !is_shallow(each, depth) {
            return false;
        }
    }
    true
}

fn has_few_tests(condition: &Condition) -> bool
    ensures { result ≡ nat_le (test_count (plain_condition condition.now)) MOST_TESTS }
{
    room_beside(condition, MOST_TESTS + 1) > 0
}

/// Whether the condition has at most 16 tests and is nested at most 8 deep. Walks it twice.
pub fn is_small(condition: &Condition) -> bool
    ensures { result ≡ is_small (plain_condition condition.now) }
{
    has_few_tests(condition) && is_shallow(condition, DEEPEST_CONDITION)
}
