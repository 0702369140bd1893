//! Conditions at the front of a text.
ghost use Rattle.std.specs.Prelude.{◌≡◌, ◌≤◌, ◌+◌, ◌*◌, [], IfSome, Ok, codes, length, map};
ghost use Rattle.std.specs.List.{list_all};
ghost use Rattle.mtp_json.specs.Form.{field, is_listed};
ghost use Rattle.mtp_json.specs.Leaf.{meaning_of, word};
ghost use Rattle.chart_core.specs.Form.{may_compare, nesting, nestings, test_count, test_counts};
ghost use Rattle.chart_core.specs.Formulas.{Formula, all_of, any_of, constant, formulas, not_of, plain_condition, test};
ghost use Rattle.chart_core.specs.declared.limits.TheConstants.{MOST_JOINED};
ghost use Rattle.chart_json.specs.Form.{condition_of, formula_of};
ghost use Rattle.chart_json.specs.Words.{op_words};
ghost use Rattle.pol_lines.specs.Begins.{Reads, ReadsList, last_of};
ghost use Rattle.pol_lines.specs.Flat.{flat_data};
ghost use Rattle.pol_lines.specs.Keys.{key_text};
ghost use Rattle.pol_lines.specs.Objects.{Makes};

use crate::fields::{compared_at, name_at, text_at};
use crate::flat::Member;
use crate::key::Key;
use crate::lists::Front;
use crate::objects::{Cut, begin_object, read_flats};
use crate::pieces::{eat, is_word, last};
use arrayvec::ArrayVec;
use chart_core::{Condition, DEEPEST_CONDITION, MOST_JOINED, MOST_TESTS, Op};
use mtp_codes::{Name, Reading};
use std::alloc::Global;

fn op_of(bytes: &[u8]) -> Option<Op>
    ensures { result ≡ meaning_of bytes.now op_words }
{
    if is_word(bytes, b"lt") {
        Some(Op::Lt)
    } else if is_word(bytes, b"le") {
        Some(Op::Le)
    } else if is_word(bytes, b"eq") {
        Some(Op::Eq)
    } else if is_word(bytes, b"ne") {
        Some(Op::Ne)
    } else if is_word(bytes, b"ge") {
        Some(Op::Ge)
    } else if is_word(bytes, b"gt") {
        Some(Op::Gt)
    } else {
        None
    }
}

fn op_at(members: &[Member]) -> Option<Op>
    ensures { IfSome result (λ found. field (codes "op") (word op_words) (flat_data members.now) ≡ Ok found) }
{
    op_of(text_at(members, Key::Op)?)
}

/// Whether a test may compare with this by the operator: a truth value has no order.
fn may_compare(op: Op, against: Reading) -> bool
    ensures { result ≡ may_compare op against }
{
    match against {
        Reading::Whole(_) => true,
        Reading::Bit(_) => matches!(op, Op::Eq | Op::Ne),
    }
}

fn are_of_test(members: &[Member]) -> bool
    ensures { result ≡ list_all (λ member. is_listed (codes "test role op value") (key_text member.key)) members.now }
{
    members.iter().all(|member| matches!(member.key, Key::Test | Key::Role | Key::Op | Key::Value))
}

fn of_test(role: Name, variable: Name, op: Op, against: Reading) -> Condition
    ensures { plain_condition result ≡ test role variable op against }
{
    Condition::Test {
        role,
        var: variable,
        op,
        value: against,
    }
}

/// A test of these members, by its form.
fn test_in(members: &[Member]) -> Option<Condition>
    ensures says { IfSome result (λ condition. Makes formula_of (plain_condition condition) members.now []) }
    ensures nested { IfSome result (λ condition. nesting (plain_condition condition) ≡ 1) }
    ensures tests { IfSome result (λ condition. test_count (plain_condition condition) ≡ 1) }
{
    if !are_of_test(members) {
        return None;
    }
    let variable = name_at(members, Key::Test)?;
    let role = name_at(members, Key::Role)?;
    let op = op_at(members)?;
    let against = compared_at(members, Key::Value)?;
    if !may_compare(op, against) {
        return None;
    }
    Some(of_test(role, variable, op, against))
}

/// The test at the front of a text, with how many bytes follow it; None where there is no room for a test.
#[inline(never)]
fn read_test(text: &[u8], room: &mut u32) -> Option<(Condition, usize)>
    ensures reads { IfSome result
        (λ read. Reads formula_of 1 text.now (plain_condition read.0) (last_of read.1 text.now)) }
    ensures nested { IfSome result (λ read. nesting (plain_condition read.0) ≡ 1) }
    ensures tests { IfSome result (λ read. test_count (plain_condition read.0) + room.new ≤ room.old) }
{
    if *room == 0 {
        return None;
    }
    *room -= 1;
    let mut members = ArrayVec::new();
    let cut = begin_object(text)?;
    let Cut::End(rest) = read_flats(cut, &mut members) else {
        return None;
    };
    let condition = test_in(members.as_slice())?;
    Some((condition, rest.len()))
}

fn of_const(holds: bool) -> Condition
    ensures { plain_condition result ≡ constant holds }
{
    Condition::Const(holds)
}

/// The condition at the front of a text that is always true or never, with how many bytes follow it.
fn read_const(text: &[u8]) -> Option<(Condition, usize)>
    ensures reads { IfSome result
        (λ read. Reads formula_of 1 text.now (plain_condition read.0) (last_of read.1 text.now)) }
    ensures nested { IfSome result (λ read. nesting (plain_condition read.0) ≡ 1) }
    ensures tests { IfSome result (λ read. test_count (plain_condition read.0) ≡ 0) }
{
    if let Some(rest) = eat(text, b"{\"const\":true}") {
        return Some((of_const(true), rest.len()));
    }
    let rest = eat(text, b"{\"const\":false}")?;
    Some((of_const(false), rest.len()))
}

fn of_all(conditions: Vec<Condition>) -> Condition
    ensures { plain_condition result ≡ all_of (formulas conditions.items) }
{
    Condition::All(conditions)
}

fn of_any(conditions: Vec<Condition>) -> Condition
    ensures { plain_condition result ≡ any_of (formulas conditions.items) }
{
    Condition::Any(conditions)
}

fn of_not(alloc: Global, inner: Condition) -> Option<Condition>
    ensures { IfSome result (λ condition. plain_condition condition ≡ not_of (plain_condition inner)) }
{
    match Box::new(alloc, inner) {
        Ok(inner) => Some(Condition::Not(inner)),
        Err(_) => None,
    }
}

/// Reads a list of 1 to 16 conditions into one that is empty; it answers what follows the list.
#[cycle(condition)]
fn read_each<'a>(
    alloc: Global,
    text: &'a [u8],
    levels: u32,
    room: &mut u32,
    found: &mut Vec<Condition>,
) -> Option<&'a [u8]>
    requires { found.old.items ≡ [] }
    ensures list { IfSome result
        (λ rest. ReadsList formula_of (2 * levels + 2) text.now (map plain_condition found.new.items) rest.now) }
    ensures some { IfSome result (λ _. 1 ≤ length found.new.items) }
    ensures few { IfSome result (λ _. length found.new.items ≤ MOST_JOINED) }
    ensures nested { IfSome result (λ _. nestings (formulas found.new.items) ≤ levels + 1) }
    ensures tests { IfSome result (λ _. test_counts (formulas found.new.items) + room.new ≤ room.old) }
{
    let mut rest = eat(text, b"[")?;
    while found.len() < MOST_JOINED {
        let (condition, left) = read_formula(alloc, rest, levels, room)?;
        let Ok(()) = found.push(condition) else {
            return None;
        };
        match last(rest, left) {
            [b',', more @ ..] => rest = more,
            [b']', more @ ..] => return Some(more),
            _ => return None,
        }
    }
    None
}

/// The condition at the front of a text that is true where each of some conditions is.
#[cycle(condition)]
fn read_all(alloc: Global, text: &[u8], levels: u32, room: &mut u32) -> Option<(Condition, usize)>
    ensures reads { IfSome result
        (λ read. Reads formula_of (2 * levels + 3) text.now (plain_condition read.0) (last_of read.1 text.now)) }
    ensures nested { IfSome result (λ read. nesting (plain_condition read.0) ≤ levels + 2) }
    ensures tests { IfSome result (λ read. test_count (plain_condition read.0) + room.new ≤ room.old) }
{
    let inner = eat(text, b"{\"all\":")?;
    let mut all = Vec::new(alloc);
    let rest = read_each(alloc, inner, levels, room, &mut all)?;
    let rest = eat(rest, b"}")?;
    Some((of_all(all), rest.len()))
}

/// The condition at the front of a text that is true where one of some conditions is.
#[cycle(condition)]
fn read_any(alloc: Global, text: &[u8], levels: u32, room: &mut u32) -> Option<(Condition, usize)>
    ensures reads { IfSome result
        (λ read. Reads formula_of (2 * levels + 3) text.now (plain_condition read.0) (last_of read.1 text.now)) }
    ensures nested { IfSome result (λ read. nesting (plain_condition read.0) ≤ levels + 2) }
    ensures tests { IfSome result (λ read. test_count (plain_condition read.0) + room.new ≤ room.old) }
{
    let inner = eat(text, b"{\"any\":")?;
    let mut any = Vec::new(alloc);
    let rest = read_each(alloc, inner, levels, room, &mut any)?;
    let rest = eat(rest, b"}")?;
    Some((of_any(any), rest.len()))
}

/// The condition at the front of a text that is true where another one isn't.
#[cycle(condition)]
fn read_not(alloc: Global, text: &[u8], levels: u32, room: &mut u32) -> Option<(Condition, usize)>
    ensures reads { IfSome result
        (λ read. Reads formula_of (2 * levels + 3) text.now (plain_condition read.0) (last_of read.1 text.now)) }
    ensures nested { IfSome result (λ read. nesting (plain_condition read.0) ≤ levels + 2) }
    ensures tests { IfSome result (λ read. test_count (plain_condition read.0) + room.new ≤ room.old) }
{
    let inner = eat(text, b"{\"not\":")?;
    let (condition, left) = read_formula(alloc, inner, levels, room)?;
    let rest = eat(last(inner, left), b"}")?;
    let condition = of_not(alloc, condition)?;
    Some((condition, rest.len()))
}

/// The condition at the front of a text, with how many bytes follow it: no part of it lies in more than `levels` other
/// conditions, and it has no more tests than there is room for, and takes their room.
#[cycle(condition)]
fn read_formula(
    alloc: Global,
    text: &[u8],
    levels: u32,
    room: &mut u32,
) -> Option<(Condition, usize)>
    ensures reads { IfSome result
        (λ read. Reads formula_of (2 * levels + 1) text.now (plain_condition read.0) (last_of read.1 text.now)) }
    ensures nested { IfSome result (λ read. nesting (plain_condition read.0) ≤ levels + 1) }
    ensures tests { IfSome result (λ read. test_count (plain_condition read.0) + room.new ≤ room.old) }
{
    // The first letters of the key, behind the brace and the quote, tell which it may be.
    match text {
        [_, _, b'c', ..] => read_const(text),
        [_, _, b'a', b'l', ..] if levels > 0 => read_all(alloc, text, levels - 1, room),
        [_, _, b'a', ..] if levels > 0 => read_any(alloc, text, levels - 1, room),
        [_, _, b'n', ..] if levels > 0 => read_not(alloc, text, levels - 1, room),
        _ => read_test(text, room),
    }
}

/// The whole condition at the front of a text, with how many bytes follow it: at most 16 tests, nested at most 8 deep.
#[tactic(auto, using(crate::proofs::Formulas::condition_reads))]
pub fn read_condition(alloc: Global, text: &[u8]) -> Option<(Condition, usize)>
    ensures { IfSome result
        (λ read. Reads condition_of 15 text.now (plain_condition read.0) (last_of read.1 text.now)) }
{
    let mut room = MOST_TESTS;
    let (condition, left) = read_formula(alloc, text, DEEPEST_CONDITION - 1, &mut room)?;
    Some((condition, left))
}

/// The form of a whole condition at the front of a text.
pub struct ConditionFronts;

impl Front for ConditionFronts {
    type Item = Condition;

    ghost Form = { Formula };

    ghost plain = { plain_condition };

    ghost form = { condition_of };

    ghost deep = { 15 };

    fn read(alloc: Global, text: &[u8]) -> Option<(Condition, usize)> {
        read_condition(alloc, text)
    }
}
