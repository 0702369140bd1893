//! Members of any key at the front of a text, of whose values only numbers, texts and truth values are kept.
ghost use Rattle.std.specs.Prelude.{◌≡◌, ◌≤◌, ◌++◌, ◌==◌, [], false, length, slice_index, true, IfSome, IsTrue};
ghost use Rattle.std.specs.List.{list_all};
ghost use Rattle.json.specs.Print.{IsNumber};
ghost use Rattle.json.specs.Run.{is_plain};
ghost use Rattle.serde_json.specs.Data.{null};
ghost use Rattle.serde_json.specs.Read.{number_from, number_of};
ghost use Rattle.pol_lines.specs.Keys.{quoted};
ghost use Rattle.pol_lines.specs.Leaves.{leaf_data};
ghost use Rattle.pol_lines.specs.Parts.{BeginsHeld, BeginsPart, IsFraction, IsOfParts, held_data};

use crate::leaf::{Leaf, plain_end, read_leaf};
use crate::pieces::eat;
use arrayvec::ArrayVec;
use fast_float::Numeral;

/// What is kept of a value.
#[derive(Clone, Copy)]
pub enum Held<'a> {
    /// A text as its bytes, of which none has to be escaped.
    Text(&'a [u8]),
    /// A whole number.
    Whole(i64),
    Bit(bool),
    /// Null, a list, or a number that isn't whole.
    Other,
}

/// A name with what is kept of its value.
#[derive(Clone, Copy)]
pub struct Part<'a> {
    pub key: &'a [u8],
    pub held: Held<'a>,
}

impl Default for Part<'_> {
    fn default() -> Self {
        Part {
            key: b"",
            held: Held::Other,
        }
    }
}

/// The name in front of a value, with what follows its colon.
fn read_name(text: &[u8]) -> Option<(&[u8], &[u8])>
    ensures piece { IfSome result (λ read. text.now ≡ quoted read.0.now ++ read.1.now) }
    ensures plain { IfSome result (λ read. list_all is_plain read.0.now ≡ true) }
{
    let inner = eat(text, b"\"")?;
    let end = plain_end(inner);
    let rest = eat(&inner[end..], b"\":")?;
    Some((&inner[..end], rest))
}

fn held_of(leaf: Leaf<'_>) -> Held<'_>
    ensures { held_data result ≡ leaf_data leaf.entry }
{
    match leaf {
        Leaf::Text(bytes) => Held::Text(bytes),
        Leaf::Whole(number) => Held::Whole(number),
        Leaf::Bit(bit) => Held::Bit(bit),
    }
}

// How many values of a list are passed over at most.
const MOST_PASSED: u32 = 65_536;

/// What follows the list of flat values at the front of a text; None for one of more than `MOST_PASSED`.
fn read_items(text: &[u8]) -> Option<&[u8]>
    ensures { IfSome result (λ rest. BeginsHeld text.now null rest.now) }
{
    let mut rest = eat(text, b"[")?;
    if let Some(after) = eat(rest, b"]") {
        return Some(after);
    }
    for _ in 0..MOST_PASSED {
        let (_leaf, after) = read_leaf(rest)?;
        match after {
            [b',', more @ ..] => rest = more,
            [b']', more @ ..] => return Some(more),
            _ => return None,
        }
    }
    None
}

/// How many bytes at the front of a text may be part of a number.
fn number_end(text: &[u8]) -> usize
    ensures { result ≤ length text.now }
{
    for (i, byte) in text.iter().enumerate() {
        if !matches!(byte, b'0'..=b'9' | b'.' | b'e' | b'E' | b'+' | b'-') {
            return i;
        }
    }
    text.len()
}

fn has_minus(digits: &[u8]) -> bool
    ensures { result ≡ (slice_index digits.now 0 == 45) }
{
    !digits.is_empty() && digits[0] == b'-'
}

/// Whether a number without a sign is no whole one of 64 bits, but a finite one.
fn is_float(numeral: &Numeral<'_>) -> bool
    ensures { IsTrue result → IsFraction (number_from false numeral.now) }
{
    match numeral.to_u64() {
        Some(_) => false,
        None => numeral.to_float::<f64>(false).is_finite(),
    }
}

/// Whether the digits write a number that is no whole one of 64 bits, but a finite one.
#[tactic(auto, using(crate::proofs::Keeping::number_of_plain))]
fn is_inexact(digits: &[u8]) -> bool
    ensures { IsTrue result → IsFraction (number_of digits.now) }
{
    !has_minus(digits) && is_float(&Numeral::scan(digits))
}

/// Whether the digits are a number, without a sign, that isn't whole.
fn is_fraction(digits: &[u8]) -> bool
    ensures number { IsTrue result → IsNumber digits.now }
    ensures value { IsTrue result → IsFraction (number_of digits.now) }
{
    match std::str::from_utf8(digits) {
        Ok(text) => json::is_number(text) && is_inexact(digits),
        Err(_) => false,
    }
}

/// What follows the number at the front of a text that isn't whole.
#[tactic(auto, using(crate::proofs::Keeping::fraction_front))]
fn read_fraction(text: &[u8]) -> Option<&[u8]>
    ensures { IfSome result (λ rest. BeginsHeld text.now null rest.now) }
{
    let end = number_end(text);
    if is_fraction(&text[..end]) {
        Some(&text[end..])
    } else {
        None
    }
}

/// What follows the value at the front of a text of which nothing is kept.
#[tactic(auto, using(crate::proofs::Keeping::begins_null))]
fn read_other(text: &[u8]) -> Option<&[u8]>
    ensures { IfSome result (λ rest. BeginsHeld text.now null rest.now) }
{
    match text {
        [b'n', ..] => eat(text, b"null"),
        [b'[', ..] => read_items(text),
        _ => read_fraction(text),
    }
}

/// Whether a value may end in front of this text.
fn is_end(text: &[u8]) -> bool {
    matches!(text, [] | [b',' | b'}', ..])
}

/// What is kept of the value at the front of a text, with what follows it.
#[tactic(auto, using(crate::proofs::Keeping::begins_flat))]
pub fn read_held(text: &[u8]) -> Option<(Held, &[u8])>
    ensures { IfSome result (λ read. BeginsHeld text.now (held_data read.0) read.1.now) }
{
    if let Some((leaf, rest)) = read_leaf(text) {
        if is_end(rest) {
            return Some((held_of(leaf), rest));
        }
    }
    let rest = read_other(text)?;
    Some((Held::Other, rest))
}

/// The part at the front of a text, with what follows it.
fn read_part(text: &[u8]) -> Option<(Part, &[u8])>
    ensures { IfSome result (λ read. BeginsPart text.now read.0 read.1.now) }
{
    let (key, inner) = read_name(text)?;
    let (held, rest) = read_held(inner)?;
    Some((Part { key, held }, rest))
}

/// Reads the parts of the object at the front of a text into a list that is empty; it answers what follows the object,
/// and None for an object of more than twelve members.
pub fn read_parts<'a>(text: &'a [u8], parts: &mut ArrayVec<Part<'a>, 12>) -> Option<&'a [u8]>
    requires { parts.old.items ≡ [] }
    ensures { IfSome result (λ rest. IsOfParts text.now parts.new.items rest.now) }
{
    let mut rest = eat(text, b"{")?;
    if let Some(after) = eat(rest, b"}") {
        return Some(after);
    }
    while !parts.is_full() {
        let (part, after) = read_part(rest)?;
        parts.push(part);
        match after {
            [b',', more @ ..] => rest = more,
            [b'}', more @ ..] => return Some(more),
            _ => return None,
        }
    }
    None
}
