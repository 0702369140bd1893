//! The values of flat lines.
ghost use Rattle.std.specs.Prelude.{◌≡◌, ◌≤◌, ◌<◌, ◌^◌, ◌++◌, ◌∷◌, take, length, IfSome, IsTrue, true};
ghost use Rattle.std.specs.Char.{is_ascii_digit};
ghost use Rattle.std.specs.Fmt.{decimal};
ghost use Rattle.std.specs.List.{list_all};
ghost use Rattle.std.specs.Str.Parse.{digits_value};
ghost use Rattle.json.specs.Run.{is_plain};
ghost use Rattle.pol_lines.specs.Leaves.{is_leaf_in_range, leaf_piece};

use crate::pieces::eat;

/// A value of a flat line.
#[derive(Clone, Copy)]
pub enum Leaf<'a> {
    /// A text as its bytes, of which none has to be escaped.
    Text(&'a [u8]),
    /// A whole number.
    Whole(i64),
    Bit(bool),
}

fn is_plain(byte: u8) -> bool
    ensures { result ≡ is_plain byte }
{
    !(byte == b'"' || byte == b'\\' || byte < 32)
}

/// How many bytes at the front of a text need no escape.
#[inline(always)]
pub fn plain_end(text: &[u8]) -> usize
    ensures within { result ≤ length text.now }
    ensures plain { list_all is_plain (take result text.now) ≡ true }
{
    for (i, byte) in text.iter().enumerate() {
        if !is_plain(*byte) {
            return i;
        }
    }
    text.len()
}

/// The text before the first quote, with what follows that.
#[inline(always)]
fn read_text(text: &[u8]) -> Option<(Leaf, &[u8])>
    ensures piece { IfSome result (λ read. 34 ∷ text.now ≡ leaf_piece read.0 ++ read.1.now) }
    ensures held { IfSome result (λ read. IsTrue (is_leaf_in_range read.0)) }
{
    let end = plain_end(text);
    let rest = eat(&text[end..], b"\"")?;
    Some((Leaf::Text(&text[..end]), rest))
}

/// The digits at the front of a text: what they write, and how many they are; None for more than 18.
#[inline(always)]
fn digits(text: &[u8]) -> Option<(u64, usize)>
    ensures within { IfSome result (λ read. read.1 ≤ length text.now) }
    ensures few { IfSome result (λ read. read.1 ≤ 18) }
    ensures digits { IfSome result (λ read. list_all is_ascii_digit (take read.1 text.now) ≡ true) }
    ensures value { IfSome result (λ read. read.0 ≡ digits_value 10 (take read.1 text.now)) }
{
    let mut value = 0u64;
    for (i, byte) in text.iter().enumerate() {
        if !byte.is_ascii_digit() {
            return Some((value, i));
        }
        if i >= 18 {
            return None;
        }
        value = value * 10 + (*byte - b'0') as u64;
    }
    Some((value, text.len()))
}

/// The whole number at the front of a text, without a sign, as JSON writes it with at most 18 digits.
#[inline(always)]
#[tactic(auto, using(crate::proofs::Digits::written, crate::proofs::Digits::at_most_eighteen))]
fn read_whole(text: &[u8]) -> Option<(u64, &[u8])>
    ensures piece { IfSome result (λ read. text.now ≡ decimal read.0 ++ read.1.now) }
    ensures small { IfSome result (λ read. read.0 < 10 ^ 18) }
{
    let (value, count) = digits(text)?;
    if count == 0 || (count > 1 && text[0] == b'0') {
        return None;
    }
    Some((value, &text[count..]))
}

#[inline(always)]
fn read_positive(text: &[u8]) -> Option<(Leaf, &[u8])>
    ensures piece { IfSome result (λ read. text.now ≡ leaf_piece read.0 ++ read.1.now) }
    ensures held { IfSome result (λ read. IsTrue (is_leaf_in_range read.0)) }
{
    let (value, rest) = read_whole(text)?;
    Some((Leaf::Whole(value as i64), rest))
}

/// What follows a minus; None for zero.
#[inline(always)]
fn read_negative(text: &[u8]) -> Option<(Leaf, &[u8])>
    ensures piece { IfSome result (λ read. 45 ∷ text.now ≡ leaf_piece read.0 ++ read.1.now) }
    ensures held { IfSome result (λ read. IsTrue (is_leaf_in_range read.0)) }
{
    let (value, rest) = read_whole(text)?;
    if value == 0 {
        return None;
    }
    Some((Leaf::Whole(-(value as i64)), rest))
}

/// The value at the front of a text, with what follows it; None for a list, an object, `null`, a text with an escape,
/// and a number of more than 18 digits or with a point or an exponent after it.
#[inline(always)]
pub fn read_leaf(text: &[u8]) -> Option<(Leaf, &[u8])>
    ensures piece { IfSome result (λ read. text.now ≡ leaf_piece read.0 ++ read.1.now) }
    ensures held { IfSome result (λ read. IsTrue (is_leaf_in_range read.0)) }
{
    match text {
        [b'"', rest @ ..] => read_text(rest),
        [b't', ..] => Some((Leaf::Bit(true), eat(text, b"true")?)),
        [b'f', ..] => Some((Leaf::Bit(false), eat(text, b"false")?)),
        [b'-', rest @ ..] => read_negative(rest),
        _ => read_positive(text),
    }
}
