//! Objects at the front of a text, member by member: flat members, and between them members whose values are lists and
//! objects.
ghost use Rattle.std.specs.Prelude.{◌≡◌, ◌≤◌, ℕ, suc, List, [], IfSome, IsTrue, None, Some, length, map, option_map};
ghost use Rattle.std.specs.Str.{IsUtf8};
ghost use Rattle.serde_json.specs.Data.{Data};
ghost use Rattle.pol_lines.specs.declared.objects.Cut.{Cut};
ghost use Rattle.pol_lines.specs.Begins.{Begins};
ghost use Rattle.pol_lines.specs.Flat.{flat_data};
ghost use Rattle.pol_lines.specs.Keys.{quoted};
ghost use Rattle.pol_lines.specs.Objects.{IsEnd, IsOther, Passes, PassesList, PassesValue, Stands, cut_piece};

use crate::flat::{Member, read_member};
use crate::lists::{Front, read_list};
use crate::pieces::{eat, is_text, last};
use arrayvec::ArrayVec;
use std::alloc::Global;

/// Where an object is cut: behind its opening brace or behind one of its members.
#[derive(Clone, Copy)]
pub enum Cut<'a> {
    /// Behind the brace or a comma, with what comes from there on.
    More(&'a [u8]),
    /// Behind the closing brace, with what follows it.
    End(&'a [u8]),
}

/// The cut behind the opening brace.
#[inline(always)]
pub fn begin_object(text: &[u8]) -> Option<Cut>
    ensures { IfSome result (λ cut. (deep : ℕ) → Stands deep text.now [] [] cut) }
{
    let rest = eat(text, b"{")?;
    Some(Cut::More(rest))
}

/// The cut behind a value, from what follows the value.
#[inline(always)]
fn behind(text: &[u8]) -> Option<Cut>
    ensures { IfSome result (λ cut. text.now ≡ cut_piece cut) }
{
    match text {
        [b',', more @ ..] => Some(Cut::More(more)),
        [b'}', more @ ..] => Some(Cut::End(more)),
        _ => None,
    }
}

/// Reads the flat members that come behind a cut, in their order, as many as the list has room for; it answers the cut
/// behind the last of them.
#[inline(always)]
pub fn read_flats<'a>(cut: Cut<'a>, members: &mut ArrayVec<Member<'a>, 9>) -> Cut<'a>
    ensures { (deep : ℕ) (text : List ℕ) (others : List (List ℕ × Data))
        → Stands deep text members.old.items others cut.entry → Stands deep text members.new.items others result }
{
    let Cut::More(mut rest) = cut else {
        return cut;
    };
    while !members.is_full() {
        let Some((member, after)) = read_member(rest) else {
            return Cut::More(rest);
        };
        match after {
            [b',', more @ ..] => {
                members.push(member);
                rest = more;
            }
            [b'}', more @ ..] => {
                members.push(member);
                return Cut::End(more);
            }
            _ => return Cut::More(rest),
        }
    }
    Cut::More(rest)
}

/// Reads the members of the flat object at the front of a text, in their order, into a list that is empty; it answers
/// what follows the object, and None for another text and for one with more than nine members.
#[inline(always)]
pub fn read_object<'a>(text: &'a [u8], members: &mut ArrayVec<Member<'a>, 9>) -> Option<&'a [u8]>
    requires { members.old.items ≡ [] }
    ensures { IfSome result (λ rest. Begins 1 text.now (flat_data members.new.items) rest.now) }
{
    let cut = begin_object(text)?;
    match read_flats(cut, members) {
        Cut::End(rest) => Some(rest),
        Cut::More(_) => None,
    }
}

/// Whether a cut is at the end of a line, and the line is text.
#[inline(always)]
pub fn ends(cut: Cut, line: &[u8]) -> bool
    ensures ended { IsTrue result → IsEnd cut.entry }
    ensures text { IsTrue result → IsUtf8 line.now }
{
    match cut {
        Cut::End(rest) => rest.is_empty() && is_text(line),
        Cut::More(_) => false,
    }
}

/// What follows a key, if it comes next.
#[inline(always)]
fn at_key<'a>(cut: Cut<'a>, key: &[u8]) -> Option<&'a [u8]>
    ensures { IfSome result (λ inner. (deep : ℕ) (name : List ℕ) (value : Data) (after : Cut) → key.now ≡ quoted name
        → IsOther name → Begins deep inner.now value (cut_piece after)
        → Passes deep name (Some value) cut.entry after) }
{
    let Cut::More(rest) = cut else {
        return None;
    };
    let inner = eat(rest, key)?;
    Some(inner)
}

/// Reads the list of at most `most` items at a key into a list that is empty, if the key comes next; it answers the cut
/// behind it.
#[inline(always)]
pub fn read_list_at<'a, T: Front>(
    alloc: Global,
    cut: Cut<'a>,
    key: &[u8],
    most: usize,
    found: &mut Vec<T::Item>,
) -> Option<Cut<'a>>
    requires { found.old.items ≡ [] }
    ensures list { IfSome result (λ after. (deep : ℕ) (name : List ℕ) → suc T.deep ≤ deep → key.now ≡ quoted name
        → IsOther name → PassesList T.form deep name (map T.plain found.new.items) cut.entry after) }
    ensures few { IfSome result (λ _. length found.new.items ≤ most) }
{
    let Some(inner) = at_key(cut, key) else {
        return Some(cut);
    };
    let rest = read_list::<T>(alloc, inner, most, found)?;
    let after = behind(rest)?;
    Some(after)
}

/// Reads the value at a key into a place that is empty, if the key comes next; it answers the cut behind it.
#[inline(always)]
pub fn read_value_at<'a, T: Front>(
    alloc: Global,
    cut: Cut<'a>,
    key: &[u8],
    found: &mut Option<T::Item>,
) -> Option<Cut<'a>>
    requires { found.old ≡ None }
    ensures { IfSome result (λ after. (deep : ℕ) (name : List ℕ) → T.deep ≤ deep → key.now ≡ quoted name
        → IsOther name → PassesValue T.form deep name (option_map T.plain found.new) cut.entry after) }
{
    let Some(inner) = at_key(cut, key) else {
        return Some(cut);
    };
    let (item, left) = T::read(alloc, inner)?;
    let after = behind(last(inner, left))?;
    *found = Some(item);
    Some(after)
}
