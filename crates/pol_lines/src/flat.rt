//! Flat members: a known key with a number, a text or a truth value.
ghost use Rattle.std.specs.Prelude.{◌≡◌, ◌++◌, IfSome, IsTrue};
ghost use Rattle.pol_lines.specs.Flat.{is_member_in_range, member_piece};

use crate::key::{Key, read_key};
use crate::leaf::{Leaf, read_leaf};

/// A key with its value.
#[derive(Clone, Copy)]
pub struct Member<'a> {
    pub key: Key,
    pub leaf: Leaf<'a>,
}

impl Default for Member<'_> {
    fn default() -> Self {
        Member {
            key: Key::At,
            leaf: Leaf::Bit(false),
        }
    }
}

/// The member at the front of a text, with what follows it.
#[inline(always)]
pub fn read_member(text: &[u8]) -> Option<(Member, &[u8])>
    ensures piece { IfSome result (λ read. text.now ≡ member_piece read.0 ++ read.1.now) }
    ensures held { IfSome result (λ read. IsTrue (is_member_in_range read.0)) }
{
    let (key, rest) = read_key(text)?;
    let (leaf, rest) = read_leaf(rest)?;
    Some((Member { key, leaf }, rest))
}
