//! Lists at the front of a text.
ghost use Rattle.std.specs.Prelude.{◌≡◌, ◌≤◌, ℕ, suc, [], IfSome, length, map};
ghost use Rattle.serde_json.specs.Data.{Data};
ghost use Rattle.mtp_json.specs.ReadResult.{ReadResult};
ghost use Rattle.pol_lines.specs.Begins.{Reads, ReadsList, last_of};

use crate::pieces::{eat, last};
use std::alloc::Global;

/// A form by which the values of one type are read from the front of a text.
pub trait Front {
    type Item: Drop;

    ghost Form: { Type 0 };

    ghost plain: { Self.Item → Form };

    ghost form: { Data → ReadResult Form };

    ghost deep: { ℕ };

    /// The value that the form gives, with how many bytes follow it.
    fn read(alloc: Global, text: &[u8]) -> Option<(Self::Item, usize)>
        ensures { IfSome result (λ read. Reads form deep text.now (plain read.0) (last_of read.1 text.now)) };
}

/// Reads a list of at most `most` items into one that is empty; it answers what follows the list.
pub fn read_list<'a, T: Front>(
    alloc: Global,
    text: &'a [u8],
    most: usize,
    found: &mut Vec<T::Item>,
) -> Option<&'a [u8]>
    requires { found.old.items ≡ [] }
    ensures list { IfSome result
        (λ rest. ReadsList T.form (suc T.deep) text.now (map T.plain found.new.items) rest.now) }
    ensures few { IfSome result (λ _. length found.new.items ≤ most) }
{
    let mut rest = eat(text, b"[")?;
    if let Some(after) = eat(rest, b"]") {
        return Some(after);
    }
    while found.len() < most {
        let (item, left) = T::read(alloc, rest)?;
        let Ok(()) = found.push(item) else {
            return None;
        };
        match last(rest, left) {
            [b',', more @ ..] => rest = more,
            [b']', more @ ..] => return Some(more),
            _ => return None,
        }
    }
    None
}
