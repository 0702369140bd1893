//! Whether a list names something twice.

ghost use Rattle.std.specs.Prelude.{◌≡◌, Bool, List, map, IsTrue, OnOk, false};
ghost use Rattle.std.specs.List.{list_any};
ghost use Rattle.mtp_codes.specs.Names.{is_name};
ghost use Rattle.mtp_json.specs.Form.{refused_if};
ghost use Rattle.mtp_codes.specs.Repeats.{repeats_by};
ghost use Rattle.mtp_json.specs.ReadsAs.{ReadsAs};
ghost use Rattle.mtp_json.specs.ReadResult.{under};

use crate::fault::{FaultKind, JsonRefusal};
use crate::placed::refused_under;
use std::alloc::Global;

/// A form that says when two items of a list are of one name or number.
pub trait Alike {
    type Item;

    ghost Form: { Type 0 };

    ghost plain: { Self.Item → Form };

    ghost same: { Form → Form → Bool };

    fn is_like(item: &Self::Item, other: &Self::Item) -> bool
        ensures { result ≡ same (plain item.now) (plain other.now) };
}

fn has_like<T: Alike>(item: &T::Item, others: &[T::Item]) -> bool
    ensures { result ≡ list_any (λ other. T.same (T.plain item.now) (T.plain other)) others.now }
{
    others.iter().any(|other| T::is_like(item, other))
}

fn repeats_seen<T: Alike>(items: &[T::Item]) -> bool
    ensures { result ≡ repeats_by (λ first other. T.same (T.plain first) (T.plain other)) items.now }
{
    let mut rest = items;
    while let Some((first, others)) = rest.split_first() {
        if has_like::<T>(first, others) {
            return true;
        }
        rest = others;
    }
    false
}

/// Whether some item is like a later one.
#[tactic(auto, using(mtp_codes::proofs::Repeats::repeats_map))]
pub fn repeats<T: Alike>(items: &[T::Item]) -> bool
    ensures { result ≡ repeats_by T.same (map T.plain items.now) }
{
    repeats_seen::<T>(items)
}

/// Asks that no item is like a later one: else Repeated at the key of the list.
pub fn unlike_under<T: Alike>(
    alloc: Global,
    key: &str,
    items: &[T::Item],
) -> Result<(), JsonRefusal>
    requires { IsTrue (is_name key.now) }
    ensures gives { ReadsAs (λ unit. unit) result
        (under key.now (refused_if (repeats_by T.same (map T.plain items.now)) FaultKind.Repeated)) }
    ensures kept { OnOk result (repeats_by T.same (map T.plain items.now) ≡ false) }
{
    refused_under(alloc, key, repeats::<T>(items), FaultKind::Repeated)
}
