//! The places of the items that pass a test.
ghost use Rattle.std.specs.Prelude.{◌≡◌, ◌≤◌, Bool, length};
ghost use Rattle.pol_policy.specs.Places.{IsPlacesOf};
ghost use Rattle.pol_policy.specs.declared.limits.TheConstants.{MOST_PLACES};

use crate::place_set::PlaceSet;

/// A test of the items of a list.
pub trait Test {
    type Item;

    ghost test: { Self → Self.Item → Bool };

    /// Whether the item passes.
    fn passes(&self, item: &Self::Item) -> bool
        ensures { result ≡ test self.now item.now };
}

/// The places of the items that pass.
#[tactic(auto, using(crate::proofs::Passing::passes_more))]
pub fn places_where<T: Test>(test: &T, items: &[T::Item]) -> PlaceSet
    requires { length items.now ≤ MOST_PLACES }
    ensures { IsPlacesOf (T.test test.now) items.now result }
{
    let mut places = PlaceSet::new();
    for (place, item) in items.iter().enumerate() {
        places.insert_if(place, test.passes(item));
    }
    places
}
