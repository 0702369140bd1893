//! Sets of places below `MOST_PLACES`, as the bits of a number.

ghost use Rattle.std.specs.Prelude.{◌≡◌, ◌==◌, ◌&&◌, ◌||◌, ◌<◌, ℕ, IfNone, IfSome};
ghost use Rattle.pol_match.specs.Places.{has_all, is_in, IsFirstBeyond, IsWithin};
ghost use Rattle.pol_match.specs.declared.limits.TheConstants.{MOST_PLACES};

use std::marker::Model;

/// A set of places below `MOST_PLACES`. A clause sees the number whose bits they are.
#[derive(Clone, Copy)]
pub(crate) struct Places {
    bits: u64,
}

impl Model for Places {
    ghost Value = { ℕ };

    ghost view = { λ places. places.bits };

    ghost inverse = { λ bits. record { bits = bits } };
}

impl Places {
    /// The set of no place.
    pub fn new() -> Places
        ensures { result ≡ 0 }
    {
        Places { bits: 0 }
    }

    /// Adds a place.
    pub fn insert(&mut self, place: usize)
        requires { place < MOST_PLACES }
        ensures { (other : ℕ) → is_in self.new other ≡ (other == place || is_in self.old other) }
    {
        self.bits |= 1 << place;
    }

    /// Adds a place where it is wanted.
    pub fn insert_if(&mut self, place: usize, wanted: bool)
        requires { place < MOST_PLACES }
        ensures { (other : ℕ) → is_in self.new other ≡ ((wanted && other == place) || is_in self.old other) }
    {
        if wanted {
            self.insert(place);
        }
    }

    /// Whether the place is in the set.
    pub fn contains(self, place: usize) -> bool
        requires { place < MOST_PLACES }
        ensures { result ≡ is_in self place }
    {
        (self.bits >> place) & 1 == 1
    }

    /// Whether each place of the other set is in this one.
    pub fn contains_all(self, other: Places) -> bool
        ensures { result ≡ has_all self other }
    {
        other.bits & !self.bits == 0
    }

    /// The first place of the set that the other one lacks.
    pub fn first_beyond(self, other: Places) -> Option<usize>
        ensures some { IfSome result (λ place. IsFirstBeyond self other place) }
        ensures none { IfNone result (IsWithin self other) }
    {
        let rest = self.bits & !other.bits;
        if rest == 0 {
            None
        } else {
            Some(rest.trailing_zeros() as usize)
        }
    }
}
