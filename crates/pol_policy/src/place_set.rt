//! Sets of places of a list.
ghost use Rattle.std.specs.Prelude.{◌≡◌, ◌==◌, ◌<◌, ◌||◌, ◌&&◌, ℕ, false};
ghost use Rattle.pol_policy.specs.Places.{IsFirstOf, has};
ghost use Rattle.pol_policy.specs.declared.limits.TheConstants.{MOST_PLACES};

use crate::limits::MOST_PLACES;

/// A set of places from 0 to 255.
#[derive(Clone, Copy)]
pub struct PlaceSet {
    words: [u64; 4],
}

impl PlaceSet {
    /// The set of no place.
    #[tactic(auto, unfolding(crate::specs::Places::has))]
    pub fn new() -> PlaceSet
        ensures { (place : ℕ) → has result place ≡ false }
    {
        PlaceSet { words: [0; 4] }
    }

    /// Adds a place.
    #[tactic(auto, unfolding(crate::specs::Places::has), using(crate::proofs::Words::insert_has))]
    pub fn insert(&mut self, place: usize)
        requires { place < MOST_PLACES }
        ensures { (other : ℕ) → has self.new other ≡ (other == place || has self.old other) }
    {
        self.words[place / 64] |= 1 << (place % 64);
    }

    /// Adds a place where it is wanted.
    pub fn insert_if(&mut self, place: usize, wanted: bool)
        requires { place < MOST_PLACES }
        ensures { (other : ℕ) → has self.new other ≡ ((wanted && other == place) || has self.old other) }
    {
        if wanted {
            self.insert(place);
        }
    }

    /// Whether the place is in the set.
    #[tactic(auto, unfolding(crate::specs::Places::has))]
    pub fn contains(&self, place: usize) -> bool
        ensures { result ≡ has self.now place }
    {
        place < MOST_PLACES && (self.words[place / 64] >> (place % 64)) & 1 == 1
    }

    /// The places that are in one of the sets.
    #[tactic(auto, unfolding(crate::specs::Places::has), using(crate::proofs::Words::union_has))]
    pub fn union(self, other: PlaceSet) -> PlaceSet
        ensures { (place : ℕ) → has result place ≡ (has self place || has other place) }
    {
        PlaceSet {
            words: [
                self.words[0] | other.words[0],
                self.words[1] | other.words[1],
                self.words[2] | other.words[2],
                self.words[3] | other.words[3],
            ],
        }
    }

    /// The places that are in both sets.
    #[tactic(auto, unfolding(crate::specs::Places::has), using(crate::proofs::Words::intersection_has))]
    pub fn intersection(self, other: PlaceSet) -> PlaceSet
        ensures { (place : ℕ) → has result place ≡ (has self place && has other place) }
    {
        PlaceSet {
            words: [
                self.words[0] & other.words[0],
                self.words[1] & other.words[1],
                self.words[2] & other.words[2],
                self.words[3] & other.words[3],
            ],
        }
    }

    /// The first place of the set.
    #[tactic(auto, unfolding(crate::specs::Places::has))]
    pub fn first(&self) -> Option<usize>
        ensures { IsFirstOf (has self.now) result }
    {
        for (i, word) in self.words.iter().enumerate() {
            if *word != 0 {
                return Some(64 * i + word.trailing_zeros() as usize);
            }
        }
        None
    }
}
