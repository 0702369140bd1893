//! For each name the places of some rules.
ghost use Rattle.std.specs.Prelude.{◌≡◌, ◌==◌, ◌<◌, ◌||◌, ◌&&◌, ℕ, List, false, OnOk};
ghost use Rattle.std.specs.Str.{bytes_eq};
ghost use Rattle.pol_policy.specs.Names.{name_has};
ghost use Rattle.pol_policy.specs.Places.{has};
ghost use Rattle.pol_policy.specs.declared.limits.TheConstants.{MOST_PLACES};

use crate::place_set::PlaceSet;
use indexmap::IndexMap;
use mtp_codes::Name;
use std::alloc::{AllocError, Global};

/// For each name a set of places: those of every name, and its own.
#[derive(Drop)]
pub(crate) struct NameIndex {
    of_all: PlaceSet,
    named: IndexMap<Name, PlaceSet>,
}

impl NameIndex {
    /// An index in which no name has a place.
    pub fn new(alloc: Global) -> NameIndex
        ensures { (name : List ℕ) (place : ℕ) → name_has result name place ≡ false }
    {
        NameIndex {
            of_all: PlaceSet::new(),
            named: IndexMap::new(alloc),
        }
    }

    /// Gives the place to every name.
    pub fn add_to_all(&mut self, place: usize)
        requires { place < MOST_PLACES }
        ensures { (name : List ℕ) (other : ℕ) → name_has self.new name other
            ≡ (other == place || name_has self.old name other) }
    {
        self.of_all.insert(place);
    }

    /// Gives these places to a name.
    pub fn add_all(&mut self, name: Name, places: PlaceSet) -> Result<(), AllocError>
        ensures { OnOk result ((other : List ℕ) (place : ℕ) → name_has self.new other place
            ≡ (name_has self.old other place || (bytes_eq name other && has places place))) }
    {
        let all = match self.named.get(&name) {
            Some(found) => found.union(places),
            None => places,
        };
        self.named.insert(name, all)?;
        Ok(())
    }

    /// Gives a place to a name.
    pub fn add(&mut self, name: Name, place: usize) -> Result<(), AllocError>
        requires { place < MOST_PLACES }
        ensures { OnOk result ((other : List ℕ) (at : ℕ) → name_has self.new other at
            ≡ (name_has self.old other at || (bytes_eq name other && (at == place)))) }
    {
        let mut places = PlaceSet::new();
        places.insert(place);
        self.add_all(name, places)
    }

    /// The places of a name.
    pub fn places_of(&self, name: Name) -> PlaceSet
        ensures { (place : ℕ) → has result place ≡ name_has self.now name place }
    {
        match self.named.get(&name) {
            Some(found) => self.of_all.union(*found),
            None => self.of_all,
        }
    }
}
