//! A list of items under each name, in the order in which they were added.
ghost use Rattle.std.specs.Prelude.{◌≡◌, ◌∷◌, ◌++◌, [], ℕ, List, OnOk, if◌then◌else◌};
ghost use Rattle.std.specs.Str.{bytes_eq};
ghost use Rattle.pol_audit.specs.Listed.{Grows, items_under};

use indexmap::IndexMap;
use mtp_codes::Name;
use std::alloc::{AllocError, Global};

/// The items under each name, the oldest first.
#[derive(Drop)]
pub struct Lists<T> {
    pub named: IndexMap<Name, Vec<T>>,
}

impl<T: Drop> Lists<T> {
    /// No items under any name.
    pub fn new(alloc: Global) -> Lists<T>
        ensures { (name : List ℕ) → items_under result.named.entries name ≡ [] }
    {
        Lists {
            named: IndexMap::new(alloc),
        }
    }

    /// The items under the name.
    pub fn of(&self, name: Name) -> &[T]
        ensures { result.now ≡ items_under self.now.named.entries name }
    {
        match self.named.get(&name) {
            Some(items) => items,
            None => &[],
        }
    }

    /// Puts these items under the name.
    pub fn put(&mut self, name: Name, items: Vec<T>) -> Result<(), AllocError>
        ensures { OnOk result ((other : List ℕ) → items_under self.new.named.entries other
            ≡ (if bytes_eq name other then items.items else items_under self.old.named.entries other)) }
    {
        self.named.insert(name, items)?;
        Ok(())
    }

    fn add(&mut self, alloc: Global, name: Name, item: T) -> Result<(), AllocError>
        ensures { OnOk result ((other : List ℕ) → items_under self.new.named.entries other
            ≡ (if bytes_eq name other then items_under self.old.named.entries other ++ item ∷ []
            else items_under self.old.named.entries other)) }
    {
        if let Some(items) = self.named.get_mut(&name) {
            items.push(item)?;
            return Ok(());
        }
        let mut items = Vec::new(alloc);
        items.push(item)?;
        self.named.insert(name, items)?;
        Ok(())
    }

    /// Adds an item under a name, if there is one and the item is kept.
    #[tactic(auto, using(crate::proofs::Listing::added, crate::proofs::Listing::left))]
    pub fn add_if(
        &mut self,
        alloc: Global,
        name: &Option<Name>,
        kept: bool,
        item: T,
    ) -> Result<(), AllocError>
        ensures { OnOk result (Grows self.old.named.entries self.new.named.entries name.now kept item) }
    {
        match name {
            Some(name) if kept => self.add(alloc, *name, item),
            _ => Ok(()),
        }
    }
}
