//! What each module reported last since it was docked.
ghost use Rattle.std.specs.Prelude.{◌≡◌, ◌&&◌, ℕ, List, OnOk, Some, None, if◌then◌else◌};
ghost use Rattle.std.specs.Str.{bytes_eq};
ghost use Rattle.pol_audit.specs.Told.{Tells, told_under};

use indexmap::IndexMap;
use mtp_codes::Name;
use std::alloc::{AllocError, Global};

/// What was reported last, by the tag of a module and the name of its service or variable.
#[derive(Drop)]
pub struct Told<T> {
    pub tagged: IndexMap<Name, IndexMap<Name, T>>,
}

impl<T: Copy + Drop> Told<T> {
    /// Nothing was reported of any module.
    pub fn new(alloc: Global) -> Told<T>
        ensures { (tag name : List ℕ) → told_under result.tagged.entries tag name ≡ None }
    {
        Told {
            tagged: IndexMap::new(alloc),
        }
    }

    /// What was reported last under the tag and the name.
    pub fn last(&self, tag: Name, name: Name) -> Option<T>
        ensures { result ≡ told_under self.now.tagged.entries tag name }
    {
        self.tagged.get(&tag)?.get(&name).copied()
    }

    // Forgets what was reported under the tag.
    fn forget(&mut self, alloc: Global, tag: Name) -> Result<(), AllocError>
        ensures { OnOk result ((other name : List ℕ) → told_under self.new.tagged.entries other name
            ≡ (if bytes_eq tag other then None else told_under self.old.tagged.entries other name)) }
    {
        self.tagged.insert(tag, IndexMap::new(alloc))?;
        Ok(())
    }

    // Keeps what is reported under the tag and the name.
    fn put(&mut self, alloc: Global, tag: Name, name: Name, item: T) -> Result<(), AllocError>
        ensures { OnOk result ((other each : List ℕ) → told_under self.new.tagged.entries other each
            ≡ (if bytes_eq tag other && bytes_eq name each then Some item
            else told_under self.old.tagged.entries other each)) }
    {
        if let Some(named) = self.tagged.get_mut(&tag) {
            named.insert(name, item)?;
            return Ok(());
        }
        let mut named = IndexMap::new(alloc);
        named.insert(name, item)?;
        self.tagged.insert(tag, named)?;
        Ok(())
    }

    /// Takes what is reported under a tag, if there is one: all before is forgotten where its module was moved, else
    /// one more name may come, with what is reported of it.
    #[tactic(auto, using(crate::proofs::Telling::one_told, crate::proofs::Telling::none_told))]
    pub fn tell(
        &mut self,
        alloc: Global,
        tag: &Option<Name>,
        moved: bool,
        more: Option<(Name, T)>,
    ) -> Result<(), AllocError>
        ensures { OnOk result (Tells self.old.tagged.entries self.new.tagged.entries tag.now moved more) }
    {
        match (tag, more) {
            (Some(tag), _) if moved => self.forget(alloc, *tag),
            (Some(tag), Some((name, item))) => self.put(alloc, *tag, name, item),
            _ => Ok(()),
        }
    }
}
