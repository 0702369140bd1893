//! Modules that are noted by name as read.
ghost use Rattle.std.specs.Prelude.{◌≡◌, ◌||◌, ℕ, List, OnOk, false, if◌then◌else◌};
ghost use Rattle.std.specs.Str.{bytes_eq};
ghost use Rattle.mtp_codes.specs.Names.{is_among};
ghost use Rattle.pol_events.specs.Bound.{tags_of};
ghost use Rattle.pol_events.specs.Events.{plain_event};
ghost use Rattle.pol_history.specs.Looking.{subject};
ghost use Rattle.pol_compaction.specs.Noted.{is_noted, is_subject_noted};

use indexmap::IndexMap;
use mtp_codes::Name;
use pol_events::{Bind, Event, Subject};
use std::alloc::{AllocError, Global};

/// Names, each of which is noted or isn't; no other name is noted.
#[derive(Drop)]
pub struct Noted {
    pub named: IndexMap<Name, bool>,
}

impl Noted {
    /// No name is noted.
    pub fn new(alloc: Global) -> Noted
        ensures { (name : List ℕ) → is_noted result.named.entries name ≡ false }
    {
        Noted {
            named: IndexMap::new(alloc),
        }
    }

    // Whether the name is noted.
    fn has(&self, name: Name) -> bool
        ensures { result ≡ is_noted self.now.named.entries name }
    {
        match self.named.get(&name) {
            Some(noted) => *noted,
            None => false,
        }
    }

    /// Whether the event is of a module that is noted.
    pub fn has_module_of(&self, event: &Event) -> bool
        ensures { result ≡ is_subject_noted self.now.named.entries (subject (plain_event event.now)) }
    {
        match event.subject() {
            Subject::Module(tag) => self.has(tag),
            _ => false,
        }
    }

    /// Makes this name noted, or not noted.
    pub fn put(&mut self, name: Name, noted: bool) -> Result<(), AllocError>
        ensures { OnOk result ((other : List ℕ) → is_noted self.new.named.entries other
            ≡ (if bytes_eq name other then noted else is_noted self.old.named.entries other)) }
    {
        self.named.insert(name, noted)?;
        Ok(())
    }

    /// Notes each tag that is bound.
    pub fn note_all(&mut self, binds: &[Bind]) -> Result<(), AllocError>
        ensures { OnOk result ((other : List ℕ) → is_noted self.new.named.entries other
            ≡ (is_among (tags_of binds.now) other || is_noted self.old.named.entries other)) }
    {
        for bind in binds {
            self.put(bind.tag, true)?;
        }
        Ok(())
    }
}
