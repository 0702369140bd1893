//! What lies ahead of all modules.
ghost use Rattle.std.specs.Prelude.{◌≡◌, ℕ, [], ◌∷◌, IfOk, List, OnOk, if◌then◌else◌};
ghost use Rattle.std.specs.Str.{bytes_eq};
ghost use Rattle.mtp_codes.specs.Names.{is_among};
ghost use Rattle.pol_events.specs.Bound.{tags_of};
ghost use Rattle.pol_events.specs.Events.{PlainEntry, plain_entry, plain_event, plain_history};
ghost use Rattle.pol_compaction.specs.Ahead.{AreAhead, PlainAhead, ahead_of, ahead_with, fate_ahead, turned};
ghost use Rattle.pol_compaction.specs.Fates.{entry_fate};
ghost use Rattle.pol_compaction.specs.declared.ahead.Turn.TheVariants.{Read};

use crate::ahead::{Ahead, Fate};
use crate::whole::Whole;
use indexmap::IndexMap;
use mtp_codes::Name;
use pol_events::{Bind, Entry, Event, Subject};
use std::alloc::{AllocError, Global};

/// What lies ahead of each module; nothing lies ahead of a module that isn't listed.
#[derive(Drop)]
pub struct Outlook {
    pub alloc: Global,
    pub modules: IndexMap<Name, Ahead>,
}

impl Outlook {
    /// Nothing lies ahead.
    pub fn new(alloc: Global) -> Outlook
        ensures { (whole : List PlainEntry) → AreAhead whole [] result.modules.entries }
    {
        Outlook {
            alloc,
            modules: IndexMap::new(alloc),
        }
    }

    // Goes back over one more event that lasts and is of this module, or reads it. Gives the fate of that event.
    fn meet_of(&mut self, tag: Name, event: &Event) -> Result<Fate, AllocError>
        ensures fate { IfOk result (λ fate.
            fate ≡ fate_ahead (ahead_of self.old.modules.entries tag) (plain_event event.now)) }
        ensures met { OnOk result ((other : List ℕ) → ahead_of self.new.modules.entries other
            ≡ (if bytes_eq tag other
            then ahead_with (plain_event event.now) (ahead_of self.old.modules.entries other)
            else ahead_of self.old.modules.entries other)) }
    {
        if let Some(ahead) = self.modules.get_mut(&tag) {
            return ahead.meet(event);
        }
        let mut ahead = Ahead::new(self.alloc);
        let fate = ahead.meet(event)?;
        self.modules.insert(tag, ahead)?;
        Ok(fate)
    }

    // Goes back over one more event that lasts and reads these modules.
    fn meet_each(&mut self, binds: &[Bind], event: &Event) -> Result<(), AllocError>
        requires { (known : PlainAhead) → ahead_with (plain_event event.now) known ≡ turned Read known.replaced }
        ensures { OnOk result ((other : List ℕ) → ahead_of self.new.modules.entries other
            ≡ (if is_among (tags_of binds.now) other
            then turned Read (ahead_of self.old.modules.entries other).replaced
            else ahead_of self.old.modules.entries other)) }
    {
        for bind in binds {
            self.meet_of(bind.tag, event)?;
        }
        Ok(())
    }

    /// Goes back over one more entry. Gives its fate.
    pub fn meet(&mut self, whole: &Whole<'_, '_>, entry: &Entry) -> Result<Fate, AllocError>
        ensures fate { IfOk result (λ fate. (newer : List PlainEntry)
            → AreAhead (plain_history whole.now) newer self.old.modules.entries
            → fate ≡ entry_fate (plain_history whole.now) newer (plain_entry entry.now)) }
        ensures met { OnOk result ((newer : List PlainEntry)
            → AreAhead (plain_history whole.now) newer self.old.modules.entries
            → AreAhead (plain_history whole.now) (plain_entry entry.now ∷ newer) self.new.modules.entries) }
    {
        if !whole.is_lasting(entry) {
            return Ok(Fate::Goes);
        }
        if let Subject::Module(tag) = entry.event.subject() {
            return self.meet_of(tag, &entry.event);
        }
        if let Some(read) = whole.read_by(&entry.event) {
            self.meet_each(read.held, &entry.event)?;
            self.meet_each(read.watched, &entry.event)?;
        }
        Ok(Fate::Stays)
    }
}
