//! The module, batch or recipe that an event is of.
ghost use Rattle.std.specs.Prelude.{◌≡◌};
ghost use Rattle.pol_events.specs.Events.{plain_entry, plain_event};
ghost use Rattle.pol_events.specs.Subjects.{accepted_batch, accepted_tag, plain_subject, subject};

use crate::event::{Entry, Event};
use mtp_codes::Name;

/// The module, batch or recipe that an event is of.
#[derive(Clone, Copy, Debug, PartialEq, Eq)]
pub enum Subject {
    /// The module of this tag.
    Module(Name),
    /// The batch of this name.
    Batch(Name),
    /// The recipe of this name.
    Recipe(Name),
}

impl Event {
    /// The module, batch or recipe that the event is of.
    pub fn subject(&self) -> Subject
        ensures { plain_subject result ≡ subject (plain_event self.now) }
    {
        match self {
            Event::Plug { tag, .. }
            | Event::Unplug { tag, .. }
            | Event::Report { tag, .. }
            | Event::Variable { tag, .. }
            | Event::Desk { tag, .. }
            | Event::ExchangeBegin { tag, .. }
            | Event::ExchangeEnd { tag, .. }
            | Event::ExchangeCancel { tag, .. } => Subject::Module(*tag),
            Event::Recipe { recipe, .. } => Subject::Recipe(*recipe),
            Event::Start { batch, .. }
            | Event::Advance { batch, .. }
            | Event::Freeze { batch, .. }
            | Event::Thaw { batch, .. }
            | Event::StopBatch { batch, .. }
            | Event::Abandon { batch, .. } => Subject::Batch(*batch),
        }
    }
}

impl Entry {
    /// The module of which the entry is an accepted event; None for a refused one, and for one of a batch or a recipe.
    pub fn accepted_tag(&self) -> Option<Name>
        ensures { result ≡ accepted_tag (plain_entry self.now) }
    {
        match self.event.subject() {
            Subject::Module(tag) if self.answer.is_accepted() => Some(tag),
            _ => None,
        }
    }

    /// The batch of which the entry is an accepted event; None for a refused one, and for one of a module or a recipe.
    pub fn accepted_batch(&self) -> Option<Name>
        ensures { result ≡ accepted_batch (plain_entry self.now) }
    {
        match self.event.subject() {
            Subject::Batch(batch) if self.answer.is_accepted() => Some(batch),
            _ => None,
        }
    }
}
