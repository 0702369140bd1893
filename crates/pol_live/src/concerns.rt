//! Whom an entry concerns: who may have something to do by it that had nothing to do before.
ghost use Rattle.std.specs.Prelude.{◌<◌, length};
ghost use Rattle.pol_site.specs.Actors.{actors};

use crate::actor_kind::{ActorKind, actor_kind};
use crate::cast::Cast;
use crate::job::Job;
use chart_core::LogEntry;
use mtp_codes::Name;
use pol_events::{Answer, Bind, Entry, Subject};
use pol_io::Clock;
use pol_site::SiteBatch;

/// Whom an entry may concern, beside the exchanger and the desk.
#[derive(Clone, Copy, Debug, PartialEq, Eq)]
pub(crate) enum Concern {
    /// Nobody.
    Nobody,
    /// The module with this tag, and the batches that hold or watch it.
    Module(Name),
    /// All batches.
    Batches,
}

// The tag of the module to which an entry of a log sends a command.
fn commanded(done: &LogEntry) -> Option<Name> {
    match *done {
        LogEntry::Start { tag, .. }
        | LogEntry::Finish { tag, .. }
        | LogEntry::Reset { tag, .. }
        | LogEntry::Stop { tag, .. }
        | LogEntry::Hold { tag, .. }
        | LogEntry::Unhold { tag, .. }
        | LogEntry::Asked { tag, .. } => Some(tag),
        _ => None,
    }
}

// Whom an event of a batch with this answer concerns.
fn concern_of_batch(answer: &Answer) -> Concern {
    match answer {
        Answer::Did(done) => match commanded(done) {
            Some(tag) => Concern::Module(tag),
            None => Concern::Nobody,
        },
        Answer::Closed(_) => Concern::Batches,
        _ => Concern::Nobody,
    }
}

// Whether one of the binds is to the module with this tag.
fn bind_to(binds: &[Bind], tag: Name) -> bool {
    binds.iter().any(|bind| bind.tag == tag)
}

impl Concern {
    // Whom this entry concerns.
    fn of(entry: &Entry) -> Concern {
        match entry.event.subject() {
            Subject::Module(tag) => Concern::Module(tag),
            Subject::Batch(_) => concern_of_batch(&entry.answer),
            Subject::Recipe(_) => Concern::Batches,
        }
    }

    // Whether it is of the module with this tag.
    fn is_of(&self, tag: Name) -> bool {
        *self == Concern::Module(tag)
    }

    // Whether it reaches the batch.
    fn reaches(&self, batch: &SiteBatch) -> bool {
        match self {
            Concern::Nobody => false,
            Concern::Module(tag) => bind_to(&batch.bind, *tag) || bind_to(&batch.watch, *tag),
            Concern::Batches => true,
        }
    }
}

impl<J: Job, C: Clock> Cast<J, C> {
    /// Whom the newest entry concerns.
    pub(crate) fn concern(&self) -> Concern {
        match self.plant.history().last() {
            Some(newest) => Concern::of(newest),
            None => Concern::Nobody,
        }
    }

    // Whether the batch at a place has an event; where there is no memory to know it, it may.
    fn has_event(&self, place: usize) -> bool {
        let (Some(batch), Some(stage)) = (self.site.batches.get(place), self.stages.get(place))
        else {
            return false;
        };
        !matches!(stage.next_event(self.alloc, batch, &self.plant), Ok(None))
    }

    /// Whether an actor that rests has something to do, where the newest entry is of this concern. None has where the
    /// history is full.
    pub(crate) fn goes_on(&self, actor: u32, concern: &Concern) -> bool
        requires actor { actor < length (actors J.site) }
    {
        if self.is_full() {
            return false;
        }
        let length = self.plant.history().len() as u32;
        match actor_kind(&self.site, actor) {
            ActorKind::Exchanger => {
                self.exchanger
                    .errand(&self.site, &self.plant, length)
                    .is_some()
            },
            ActorKind::Module { place } => concern.is_of(self.site.modules[place].tag),
            ActorKind::Batch { place } => {
                concern.reaches(&self.site.batches[place]) && self.has_event(place)
            },
            ActorKind::Desk => self.desk.next_event(&self.site, length).is_some(),
        }
    }
}
