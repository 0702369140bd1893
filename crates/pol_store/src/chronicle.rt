//! A plant as a chronicle of its events.
use crate::records::event_of_text;
use crate::writing::put_event_text;
use mtp_codes::LONGEST_HISTORY;
use pol_core::Plant;
use pol_events::{Answer, Event, Rule};
use pol_kept::Chronicle;
use std::alloc::{AllocError, Global};

/// A plant in which the events happen that are kept.
#[derive(Drop)]
pub struct KeptPlant {
    /// The plant.
    pub plant: Plant,
}

impl Chronicle for KeptPlant {
    type Item = Event;

    type Answer = Answer;

    ghost use Rattle.std.specs.Prelude.{IsTrue, ◌≡◌, refl};
    ghost use Rattle.pol_core.specs.Plants.{plant_history};
    ghost use Rattle.pol_events.specs.Events.{PlainEvent, plain_event};
    ghost use Rattle.pol_events.specs.Orderly.{is_orderly};
    ghost use Rattle.pol_history.specs.Looking.{History};
    ghost use Rattle.pol_store.specs.Work.{plant_work};
    ghost use Rattle.pol_store.specs.Lawful.{plants_are_lawful, same_history};

    ghost State = { History };

    ghost state = { λ kept. plant_history kept.plant };

    ghost Plain = { PlainEvent };

    ghost plain = { plain_event };

    ghost work = { plant_work };

    ghost IsSame = { λ old new. new.plant.entries ≡ old.plant.entries };

    ghost IsSound = { λ event. IsTrue (is_orderly event) };

    ghost lawful = { plants_are_lawful };

    ghost same = { λ old new. same_history old.plant new.plant };

    ghost unmoved = { λ _. refl };

    fn new(alloc: Global) -> KeptPlant {
        KeptPlant {
            plant: Plant::new(alloc),
        }
    }

    fn is_full(&self) -> bool {
        self.plant.history().len() >= LONGEST_HISTORY
    }

    fn text_of(&self, alloc: Global, event: &Event) -> Result<Vec<u8>, AllocError> {
        let mut text = Vec::new(alloc);
        put_event_text(alloc, &mut text, event)?;
        Ok(text)
    }

    fn item_of(
        &self,
        alloc: Global,
        text: &[u8],
        room: &mut Vec<u8>,
    ) -> Result<Option<Event>, AllocError> {
        event_of_text(alloc, text, room)
    }

    fn apply(&mut self, event: Event, _text: &[u8]) -> Result<Answer, (Event, AllocError)> {
        self.plant.apply(event)
    }

    fn is_kept(answer: &Answer) -> bool {
        !matches!(answer, Answer::Refused(Rule::HistoryFull))
    }
}
