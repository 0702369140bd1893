//! A plant to which a journal is applied, event by event.
ghost use Rattle.std.specs.Prelude.{◌≡◌, ◌+◌, ◌≤◌, ◌<◌, ◌^◌, [], IfOk, IsTrue, OnErr, OnOk};
ghost use Rattle.pol_events.specs.Events.{plain_event};
ghost use Rattle.pol_events.specs.Orderly.{is_orderly};
ghost use Rattle.pol_demo.specs.Telling.{event_told, told_by};

use pol_core::Plant;
use pol_events::Event;
use std::alloc::{AllocError, Global};

/// A plant to which a journal is applied, with the number of the next line.
#[derive(Drop)]
pub struct Teller {
    pub plant: Plant,
    /// The number of the next line.
    pub at: u64,
}

impl Teller {
    /// A plant to which nothing was applied yet. There is room for so many lines, unless there is no memory.
    pub fn new(alloc: Global, lines: u32) -> Result<Teller, AllocError>
        ensures nothing { IfOk result (λ teller. told_by teller ≡ record { history = []; at = 1 }) }
        ensures room { IfOk result (λ teller. lines ≤ teller.plant.spare) }
    {
        let mut plant = Plant::new(alloc);
        plant.reserve(lines)?;
        Ok(Teller { plant, at: 1 })
    }

    /// Applies an event as the next line; where there is no memory, nothing is applied.
    pub fn tell(&mut self, event: Event) -> Result<(), AllocError>
        requires orderly { IsTrue (is_orderly (plain_event event)) }
        requires room { self.old.at + 1 < 2 ^ 64 }
        ensures told { OnOk result (told_by self.new ≡ event_told (plain_event event) (told_by self.old)) }
        ensures at { OnOk result (self.new.at ≡ self.old.at + 1) }
        ensures unchanged { OnErr result (told_by self.new ≡ told_by self.old) }
    {
        match self.plant.apply(event) {
            Ok(_) => {
                self.at += 1;
                Ok(())
            }
            Err((_event, error)) => Err(error),
        }
    }
}
