//! The turns of the four kinds of actor.
ghost use Rattle.std.specs.Prelude.{◌≡◌, ◌<◌, ◌+◌, IfOk, OnErr, false, length, suc};
ghost use Rattle.pol_history.specs.Answers.{is_full};
ghost use Rattle.pol_events.specs.Events.{plain_event};
ghost use Rattle.pol_simulated.specs.Units.{report_event};
ghost use Rattle.pol_history.specs.Modules.{docking_of};
ghost use Rattle.pol_core.specs.Plants.{plant_history};
ghost use Rattle.pol_live.specs.Turns.{IsAsBefore, Turns, history_of, is_docked};

use crate::cast::Cast;
use crate::entering::{enter, enter_spared};
use crate::job::Job;
use crate::turned::Turned;
use mtp_codes::Name;
use mtp_sim::SimReport;
use pol_actors::{Decision, move_units};
use pol_core::{Docking, Plant};
use pol_events::Event;
use pol_io::Clock;
use std::alloc::AllocError;

// Whether a module is docked under the tag.
fn is_docked(plant: &Plant, tag: Name) -> bool
    ensures { result ≡ is_docked (docking_of (plant_history plant.now) tag) }
{
    matches!(plant.docking(tag), Docking::Docked(_))
}

// The event of a report, with the stamp 0.
fn report_event(tag: Name, report: SimReport) -> Event
    ensures { plain_event result ≡ report_event 0 tag report }
{
    match report {
        SimReport::Service { name, control } => Event::Report {
            at: 0,
            tag,
            service: name,
            control,
        },
        SimReport::Variable { name, value } => Event::Variable {
            at: 0,
            tag,
            name,
            value,
        },
    }
}

impl<J: Job, C: Clock> Cast<J, C> {
    /// A turn of the exchanger.
    pub(crate) fn exchanger_turn(&mut self) -> Result<Turned, AllocError>
        requires room { is_full (history_of self.old) ≡ false }
        ensures ok { IfOk result (λ turned. Turns J.site self.old self.new 0 turned) }
        ensures err { OnErr result (IsAsBefore J.site self.old self.new 0) }
    {
        let length = self.plant.history().len() as u32;
        let Some(errand) = self.exchanger.errand(&self.site, &self.plant, length) else {
            return Ok(Turned::Rested);
        };
        let Some(event) = errand.event(&self.site)? else {
            unreachable!();
        };
        let placed = enter(&mut self.plant, &mut self.by, &mut self.clock, 0, event)?;
        self.exchanger = self.exchanger.after(&errand, &placed.answer);
        move_units(&self.site, &mut self.units, &errand, &placed.answer);
        Ok(Turned::Made(placed))
    }

    /// A turn of the module at a place, which is this actor.
    pub(crate) fn module_turn(&mut self, actor: u32, place: usize) -> Result<Turned, AllocError>
        requires actor { actor ≡ suc place }
        requires place { place < length J.site.modules }
        requires room { is_full (history_of self.old) ≡ false }
        ensures ok { IfOk result (λ turned. Turns J.site self.old self.new (suc place) turned) }
        ensures err { OnErr result (IsAsBefore J.site self.old self.new (suc place)) }
    {
        let unit = &self.site.modules[place];
        if !is_docked(&self.plant, unit.tag) {
            return Ok(Turned::Rested);
        }
        self.plant.reserve(1)?;
        self.by.reserve(1)?;
        let length = self.plant.history().len() as u32;
        match self.units[place].turn(self.alloc, &self.site, unit, &self.plant, length)? {
            Decision::Rests => Ok(Turned::Rested),
            Decision::Looks => Ok(Turned::Looked),
            Decision::Reports(report) => {
                let event = report_event(unit.tag, report);
                let placed = enter_spared(
                    &mut self.plant,
                    &mut self.by,
                    &mut self.clock,
                    actor,
                    event,
                );
                Ok(Turned::Made(placed))
            },
        }
    }

    /// A turn of the batch at a place, which is this actor.
    pub(crate) fn batch_turn(&mut self, actor: u32, place: usize) -> Result<Turned, AllocError>
        requires actor { actor ≡ suc (length J.site.modules + place) }
        requires place { place < length J.site.batches }
        requires room { is_full (history_of self.old) ≡ false }
        ensures ok { IfOk result
            (λ turned. Turns J.site self.old self.new (suc (length J.site.modules + place)) turned) }
        ensures err { OnErr result
            (IsAsBefore J.site self.old self.new (suc (length J.site.modules + place))) }
    {
        let batch = &self.site.batches[place];
        let stage = self.stages[place];
        let Some(event) = stage.next_event(self.alloc, batch, &self.plant)? else {
            return Ok(Turned::Rested);
        };
        let placed = enter(&mut self.plant, &mut self.by, &mut self.clock, actor, event)?;
        self.stages[place] = stage.after(&placed.answer);
        Ok(Turned::Made(placed))
    }

    /// A turn of the desk, which is this actor.
    pub(crate) fn desk_turn(&mut self, actor: u32) -> Result<Turned, AllocError>
        requires actor { actor ≡ suc (length J.site.modules + (length J.site.batches + 0)) }
        requires room { is_full (history_of self.old) ≡ false }
        ensures ok { IfOk result
            (λ turned. Turns J.site self.old self.new (suc (length J.site.modules + (length J.site.batches + 0)))
            turned) }
        ensures err { OnErr result (IsAsBefore J.site self.old self.new
            (suc (length J.site.modules + (length J.site.batches + 0)))) }
    {
        let length = self.plant.history().len() as u32;
        let Some(event) = self.desk.next_event(&self.site, length) else {
            return Ok(Turned::Rested);
        };
        let placed = enter(&mut self.plant, &mut self.by, &mut self.clock, actor, event)?;
        self.desk.sent();
        Ok(Turned::Made(placed))
    }
}
