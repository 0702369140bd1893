//! A module of a site: its simulation, while it is docked, and which exchange brought what is docked.
ghost use Rattle.std.specs.Prelude.{◌≡◌, ◌≤◌, IfOk, None, OnErr, OnOk, length};
ghost use Rattle.mtp_desc.specs.PlainDescription.{plain_description};
ghost use Rattle.mtp_sim.specs.Sims.{plain_plan};
ghost use Rattle.pol_site.specs.PlainSite.{plain_site};
ghost use Rattle.pol_site.specs.Views.{plain_module};
ghost use Rattle.pol_actors.specs.Moved.{unit_after};
ghost use Rattle.pol_actors.specs.Turning.{first_made, made_after, made_decides, made_of, next_found, origin_of};
ghost use Rattle.pol_actors.specs.Turning.{simulated};

use crate::exchanger::Errand;
use crate::items::item_at;
use crate::simulation::{Decision, Simulation};
use mtp_desc::Description;
use mtp_sim::{Sim, SimPlan};
use pol_core::Plant;
use pol_events::Answer;
use pol_site::{Site, SiteModule};
use std::alloc::{AllocError, Global};
use std::sync::Arc;

/// A module of a site.
#[derive(Drop)]
pub struct Unit {
    /// Its simulation, since its first turn after it was docked.
    pub made: Option<Simulation>,
    /// The place of the exchange that brought the module, if one did; else it is the one that was plugged.
    pub brought: Option<usize>,
}

// The simulation of a module that was docked when the history had this length.
fn first_made(
    alloc: Global,
    description: &Arc<Description>,
    plan: &SimPlan,
    length: u32,
) -> Result<Simulation, AllocError>
    ensures { IfOk result (λ made. made
        ≡ first_made (record { description = plain_description description.now.value; plan = plain_plan plan.now })
        length) }
{
    let sim = Sim::new(alloc, description.clone()?, plan)?;
    Ok(Simulation { sim, place: length })
}

impl Unit {
    /// A module at first: it isn't docked yet.
    pub fn first() -> Unit
        ensures made { result.made ≡ None }
        ensures brought { result.brought ≡ None }
    {
        Unit {
            made: None,
            brought: None,
        }
    }

    // Its simulation at first, of what is docked.
    fn start(
        &self,
        alloc: Global,
        site: &Site,
        unit: &SiteModule,
        length: u32,
    ) -> Result<Simulation, AllocError>
        ensures { IfOk result (λ made. made
            ≡ first_made (origin_of (plain_site site.now) (plain_module unit.now) self.now.brought) length) }
    {
        match self.brought {
            Some(place) => match item_at(&site.exchanges, place) {
                Some(exchange) => first_made(alloc, &exchange.desc, &exchange.sim, length),
                None => first_made(alloc, &unit.desc, &unit.sim, length),
            },
            None => first_made(alloc, &unit.desc, &unit.sim, length),
        }
    }

    /// One turn, where it is docked and the history has this length: it makes its simulation first, if it has none.
    ///
    /// # Errors
    ///
    /// Where there is no memory for the simulation. Then nothing changed.
    pub fn turn(
        &mut self,
        alloc: Global,
        site: &Site,
        unit: &SiteModule,
        plant: &Plant,
        count: u32,
    ) -> Result<Decision, AllocError>
        requires place { (made_of (plain_site site.now) (plain_module unit.now) count self.old).place
            ≤ length plant.now.entries }
        ensures decides { IfOk result (λ decision. decision ≡ made_decides
            (next_found unit.now.tag (made_of (plain_site site.now) (plain_module unit.now) count self.old)
            plant.now.entries) (made_of (plain_site site.now) (plain_module unit.now) count self.old)) }
        ensures after { OnOk result (self.new ≡ simulated self.old (made_after
            (next_found unit.now.tag (made_of (plain_site site.now) (plain_module unit.now) count self.old)
            plant.now.entries) (made_of (plain_site site.now) (plain_module unit.now) count self.old))) }
        ensures err { OnErr result (self.new ≡ self.old) }
    {
        let mut made = match self.made.take() {
            Some(made) => made,
            None => self.start(alloc, site, unit, count)?,
        };
        let decision = made.turn(unit.tag, plant);
        self.made = Some(made);
        Ok(decision)
    }

    /// What an errand of the exchanger makes of it, where it is about its exchange and was answered so.
    pub fn after(&mut self, errand: &Errand, answer: &Answer)
        ensures { self.new ≡ unit_after errand.now answer.now self.old }
    {
        match *errand {
            Errand::Open { .. } => {},
            Errand::Begin { .. } | Errand::Cancel { .. } => self.made = None,
            Errand::End { place, .. } => {
                if matches!(answer, Answer::Done) {
                    self.made = None;
                    self.brought = Some(place);
                }
            },
        }
    }
}
