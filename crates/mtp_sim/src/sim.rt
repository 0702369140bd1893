//! A simulated module.
ghost use Rattle.std.specs.Prelude.{◌≡◌, ◌+◌, IfOk, IfSome, Some, ◌≤◌, false, is_some, length, map};
ghost use Rattle.mtp_codes.specs.Repeats.{repeats_by};
ghost use Rattle.mtp_desc.specs.PlainDescription.{plain_description};
ghost use Rattle.mtp_desc.specs.Plain.{same_service};
ghost use Rattle.mtp_desc.specs.PlainService.{plain_service};
ghost use Rattle.mtp_sim.specs.Commands.{after_command, place_of, took, took_at};
ghost use Rattle.mtp_sim.specs.Sims.{first_drift, first_service, first_sim, plain_plan};
ghost use Rattle.mtp_sim.specs.Ticks.{drift_here, drift_report, is_at_rest, is_executing, is_pending, place_after};
ghost use Rattle.mtp_sim.specs.Ticks.{service_here, service_report, tick_report, ticked, ticked_at, ticked_at_drift};
ghost use Rattle.mtp_sim.specs.Ticks.{value_told};
ghost use Rattle.mtp_sim.specs.Told.{FollowsEdges, StayUntold};

use super::drift::SimDrift;
use super::looks::{
    any_changes, any_left, any_silent, any_untold, drift_at, is_executing, place_after, put_drift,
    put_service, service_at,
};
use super::plan::{Drift, SimPlan};
use super::report::SimReport;
use super::service::SimService;
use indexmap::IndexSet;
use mtp_codes::{Command, Name, Value};
use mtp_desc::{Description, Service};
use std::alloc::{AllocError, Global};
use std::marker::Model;
use std::sync::Arc;

/// A module that is simulated. Its services begin Idle and its drifts at their first values; the first ticks report
/// them one by one, and then the ticks look at one after the other, again and again.
#[derive(Drop)]
pub struct Sim {
    description: Arc<Description>,
    ticks: u16,
    run: u16,
    // The names of the services in their order.
    names: IndexSet<Name>,
    services: Vec<SimService>,
    drifts: Vec<SimDrift>,
    place: usize,
}

impl Model for Sim {
    ghost use Rattle.mtp_desc.specs.PlainDescription.{plain_description};
    ghost use Rattle.mtp_sim.specs.Sims.{PlainSim};
    ghost use Rattle.mtp_sim.specs.Kept.{IsIndexed};

    ghost Value = { PlainSim };

    ghost view = { λ sim. record {
      description = plain_description sim.description.value;
      ticks = sim.ticks;
      run = sim.run;
      services = sim.services.items;
      drifts = sim.drifts.items;
      place = sim.place;
    } };

    ghost invariant = { λ sim. IsIndexed sim.names.keys sim.services.items };
}

// The services of a description at first.
fn first_services(alloc: Global, services: &[Service]) -> Result<Vec<SimService>, AllocError>
    ensures { IfOk result (λ first. first.items
        ≡ map (λ service. first_service service.name) (map plain_service services.now)) }
{
    let mut first = Vec::new(alloc);
    for service in services {
        first.push(SimService::first(service.name))?;
    }
    Ok(first)
}

// The drifts of a plan at first.
fn first_drifts(alloc: Global, drifts: &[Drift]) -> Result<Vec<SimDrift>, AllocError>
    ensures { IfOk result (λ first. first.items ≡ map first_drift drifts.now) }
{
    let mut first = Vec::new(alloc);
    for drift in drifts {
        first.push(SimDrift::first(drift))?;
    }
    Ok(first)
}

// The names of the services of a description in their order.
fn names_of(alloc: Global, services: &[Service]) -> Result<IndexSet<Name>, AllocError>
    requires { repeats_by same_service (map plain_service services.now) ≡ false }
    ensures { IfOk result (λ names. names.keys ≡ map (λ service. service.name) (map plain_service services.now)) }
{
    let mut names = IndexSet::new(alloc);
    for service in services {
        names.insert(service.name)?;
    }
    Ok(names)
}

impl Sim {
    /// The module of this description at first: each service is Idle, and nothing was reported. The plan is to be one
    /// for this description, with drifts of its variables alone: its reports are then ones that the description knows.
    ///
    /// # Errors
    ///
    /// Where there is no memory.
    pub fn new(
        alloc: Global,
        description: Arc<Description>,
        plan: &SimPlan,
    ) -> Result<Sim, AllocError>
        ensures { IfOk result (λ sim. sim ≡ first_sim (plain_description description.value) (plain_plan plan.now)) }
    {
        let described: &[Service] = &description.services;
        let names = names_of(alloc, described)?;
        let services = first_services(alloc, described)?;
        let drifts = first_drifts(alloc, &plan.drifts)?;
        Ok(Sim {
            description,
            ticks: plan.ticks,
            run: plan.run,
            names,
            services,
            drifts,
            place: 0,
        })
    }

    // The place after this one.
    fn next_place(&self) -> usize
        ensures { result ≡ place_after (length self.now.services + length self.now.drifts) self.now.place }
    {
        place_after(self.services.len() + self.drifts.len(), self.place)
    }

    // A tick that looks at the service at its place.
    fn tick_service(&mut self, mut service: SimService) -> Option<SimReport>
        requires here { service_here self.old ≡ Some service }
        ensures report { result ≡ service_report self.old service }
        ensures after { self.new ≡ ticked_at self.old (Some service) }
    {
        let place = self.place;
        self.place = self.next_place();
        let reports = service.tick(&self.description, self.ticks, self.run);
        put_service(&mut self.services, place, service);
        if !reports {
            return None;
        }
        Some(service.report(&self.description))
    }

    // The value that a tick reports of a drift, if any.
    fn value_told(&self, drift: &SimDrift) -> Option<i64>
        ensures { result ≡ value_told (is_executing self.now.services) drift.now }
    {
        drift.value_told(is_executing(&self.services))
    }

    // A tick that looks at the drift at its place.
    fn tick_drift(&mut self, mut drift: SimDrift) -> Option<SimReport>
        requires place { length self.old.services ≤ self.old.place }
        ensures report { result ≡ drift_report self.old (Some drift) }
        ensures after { self.new ≡ ticked_at_drift self.old (Some drift) }
    {
        let place = self.place - self.services.len();
        self.place = self.next_place();
        let value = self.value_told(&drift)?;
        drift.last = Some(value);
        put_drift(&mut self.drifts, place, drift);
        Some(SimReport::Variable {
            name: drift.name,
            value: Value::Whole(value),
        })
    }

    // One tick.
    fn tick_once(&mut self) -> Option<SimReport>
        ensures report { result ≡ tick_report self.old }
        ensures after { self.new ≡ ticked self.old }
    {
        if let Some(service) = service_at(&self.services, self.place) {
            return self.tick_service(service);
        }
        if let Some(drift) = drift_at(&self.drifts, self.place - self.services.len()) {
            return self.tick_drift(drift);
        }
        self.place = self.next_place();
        None
    }

    /// One tick: it looks at one service or one drift, and says what is reported, if anything is. What is reported of a
    /// service is Idle at first, and then a state to which an edge leads from the one reported last; and no service
    /// leaves a state that it hasn't reported yet.
    pub fn tick(&mut self) -> Option<SimReport>
        ensures report { result ≡ tick_report self.old }
        ensures after { self.new ≡ ticked self.old }
        ensures edges { IfSome result (FollowsEdges self.old) }
        ensures stays { StayUntold self.old self.new }
    {
        let _services = &self.services;
        self.tick_once()
    }

    // The place of the service of this name.
    fn place_of(&self, name: Name) -> Option<usize>
        ensures { result ≡ place_of name self.now }
    {
        self.names.get_index_of(&name)
    }

    // The service at a place takes a command.
    fn take_at(&mut self, place: usize, command: Command, procedure: u16) -> bool
        requires calm { is_pending self.old ≡ false }
        ensures taken { result ≡ is_some (took_at self.old command procedure place) }
        ensures after { self.new ≡ after_command self.old (took_at self.old command procedure place) }
    {
        let Some(service) = service_at(&self.services, place) else {
            return false;
        };
        let Some(after) = service.taken(&self.description, command, procedure) else {
            return false;
        };
        put_service(&mut self.services, place, after);
        true
    }

    /// A service takes a command, for a start with this procedure, 0 being the default one. It does where the service
    /// is there, the command leaves its state, it isn't Complete for a procedure that completes by itself, and the
    /// procedure of a start is there. The answer is whether it does; if not, nothing changed.
    pub fn take(&mut self, service: Name, command: Command, procedure: u16) -> bool
        requires calm { is_pending self.old ≡ false }
        ensures taken { result ≡ is_some (took self.old service command procedure) }
        ensures after { self.new ≡ after_command self.old (took self.old service command procedure) }
        ensures refused { result ≡ false → self.new ≡ self.old }
    {
        match self.place_of(service) {
            Some(place) => self.take_at(place, command, procedure),
            None => false,
        }
    }

    /// Whether a state of a service or a first value of a drift is still to be reported.
    pub fn pending(&self) -> bool
        ensures { result ≡ is_pending self.now }
    {
        any_untold(&self.services) || any_silent(&self.drifts)
    }

    /// Whether it reports nothing more until it takes a command.
    pub fn at_rest(&self) -> bool
        ensures { result ≡ is_at_rest self.now }
    {
        !self.pending()
            && !any_changes(&self.services, &self.description)
            && !(is_executing(&self.services) && any_left(&self.drifts))
    }
}
