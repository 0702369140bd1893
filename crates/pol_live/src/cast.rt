//! A plant with its actors: what each turn looks at and changes.
ghost use Rattle.std.specs.Prelude.{◌≡◌, ◌<◌, [], IfOk, OnErr, OnOk, length, false};
ghost use Rattle.pol_history.specs.Runs.{IsLegal, IsOrderly};
ghost use Rattle.pol_site.specs.Actors.{actors};
ghost use Rattle.pol_site.specs.Commanded.{IsCommanded};
ghost use Rattle.pol_site.specs.Following.{FollowsSite};
ghost use Rattle.pol_site.specs.PlainSite.{plain_site};
ghost use Rattle.pol_history.specs.Answers.{is_full};
ghost use Rattle.pol_actors.specs.Kept.{AreFirstStages, AreFirstUnits, AreOwners};
ghost use Rattle.pol_live.specs.Parts.{IsRun};
ghost use Rattle.pol_live.specs.Turns.{IsAsBefore, Turns, history_of};

use crate::actor_kind::{ActorKind, actor_kind, actors_of};
use crate::job::Job;
use crate::turned::Turned;
use mtp_codes::LONGEST_HISTORY;
use pol_actors::{Desk, Exchanger, Stage, Unit};
use pol_core::Plant;
use pol_events::Entry;
use pol_io::Clock;
use pol_site::Site;
use std::alloc::{AllocError, Global};
use std::marker::{Model, PhantomData};
use std::sync::Arc;

/// A plant with its site and its clock, and the state of each actor of the site.
#[derive(Drop)]
pub(crate) struct Cast<J: Job, C: Clock> {
    pub(crate) alloc: Global,
    pub(crate) site: Arc<Site>,
    pub(crate) plant: Plant,
    pub(crate) clock: C,
    pub(crate) exchanger: Exchanger,
    pub(crate) units: Vec<Unit>,
    pub(crate) stages: Vec<Stage>,
    pub(crate) desk: Desk,
    pub(crate) by: Vec<u32>,
    pub(crate) of: PhantomData<J>,
}

impl<J: Job, C: Clock> Model for Cast<J, C> {
    ghost use Rattle.std.specs.Prelude.{◌≡◌};
    ghost use Rattle.std.specs.Coded.{codes};
    ghost use Rattle.pol_core.specs.Plants.{plant_history};
    ghost use Rattle.pol_actors.specs.contracts.unit.Unit as unit_type;
    ghost use Rattle.pol_events.specs.contracts.event.Entry as entry_type;
    ghost use Rattle.pol_site.specs.PlainSite.{plain_site};
    ghost use Rattle.pol_actors.specs.Kept.{IsKept};
    ghost use Rattle.pol_live.specs.Turns.{Locked};

    ghost Value = { Locked };

    ghost coded = { Prim.hlevel (codes, entry_type.the_row.coded, unit_type.the_row.coded) };

    ghost view = { λ cast. record {
      entries = cast.plant.entries;
      by = cast.by.items;
      last = C.last cast.clock;
      calls = C.calls cast.clock;
      units = cast.units.items;
    } };

    ghost invariant = { λ cast. (plain_site cast.site.value ≡ J.site)
        × IsKept J.site (plant_history cast.plant) cast.by.items cast.exchanger cast.units.items
        cast.stages.items cast.desk };
}

// The modules at first.
fn first_units(alloc: Global, count: usize) -> Result<Vec<Unit>, AllocError>
    ensures { IfOk result (λ units. AreFirstUnits count units.items) }
{
    let mut units = Vec::new(alloc);
    for _ in 0..count {
        units.push(Unit::first())?;
    }
    Ok(units)
}

// The batches at first.
fn first_stages(alloc: Global, count: usize) -> Result<Vec<Stage>, AllocError>
    ensures { IfOk result (λ stages. AreFirstStages count stages.items) }
{
    let mut stages = Vec::new(alloc);
    for _ in 0..count {
        stages.push(Stage::Unsent)?;
    }
    Ok(stages)
}

impl<J: Job, C: Clock> Cast<J, C> {
    /// An empty plant of the site.
    ///
    /// # Errors
    ///
    /// Where there is no memory.
    pub(crate) fn new(alloc: Global, site: Arc<Site>, clock: C) -> Result<Cast<J, C>, AllocError>
        requires site { plain_site site.value ≡ J.site }
        ensures history { IfOk result (λ plant. plant.entries ≡ []) }
        ensures by { IfOk result (λ plant. plant.by ≡ []) }
        ensures clock { IfOk result (λ plant. (plant.last ≡ C.last clock) × (plant.calls ≡ C.calls clock)) }
        ensures units { IfOk result (λ plant. AreFirstUnits (length J.site.modules) plant.units) }
    {
        let units = first_units(alloc, site.modules.len())?;
        let stages = first_stages(alloc, site.batches.len())?;
        Ok(Cast {
            alloc,
            site,
            plant: Plant::new(alloc),
            clock,
            exchanger: Exchanger::first(),
            units,
            stages,
            desk: Desk { ordered: 0 },
            by: Vec::new(alloc),
            of: PhantomData,
        })
    }

    /// The history is that of a run of the site.
    pub(crate) fn is_of_a_run(&self)
        ensures { IsRun J.site self.now.entries self.now.by }
    {
        let _ = &self.plant;
    }

    /// The site.
    pub(crate) fn site(&self) -> &Site
        ensures { plain_site result.now ≡ J.site }
    {
        &self.site
    }

    /// The entries of the history, the oldest first.
    pub(crate) fn history(&self) -> &[Entry]
        ensures { result.now ≡ self.now.entries }
    {
        self.plant.history()
    }

    /// How many actors there are.
    pub(crate) fn actors(&self) -> u32
        ensures { result ≡ length (actors J.site) }
    {
        actors_of(&self.site)
    }

    /// Whether the history is full.
    pub(crate) fn is_full(&self) -> bool
        ensures { result ≡ is_full (history_of self.now) }
    {
        self.plant.history().len() >= LONGEST_HISTORY
    }

    // One turn of an actor, where the history has room.
    fn act(&mut self, actor: u32) -> Result<Turned, AllocError>
        requires actor { actor < length (actors J.site) }
        requires room { is_full (history_of self.old) ≡ false }
        ensures ok { IfOk result (λ turned. Turns J.site self.old self.new actor turned) }
        ensures err { OnErr result (IsAsBefore J.site self.old self.new actor) }
    {
        match actor_kind(&self.site, actor) {
            ActorKind::Exchanger => self.exchanger_turn(),
            ActorKind::Module { place } => self.module_turn(actor, place),
            ActorKind::Batch { place } => self.batch_turn(actor, place),
            ActorKind::Desk => self.desk_turn(actor),
        }
    }

    /// One turn of an actor. It applies at most one event of the actor, whose stamp the clock gives in this turn.
    ///
    /// # Errors
    ///
    /// Where there is no memory. Then nothing changed; at most the clock was asked.
    pub(crate) fn turn(&mut self, actor: u32) -> Result<Turned, AllocError>
        requires actor { actor < length (actors J.site) }
        ensures ok { IfOk result (λ turned. Turns J.site self.old self.new actor turned) }
        ensures err { OnErr result (IsAsBefore J.site self.old self.new actor) }
    {
        if self.is_full() {
            return Ok(Turned::Full);
        }
        self.act(actor)
    }

    /// The history and who made each entry, once the plant is done with: the history is legal, follows the site, and
    /// each change in it has its command.
    pub(crate) fn into_parts(self) -> (Vec<Entry>, Vec<u32>)
        ensures entries { result.0.items ≡ self.entries }
        ensures by { result.1.items ≡ self.by }
        ensures legal { IsLegal (history_of self) }
        ensures orderly { IsOrderly (history_of self) }
        ensures follows { FollowsSite J.site (history_of self) }
        ensures commanded { IsCommanded (history_of self) }
        ensures owned { AreOwners J.site (history_of self) self.by }
    {
        let Cast { plant, by, .. } = self;
        (plant.into_history(), by)
    }
}
