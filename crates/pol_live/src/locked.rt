//! The locked plant: all that a turn needs, in one value.
ghost use Rattle.std.specs.Prelude.{◌≡◌, ◌<◌, ◌≤◌, [], IfOk, OnErr, length};
ghost use Rattle.mtp_codes.specs.declared.limits.TheConstants.{LONGEST_HISTORY};
ghost use Rattle.pol_history.specs.Runs.{IsLegal, IsOrderly};
ghost use Rattle.pol_shown.specs.Displays.{Shows};
ghost use Rattle.pol_shown.specs.Followed.{before_newest};
ghost use Rattle.pol_site.specs.Actors.{actors};
ghost use Rattle.pol_site.specs.Commanded.{IsCommanded};
ghost use Rattle.pol_site.specs.Following.{FollowsSite};
ghost use Rattle.pol_site.specs.PlainSite.{plain_site};
ghost use Rattle.pol_actors.specs.Kept.{AreFirstUnits, AreOwners};
ghost use Rattle.pol_live.specs.Parts.{IsRun};
ghost use Rattle.pol_live.specs.Turns.{IsAsBefore, Tells, Turns, history_of};

use crate::cast::Cast;
use crate::concerns::Concern;
use crate::job::Job;
use crate::turned::Turned;
use pol_events::Entry;
use pol_io::Clock;
use pol_shown::{Display, Watcher};
use pol_site::Site;
use std::alloc::{AllocError, Global};
use std::marker::Model;
use std::sync::Arc;

/// A plant with its site, its clock, the state of each actor of the site, and the status board that shows its history:
/// what lies under the plant's one lock.
#[derive(Drop)]
pub struct LockedPlant<J: Job, C: Clock> {
    cast: Cast<J, C>,
    display: Display,
}

impl<J: Job, C: Clock> Model for LockedPlant<J, C> {
    ghost use Rattle.std.specs.Coded.{codes};
    ghost use Rattle.pol_actors.specs.contracts.unit.Unit as unit_type;
    ghost use Rattle.pol_events.specs.contracts.event.Entry as entry_type;
    ghost use Rattle.pol_shown.specs.Displays.{Shows};
    ghost use Rattle.pol_live.specs.Turns.{Locked, history_of};

    ghost Value = { Locked };

    ghost coded = { Prim.hlevel (codes, entry_type.the_row.coded, unit_type.the_row.coded) };

    ghost view = { λ locked. locked.cast };

    ghost invariant = { λ locked. Shows J.site (history_of locked.cast) locked.display };
}

// Shows the history with its newest entry.
fn show<J: Job, C: Clock>(cast: &Cast<J, C>, display: &mut Display)
    requires short { length cast.now.entries ≤ LONGEST_HISTORY }
    requires shown { Shows J.site (before_newest (history_of cast.now)) display.old }
    ensures { Shows J.site (history_of cast.now) display.new }
{
    display.follow(cast.site(), cast.history());
}

impl<J: Job, C: Clock> LockedPlant<J, C> {
    /// An empty plant of the site.
    ///
    /// # Errors
    ///
    /// Where there is no memory.
    pub fn new(alloc: Global, site: Arc<Site>, clock: C) -> Result<LockedPlant<J, C>, AllocError>
        requires site { plain_site site.value ≡ J.site }
        ensures history { IfOk result (λ plant. plant.entries ≡ []) }
        ensures by { IfOk result (λ plant. plant.by ≡ []) }
        ensures clock { IfOk result (λ plant. (plant.last ≡ C.last clock) × (plant.calls ≡ C.calls clock)) }
        ensures units { IfOk result (λ plant. AreFirstUnits (length J.site.modules) plant.units) }
    {
        let display = Display::new(alloc, &site)?;
        let cast = Cast::new(alloc, site, clock)?;
        Ok(LockedPlant { cast, display })
    }

    /// How many actors there are.
    pub fn actors(&self) -> u32
        ensures { result ≡ length (actors J.site) }
    {
        self.cast.actors()
    }

    /// How many entries the history has.
    pub(crate) fn length(&self) -> usize {
        self.cast.history().len()
    }

    /// Whether the history is full.
    pub(crate) fn is_full(&self) -> bool {
        self.cast.is_full()
    }

    /// Whom the newest entry concerns.
    pub(crate) fn concern(&self) -> Concern {
        self.cast.concern()
    }

    /// Whether an actor that rests has something to do, where the newest entry is of this concern.
    pub(crate) fn goes_on(&self, actor: u32, concern: &Concern) -> bool
        requires actor { actor < length (actors J.site) }
    {
        self.cast.goes_on(actor, concern)
    }

    /// Whatever turns were taken, the history is legal and orderly, follows the site, has a command for each change,
    /// and it is known who made each entry.
    pub fn is_of_a_run(&self)
        ensures { IsRun J.site self.now.entries self.now.by }
    {
        self.cast.is_of_a_run();
    }

    /// One turn of an actor. It applies at most one event of the actor, whose stamp the clock gives in this turn. What
    /// the event shows is on the status board before the turn ends.
    ///
    /// # Errors
    ///
    /// Where there is no memory. Then nothing changed: neither the history nor a module; only of an event that takes
    /// memory, a recipe, a plug, a start or the end of an exchange, the clock may have been asked.
    pub fn turn(&mut self, actor: u32) -> Result<Turned, AllocError>
        requires actor { actor < length (actors J.site) }
        ensures ok { IfOk result (λ turned. Turns J.site self.old self.new actor turned) }
        ensures err { OnErr result (IsAsBefore J.site self.old self.new actor) }
    {
        let turned = self.cast.turn(actor)?;
        match turned {
            Turned::Made(_) => show(&self.cast, &mut self.display),
            Turned::Looked | Turned::Rested | Turned::Full => {},
        }
        Ok(turned)
    }

    /// One who watches the status board, and knows what the history shows.
    ///
    /// # Errors
    ///
    /// Where the board can't be shared once more.
    pub fn watcher(&mut self) -> Result<Watcher, AllocError>
        ensures same { self.new ≡ self.old }
        ensures told { IfOk result (λ watcher. Tells J.site (history_of self.old) watcher.words) }
    {
        self.display.watcher()
    }

    /// The history and who made each entry, once the plant is done with: the history is legal, follows the site, and
    /// each change in it has its command.
    pub fn into_parts(self) -> (Vec<Entry>, Vec<u32>)
        ensures entries { result.0.items ≡ self.entries }
        ensures by { result.1.items ≡ self.by }
        ensures legal { IsLegal (history_of self) }
        ensures orderly { IsOrderly (history_of self) }
        ensures follows { FollowsSite J.site (history_of self) }
        ensures commanded { IsCommanded (history_of self) }
        ensures owned { AreOwners J.site (history_of self) self.by }
    {
        let LockedPlant { cast, .. } = self;
        cast.into_parts()
    }
}
