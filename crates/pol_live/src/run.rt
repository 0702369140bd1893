//! A site is run to its end, by threads or all turns in the thread of the caller.
ghost use Rattle.std.specs.Prelude.{◌≡◌, length, IfOk};
ghost use denote.Param.Send.{IsSend, IsSync};
ghost use Rattle.pol_events.specs.Events.{plain_history};
ghost use Rattle.pol_history.specs.Runs.{IsLegal, IsOrderly};
ghost use Rattle.pol_site.specs.Actors.{actors};
ghost use Rattle.pol_site.specs.Commanded.{IsCommanded};
ghost use Rattle.pol_site.specs.Following.{FollowsSite};
ghost use Rattle.pol_site.specs.Settled.{IsSettled};
ghost use Rattle.pol_site.specs.PlainSite.{plain_site};
ghost use Rattle.pol_actors.specs.Kept.{AreOwners};
ghost use Rattle.pol_live.specs.Seats.{AreSeated};

use crate::acting::{Crew, act, rotate};
use crate::actor_kind::actors_of;
use crate::gate::Gate;
use crate::job::Job;
use crate::live::LivePlant;
use crate::rounds::settle;
use crate::seat::ActorSeat;
use pol_events::Entry;
use pol_io::Clock;
use pol_shown::Watcher;
use pol_site::Site;
use std::alloc::{AllocError, Global};
use std::marker::Brand;
use std::sync::ledger::Blank;
use std::sync::{Arc, Wait};
use std::thread;
use std::thread::{Promise, SpawnError, Threads};

/// What a run left: the history, the oldest entry first, and the number of the actor that made each entry.
#[derive(Drop)]
pub struct Ran {
    /// The history.
    pub history: Vec<Entry>,
    /// Who made each entry.
    pub by: Vec<u32>,
}

/// Runs a site to its end: until no actor has anything to do, or the history is full. Each actor takes its turns in a
/// thread of its own, where one can be made, and passes the gate before each; it may wait. Meanwhile as
/// many watchers as asked for read the status board, each in a thread of its own where one can be made.
///
/// # Errors
///
/// Where there is no memory.
pub fn run_site<R: Threads + Wait + Sync, C: Clock + Send, G: Gate>(
    rt: &R,
    alloc: Global,
    site: Site,
    watchers: u16,
    clock: C,
    gate: &G,
) -> Result<Ran, AllocError>
    ensures legal { IfOk result (λ ran. IsLegal (plain_history ran.history.items)) }
    ensures orderly { IfOk result (λ ran. IsOrderly (plain_history ran.history.items)) }
    ensures follows { IfOk result (λ ran. FollowsSite (plain_site site) (plain_history ran.history.items)) }
    ensures commanded { IfOk result (λ ran. IsCommanded (plain_history ran.history.items)) }
    ensures owned { IfOk result (λ ran. AreOwners (plain_site site) (plain_history ran.history.items) ran.by.items) }
    ensures settled { IfOk result (λ ran. IsSettled (plain_site site) (plain_history ran.history.items)) }
{
    let blank = Blank::new(u64::from(actors_of(&site)));
    run_by_threads::<Brand, R, C, G>(rt, alloc, site, watchers, clock, gate, blank)
}

// The run by threads, as any run of this site.
fn run_by_threads<J: Job + Send + Sync, R: Threads + Wait + Sync, C: Clock + Send, G: Gate>(
    rt: &R,
    alloc: Global,
    site: Site,
    watchers: u16,
    clock: C,
    gate: &G,
    blank: Blank,
) -> Result<Ran, AllocError>
    requires blank { (blank.name ≡ J.name) × (blank.parts ≡ J.parts) × (J.parts ≡ length (actors J.site)) }
    requires site { plain_site site ≡ J.site }
    ensures legal { IfOk result (λ ran. IsLegal (plain_history ran.history.items)) }
    ensures orderly { IfOk result (λ ran. IsOrderly (plain_history ran.history.items)) }
    ensures follows { IfOk result (λ ran. FollowsSite J.site (plain_history ran.history.items)) }
    ensures commanded { IfOk result (λ ran. IsCommanded (plain_history ran.history.items)) }
    ensures owned { IfOk result (λ ran. AreOwners J.site (plain_history ran.history.items) ran.by.items) }
    ensures settled { IfOk result (λ ran. IsSettled J.site (plain_history ran.history.items)) }
{
    let site = Arc::new(alloc, site)?;
    let (live, seats) = LivePlant::<J, C>::new(alloc, site, clock, blank)?;
    let watchers = live.watchers(rt, alloc, watchers)?;
    let crew = Crew::new(&live, gate);
    let driven = drive_watched(rt, alloc, &crew, seats, watchers);
    drop(crew);
    driven?;
    finish(rt, live)
}

/// Runs a site to its end: until no actor has anything to do, or the history is full. The actors take turns in
/// rotation, each in this thread, and pass the gate before each turn; it may wait.
///
/// # Errors
///
/// Where there is no memory.
pub fn run_in_turn<R: Wait, C: Clock + Send, G: Gate>(
    rt: &R,
    alloc: Global,
    site: Site,
    clock: C,
    gate: &G,
) -> Result<Ran, AllocError>
    ensures legal { IfOk result (λ ran. IsLegal (plain_history ran.history.items)) }
    ensures orderly { IfOk result (λ ran. IsOrderly (plain_history ran.history.items)) }
    ensures follows { IfOk result (λ ran. FollowsSite (plain_site site) (plain_history ran.history.items)) }
    ensures commanded { IfOk result (λ ran. IsCommanded (plain_history ran.history.items)) }
    ensures owned { IfOk result (λ ran. AreOwners (plain_site site) (plain_history ran.history.items) ran.by.items) }
    ensures settled { IfOk result (λ ran. IsSettled (plain_site site) (plain_history ran.history.items)) }
{
    let blank = Blank::new(u64::from(actors_of(&site)));
    run_by_turns::<Brand, R, C, G>(rt, alloc, site, clock, gate, blank)
}

// The run by turns, as any run of this site.
fn run_by_turns<J: Job, R: Wait, C: Clock + Send, G: Gate>(
    rt: &R,
    alloc: Global,
    site: Site,
    clock: C,
    gate: &G,
    blank: Blank,
) -> Result<Ran, AllocError>
    requires blank { (blank.name ≡ J.name) × (blank.parts ≡ J.parts) × (J.parts ≡ length (actors J.site)) }
    requires site { plain_site site ≡ J.site }
    ensures legal { IfOk result (λ ran. IsLegal (plain_history ran.history.items)) }
    ensures orderly { IfOk result (λ ran. IsOrderly (plain_history ran.history.items)) }
    ensures follows { IfOk result (λ ran. FollowsSite J.site (plain_history ran.history.items)) }
    ensures commanded { IfOk result (λ ran. IsCommanded (plain_history ran.history.items)) }
    ensures owned { IfOk result (λ ran. AreOwners J.site (plain_history ran.history.items) ran.by.items) }
    ensures settled { IfOk result (λ ran. IsSettled J.site (plain_history ran.history.items)) }
{
    let site = Arc::new(alloc, site)?;
    let (live, mut seats) = LivePlant::<J, C>::new(alloc, site, clock, blank)?;
    let crew = Crew::new(&live, gate);
    rotate(rt, &crew, &mut seats);
    drop(crew);
    finish(rt, live)
}

// What is left to do after the actors' own turns: rounds of turns by this thread alone, at whose end each actor is
// settled or the history is full.
fn finish<J: Job, R: Wait, C: Clock + Send>(
    rt: &R,
    live: LivePlant<J, C>,
) -> Result<Ran, AllocError>
    ensures legal { IfOk result (λ ran. IsLegal (plain_history ran.history.items)) }
    ensures orderly { IfOk result (λ ran. IsOrderly (plain_history ran.history.items)) }
    ensures follows { IfOk result (λ ran. FollowsSite J.site (plain_history ran.history.items)) }
    ensures commanded { IfOk result (λ ran. IsCommanded (plain_history ran.history.items)) }
    ensures owned { IfOk result (λ ran. AreOwners J.site (plain_history ran.history.items) ran.by.items) }
    ensures settled { IfOk result (λ ran. IsSettled J.site (plain_history ran.history.items)) }
{
    let mut plant = live.into_plant();
    settle(rt, &mut plant)?;
    let (history, by) = Box::into_inner(plant).into_parts();
    Ok(Ran { history, by })
}

/// What a thread promises that takes turns: the seat that it gives back is that of the actor with this number.
#[derive(Clone, Copy)]
pub struct SeatOf(pub u32);

impl<J: Job> Promise<ActorSeat<J>> for SeatOf {
    ghost kept_by = { λ promise seat. seat.actor ≡ promise.0 };
}

// The turns of all actors, each in a thread of its own; the seats come back in their order. Where a thread can't be
// made, this thread takes the turns of that actor and of those after it, in rotation. Room for all seats is taken
// before the first thread starts, so that no thread is left waiting for an actor that never comes.
fn drive<J: Job + Send + Sync, R: Threads + Wait + Sync, C: Clock + Send, G: Gate>(
    rt: &R,
    alloc: Global,
    crew: &Crew<'_, J, C, G>,
    seats: Vec<ActorSeat<J>>,
) -> Result<Vec<ActorSeat<J>>, AllocError>
    requires seats { AreSeated (length (actors J.site)) seats.items }
    ensures { IfOk result (λ seats. AreSeated (length (actors J.site)) seats.items) }
{
    thread::scope(
        thread::scope_env(),
        rt,
        |scope| -> Result<Vec<ActorSeat<J>>, AllocError>
            requires { IsSync R.row × IsSync G.row × IsSend C.row × IsSend J.row × IsSync J.row
                × AreSeated (length (actors J.site)) seats.items }
            ensures { IfOk result (λ seats. AreSeated (length (actors J.site)) seats.items) }
        {
            let mut children = Vec::with_capacity(alloc, seats.len())?;
            let mut here = Vec::with_capacity(alloc, seats.len())?;
            for seat in seats {
                if !here.is_empty() {
                    here.push_reserved(seat);
                    continue;
                }
                let actor = seat.actor();
                let work = move || act(rt, crew, seat);
                let begun = if crew.gate.may_begin() {
                    scope.spawn_with(SeatOf(actor), work)
                } else {
                    Err(SpawnError { value: work })
                };
                match begun {
                    Ok(child) => children.push_reserved(child),
                    Err(refused) => {
                        crew.refuse(actor);
                        let seat = (refused.value)();
                        crew.refuse_nobody();
                        here.push_reserved(seat);
                    },
                }
            }
            rotate(rt, crew, &mut here);
            let mut home = thread::join_promised(rt, children)?;
            home.append(&mut here)?;
            Ok(home)
        },
    )
}

// How often a watcher reads each word of the board.
const READS: u32 = 1_000;

// What a watcher does.
fn watch<G: Gate>(gate: &G, number: usize, watcher: Watcher) {
    let mut watcher = watcher;
    for time in 0..READS {
        gate.look(number, time);
        watcher.look();
    }
}

// The turns of all actors, while the watchers read the board, each in a thread of its own. Where such a thread can't be
// made, this thread reads in its place.
fn drive_watched<J: Job + Send + Sync, R: Threads + Wait + Sync, C: Clock + Send, G: Gate>(
    rt: &R,
    alloc: Global,
    crew: &Crew<'_, J, C, G>,
    seats: Vec<ActorSeat<J>>,
    watchers: Vec<Watcher>,
) -> Result<Vec<ActorSeat<J>>, AllocError>
    requires seats { AreSeated (length (actors J.site)) seats.items }
    ensures { IfOk result (λ seats. AreSeated (length (actors J.site)) seats.items) }
{
    thread::scope(
        thread::scope_env(),
        rt,
        |scope| -> Result<Vec<ActorSeat<J>>, AllocError>
            requires { IsSync G.row × AreSeated (length (actors J.site)) seats.items }
            ensures { IfOk result (λ seats. AreSeated (length (actors J.site)) seats.items) }
        {
            let gate = crew.gate;
            for (number, watcher) in watchers.into_iter().enumerate() {
                let work = move || watch(gate, number, watcher);
                let begun = if gate.may_begin() {
                    scope.spawn(work)
                } else {
                    Err(SpawnError { value: work })
                };
                if let Err(refused) = begun {
                    (refused.value)();
                }
            }
            drive(rt, alloc, crew, seats)
        },
    )
}
