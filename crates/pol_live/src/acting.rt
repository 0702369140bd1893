//! The turns of actors in threads.
ghost use Rattle.std.specs.Prelude.{◌≡◌, false};
ghost use Rattle.pol_live.specs.Seats.{actors_of};
ghost use Rattle.pol_live.specs.Turns.{WentOn};

use crate::gate::Gate;
use crate::job::Job;
use crate::live::LivePlant;
use crate::seat::ActorSeat;
use crate::turned::Turned;
use pol_io::Clock;
use std::sync::Wait;
use std::sync::atomic::{AtomicU64, Ordering};

// No actor has this number.
const NOBODY: u64 = u64::MAX;

/// What all threads of a run share. `refused` is the number of the actor for which no thread could be made, and else
/// that of nobody.
#[derive(Drop)]
pub(crate) struct Crew<'a, J: Job, C: Clock + Send, G: Gate> {
    pub(crate) live: &'a LivePlant<J, C>,
    pub(crate) gate: &'a G,
    refused: AtomicU64,
}

impl<'a, J: Job, C: Clock + Send, G: Gate> Crew<'a, J, C, G> {
    /// A crew in which each actor may have its thread.
    pub(crate) fn new(live: &'a LivePlant<J, C>, gate: &'a G) -> Crew<'a, J, C, G> {
        Crew {
            live,
            gate,
            refused: AtomicU64::new(NOBODY),
        }
    }

    /// Whether it is this actor for which no thread could be made.
    fn has_refused(&self, actor: u32) -> bool {
        self.refused.load(Ordering::SeqCst) == u64::from(actor)
    }

    /// Notes that no thread could be made for this actor.
    pub(crate) fn refuse(&self, actor: u32) {
        self.refused.store(u64::from(actor), Ordering::SeqCst);
    }

    /// Notes that its seat was handed back.
    pub(crate) fn refuse_nobody(&self) {
        self.refused.store(NOBODY, Ordering::SeqCst);
    }
}

// One turn. True where the run is over; else the actor took one.
fn step<J: Job, R: Wait, C: Clock + Send>(
    rt: &R,
    live: &LivePlant<J, C>,
    seat: &mut ActorSeat<J>,
) -> bool
    ensures actor { seat.new.actor ≡ seat.old.actor }
    ensures went_on { result ≡ false → WentOn J.site seat.old.actor }
{
    match live.turn(rt, seat) {
        Ok(Turned::Made(_) | Turned::Looked) => false,
        Ok(Turned::Rested) => live.rest(rt, seat.actor()),
        Ok(Turned::Full) | Err(_) => {
            live.end(rt);
            true
        },
    }
}

/// The turns of one actor, until the run is over.
pub(crate) fn act<J: Job, R: Wait, C: Clock + Send, G: Gate>(
    rt: &R,
    crew: &Crew<'_, J, C, G>,
    seat: ActorSeat<J>,
) -> ActorSeat<J>
    ensures { result.actor ≡ seat.actor }
{
    let mut seat = seat;
    let actor = seat.actor();
    if crew.has_refused(actor) {
        return seat;
    }
    let mut turn = 0u64;
    for _ in rt.forever() {
        crew.gate.pass(actor, turn);
        turn = turn.wrapping_add(1);
        if step(rt, crew.live, &mut seat) {
            break;
        }
    }
    seat
}

// One turn of each actor that has no thread: those from the first one on. True where the run is over. Where each
// rested, this thread rests for all of them.
fn pass<J: Job, R: Wait, C: Clock + Send, G: Gate>(
    rt: &R,
    crew: &Crew<'_, J, C, G>,
    seats: &mut Vec<ActorSeat<J>>,
    turn: u64,
) -> bool
    ensures { actors_of seats.new.items ≡ actors_of seats.old.items }
{
    let first = match seats.first() {
        Some(seat) => seat.actor(),
        None => return true,
    };
    let mut rested = true;
    for i in 0..seats.len() {
        let seat = &mut seats[i];
        crew.gate.pass(seat.actor(), turn);
        match crew.live.turn(rt, seat) {
            Ok(Turned::Made(_) | Turned::Looked) => rested = false,
            Ok(Turned::Rested) => {},
            Ok(Turned::Full) | Err(_) => {
                crew.live.end(rt);
                return true;
            },
        }
    }
    rested && crew.live.rest_from(rt, first)
}

/// The turns of the actors that have no thread, in rotation, until the run is over.
pub(crate) fn rotate<J: Job, R: Wait, C: Clock + Send, G: Gate>(
    rt: &R,
    crew: &Crew<'_, J, C, G>,
    seats: &mut Vec<ActorSeat<J>>,
)
    ensures { actors_of seats.new.items ≡ actors_of seats.old.items }
{
    if seats.is_empty() {
        return;
    }
    let mut turn = 0u64;
    for _ in rt.forever() {
        if pass(rt, crew, seats, turn) {
            break;
        }
        turn = turn.wrapping_add(1);
    }
}
