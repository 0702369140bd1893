//! What the lists of seats are to the history that a run left.
ghost use Rattle.std.specs.Prelude.{◌≡◌, ◌+◌, length, IfErr, OnOk, Some};
ghost use Rattle.std.specs.Bool.{Decides};
ghost use Rattle.pol_site.specs.Actors.{actors};
ghost use Rattle.pol_live.specs.Parts.{AreParts, IsPart, IsRun, IsStray, IsStrayIn, kept_at, made_in_all};
ghost use Rattle.pol_live.specs.Seats.{AreSeated};

use crate::job::Job;
use crate::locked::LockedPlant;
use crate::run::Ran;
use crate::seat::ActorSeat;
use crate::turned::Placed;
use pol_entries::same_answer;
use pol_events::Answer;
use pol_io::Clock;
use std::sync::ledger::Share;

/// A run in which a seat's list has a pair that the history doesn't have for the seat's actor.
#[derive(Drop)]
pub struct Strayed {
    /// The history that the run left, and who made each entry.
    pub ran: Ran,
    /// The seat's actor.
    pub actor: u32,
    /// The pair's place.
    pub place: u32,
    /// The answer that the history has there for the actor. None where the place isn't above the one before it in the
    /// list, where the entry there is another actor's, or where the history has no such place.
    pub kept: Option<Answer>,
    /// The pair's answer.
    pub given: Answer,
}

/// A pair of an actor's list that the history doesn't have for the actor.
#[derive(Clone, Copy)]
pub(crate) struct Stray {
    actor: u32,
    place: u32,
    kept: Option<Answer>,
    given: Answer,
}

impl Stray {
    /// This pair with the run in which it is.
    pub(crate) fn in_run(self, ran: Ran) -> Strayed
        ensures run { result.ran ≡ ran }
        ensures pair { (result.actor ≡ self.actor) × (result.place ≡ self.place) × (result.kept ≡ self.kept)
            × (result.given ≡ self.given) }
    {
        Strayed {
            ran,
            actor: self.actor,
            place: self.place,
            kept: self.kept,
            given: self.given,
        }
    }
}

// The answer that the history has for an actor at a place, if that isn't below the least place that may come.
fn kept_at(ran: &Ran, actor: u32, least: usize, place: usize) -> Option<Answer>
    ensures { result ≡ kept_at actor ran.now.by.items ran.now.history.items least place }
{
    if place < least {
        return None;
    }
    let Some(entry) = ran.history.get(place) else {
        return None;
    };
    let Some(maker) = ran.by.get(place) else {
        return None;
    };
    if *maker == actor {
        Some(entry.answer)
    } else {
        None
    }
}

// Whether this answer was kept.
fn is_kept(kept: &Option<Answer>, given: &Answer) -> bool
    ensures { Decides result (kept.now ≡ Some given.now) }
{
    match kept {
        Some(answer) => same_answer(answer, given),
        None => false,
    }
}

// Compares an actor's list with the history.
fn compare(ran: &Ran, actor: u32, list: &[Placed]) -> Result<(), Stray>
    ensures ok { OnOk result (IsPart actor 0 ran.now.by.items ran.now.history.items list.now) }
    ensures err { IfErr result (λ stray. IsStrayIn ran.now.by.items ran.now.history.items actor list.now
        stray.place stray.kept stray.given) }
    ensures actor { IfErr result (λ stray. stray.actor ≡ actor) }
{
    let mut least = 0usize;
    for placed in list {
        let place = placed.place as usize;
        let kept = kept_at(ran, actor, least, place);
        if !is_kept(&kept, &placed.answer) {
            return Err(Stray {
                actor,
                place: placed.place,
                kept,
                given: placed.answer,
            });
        }
        least = place + 1;
    }
    Ok(())
}

/// Compares the lists of all seats with the history.
///
/// # Errors
///
/// The first pair that the history doesn't have for its seat's actor.
pub(crate) fn compare_all<J: Job>(ran: &Ran, seats: &[ActorSeat<J>]) -> Result<(), Stray>
    requires seats { AreSeated (length (actors J.site)) seats.now }
    ensures ok { OnOk result (AreParts ran.now.by.items ran.now.history.items seats.now) }
    ensures err { IfErr result (λ stray. IsStray ran.now.by.items ran.now.history.items seats.now
        stray.actor stray.place stray.kept stray.given) }
{
    for seat in seats {
        compare(ran, seat.actor(), seat.list())?;
    }
    Ok(())
}

/// The shares of all seats in one.
pub(crate) fn gather<J: Job>(rest: Share<J>, seats: Vec<ActorSeat<J>>) -> Share<J>
    ensures parts { result.parts ≡ rest.parts + length seats.items }
    ensures amount { result.amount ≡ rest.amount + made_in_all seats.items }
{
    let mut whole = rest;
    for seat in seats {
        whole.merge(seat.into_share());
    }
    whole
}

/// The history that a plant leaves, and who made each entry.
pub(crate) fn leave<J: Job, C: Clock>(plant: LockedPlant<J, C>) -> Ran
    ensures entries { result.history.items ≡ plant.entries }
    ensures by { result.by.items ≡ plant.by }
    ensures run { IsRun J.site result.history.items result.by.items }
{
    let (history, by) = plant.into_parts();
    Ran { history, by }
}
