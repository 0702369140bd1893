//! One event enters the history, with its stamp and with who made it.
ghost use Rattle.std.specs.Prelude.{◌≡◌, ◌<◌, ◌++◌, ◌∷◌, ◌⊎◌, [], IfOk, OnErr, IsTrue, false, length, vec_len};
ghost use Rattle.std.specs.Prelude.{vec_capacity};
ghost use Rattle.pol_events.specs.Events.{plain_event};
ghost use Rattle.pol_events.specs.Orderly.{is_orderly};
ghost use Rattle.pol_history.specs.Answers.{is_full};
ghost use Rattle.pol_core.specs.Plants.{is_spared, plant_history};
ghost use Rattle.pol_io.specs.Causes.{Rose};
ghost use Rattle.pol_actors.specs.Stamps.{stamped};
ghost use Rattle.pol_live.specs.Turns.{Enters};

use crate::turned::Placed;
use pol_core::Plant;
use pol_events::Event;
use pol_io::Clock;
use std::alloc::AllocError;

// The event with this stamp. The proof goes by kinds, so each has its arm.
fn stamped(mut event: Event, now: u64) -> Event
    ensures { plain_event result ≡ stamped now (plain_event event) }
{
    match &mut event {
        Event::Plug { at, .. } => *at = now,
        Event::Unplug { at, .. } => *at = now,
        Event::Report { at, .. } => *at = now,
        Event::Variable { at, .. } => *at = now,
        Event::Recipe { at, .. } => *at = now,
        Event::Start { at, .. } => *at = now,
        Event::Advance { at, .. } => *at = now,
        Event::Freeze { at, .. } => *at = now,
        Event::Thaw { at, .. } => *at = now,
        Event::StopBatch { at, .. } => *at = now,
        Event::Abandon { at, .. } => *at = now,
        Event::Desk { at, .. } => *at = now,
        Event::ExchangeBegin { at, .. } => *at = now,
        Event::ExchangeEnd { at, .. } => *at = now,
        Event::ExchangeCancel { at, .. } => *at = now,
    }
    event
}

/// Applies an event of an actor, with the stamp that the clock gives now. The history has room.
///
/// # Errors
///
/// Where there is no memory. Then neither the history nor the list of actors changed; and the clock wasn't asked,
/// unless the event is one that takes memory.
pub(crate) fn enter<C: Clock>(
    plant: &mut Plant,
    by: &mut Vec<u32>,
    clock: &mut C,
    actor: u32,
    event: Event,
) -> Result<Placed, AllocError>
    requires orderly { IsTrue (is_orderly (plain_event event)) }
    requires room { is_full (plant_history plant.old) ≡ false }
    ensures ok { IfOk result (λ placed. Enters (C.calls clock.old) (C.calls clock.new) (C.last clock.new)
        (plant_history plant.old) (plant_history plant.new) (plain_event event) placed) }
    ensures by { IfOk result (λ placed. by.new.items ≡ by.old.items ++ actor ∷ []) }
    ensures err { OnErr result ((plant.new.entries ≡ plant.old.entries) × (by.new.items ≡ by.old.items)) }
    ensures clock { OnErr result (((C.last clock.new ≡ C.last clock.old) × (C.calls clock.new ≡ C.calls clock.old))
        ⊎ ((is_spared (plain_event event) ≡ false) × Rose (C.calls clock.old) (C.calls clock.new))) }
{
    plant.reserve(1)?;
    by.reserve(1)?;
    let place = plant.history().len() as u32;
    let now = clock.now();
    let answer = match plant.apply(stamped(event, now)) {
        Ok(answer) => answer,
        Err(refused) => {
            drop(refused);
            return Err(AllocError);
        },
    };
    by.push_reserved(actor);
    Ok(Placed { place, answer })
}

/// Applies an event that takes no memory, with the stamp that the clock gives now, where room was made before.
pub(crate) fn enter_spared<C: Clock>(
    plant: &mut Plant,
    by: &mut Vec<u32>,
    clock: &mut C,
    actor: u32,
    event: Event,
) -> Placed
    requires orderly { IsTrue (is_orderly (plain_event event)) }
    requires room { is_full (plant_history plant.old) ≡ false }
    requires spared { IsTrue (is_spared (plain_event event)) }
    requires spare { 0 < plant.old.spare }
    requires place { vec_len by.old < vec_capacity by.old }
    ensures ok { Enters (C.calls clock.old) (C.calls clock.new) (C.last clock.new)
        (plant_history plant.old) (plant_history plant.new) (plain_event event) result }
    ensures by { by.new.items ≡ by.old.items ++ actor ∷ [] }
{
    let place = plant.history().len() as u32;
    let now = clock.now();
    match plant.apply(stamped(event, now)) {
        Ok(answer) => {
            by.push_reserved(actor);
            Placed { place, answer }
        },
        Err(_) => unreachable!(),
    }
}
