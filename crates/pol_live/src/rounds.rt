//! Rounds of turns by the one owner of a plant.
ghost use Rattle.std.specs.Prelude.{◌≡◌, true, IfOk, OnOk};
ghost use Rattle.pol_site.specs.Settled.{IsSettled};
ghost use Rattle.pol_live.specs.Turns.{history_of};

use crate::job::Job;
use crate::locked::LockedPlant;
use crate::turned::Turned;
use pol_io::Clock;
use std::alloc::AllocError;
use std::sync::Wait;

/// One turn of each actor. True where every actor rested, so that none has anything to do, or where the history is
/// full.
///
/// # Errors
///
/// Where there is no memory.
pub(crate) fn round<J: Job, C: Clock>(plant: &mut LockedPlant<J, C>) -> Result<bool, AllocError>
    ensures { IfOk result (λ done. done ≡ true → IsSettled J.site (history_of plant.new)) }
{
    let mut rested = true;
    for actor in 0..plant.actors() {
        match plant.turn(actor)? {
            Turned::Full => return Ok(true),
            Turned::Rested => {},
            Turned::Made(_) | Turned::Looked => rested = false,
        }
    }
    Ok(rested)
}

/// Rounds of turns until no actor has anything to do, or the history is full.
///
/// # Errors
///
/// Where there is no memory.
pub(crate) fn settle<J: Job, R: Wait, C: Clock>(
    rt: &R,
    plant: &mut LockedPlant<J, C>,
) -> Result<(), AllocError>
    ensures { OnOk result (IsSettled J.site (history_of plant.new)) }
{
    for _ in rt.forever() {
        if round(plant)? {
            return Ok(());
        }
    }
    unreachable!()
}
