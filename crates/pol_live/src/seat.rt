//! An actor's seat at a plant.
ghost use Rattle.std.specs.Prelude.{◌≡◌, ◌<◌, [], length, IfOk, OnErr};
ghost use Rattle.pol_site.specs.Actors.{actors};
ghost use Rattle.pol_live.specs.Seats.{ListAfter};
ghost use Rattle.pol_live.specs.Turns.{Turns};

use crate::job::Job;
use crate::locked::LockedPlant;
use crate::turned::{Placed, Turned};
use pol_io::Clock;
use std::alloc::{AllocError, Global};
use std::marker::Model;
use std::sync::ledger::{Book, Share};

/// One actor's seat, with its own list of what its turns made. Contracts see its actor's number and that list; its
/// share of the run's ledger is the length of the list.
#[derive(Drop)]
pub struct ActorSeat<J: Job> {
    actor: u32,
    list: Vec<Placed>,
    share: Share<J>,
}

impl<J: Job> Model for ActorSeat<J> {
    ghost use Rattle.std.specs.Prelude.{◌≡◌, ◌<◌, length};
    ghost use Rattle.pol_site.specs.Actors.{actors};
    ghost use Rattle.pol_live.specs.Seats.{Seated};

    ghost Value = { Seated };

    ghost view = { λ seat. record { actor = seat.actor; list = seat.list.items } };

    ghost invariant = { λ seat. (seat.actor < length (actors J.site)) × (seat.share.parts ≡ 1)
        × (seat.share.amount ≡ length seat.list.items) };
}

impl<J: Job> ActorSeat<J> {
    pub(crate) fn new(alloc: Global, actor: u32, share: Share<J>) -> ActorSeat<J>
        requires actor { actor < length (actors J.site) }
        requires share { (share.parts ≡ 1) × (share.amount ≡ 0) }
        ensures { (result.actor ≡ actor) × (result.list ≡ []) }
    {
        ActorSeat {
            actor,
            list: Vec::new(alloc),
            share,
        }
    }

    /// Its actor's number, counted from 0.
    pub fn actor(&self) -> u32
        ensures same { result ≡ self.now.actor }
        ensures known { self.now.actor < length (actors J.site) }
    {
        self.actor
    }

    /// What its turns made, in their order.
    pub fn list(&self) -> &[Placed]
        ensures { result.now ≡ self.now.list }
    {
        self.list.as_slice()
    }

    /// One turn of its actor. What the turn made is at the end of the list, and is booked as one unit.
    ///
    /// # Errors
    ///
    /// Where there is no memory. Then the list is as before.
    pub(crate) fn turn<C: Clock>(
        &mut self,
        plant: &mut LockedPlant<J, C>,
        book: &mut Book<J>,
    ) -> Result<Turned, AllocError>
        requires { book.old.total ≡ length plant.old.entries }
        ensures turned { IfOk result (λ turned. Turns J.site plant.old plant.new self.old.actor turned) }
        ensures counted { book.new.total ≡ length plant.new.entries }
        ensures ok { IfOk result (λ turned. ListAfter self.old.list self.new.list turned) }
        ensures err { OnErr result (self.new.list ≡ self.old.list) }
        ensures actor { self.new.actor ≡ self.old.actor }
    {
        let ActorSeat { actor, list, share } = self;
        list.reserve(1)?;
        let turned = plant.turn(*actor)?;
        if let Turned::Made(placed) = &turned {
            list.push_reserved(*placed);
            book.add(share, 1);
        }
        Ok(turned)
    }

    /// Its share of the ledger, once the seat is done with.
    pub(crate) fn into_share(self) -> Share<J>
        ensures parts { result.parts ≡ 1 }
        ensures amount { result.amount ≡ length self.list }
    {
        let ActorSeat { share, .. } = self;
        share
    }
}
