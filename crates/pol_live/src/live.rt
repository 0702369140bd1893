//! A plant that threads share.
ghost use Rattle.std.specs.Prelude.{◌≡◌, length, IfErr, IfOk, OnErr};
ghost use Rattle.pol_site.specs.Actors.{actors};
ghost use Rattle.pol_site.specs.PlainSite.{plain_site};
ghost use Rattle.pol_live.specs.Parts.{AreOwnParts, IsRun, IsStray, made_in_all};
ghost use Rattle.pol_live.specs.Seats.{AreSeated, ListAfter};
ghost use Rattle.pol_live.specs.Turns.{TookTurn};

use crate::closing::{Strayed, compare_all, gather, leave};
use crate::job::Job;
use crate::locked::LockedPlant;
use crate::notes::Notes;
use crate::run::Ran;
use crate::seat::ActorSeat;
use crate::turned::Turned;
use pol_io::Clock;
use pol_shown::Watcher;
use pol_site::Site;
use std::alloc::{AllocError, Global};
use std::sync::ledger::{Blank, Book, Share};
use std::sync::{Arc, Condvar, Mutex, Wait};

// What lies under the lock: the plant, in a box as it is large, the book of what the seats made, what the seats left of
// the ledger, who rests, and whether the run was ended.
#[derive(Drop)]
struct Under<J: Job, C: Clock> {
    plant: Box<LockedPlant<J, C>>,
    book: Book<J>,
    rest: Share<J>,
    notes: Notes,
    ended: bool,
    ghost counted: { book.total ≡ length plant.value.entries },
    ghost spent: { (rest.parts ≡ 0) × (rest.amount ≡ 0) },
}

impl<J: Job, C: Clock> Under<J, C> {
    // One turn of the seat's actor.
    fn turn(&mut self, seat: &mut ActorSeat<J>) -> Result<Turned, AllocError>
        ensures turned { IfOk result (λ turned. TookTurn J.site seat.old.actor turned) }
        ensures ok { IfOk result (λ turned. ListAfter seat.old.list seat.new.list turned) }
        ensures err { OnErr result (seat.new.list ≡ seat.old.list) }
        ensures actor { seat.new.actor ≡ seat.old.actor }
    {
        let Under {
            plant,
            book,
            notes,
            ..
        } = self;
        let plant = &mut **plant;
        notes.wake(seat.actor());
        plant.is_of_a_run();
        let turned = seat.turn(plant, book);
        plant.is_of_a_run();
        turned
    }

    // A watcher of the plant's board.
    fn watcher(&mut self) -> Result<Watcher, AllocError> {
        self.plant.watcher()
    }

    // Whether no actor has a turn to make, as far as the notes say.
    fn is_over(&self) -> bool {
        self.ended || self.plant.is_full() || self.notes.all_rest_at(self.plant.length())
    }

    // Notes that the actor rests. True where all rest: if the run isn't over by that, each is to look once more.
    fn all_rest_with(&mut self, actor: u32) -> bool {
        self.notes.rest(actor, self.plant.length());
        if !self.notes.all_rest_from(0) {
            return false;
        }
        if !self.is_over() {
            self.notes.wake_all();
        }
        true
    }
}

// Puts a new plant under its lock.
fn put_under<J: Job, C: Clock>(
    plant: Box<LockedPlant<J, C>>,
    book: Book<J>,
    rest: Share<J>,
    notes: Notes,
) -> Under<J, C>
    requires counted { book.total ≡ length plant.value.entries }
    requires spent { (rest.parts ≡ 0) × (rest.amount ≡ 0) }
{
    Under {
        plant,
        book,
        rest,
        notes,
        ended: false,
    }
}

// A bell for each of so many actors.
fn hang(alloc: Global, count: u32) -> Result<Vec<Condvar>, AllocError> {
    let mut bells = Vec::new(alloc);
    for _ in 0..count {
        bells.push(Condvar::new())?;
    }
    Ok(bells)
}

/// A locked plant behind one lock, which threads share. Turns at it are taken with the seats of its actors.
#[derive(Drop)]
pub struct LivePlant<J: Job, C: Clock + Send> {
    under: Mutex<Under<J, C>>,
    // At each waits the thread of its actor alone, while that rests.
    bells: Vec<Condvar>,
    // Here waits the thread that takes the turns of several actors. It hears each ring.
    shared: Condvar,
}

impl<J: Job, C: Clock + Send> LivePlant<J, C> {
    /// An empty plant of the site, and one seat for each actor, in the order of their numbers. No seat made anything
    /// yet.
    ///
    /// # Errors
    ///
    /// Where there is no memory.
    pub fn new(
        alloc: Global,
        site: Arc<Site>,
        clock: C,
        blank: Blank,
    ) -> Result<(LivePlant<J, C>, Vec<ActorSeat<J>>), AllocError>
        requires blank { (blank.name ≡ J.name) × (blank.parts ≡ J.parts) × (J.parts ≡ length (actors J.site)) }
        requires site { plain_site site.value ≡ J.site }
        ensures seats { IfOk result (λ both. AreSeated (length (actors J.site)) both.1.items) }
        ensures unmade { IfOk result (λ both. made_in_all both.1.items ≡ 0) }
    {
        let plant = LockedPlant::<J, C>::new(alloc, site, clock)?;
        let plant = Box::new(alloc, plant)?;
        let actors = plant.actors();
        let notes = Notes::blank(alloc, actors)?;
        let bells = hang(alloc, actors)?;
        let (book, mut rest) = blank.open::<J>();
        let mut seats = Vec::new(alloc);
        for actor in 0..actors {
            let share = rest.split_off(1, 0);
            seats.push(ActorSeat::new(alloc, actor, share))?;
        }
        let live = LivePlant {
            under: Mutex::new(put_under(plant, book, rest, notes)),
            bells,
            shared: Condvar::new(),
        };
        Ok((live, seats))
    }

    /// One turn of the seat's actor, under the lock. It may wait for the lock.
    ///
    /// # Errors
    ///
    /// Where there is no memory. Then the seat's list is as before.
    pub fn turn<R: Wait>(&self, rt: &R, seat: &mut ActorSeat<J>) -> Result<Turned, AllocError>
        ensures turned { IfOk result (λ turned. TookTurn J.site seat.old.actor turned) }
        ensures ok { IfOk result (λ turned. ListAfter seat.old.list seat.new.list turned) }
        ensures err { OnErr result (seat.new.list ≡ seat.old.list) }
        ensures actor { seat.new.actor ≡ seat.old.actor }
    {
        let mut under = self.under.lock(rt);
        let turned = under.turn(seat);
        match turned {
            Ok(Turned::Made(_)) => self.call_concerned(&mut under),
            Ok(Turned::Rested) => {
                if under.all_rest_with(seat.actor()) {
                    self.ring_all();
                }
            },
            Ok(Turned::Looked | Turned::Full) | Err(_) => {},
        }
        turned
    }

    // Calls all that rest and have something to do by the newest entry.
    fn call_concerned(&self, under: &mut Under<J, C>) {
        let Under { plant, notes, .. } = under;
        let concern = plant.concern();
        for actor in 0..plant.actors() {
            if notes.rests(actor) && plant.goes_on(actor, &concern) {
                notes.wake(actor);
                self.bell(actor).notify_one();
                self.shared.notify_one();
            }
        }
    }

    // The bell of an actor.
    fn bell(&self, actor: u32) -> &Condvar {
        self.bells.get(actor as usize).unwrap_or(&self.shared)
    }

    // Rings all bells.
    fn ring_all(&self) {
        for bell in &self.bells {
            bell.notify_one();
        }
        self.shared.notify_one();
    }

    /// `count` watchers of the plant's board.
    ///
    /// # Errors
    ///
    /// Where there is no memory.
    pub(crate) fn watchers<R: Wait>(
        &self,
        rt: &R,
        alloc: Global,
        count: u16,
    ) -> Result<Vec<Watcher>, AllocError> {
        let mut under = self.under.lock(rt);
        let mut watchers = Vec::new(alloc);
        for _ in 0..count {
            watchers.push(under.watcher()?)?;
        }
        Ok(watchers)
    }

    /// Waits until the actor is called after it came to rest, or the run is over. True where it is over.
    pub(crate) fn rest<R: Wait>(&self, rt: &R, actor: u32) -> bool {
        let under = self.under.lock(rt);
        let under = self
            .bell(actor)
            .wait_while(rt, under, |u| { u.notes.rests(actor) && !u.is_over() });
        under.is_over()
    }

    /// Waits until an actor whose number is at least this one is called after all of them came to rest, or the run is
    /// over. True where it is over. At most one thread calls it.
    pub(crate) fn rest_from<R: Wait>(&self, rt: &R, actor: u32) -> bool {
        let under = self.under.lock(rt);
        let under = self.shared.wait_while(rt, under, |u| {
            u.notes.all_rest_from(actor) && !u.is_over()
        });
        under.is_over()
    }

    /// Ends the run: every actor that waits or comes to rest finds it over.
    pub(crate) fn end<R: Wait>(&self, rt: &R) {
        let mut under = self.under.lock(rt);
        under.ended = true;
        self.ring_all();
    }

    /// The plant, out of its lock.
    pub(crate) fn into_plant(self) -> Box<LockedPlant<J, C>> {
        let LivePlant { under, .. } = self;
        let Under { plant, .. } = under.into_inner();
        plant
    }

    /// Ends a run whose turns were taken in threads of the caller's own: compares the lists of all seats, which are in
    /// the order of their actors, with the history that the turns left. It takes no memory.
    ///
    /// # Errors
    ///
    /// Where the list of a seat has a pair that the history doesn't have for its actor: the first such pair of the
    /// first such seat.
    pub fn close(self, seats: Vec<ActorSeat<J>>) -> Result<Ran, Strayed>
        requires parts { J.parts ≡ length (actors J.site) }
        requires seats { AreSeated (length (actors J.site)) seats.items }
        ensures run { IfOk result (λ ran. IsRun J.site ran.history.items ran.by.items) }
        ensures own { IfOk result (λ ran. AreOwnParts ran.by.items ran.history.items seats.items) }
        ensures counted { IfOk result (λ ran. made_in_all seats.items ≡ length ran.history.items) }
        ensures strayed_run { IfErr result (λ strayed. IsRun J.site strayed.ran.history.items strayed.ran.by.items) }
        ensures strayed { IfErr result (λ strayed. IsStray strayed.ran.by.items strayed.ran.history.items seats.items
            strayed.actor strayed.place strayed.kept strayed.given) }
        ensures strayed_counted { IfErr result (λ strayed. made_in_all seats.items ≡ length strayed.ran.history.items) }
    {
        let LivePlant { under, .. } = self;
        let Under {
            plant,
            mut book,
            rest,
            ..
        } = under.into_inner();
        let ran = leave(Box::into_inner(plant));
        let compared = compare_all(&ran, &seats);
        let mut whole = gather(rest, seats);
        book.audit(&mut whole);
        match compared {
            Ok(()) => Ok(ran),
            Err(stray) => Err(stray.in_run(ran)),
        }
    }
}
