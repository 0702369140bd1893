//! A plant whose events are kept on a disk.
ghost use Rattle.std.specs.Prelude.{◌≡◌, ◌+◌, ◌++◌, ◌∷◌, [], ℕ, List, Some, true, false, if◌then◌else◌, IfOk, IfErr, OnOk, IsTrue};
ghost use Rattle.pol_io.specs.Causes.{Rose};
ghost use Rattle.pol_disk.specs.Disks.{LeavesOnly, ToldOn};
ghost use Rattle.pol_events.specs.Events.{PlainEvent, plain_event};
ghost use Rattle.pol_events.specs.Orderly.{is_orderly};
ghost use Rattle.pol_core.specs.Plants.{plant_history};
ghost use Rattle.pol_history.specs.Answers.{answer_of};
ghost use Rattle.pol_history.specs.Runs.{IsLegal, IsOrderly, entry_of, is_recorded, recorded, events_of};
ghost use Rattle.pol_texts.specs.Settled.{AreAlike};
ghost use Rattle.pol_store.specs.Keeping.{HasParts, KeepsAll, KeepsMore, LeavesEvents, LeavesGroup};
ghost use Rattle.pol_store.specs.Opens.{IsLeftOf, Tells};
ghost use Rattle.pol_store.specs.Refusals.{Fails, Refuses};
ghost use Rattle.pol_store.specs.Stands.{StandsFor};

use crate::chronicle::KeptPlant;
use pol_core::Plant;
use pol_disk::Disk;
use pol_events::{Answer, Event};
use pol_kept::{CommitFault, Kept, KeptRefusal, OpenFault};
use std::alloc::Global;
use std::marker::Model;

/// Why an event isn't kept.
pub type StoreRefusal = KeptRefusal<Event>;

/// A plant and the disk that keeps its events.
pub struct Store<D: Disk> {
    kept: Kept<D, KeptPlant>,
}

impl<D: Disk> Model for Store<D> {
    ghost use Rattle.pol_store.specs.Keeping.{StoreState};

    ghost Value = { StoreState D };

    ghost use Rattle.std.specs.Coded.{codes};
    ghost use Rattle.pol_core.specs.contracts.plant.Plant as plant_type;

    ghost coded = { Prim.hlevel (codes, plant_type.the_row.coded, D.code) };

    ghost view = { λ store. record {
      plant = store.kept.chronicle.plant;
      disk = store.kept.disk;
      closed = store.kept.closed;
      waiting = store.kept.waiting;
    } };
}

impl<D: Disk> Store<D> {
    /// Opens a disk, whatever a crash, a kill or a failed run left on it. At Ok each crash from now on leaves the
    /// events that the disk reads as. A disk of at most one byte becomes a store without events. What is said of the
    /// bytes that the disk gave before holds where it gives them still: so no answer was other than these.
    ///
    /// Beside the store comes the image that was read, which stands for its events; an empty one, where there was no
    /// event to read.
    pub fn open(alloc: Global, disk: D) -> Result<(Store<D>, Vec<u8>), (D, OpenFault)>
        ensures opened { IfOk result (λ made. (made.0.closed ≡ false) × (made.0.waiting ≡ 0)) }
        ensures left { (all now : List ℕ) → D.bytes disk ≡ Some all → IfOk result (λ made.
            D.bytes made.0.disk ≡ Some now
            → LeavesOnly D.moment D.left_since disk made.0.disk (IsLeftOf all (D.images disk))) }
        ensures left_err { (all now : List ℕ) → D.bytes disk ≡ Some all → IfErr result (λ back.
            D.bytes back.0 ≡ Some now
            → LeavesOnly D.moment D.left_since disk back.0 (IsLeftOf all (D.images disk))) }
        ensures stand { IfOk result (λ made. (now : List ℕ) → D.bytes made.0.disk ≡ Some now → (image : List ℕ)
            → D.images made.0.disk image → StandsFor (events_of (plant_history made.0.plant)) image) }
        ensures stood { IfOk result (λ made. (all now : List ℕ) → D.bytes disk ≡ Some all
            → D.bytes made.0.disk ≡ Some now → StandsFor (events_of (plant_history made.0.plant)) all) }
        ensures image_read { IfOk result (λ made. StandsFor (events_of (plant_history made.0.plant)) made.1.items) }
        ensures legal { IfOk result (λ made. IsLegal (plant_history made.0.plant)) }
        ensures orderly { IfOk result (λ made. IsOrderly (plant_history made.0.plant)) }
        ensures image { OnOk result ((all : List ℕ) → D.bytes disk ≡ Some all → D.images disk all) }
        ensures on { IfOk result (λ made. ToldOn (D.bytes disk) (D.bytes made.0.disk)) }
        ensures on_err { IfErr result (λ back. ToldOn (D.bytes disk) (D.bytes back.0)) }
        ensures quiet { IfOk result (λ made. D.faults made.0.disk ≡ D.faults disk) }
        ensures tells { IfErr result (λ back. Tells back.1
            (D.bytes disk) (D.bytes back.0) (D.faults disk) (D.faults back.0)) }
        ensures disk_cause { IfErr result (λ back. back.1 ≡ OpenFault.Disk → Rose (D.faults disk) (D.faults back.0)) }
    {
        match Kept::<D, KeptPlant>::open(alloc, disk) {
            Ok((kept, image)) => {
                // Whose history is legal and orderly, as each plant's.
                let _ = kept.chronicle().plant.history();
                Ok((Store { kept }, image))
            }
            Err(back) => Err(back),
        }
    }

    /// The plant.
    pub fn plant(&self) -> &Plant
        ensures plant { result.now ≡ self.now.plant }
        ensures kept { self.now.closed ≡ false → (all : List ℕ) → D.bytes self.now.disk ≡ Some all
            → (kept group : List PlainEvent) → HasParts self.now kept group
            → (image : List ℕ) → D.images self.now.disk image → StandsFor kept image }
    {
        &self.kept.chronicle().plant
    }

    /// Whether a call of the disk failed.
    pub fn closed(&self) -> bool
        ensures { result ≡ self.now.closed }
    {
        self.kept.closed()
    }

    /// The plant and the disk.
    pub fn into_parts(self) -> (Plant, D)
        ensures { (result.0 ≡ self.plant) × (result.1 ≡ self.disk) }
    {
        let Store { kept } = self;
        let (KeptPlant { plant }, disk) = kept.into_parts();
        (plant, disk)
    }

    /// Answers an event. Unless the answer is HistoryFull it waits then, with the others that wait, to be kept by
    /// `commit`; the disk isn't called.
    pub fn admit(&mut self, event: Event) -> Result<Answer, StoreRefusal>
        requires orderly { IsTrue (is_orderly (plain_event event)) }
        ensures answer { IfOk result (λ answer. answer ≡ answer_of (plant_history self.old.plant) (plain_event event)) }
        ensures history { OnOk result (plant_history self.new.plant
            ≡ recorded (entry_of (plant_history self.old.plant) (plain_event event)) (plant_history self.old.plant)) }
        ensures waits { OnOk result (self.new.waiting
            ≡ (if is_recorded (answer_of (plant_history self.old.plant) (plain_event event))
            then self.old.waiting + 1 else self.old.waiting)) }
        ensures refuses { IfErr result (Refuses D.faults self.old self.new event) }
        ensures open { OnOk result ((self.old.closed ≡ false) × (self.new.closed ≡ false)) }
        ensures closed { self.new.closed ≡ self.old.closed }
        ensures uncalled { self.new.disk ≡ self.old.disk }
    {
        self.kept.admit(event)
    }

    /// Keeps all events that wait, by two syncs, or by none where no event waits. At Ok each crash from now on leaves
    /// them; a crash meanwhile leaves all of them or none.
    pub fn commit(&mut self) -> Result<(), CommitFault>
        ensures plant { self.new.plant ≡ self.old.plant }
        ensures waits { OnOk result (self.new.waiting ≡ 0) }
        ensures fails { IfErr result (Fails D.faults self.old self.new) }
        ensures open { OnOk result ((self.old.closed ≡ false) × (self.new.closed ≡ false)) }
        ensures told { OnOk result (AreAlike (D.bytes self.old.disk) (D.bytes self.new.disk)) }
        ensures on { ToldOn (D.bytes self.old.disk) (D.bytes self.new.disk) }
        ensures quiet { OnOk result (D.faults self.new.disk ≡ D.faults self.old.disk) }
        ensures moments { LeavesGroup D.bytes D.moment D.left_since self.old self.new.disk }
        ensures kept { OnOk result (KeepsAll D.bytes D.images self.old self.new.disk) }
        ensures idle { self.old.waiting ≡ 0 → self.new.disk ≡ self.old.disk }
    {
        self.kept.commit()
    }

    /// Answers an event and keeps it, where no other one waits. At Ok each crash from now on leaves it, unless the
    /// answer is HistoryFull.
    pub fn apply(&mut self, event: Event) -> Result<Answer, StoreRefusal>
        requires orderly { IsTrue (is_orderly (plain_event event)) }
        requires alone { self.old.waiting ≡ 0 }
        ensures answer { IfOk result (λ answer. answer ≡ answer_of (plant_history self.old.plant) (plain_event event)) }
        ensures history { OnOk result (plant_history self.new.plant
            ≡ recorded (entry_of (plant_history self.old.plant) (plain_event event)) (plant_history self.old.plant)) }
        ensures waits { OnOk result (self.new.waiting ≡ 0) }
        ensures refuses { IfErr result (Refuses D.faults self.old self.new event) }
        ensures open { OnOk result ((self.old.closed ≡ false) × (self.new.closed ≡ false)) }
        ensures told { OnOk result (AreAlike (D.bytes self.old.disk) (D.bytes self.new.disk)) }
        ensures quiet { OnOk result (D.faults self.new.disk ≡ D.faults self.old.disk) }
        ensures moments { LeavesEvents D.bytes D.moment D.left_since self.old self.new.disk (plain_event event) }
        ensures kept { IfOk result (λ answer. IsTrue (is_recorded answer)
            → KeepsMore D.bytes D.images self.old self.new.disk (plain_event event)) }
        ensures full { is_recorded (answer_of (plant_history self.old.plant) (plain_event event)) ≡ false
            → self.new.disk ≡ self.old.disk }
    {
        self.kept.apply(event)
    }
}
