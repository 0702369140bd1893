//! A chronicle whose items are kept on a disk.
ghost use Rattle.std.specs.Prelude.{◌≡◌, ◌+◌, ◌<◌, ◌^◌, ◌++◌, ◌∷◌, [], ℕ, List, Some, true, false, if◌then◌else◌, IfOk, IfErr, OnOk, IsTrue, length};
ghost use Rattle.pol_io.specs.Causes.{Rose};
ghost use Rattle.pol_disk.specs.Disks.{LeavesOnly, ToldOn};
ghost use Rattle.pol_texts.specs.Settled.{AreAlike};
ghost use Rattle.pol_kept.specs.Keeping.{HasParts, KeepsAll, KeepsMore, LeavesGroup, LeavesItems, items_of};
ghost use Rattle.pol_kept.specs.Opens.{IsLeftOf, Tells};
ghost use Rattle.pol_kept.specs.Refusals.{Fails, Refuses};
ghost use Rattle.pol_kept.specs.Stands.{StandsFor};

use crate::chronicle::Chronicle;
use crate::opening::{OpenFault, Opened, open_on};
use crate::records::behind_gate;
use pol_disk::Disk;
use pol_texts::{add, stage};
use std::alloc::Global;
use std::marker::Model;

/// Why an item isn't kept.
#[derive(Drop)]
pub enum KeptRefusal<T> {
    /// There was no memory; nothing has changed.
    Memory(T),
    /// The disk failed; the store is closed.
    Disk,
    /// The store is closed.
    Closed(T),
}

/// Why the items that wait aren't kept.
#[derive(Clone, Copy, Debug, PartialEq, Eq)]
pub enum CommitFault {
    /// The disk failed; the store is closed.
    Disk,
    /// The store is closed.
    Closed,
}

/// A chronicle and the disk that keeps its items.
pub struct Kept<D: Disk, C: Chronicle> {
    alloc: Global,
    chronicle: C,
    disk: D,
    // The place of the closed gate behind the last record.
    end: u64,
    // What is to be written behind that gate for the items that wait.
    group: Vec<u8>,
    // How many items wait.
    waiting: u64,
    closed: bool,
}

impl<D: Disk, C: Chronicle> Model for Kept<D, C> {
    ghost use Rattle.pol_kept.specs.Keeping.{KeptState};

    ghost Value = { KeptState C D };

    ghost use Rattle.std.specs.Coded.{codes};

    ghost coded = { Prim.hlevel (codes, C.code, D.code) };

    ghost use Rattle.pol_kept.specs.Keeping.{IsFit, Keeps, Open};

    ghost view = { λ store. record {
      chronicle = store.chronicle;
      disk = store.disk;
      closed = store.closed;
      waiting = store.waiting;
    } };

    ghost invariant = { λ store. Open store.closed
        (IsFit store.end store.waiting store.group.items
        × Keeps C.work (D.bytes store.disk) (D.images store.disk) store.end store.group.items
        (C.work.items (C.state store.chronicle)) store.waiting) };
}

// Whether a group with this text more fits behind the end.
fn has_place(end: u64, group: &[u8], behind: &[u8]) -> bool
    ensures { IsTrue result → end + (length group.now + length behind.now) < 2 ^ 64 }
{
    match end.checked_add(group.len() as u64) {
        Some(next) => next.checked_add(behind.len() as u64).is_some(),
        None => false,
    }
}

impl<D: Disk, C: Chronicle> Kept<D, C> {
    /// Opens a disk, whatever a crash, a kill or a failed run left on it. At Ok each crash from now on leaves the items
    /// that the disk reads as. A disk of at most one byte becomes a store without items. What is said of the disk's
    /// bytes before the call holds where its bytes are still known after it: so no answer differed from these. With the
    /// store comes the image that was read, or an empty one: it stands for the items of the store.
    pub fn open(alloc: Global, disk: D) -> Result<(Kept<D, C>, Vec<u8>), (D, OpenFault)>
        ensures opened { IfOk result (λ made. (made.0.closed ≡ false) × (made.0.waiting ≡ 0)) }
        ensures left { (all now : List ℕ) → D.bytes disk ≡ Some all → IfOk result (λ made.
            D.bytes made.0.disk ≡ Some now
            → LeavesOnly D.moment D.left_since disk made.0.disk (IsLeftOf C.work all (D.images disk))) }
        ensures left_err { (all now : List ℕ) → D.bytes disk ≡ Some all → IfErr result (λ back.
            D.bytes back.0 ≡ Some now
            → LeavesOnly D.moment D.left_since disk back.0 (IsLeftOf C.work all (D.images disk))) }
        ensures stand { IfOk result (λ made. (now : List ℕ) → D.bytes made.0.disk ≡ Some now → (image : List ℕ)
            → D.images made.0.disk image → StandsFor C.work (items_of C.work C.state made.0) image) }
        ensures stood { IfOk result (λ made. (all now : List ℕ) → D.bytes disk ≡ Some all
            → D.bytes made.0.disk ≡ Some now → StandsFor C.work (items_of C.work C.state made.0) all) }
        ensures image_read { IfOk result (λ made.
            StandsFor C.work (items_of C.work C.state made.0) made.1.items) }
        ensures image { OnOk result ((all : List ℕ) → D.bytes disk ≡ Some all → D.images disk all) }
        ensures on { IfOk result (λ made. ToldOn (D.bytes disk) (D.bytes made.0.disk)) }
        ensures on_err { IfErr result (λ back. ToldOn (D.bytes disk) (D.bytes back.0)) }
        ensures quiet { IfOk result (λ made. D.faults made.0.disk ≡ D.faults disk) }
        ensures tells { IfErr result (λ back. Tells C.work back.1
            (D.bytes disk) (D.bytes back.0) (D.faults disk) (D.faults back.0)) }
        ensures disk_cause { IfErr result (λ back. back.1 ≡ OpenFault.Disk → Rose (D.faults disk) (D.faults back.0)) }
    {
        let mut disk = disk;
        match open_on(alloc, &mut disk) {
            Ok(
                Opened {
                    chronicle,
                    end,
                    image,
                },
            ) => {
                let store = Kept {
                    alloc,
                    chronicle,
                    disk,
                    end,
                    group: Vec::new(alloc),
                    waiting: 0,
                    closed: false,
                };
                Ok((store, image))
            }
            Err(fault) => Err((disk, fault)),
        }
    }

    /// The chronicle.
    pub fn chronicle(&self) -> &C
        ensures chronicle { result.now ≡ self.now.chronicle }
        ensures kept { self.now.closed ≡ false → (all : List ℕ) → D.bytes self.now.disk ≡ Some all
            → (kept group : List C.Plain) → HasParts C.work C.state self.now kept group
            → (image : List ℕ) → D.images self.now.disk image → StandsFor C.work kept image }
    {
        &self.chronicle
    }

    /// Whether a call of the disk failed.
    pub fn closed(&self) -> bool
        ensures { result ≡ self.now.closed }
    {
        self.closed
    }

    /// The chronicle and the disk.
    pub fn into_parts(self) -> (C, D)
        ensures { (result.0 ≡ self.chronicle) × (result.1 ≡ self.disk) }
    {
        let Kept {
            alloc: _,
            chronicle,
            disk,
            end: _,
            group: _,
            waiting: _,
            closed: _,
        } = self;
        (chronicle, disk)
    }

    /// Answers an item. Where it is kept it waits then, with the others that wait, for `commit`; the disk isn't called.
    pub fn admit(&mut self, item: C::Item) -> Result<C::Answer, KeptRefusal<C::Item>>
        requires sound { C.IsSound (C.plain item) }
        ensures answer { IfOk result (λ answer.
            answer ≡ C.work.answer_of (C.state self.old.chronicle) (C.plain item)) }
        ensures after { OnOk result (C.state self.new.chronicle
            ≡ C.work.after (C.state self.old.chronicle) (C.plain item)) }
        ensures waits { OnOk result (self.new.waiting
            ≡ (if C.work.keeps (C.work.answer_of (C.state self.old.chronicle) (C.plain item))
            then self.old.waiting + 1 else self.old.waiting)) }
        ensures refuses { IfErr result (Refuses D.faults C.IsSame self.old self.new item) }
        ensures open { OnOk result ((self.old.closed ≡ false) × (self.new.closed ≡ false)) }
        ensures closed { self.new.closed ≡ self.old.closed }
        ensures uncalled { self.new.disk ≡ self.old.disk }
    {
        if self.closed {
            return Err(KeptRefusal::Closed(item));
        }
        let Ok(text) = self.chronicle.text_of(self.alloc, &item) else {
            return Err(KeptRefusal::Memory(item));
        };
        let Ok(behind) = behind_gate(self.alloc, &text) else {
            return Err(KeptRefusal::Memory(item));
        };
        if !has_place(self.end, &self.group, &behind) || self.group.reserve(behind.len()).is_err() {
            return Err(KeptRefusal::Memory(item));
        }
        let answer = match self.chronicle.apply(item, &text) {
            Ok(answer) => answer,
            Err((item, _error)) => return Err(KeptRefusal::Memory(item)),
        };
        if !C::is_kept(&answer) {
            return Ok(answer);
        }
        stage(&mut self.group, &behind);
        self.waiting += 1;
        Ok(answer)
    }

    /// Keeps all items that wait, by two syncs, or by none where no item waits. At Ok each crash from now on leaves
    /// them; a crash meanwhile leaves all of them or none.
    pub fn commit(&mut self) -> Result<(), CommitFault>
        ensures chronicle { self.new.chronicle ≡ self.old.chronicle }
        ensures waits { OnOk result (self.new.waiting ≡ 0) }
        ensures fails { IfErr result (Fails D.faults self.old self.new) }
        ensures open { OnOk result ((self.old.closed ≡ false) × (self.new.closed ≡ false)) }
        ensures told { OnOk result (AreAlike (D.bytes self.old.disk) (D.bytes self.new.disk)) }
        ensures on { ToldOn (D.bytes self.old.disk) (D.bytes self.new.disk) }
        ensures quiet { OnOk result (D.faults self.new.disk ≡ D.faults self.old.disk) }
        ensures moments { LeavesGroup C.work C.state D.bytes D.moment D.left_since self.old self.new.disk }
        ensures kept { OnOk result (KeepsAll C.work C.state D.bytes D.images self.old self.new.disk) }
        ensures idle { self.old.waiting ≡ 0 → self.new.disk ≡ self.old.disk }
    {
        if self.closed {
            return Err(CommitFault::Closed);
        }
        if self.waiting == 0 {
            return Ok(());
        }
        if add(&mut self.disk, self.end, &self.group).is_err() {
            self.closed = true;
            return Err(CommitFault::Disk);
        }
        self.end += self.group.len() as u64;
        self.group.clear();
        self.waiting = 0;
        Ok(())
    }

    /// Answers an item and keeps it, where no other one waits. At Ok each crash from now on leaves it, if it is kept.
    pub fn apply(&mut self, item: C::Item) -> Result<C::Answer, KeptRefusal<C::Item>>
        requires sound { C.IsSound (C.plain item) }
        requires alone { self.old.waiting ≡ 0 }
        ensures answer { IfOk result (λ answer.
            answer ≡ C.work.answer_of (C.state self.old.chronicle) (C.plain item)) }
        ensures after { OnOk result (C.state self.new.chronicle
            ≡ C.work.after (C.state self.old.chronicle) (C.plain item)) }
        ensures waits { OnOk result (self.new.waiting ≡ 0) }
        ensures refuses { IfErr result (Refuses D.faults C.IsSame self.old self.new item) }
        ensures open { OnOk result ((self.old.closed ≡ false) × (self.new.closed ≡ false)) }
        ensures told { OnOk result (AreAlike (D.bytes self.old.disk) (D.bytes self.new.disk)) }
        ensures quiet { OnOk result (D.faults self.new.disk ≡ D.faults self.old.disk) }
        ensures moments { LeavesItems C.work C.state D.bytes D.moment D.left_since
            self.old self.new.disk (C.plain item) }
        ensures kept { IfOk result (λ answer. IsTrue (C.work.keeps answer)
            → KeepsMore C.work C.state D.bytes D.images self.old self.new.disk (C.plain item)) }
        ensures full { C.work.keeps (C.work.answer_of (C.state self.old.chronicle) (C.plain item)) ≡ false
            → self.new.disk ≡ self.old.disk }
    {
        let _ = &self.alloc;
        let answer = self.admit(item)?;
        match self.commit() {
            Ok(()) => Ok(answer),
            Err(_fault) => Err(KeptRefusal::Disk),
        }
    }
}
