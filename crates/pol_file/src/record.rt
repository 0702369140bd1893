//! The calls of a file with their answers, which clauses alone read: no memory holds them.
ghost use Rattle.std.specs.Prelude.{◌≡◌, List, [], ◌∷◌};
ghost use Rattle.std.specs.Borrow.{ftrue};
ghost use Rattle.pol_disk.specs.Answers.{FileCall};
ghost use Rattle.pol_file.specs.Notes.{call_of};

use std::marker::{Model, PhantomData};

/// The calls so far, the newest first.
#[derive(Drop)]
pub struct Record {
    marker: PhantomData<u8>,
    pub ghost calls: { List FileCall },
}

impl Model for Record {
    ghost also_owns = { λ _. ftrue };
}

impl Record {
    /// The record before the first call.
    pub(crate) fn new() -> Record
        ensures { result.calls ≡ [] }
    {
        Record {
            marker: PhantomData,
        }
    }

    /// Notes one call more: its numbers, and the bytes that it read or was given.
    pub(crate) fn note(&mut self, _numbers: &[u64], _bytes: &[u8])
        ensures { self.new.calls ≡ call_of _numbers.now _bytes.now ∷ self.old.calls }
    {}
}
