//! The finder: it finds for each recipe of a plant how a new batch of it could be bound now.
//!
//! As a job it replays a journal, and writes for each accepted recipe, in order, what it found: the least binding of
//! its chart to the modules that are free, or a shortage where there is none; and then how many lines were at fault
//! (`specs/Found.antt`). What it finds is a function of the history (`specs/Told.antt`), and which modules are free is
//! looked up in it (`specs/Candidates.antt`). `put_bindings_line` writes in one line what each recipe of a plant is
//! offered (`specs/Offers.antt`, `specs/Bindings.antt`): the same, where each role has a step (`offers_are_told`); a
//! role without one is to be watched, by any module that is docked. It knows nothing of how a binding is found, which
//! is `pol_match`'s. Its laws are that a start with a binding, and so with the one that is written, is done
//! (`bindings_start`, `told_bindings_start`, `offers_start`), and that there is always exactly one output
//! (`always_found`).
//!
//! Tried in `pol_examples`.
#![tactic(auto)]

ghost use Rattle.pol_find.specs.Bindings.{OffersAreTold};
ghost use Rattle.pol_find.specs.Found.{AreFound, FindingsAreOne};
ghost use Rattle.pol_find.specs.Starts.{BindingsStart, OffersStart, ToldBindingsStart, ToldOffersStart};

mod bindings;
mod candidates;
mod finding;
mod lines;
mod offers;
mod recipes;
mod telling;
mod told;

pub use bindings::put_bindings_line;
pub use finding::Finding;

/// A new batch that is started with a printed binding is answered Done, where fewer than 128 batches were started and
/// the history isn't full; and a line can say that start.
pub fn bindings_start()
    ensures { BindingsStart }
{}

/// A new batch that is started with the binding that is written of a recipe is answered Done, where fewer than 128
/// batches were started and the history isn't full; and a line can say that start.
pub fn told_bindings_start()
    ensures { ToldBindingsStart }
{}

/// A start with a binding to the docked modules, of which it holds those whose roles have a step and watches the
/// others, is answered Done there too, and so is one with what the line of the bindings offers.
pub fn offers_start()
    ensures each { OffersStart }
    ensures told { ToldOffersStart }
{}

/// In the line of the bindings a recipe whose roles all have a step has the object that the job writes of it.
pub fn offers_are_told()
    ensures { OffersAreTold }
{}

/// After every legal and orderly history there is exactly one output of the finder: each recipe has a least binding, or
/// a shortage that shows that it has none (Hall's theorem on the roles and the modules that fit them).
pub fn always_found()
    ensures some { AreFound }
    ensures one { FindingsAreOne }
{}
