//! A part that is docked.
ghost use Rattle.std.specs.Prelude.{◌≡◌};
ghost use Rattle.std.specs.Borrow.{Lends, sem};

use super::away::Away;
use std::marker::Model;

/// A part that is docked, and can be used. Contracts see it as the part.
#[derive(Drop)]
pub struct Docked<T> {
    part: T,
}

impl<T> Model for Docked<T> {
    ghost Value = { T };

    ghost view = { λ docked. docked.part };
}

impl<T> Docked<T> {
    ghost use Rattle.pol_exchange.specs.contracts.docked.Docked.{the_row};

    /// Docks a part.
    pub fn new(part: T) -> Docked<T>
        ensures { result ≡ part }
    {
        Docked { part }
    }

    /// The docked part.
    pub fn part(&self) -> &T
        ensures { result.now ≡ self.now }
    {
        &self.part
    }

    /// The docked part, to be changed in its place.
    pub fn part_mut(&mut self) -> &mut T
        ensures* writes_back { sem 𝓛 (Lends (the_row T.row) T.row self.entry result (λ part. part)) }
        ensures value { result.now ≡ self.old }
    {
        &mut self.part
    }

    /// Sends the part away under this ticket.
    pub fn begin(self, ticket: u32) -> Away<T>
        ensures { result ≡ record { ticket = ticket; part = self } }
    {
        Away::new(ticket, self.part)
    }
}
