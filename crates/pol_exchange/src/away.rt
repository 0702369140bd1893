//! A part that is away for exchange.
ghost use Rattle.std.specs.Prelude.{◌≡◌, ◌==◌, if◌then◌else◌, Ok, Err};

use super::docked::Docked;
use std::marker::Model;

/// A part that is away for exchange. Contracts see the ticket under which it left, and the part.
///
/// It knows nothing else, and nothing but [`Away::finish`] and [`Away::cancel`] ends it.
#[derive(Drop)]
pub struct Away<T> {
    ticket: u32,
    part: T,
}

impl<T> Model for Away<T> {
    ghost use Rattle.pol_exchange.specs.Kept.{Kept, kept_code};

    ghost Value = { Kept T };

    ghost coded = { kept_code T.code };

    ghost view = { λ away. record { ticket = away.ticket; part = away.part } };
}

/// The ticket that was given is not the one that is kept.
#[derive(Clone, Copy, Debug, PartialEq, Eq)]
pub struct WrongTicket {
    /// The ticket under which the part left.
    pub kept: u32,
    /// The ticket that was shown.
    pub given: u32,
}

impl<T> Away<T> {
    // A part that left under this ticket.
    pub(crate) fn new(ticket: u32, part: T) -> Away<T>
        ensures { result ≡ record { ticket = ticket; part = part } }
    {
        Away { ticket, part }
    }

    /// The ticket under which the part left.
    pub fn ticket(&self) -> u32
        ensures { result ≡ self.now.ticket }
    {
        self.ticket
    }

    /// Docks `part` in place of the old part, and hands the old one out.
    ///
    /// Where the ticket is not the kept one, everything is handed back.
    pub fn finish(self, ticket: u32, part: T) -> Result<(Docked<T>, T), (Away<T>, T, WrongTicket)>
        ensures { result ≡ (if ticket == self.ticket
            then Ok (part, self.part)
            else Err (self, part, record { kept = self.ticket; given = ticket })) }
    {
        match self.check(ticket) {
            Ok(()) => Ok((Docked::new(part), self.part)),
            Err(wrong) => Err((self, part, wrong)),
        }
    }

    /// Docks the old part again.
    ///
    /// Where the ticket is not the kept one, everything is handed back.
    pub fn cancel(self, ticket: u32) -> Result<Docked<T>, (Away<T>, WrongTicket)>
        ensures { result ≡ (if ticket == self.ticket
            then Ok self.part
            else Err (self, record { kept = self.ticket; given = ticket })) }
    {
        match self.check(ticket) {
            Ok(()) => Ok(Docked::new(self.part)),
            Err(wrong) => Err((self, wrong)),
        }
    }

    // Whether this ticket is the kept one.
    fn check(&self, ticket: u32) -> Result<(), WrongTicket>
        ensures { result ≡ (if ticket == self.now.ticket
            then Ok tt
            else Err (record { kept = self.now.ticket; given = ticket })) }
    {
        if ticket == self.ticket {
            Ok(())
        } else {
            Err(WrongTicket {
                kept: self.ticket,
                given: ticket,
            })
        }
    }
}
