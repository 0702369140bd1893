//! Docking, and the exchange of a module for another.
ghost use Rattle.std.specs.Prelude.{◌≡◌, ℕ, ◌+◌, ◌<◌, Some, None, IfOk, IfErr, OnOk, OnErr};
ghost use Rattle.mtp_codes.specs.Faults.{done_unless};
ghost use Rattle.mtp_desc.specs.PlainDescription.{plain_description};
ghost use Rattle.pol_slots.specs.Refused.{ticket_rule, refusal_by};
ghost use Rattle.pol_slots.specs.Slots.{slot_tag, slot_description, slot_begins, slot_ticket, IsDocked, IsUnchanged};
ghost use Rattle.pol_slots.specs.Slots.{IsUnreported};

use super::berth::Berth;
use super::refusal::SlotRefusal;
use super::reported::Reported;
use super::slot::Slot;
use mtp_codes::Name;
use mtp_desc::Description;
use pol_events::Rule;
use std::alloc::{AllocError, Global};
use std::mem;
use std::sync::Arc;

impl Slot {
    /// A module with this description, docked under a tag: nothing was reported yet, and no exchange was begun. It
    /// takes all room that later reports need.
    #[tactic(auto, unfolding(crate::specs::Slots::last_control, crate::specs::Slots::last_value))]
    pub fn new(alloc: Global, description: Arc<Description>, tag: Name) -> Result<Slot, AllocError>
        ensures tag { IfOk result (λ slot. slot_tag slot ≡ tag) }
        ensures description { IfOk result (λ slot. slot_description slot ≡ plain_description description.value) }
        ensures begins { IfOk result (λ slot. slot_begins slot ≡ 0) }
        ensures docked { IfOk result (λ slot. slot_ticket slot ≡ None) }
        ensures unreported { IfOk result IsUnreported }
    {
        let reported = Reported::new(alloc, &description)?;
        Ok(Slot {
            alloc,
            tag,
            description,
            begins: 0,
            berth: Berth::docked(reported),
        })
    }

    /// The description of the module; while it is away, the old one.
    pub fn description(&self) -> &Arc<Description>
        ensures { plain_description result.now.value ≡ slot_description self.now }
    {
        &self.description
    }

    /// The ticket under which the module is away; None exactly while it is docked.
    pub fn ticket(&self) -> Option<u32>
        ensures { result ≡ slot_ticket self.now }
    {
        self.berth.ticket()
    }

    /// How often the module began an exchange.
    pub fn begins(&self) -> u32
        ensures { result ≡ slot_begins self.now }
    {
        self.begins
    }

    /// The rule that the end or the cancel of an exchange by this ticket meets: `NotInExchange` while the module is
    /// docked; `WrongTicket` with both tickets where it is away under another.
    pub fn ticket_rule(&self, ticket: u32) -> Option<Rule>
        ensures { result ≡ ticket_rule ticket (slot_ticket self.now) }
    {
        self.berth.ticket_rule(ticket)
    }

    /// Sends the module away for exchange. The answer is the ticket, by which the exchange is ended or cancelled: one
    /// more than the exchanges that were begun before. What was reported is forgotten.
    #[tactic(auto, unfolding(crate::specs::Slots::last_control, crate::specs::Slots::last_value))]
    pub fn begin(&mut self) -> u32
        requires docked { slot_ticket self.old ≡ None }
        requires few { slot_begins self.old < 4294967295 }
        ensures answer { result ≡ slot_begins self.old + 1 }
        ensures begins { slot_begins self.new ≡ result }
        ensures away { slot_ticket self.new ≡ Some result }
        ensures tag { slot_tag self.new ≡ slot_tag self.old }
        ensures description { slot_description self.new ≡ slot_description self.old }
        ensures unreported { IsUnreported self.new }
    {
        self.begins += 1;
        let berth = mem::replace(&mut self.berth, Berth::empty(self.alloc));
        self.berth = berth.begin(self.begins);
        self.begins
    }

    /// Ends the exchange: another module, with this description, is docked in place of the one that is away. Nothing
    /// was reported of it yet.
    ///
    /// `NotInExchange` while the module is docked, `WrongTicket` with both tickets where the given one isn't that of
    /// the exchange; else `Memory` where there is no memory. After each the slot is unchanged.
    #[tactic(auto, unfolding(crate::specs::Slots::last_control, crate::specs::Slots::last_value))]
    pub fn finish(&mut self, ticket: u32, description: Arc<Description>) -> Result<(), SlotRefusal>
        ensures accepted { OnOk result (ticket_rule ticket (slot_ticket self.old) ≡ None) }
        ensures docked { OnOk result (IsDocked self.old self.new (plain_description description.value)) }
        ensures refused { IfErr result (λ refusal. refusal ≡ refusal_by (ticket_rule ticket (slot_ticket self.old))) }
        ensures unchanged { OnErr result (IsUnchanged self.old self.new) }
    {
        let Ok(reported) = Reported::new(self.alloc, &description) else {
            return Err(SlotRefusal::by(self.ticket_rule(ticket)));
        };
        let berth = mem::replace(&mut self.berth, Berth::empty(self.alloc));
        let (berth, answer) = berth.finish(ticket, reported);
        self.berth = berth;
        match answer {
            Ok(()) => {
                self.description = description;
                Ok(())
            }
            Err(rule) => Err(SlotRefusal::Rule(rule)),
        }
    }

    /// Cancels the exchange: the module that is away is docked again, with its old description. Nothing was reported
    /// since.
    ///
    /// `NotInExchange` while the module is docked, `WrongTicket` with both tickets where the given one isn't that of
    /// the exchange; then the slot is unchanged.
    #[tactic(auto, unfolding(crate::specs::Slots::last_control, crate::specs::Slots::last_value))]
    pub fn cancel(&mut self, ticket: u32) -> Result<(), Rule>
        ensures answer { result ≡ done_unless (ticket_rule ticket (slot_ticket self.old)) }
        ensures docked { OnOk result (IsDocked self.old self.new (slot_description self.old)) }
        ensures unchanged { OnErr result (IsUnchanged self.old self.new) }
    {
        let berth = mem::replace(&mut self.berth, Berth::empty(self.alloc));
        let (berth, answer) = berth.cancel(ticket);
        self.berth = berth;
        answer
    }
}
