//! A module's berth: it is docked, or away for exchange, with what it reported.
ghost use Rattle.std.specs.Prelude.{◌≡◌, Some, None, OnOk, OnErr, option_and_then};
ghost use Rattle.std.specs.Map.{lookup};
ghost use Rattle.std.specs.Str.{bytes_eq};
ghost use Rattle.mtp_codes.specs.Faults.{done_unless};
ghost use Rattle.pol_slots.specs.LastValues.{report_rule};
ghost use Rattle.pol_slots.specs.Berths.{ticket_in, reported_in, docked_in, IsBack};
ghost use Rattle.pol_slots.specs.Refused.{ticket_rule};
ghost use Rattle.pol_slots.specs.Reported.{ReportsControl, ReportsSame, ReportsValue};

use super::reported::Reported;
use mtp_assembly::ServiceControl;
use mtp_codes::{Name, Value};
use pol_events::Rule;
use pol_exchange::{Away, Docked, WrongTicket};
use std::alloc::Global;

/// A module that is docked, or away for exchange, with what it reported.
#[derive(Drop)]
pub(crate) enum Berth {
    Docked(Docked<Reported>),
    Away(Away<Reported>),
}

// A wrong ticket, as a rule.
fn wrong_ticket(wrong: WrongTicket) -> Rule
    ensures { result ≡ Rule.WrongTicket wrong.kept wrong.given }
{
    Rule::WrongTicket {
        kept: wrong.kept,
        given: wrong.given,
    }
}

impl Berth {
    /// A berth of no module, which fills a slot while the slot's own berth changes. Takes no memory.
    pub(crate) fn empty(alloc: Global) -> Berth {
        Berth::docked(Reported::empty(alloc))
    }

    /// A docked module that reported this.
    pub(crate) fn docked(reported: Reported) -> Berth
        ensures { result ≡ Berth.Docked reported }
    {
        Berth::Docked(Docked::new(reported))
    }

    /// The ticket under which the module is away.
    pub(crate) fn ticket(&self) -> Option<u32>
        ensures { result ≡ ticket_in self.now }
    {
        match self {
            Berth::Docked(_) => None,
            Berth::Away(away) => Some(away.ticket()),
        }
    }

    /// The rule that the end or the cancel of an exchange by this ticket meets: the module isn't away, or is under
    /// another.
    pub(crate) fn ticket_rule(&self, ticket: u32) -> Option<Rule>
        ensures { result ≡ ticket_rule ticket (ticket_in self.now) }
    {
        match self {
            Berth::Docked(_) => Some(Rule::NotInExchange),
            Berth::Away(away) if away.ticket() == ticket => None,
            Berth::Away(away) => Some(wrong_ticket(WrongTicket {
                kept: away.ticket(),
                given: ticket,
            })),
        }
    }

    /// What the service of the docked module reported last; None where the module has no such service, or is away.
    pub(crate) fn control(&self, service: Name) -> Option<Option<ServiceControl>>
        ensures { result ≡ option_and_then (λ reported. lookup (bytes_eq service) reported.controls)
            (docked_in self.now) }
    {
        match self {
            Berth::Docked(docked) => docked.part().controls.last(service),
            Berth::Away(_) => None,
        }
    }

    /// What the variable of the docked module was reported with last; None where the module has no such variable, or is
    /// away.
    pub(crate) fn value(&self, name: Name) -> Option<Option<Value>>
        ensures { result ≡ option_and_then (λ reported. lookup (bytes_eq name) reported.values) (docked_in self.now) }
    {
        match self {
            Berth::Docked(docked) => docked.part().values.last(name),
            Berth::Away(_) => None,
        }
    }

    /// Keeps what a service of the docked module reports, where its state may follow the one before.
    ///
    /// `NoService` where the module has no such service, `NotAnEdge` where the state may not follow; then all stays.
    #[inline(always)]
    pub(crate) fn report(&mut self, service: Name, control: ServiceControl) -> Result<(), Rule>
        requires { ticket_in self.old ≡ None }
        ensures answer { result ≡ done_unless (report_rule control.state
            (lookup (bytes_eq service) (reported_in self.old).controls)) }
        ensures docked { ticket_in self.new ≡ None }
        ensures reported { OnOk result (ReportsControl service control (reported_in self.old) (reported_in self.new)) }
        ensures unchanged { OnErr result (ReportsSame (reported_in self.old) (reported_in self.new)) }
    {
        match self {
            Berth::Docked(docked) => docked.part_mut().controls.report(service, control),
            Berth::Away(_) => unreachable!(),
        }
    }

    /// Keeps the value that a variable of the docked module is reported with.
    #[inline(always)]
    pub(crate) fn report_value(&mut self, name: Name, value: Value)
        requires { ticket_in self.old ≡ None }
        ensures docked { ticket_in self.new ≡ None }
        ensures reported { ReportsValue name value (reported_in self.old) (reported_in self.new) }
    {
        match self {
            Berth::Docked(docked) => docked.part_mut().values.put(name, value),
            Berth::Away(_) => unreachable!(),
        }
    }

    /// Sends the docked module away under this ticket.
    pub(crate) fn begin(self, ticket: u32) -> Berth
        requires { ticket_in self ≡ None }
        ensures away { ticket_in result ≡ Some ticket }
        ensures reported { reported_in result ≡ reported_in self }
    {
        match self {
            Berth::Docked(docked) => Berth::Away(docked.begin(ticket)),
            Berth::Away(_) => unreachable!(),
        }
    }

    /// Docks another module, which reported this, in place of the one that is away.
    ///
    /// `NotInExchange` where none is away, `WrongTicket` where the ticket isn't its own; then all stays.
    pub(crate) fn finish(self, ticket: u32, reported: Reported) -> (Berth, Result<(), Rule>)
        ensures answer { result.1 ≡ done_unless (ticket_rule ticket (ticket_in self)) }
        ensures docked { OnOk result.1 (result.0 ≡ Berth.Docked reported) }
        ensures unchanged { OnErr result.1 (result.0 ≡ self) }
    {
        let away = match self {
            Berth::Docked(docked) => return (Berth::Docked(docked), Err(Rule::NotInExchange)),
            Berth::Away(away) => away,
        };
        match away.finish(ticket, reported) {
            Ok((docked, _old)) => (Berth::Docked(docked), Ok(())),
            Err((away, _reported, wrong)) => (Berth::Away(away), Err(wrong_ticket(wrong))),
        }
    }

    /// Docks the module that is away again, with nothing reported; refused as [`Berth::finish`] is.
    pub(crate) fn cancel(self, ticket: u32) -> (Berth, Result<(), Rule>)
        ensures answer { result.1 ≡ done_unless (ticket_rule ticket (ticket_in self)) }
        ensures docked { OnOk result.1 (IsBack self result.0) }
        ensures unchanged { OnErr result.1 (result.0 ≡ self) }
    {
        let away = match self {
            Berth::Docked(docked) => return (Berth::Docked(docked), Err(Rule::NotInExchange)),
            Berth::Away(away) => away,
        };
        match away.cancel(ticket) {
            Ok(mut docked) => {
                docked.part_mut().forget();
                (Berth::Docked(docked), Ok(()))
            }
            Err((away, wrong)) => (Berth::Away(away), Err(wrong_ticket(wrong))),
        }
    }
}
