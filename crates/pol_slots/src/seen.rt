//! What is seen of a module's services and variables.
ghost use Rattle.std.specs.Prelude.{◌≡◌};
ghost use Rattle.mtp_codes.specs.Faults.{done_unless};
ghost use Rattle.pol_events.specs.Refusals.{not_at_rest};
ghost use Rattle.pol_events.specs.Views.{seen_with};
ghost use Rattle.pol_slots.specs.Sights.{slot_sight, slot_reading, reported_view};
ghost use Rattle.pol_slots.specs.Slots.{slot_description, last_control, last_value};

use super::slot::Slot;
use chart_cursor::{ReadingSight, Sight};
use mtp_assembly::ServiceControl;
use mtp_codes::{Name, Reading, Value};
use mtp_machine::is_at_rest;
use mtp_modes::ServiceView;
use pol_events::Rule;

impl Slot {
    // What the service reported last since docking.
    #[tactic(auto, unfolding(crate::specs::Slots::last_control))]
    fn control(&self, service: Name) -> Option<ServiceControl>
        ensures { result ≡ last_control self.now service }
    {
        self.berth.control(service)?
    }

    /// The value that the variable was reported with last since docking; None where it wasn't, and while the module is
    /// away.
    #[tactic(auto, unfolding(crate::specs::Slots::last_value))]
    pub fn value(&self, name: Name) -> Option<Value>
        ensures { result ≡ last_value self.now name }
    {
        self.berth.value(name)?
    }

    // A report, with what the description says of its procedure.
    fn seen_with(&self, service: Name, control: ServiceControl) -> ServiceView
        ensures { result ≡ seen_with service (Some (slot_description self.now)) control }
    {
        ServiceView {
            control,
            self_completes: self.description.self_completes(service, control.procedure),
        }
    }

    /// What the service reported last since docking, with whether its current procedure completes by itself. It serves
    /// the operator's desk, which tells a service that isn't there from one that wasn't reported.
    ///
    /// `InExchange` with the tag and the ticket while the module is away; `NoService` where its description lacks the
    /// service; `NotReported` with the tag and the service.
    #[tactic(auto, unfolding(crate::specs::Slots::last_control))]
    pub fn reported(&self, service: Name) -> Result<ServiceView, Rule>
        ensures { result ≡ reported_view self.now service }
    {
        if let Some(ticket) = self.ticket() {
            return Err(Rule::InExchange {
                tag: self.tag,
                ticket,
            });
        }
        match self.berth.control(service) {
            None => Err(Rule::NoService),
            Some(None) => Err(Rule::NotReported {
                tag: self.tag,
                name: service,
            }),
            Some(Some(control)) => Ok(self.seen_with(service, control)),
        }
    }

    /// What is seen of a service: the module is away; or the service wasn't reported since docking, or isn't there; or
    /// what it reported last, and whether its current procedure (`ProcedureCur`) completes by itself.
    pub fn view(&self, service: Name) -> Sight
        ensures { result ≡ slot_sight self.now service }
    {
        if self.ticket().is_some() {
            return Sight::Away;
        }
        match self.control(service) {
            None => Sight::Unreported,
            Some(control) => Sight::Is(self.seen_with(service, control)),
        }
    }

    /// What is seen of a variable: the module is away; or the variable wasn't reported since docking, or isn't there;
    /// or what it was reported with last. A variable whose last value is a text is seen as not reported.
    pub fn reading(&self, name: Name) -> ReadingSight
        ensures { result ≡ slot_reading self.now name }
    {
        if self.ticket().is_some() {
            return ReadingSight::Away;
        }
        match self.value(name) {
            Some(Value::Whole(number)) => ReadingSight::Is(Reading::Whole(number)),
            Some(Value::Bit(bit)) => ReadingSight::Is(Reading::Bit(bit)),
            Some(Value::Text(_)) | None => ReadingSight::Unreported,
        }
    }

    /// Whether the module is at rest: each of its services is Idle, Completed, Stopped or Aborted, or wasn't reported
    /// since docking. `NotAtRest` names the first other service in the order of the description, with its state.
    pub fn at_rest(&self) -> Result<(), Rule>
        ensures { result ≡ done_unless (not_at_rest (last_control self.now) (slot_description self.now).services) }
    {
        for service in &self.description.services {
            if let Some(control) = self.control(service.name)
                && !is_at_rest(control.state)
            {
                return Err(Rule::NotAtRest {
                    service: service.name,
                    state: control.state,
                });
            }
        }
        Ok(())
    }
}
