//! Takes what a module reports: the control of a service, or the value of a variable.
ghost use Rattle.std.specs.Prelude.{◌≡◌, ℕ, List, Some, IfOk, OnOk, OnErr, if◌then◌else◌, option_map};
ghost use Rattle.std.specs.Str.{bytes_eq};
ghost use Rattle.mtp_codes.specs.Faults.{done_unless, first_of};
ghost use Rattle.mtp_assembly.specs.Fits.{view_fault};
ghost use Rattle.pol_events.specs.Refusals.{report_rules, variable_rules, in_exchange, value_rule};
ghost use Rattle.pol_slots.specs.Slots.{slot_tag, slot_description, slot_ticket, last_control, last_value, SameModule};
ghost use Rattle.pol_slots.specs.Slots.{SameControls, SameValues};

use super::slot::Slot;
use mtp_assembly::{ServiceControl, View, check_view};
use mtp_codes::{Name, Value};
use pol_events::Rule;

// The variable may have the value.
fn fits(variable: &View, value: &Value) -> Result<(), Rule>
    ensures { result ≡ done_unless (option_map value_rule (view_fault variable.now.kind value.now)) }
{
    Ok(check_view(variable, value)?)
}

impl Slot {
    // The module is docked.
    fn docked(&self) -> Result<(), Rule>
        ensures { result ≡ done_unless (in_exchange (slot_tag self.now) (slot_ticket self.now)) }
    {
        match self.berth.ticket() {
            Some(ticket) => Err(Rule::InExchange {
                tag: self.tag,
                ticket,
            }),
            None => Ok(()),
        }
    }

    // The module may report this value.
    fn check_value(&self, name: Name, value: &Value) -> Result<(), Rule>
        ensures { result ≡ done_unless (first_of (variable_rules (slot_tag self.now) name value.now
            (slot_ticket self.now) (Some (slot_description self.now)))) }
    {
        self.docked()?;
        let Some(variable) = self.description.variable(name) else {
            return Err(Rule::NoVariable);
        };
        fits(variable, value)
    }

    /// Takes what a service reports.
    ///
    /// `InExchange` with the tag and the ticket while the module is away; `NoService` where its description lacks the
    /// service; `NotAnEdge` where the state is neither the one reported last since docking nor one to which an edge
    /// leads from it. After a refusal the slot is unchanged.
    #[tactic(auto, unfolding(crate::specs::Slots::last_control, crate::specs::Slots::last_value))]
    #[inline(always)]
    pub fn report(&mut self, service: Name, control: ServiceControl) -> Result<(), Rule>
        ensures answer { result ≡ done_unless (first_of (report_rules (slot_tag self.old) service control.state
            (slot_ticket self.old) (Some (slot_description self.old)) (last_control self.old service))) }
        ensures reported { OnOk result ((other : List ℕ) → last_control self.new other
            ≡ (if bytes_eq service other then Some control else last_control self.old other)) }
        ensures same_module { SameModule self.old self.new }
        ensures values { SameValues self.old self.new }
        ensures unchanged { OnErr result (SameControls self.old self.new) }
    {
        self.docked()?;
        self.berth.report(service, control)
    }

    /// Takes the value that a variable is reported with.
    ///
    /// `InExchange` with the tag and the ticket while the module is away; `NoVariable` where its description lacks the
    /// variable; `WrongKind` and `OutOfRange` as `check_view` says of the value. After a refusal the slot is unchanged.
    #[tactic(auto, unfolding(crate::specs::Slots::last_control, crate::specs::Slots::last_value))]
    #[inline(always)]
    pub fn variable(&mut self, name: Name, value: Value) -> Result<(), Rule>
        ensures answer { result ≡ done_unless (first_of (variable_rules (slot_tag self.old) name value
            (slot_ticket self.old) (Some (slot_description self.old)))) }
        ensures reported { OnOk result ((other : List ℕ) → last_value self.new other
            ≡ (if bytes_eq name other then Some value else last_value self.old other)) }
        ensures same_module { SameModule self.old self.new }
        ensures controls { SameControls self.old self.new }
        ensures unchanged { OnErr result (SameValues self.old self.new) }
    {
        self.check_value(name, &value)?;
        self.berth.report_value(name, value);
        Ok(())
    }
}
