//! What a module reported since it was docked.
ghost use Rattle.std.specs.Prelude.{◌≡◌, ℕ, List, Some, None, IfOk, if◌then◌else◌};
ghost use Rattle.std.specs.List.{list_any};
ghost use Rattle.std.specs.Map.{lookup};
ghost use Rattle.std.specs.Str.{bytes_eq};
ghost use Rattle.mtp_desc.specs.PlainDescription.{plain_description};
ghost use Rattle.pol_slots.specs.Reported.{KnowsServices, KnowsVariables, ReportedNothing, ForgetsAll};

use super::last_values::LastValues;
use mtp_assembly::{ServiceControl, View};
use mtp_codes::Value;
use mtp_desc::{Description, Service};
use std::alloc::{AllocError, Global};

/// What each service of a module reported last since docking, and each variable.
#[derive(Drop)]
pub(crate) struct Reported {
    pub(crate) controls: LastValues<ServiceControl>,
    pub(crate) values: LastValues<Value>,
}

fn of_services(
    alloc: Global,
    services: &[Service],
) -> Result<LastValues<ServiceControl>, AllocError>
    ensures { IfOk result (λ last_values. (name : List ℕ) → lookup (bytes_eq name) last_values
        ≡ (if list_any (λ service. bytes_eq service.name name) services.now then Some None else None)) }
{
    let mut last_values = LastValues::new(alloc);
    for service in services {
        last_values.add(service.name)?;
    }
    Ok(last_values)
}

fn of_variables(alloc: Global, variables: &[View]) -> Result<LastValues<Value>, AllocError>
    ensures { IfOk result (λ last_values. (name : List ℕ) → lookup (bytes_eq name) last_values
        ≡ (if list_any (λ variable. bytes_eq variable.name name) variables.now then Some None else None)) }
{
    let mut last_values = LastValues::new(alloc);
    for variable in variables {
        last_values.add(variable.name)?;
    }
    Ok(last_values)
}

impl Reported {
    /// Nothing, of a module without services and variables. Takes no memory.
    pub(crate) fn empty(alloc: Global) -> Reported {
        Reported {
            controls: LastValues::new(alloc),
            values: LastValues::new(alloc),
        }
    }

    /// Nothing yet, with room for all that a module of this description can report.
    pub(crate) fn new(alloc: Global, description: &Description) -> Result<Reported, AllocError>
        ensures services { IfOk result (KnowsServices (plain_description description.now)) }
        ensures variables { IfOk result (KnowsVariables (plain_description description.now)) }
        ensures nothing { IfOk result ReportedNothing }
    {
        let controls = of_services(alloc, &description.services)?;
        let values = of_variables(alloc, &description.variables)?;
        Ok(Reported { controls, values })
    }

    /// Forgets all that was reported.
    pub(crate) fn forget(&mut self)
        ensures { ForgetsAll self.old self.new }
    {
        self.controls.forget();
        self.values.forget();
    }
}
