//! Whether a module can do what a step demands.

ghost use Rattle.std.specs.Prelude.{◌≡◌, Some};
ghost use Rattle.mtp_codes.specs.Faults.{done_unless};
ghost use Rattle.mtp_desc.specs.PlainDescription.{plain_description};
ghost use Rattle.mtp_desc.specs.PlainProcedure.{plain_procedure};
ghost use Rattle.mtp_procs.specs.Demands.{has_params, procedure_fault, setting_fault, settings_fault, step_fault};

use crate::demand::{StepDemand, StepFault};
use mtp_assembly::{ValueFault, check_value};
use mtp_codes::Setting;
use mtp_desc::{Description, Procedure};

// Whether the procedure has each parameter that is set.
fn has_params(procedure: &Procedure, settings: &[Setting]) -> bool
    ensures { result ≡ has_params (plain_procedure procedure.now) settings.now }
{
    for setting in settings {
        if procedure.param(setting.name).is_none() {
            return false;
        }
    }
    true
}

// Whether the value fits the parameter that is set; Ok where the procedure hasn't the parameter.
fn check_setting(procedure: &Procedure, setting: &Setting) -> Result<(), ValueFault>
    ensures { result ≡ done_unless (setting_fault (plain_procedure procedure.now) setting.now) }
{
    match procedure.param(setting.name) {
        Some(param) => check_value(param, &setting.value),
        None => Ok(()),
    }
}

fn check_settings(procedure: &Procedure, settings: &[Setting]) -> Result<(), ValueFault>
    ensures { result ≡ done_unless (settings_fault (plain_procedure procedure.now) settings.now) }
{
    for setting in settings {
        check_setting(procedure, setting)?;
    }
    Ok(())
}

fn check_procedure(
    procedure: &Procedure,
    settings: &[Setting],
    finishes: bool,
) -> Result<(), StepFault>
    ensures { result ≡ done_unless (procedure_fault settings.now finishes (Some (plain_procedure procedure.now))) }
{
    if !has_params(procedure, settings) || finishes == procedure.self_completing {
        return Err(StepFault::NotCovered);
    }
    match check_settings(procedure, settings) {
        Ok(()) => Ok(()),
        Err(ValueFault::WrongKind) => Err(StepFault::WrongKind),
        Err(ValueFault::OutOfRange) => Err(StepFault::OutOfRange),
    }
}

/// Whether the module can do what the step demands: NotCovered exactly where the service, the procedure or a parameter
/// that is set is missing, or the step completes the procedure by command exactly where it completes by itself; else
/// the fault of the first setting whose value doesn't fit, as `check_value` says.
pub fn check_step(description: &Description, demand: &StepDemand) -> Result<(), StepFault>
    ensures { result ≡ done_unless (step_fault (plain_description description.now)
        demand.now.service demand.now.procedure demand.now.settings.now demand.now.finishes) }
{
    let Some(service) = description.service(demand.service) else {
        return Err(StepFault::NotCovered);
    };
    match service.procedure(demand.procedure) {
        Some(procedure) => check_procedure(procedure, demand.settings, demand.finishes),
        None => Err(StepFault::NotCovered),
    }
}
