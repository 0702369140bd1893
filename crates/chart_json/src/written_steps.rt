//! Steps as JSON.

ghost use Rattle.std.specs.Prelude.{◌≡◌, IfOk, IsTrue, codes};
ghost use Rattle.std.specs.List.{list_all};
ghost use Rattle.serde_json.specs.Data.{member, object};
ghost use Rattle.serde_json.specs.View.{view};
ghost use Rattle.chart_core.specs.Formulas.{plain_condition};
ghost use Rattle.chart_core.specs.Trees.{plain_finish, plain_step};
ghost use Rattle.chart_json.specs.Sound.{is_finish_sound, is_setting_sound, is_step_sound};
ghost use Rattle.chart_json.specs.Written.{finish_first, step_keys, written_setting, written_settings, written_step};

use crate::written_conditions::write_condition;
use chart_core::{Condition, Step};
use mtp_codes::{Name, Setting};
use mtp_json::write_scalar;
use serde_json::{Value, json};
use std::alloc::{AllocError, Global};

#[tactic(auto, unfolding(crate::specs::Written::written_setting))]
fn write_setting(alloc: Global, setting: &Setting) -> Result<Value, AllocError>
    ensures value { IfOk result (λ value. view value ≡ written_setting setting.now) }
    ensures sound { IfOk result (λ _. IsTrue (is_setting_sound setting.now)) }
{
    let given = write_scalar(alloc, &setting.value)?;
    let name = setting.name.as_str();
    json!(in alloc; {"name": name, "value": given})
}

fn write_settings(alloc: Global, settings: &[Setting]) -> Result<Value, AllocError>
    ensures value { IfOk result (λ value. view value ≡ written_settings settings.now) }
    ensures sound { IfOk result (λ _. IsTrue (list_all is_setting_sound settings.now)) }
{
    let mut list = Vec::new(alloc);
    for setting in settings {
        list.push(write_setting(alloc, setting)?)?;
    }
    Ok(Value::Array(list))
}

fn bare_step(
    alloc: Global,
    name: &str,
    procedure: u16,
    role: &str,
    service: &str,
    settings: Value,
) -> Result<Value, AllocError>
    ensures { IfOk result
        (λ value. view value ≡ object (step_keys name.now procedure role.now service.now (view settings))) }
{
    json!(in alloc; {
        "procedure": procedure,
        "role": role,
        "service": service,
        "settings": settings,
        "step": name
    })
}

fn finished_step(
    alloc: Global,
    finish: Value,
    name: &str,
    procedure: u16,
    role: &str,
    service: &str,
    settings: Value,
) -> Result<Value, AllocError>
    ensures { IfOk result (λ value. view value ≡ object
        (member (codes "finish") (view finish) (step_keys name.now procedure role.now service.now (view settings)))) }
{
    json!(in alloc; {
        "finish": finish,
        "procedure": procedure,
        "role": role,
        "service": service,
        "settings": settings,
        "step": name
    })
}

/// A step, with every key but `finish` where there is none.
#[tactic(auto, unfolding(crate::specs::Written::written_step))]
pub fn write_step(alloc: Global, step: &Step) -> Result<Value, AllocError>
    ensures value { IfOk result (λ value. view value ≡ written_step (plain_step step.now)) }
    ensures sound { IfOk result (λ _. IsTrue (is_step_sound (plain_step step.now))) }
{
    let settings = write_settings(alloc, &step.settings)?;
    let name = step.name.as_str();
    let role = step.role.as_str();
    let service = step.service.as_str();
    match &step.finish {
        None => bare_step(alloc, name, step.procedure, role, service, settings),
        Some(finish) => {
            let finish = write_condition(alloc, finish)?;
            finished_step(alloc, finish, name, step.procedure, role, service, settings)
        }
    }
}
