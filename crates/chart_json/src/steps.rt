//! Steps in JSON.

ghost use Rattle.std.specs.Prelude.{codes};
ghost use Rattle.serde_json.specs.View.{view};
ghost use Rattle.mtp_json.specs.Form.{nested_if_there, list_or_none};
ghost use Rattle.mtp_json.specs.ReadsAs.{ReadsAs};
ghost use Rattle.chart_core.specs.Trees.{plain_finish, plain_step};
ghost use Rattle.chart_json.specs.Form.{condition_of, setting_of, step_of};
ghost use Rattle.chart_core.specs.declared.limits.TheConstants.{MOST_SETTINGS};

use crate::conditions::ConditionJson;
use crate::settings::SettingJson;
use chart_core::{Condition, MOST_SETTINGS, Step};
use mtp_codes::Setting;
use mtp_json::{
    JsonRefusal, form_if_there, list_or_none, name_at, nothing_but, u16_at, unlike_under,
};
use serde_json::Value;
use std::alloc::Global;

#[tactic(auto, using(crate::proofs::Views::settings_seen))]
fn settings_at(alloc: Global, value: &Value) -> Result<Vec<Setting>, JsonRefusal>
    ensures { ReadsAs (λ settings. settings.items) result (list_or_none (codes "settings") 0 MOST_SETTINGS setting_of
        (view value.now)) }
{
    list_or_none::<SettingJson>(alloc, value, "settings", 0, MOST_SETTINGS)
}

#[tactic(auto, using(crate::proofs::Views::finish_seen))]
fn finish_at(alloc: Global, value: &Value) -> Result<Option<Condition>, JsonRefusal>
    ensures { ReadsAs plain_finish result (nested_if_there (codes "finish") condition_of (view value.now)) }
{
    form_if_there::<ConditionJson>(alloc, value, "finish")
}

/// The step that this object is in the form of; else the first fault in reading order.
#[tactic(auto, unfolding(crate::specs::Form::step_of))]
pub fn read_step(alloc: Global, value: &Value) -> Result<Step, JsonRefusal>
    ensures { ReadsAs plain_step result (step_of (view value.now)) }
{
    let name = name_at(alloc, value, "step")?;
    let role = name_at(alloc, value, "role")?;
    let service = name_at(alloc, value, "service")?;
    let procedure = u16_at(alloc, value, "procedure", 1, u16::MAX)?;
    let settings = settings_at(alloc, value)?;
    let finish = finish_at(alloc, value)?;
    nothing_but(alloc, value, "step role service procedure settings finish")?;
    unlike_under::<SettingJson>(alloc, "settings", &settings)?;
    Ok(Step {
        name,
        role,
        service,
        procedure,
        settings,
        finish,
    })
}
