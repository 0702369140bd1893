//! Settings of a step in JSON.

ghost use Rattle.serde_json.specs.View.{view};
ghost use Rattle.mtp_codes.specs.declared.value.Setting.{Setting as SettingForm};
ghost use Rattle.mtp_json.specs.ReadsAs.{ReadsAs};
ghost use Rattle.chart_json.specs.Form.{same_setting, setting_of};

use mtp_codes::Setting;
use mtp_json::{Alike, FromJson, JsonRefusal, name_at, nothing_but, object_here, scalar_at};
use serde_json::Value;
use std::alloc::Global;

/// The form of a setting.
pub struct SettingJson;

#[tactic(auto, unfolding(crate::specs::Form::setting_of))]
fn read_setting(alloc: Global, value: &Value) -> Result<Setting, JsonRefusal>
    ensures { ReadsAs (λ setting. setting) result (setting_of (view value.now)) }
{
    object_here(alloc, value)?;
    let name = name_at(alloc, value, "name")?;
    let given = scalar_at(alloc, value, "value")?;
    nothing_but(alloc, value, "name value")?;
    Ok(Setting { name, value: given })
}

impl FromJson for SettingJson {
    type Item = Setting;

    ghost Form = { SettingForm };

    ghost plain = { λ setting. setting };

    ghost form = { setting_of };

    fn read(alloc: Global, value: &Value) -> Result<Setting, JsonRefusal> {
        read_setting(alloc, value)
    }
}

impl Alike for SettingJson {
    type Item = Setting;

    ghost Form = { SettingForm };

    ghost plain = { λ setting. setting };

    ghost same = { same_setting };

    fn is_like(item: &Setting, other: &Setting) -> bool {
        item.name == other.name
    }
}
