//! What a service reports, in JSON.
ghost use Rattle.serde_json.specs.View.{view};
ghost use Rattle.mtp_json.specs.ReadsAs.{ReadsAs};
ghost use Rattle.event_json.specs.Forms.{control_in};

use crate::words::{ModeWords, OriginWords};
use mtp_assembly::ServiceControl;
use mtp_json::{JsonRefusal, state_at, u16_at, u32_at, word_at};
use serde_json::Value;
use std::alloc::Global;

/// The five fields of what a service reports.
#[tactic(auto, unfolding(crate::specs::Forms::control_in))]
pub fn read_control(alloc: Global, value: &Value) -> Result<ServiceControl, JsonRefusal>
    ensures { ReadsAs (λ control. control) result (control_in (view value.now)) }
{
    let state = state_at(alloc, value, "StateCur")?;
    let mask = u32_at(alloc, value, "CommandEn", 0, u32::MAX)?;
    let mode = word_at::<ModeWords>(alloc, value, "Mode")?;
    let origin = word_at::<OriginWords>(alloc, value, "Src")?;
    let procedure = u16_at(alloc, value, "ProcedureCur", 0, u16::MAX)?;
    Ok(ServiceControl {
        state,
        mask,
        mode,
        origin,
        procedure,
    })
}
