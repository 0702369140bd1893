//! Simulations in JSON.
ghost use Rattle.std.specs.Prelude.{◌≡◌};
ghost use Rattle.serde_json.specs.View.{view};
ghost use Rattle.mtp_json.specs.ReadsAs.{ReadsAs};
ghost use Rattle.mtp_sim.specs.Sims.{PlainPlan, plain_plan};
ghost use Rattle.mtp_sim.specs.declared.plan.Drift.{Drift as drift_type};
ghost use Rattle.pol_site.specs.Rules.{same_drift};
ghost use Rattle.site_json.specs.Form.{drift_of, plan_of};

use mtp_json::{
    Alike, FromJson, JsonRefusal, i32_at, list_of, name_at, nothing_but, object_here, u16_at,
};
use mtp_sim::{Drift, SimPlan};
use pol_site::{MOST_DRIFTS, MOST_TICKS};
use serde_json::Value;
use std::alloc::Global;

/// The form of a drift.
pub struct DriftJson;

#[tactic(auto, unfolding(crate::specs::Form::drift_of))]
fn read_drift(alloc: Global, value: &Value) -> Result<Drift, JsonRefusal>
    ensures { ReadsAs (λ drift. drift) result (drift_of (view value.now)) }
{
    object_here(alloc, value)?;
    let name = name_at(alloc, value, "name")?;
    let from = i32_at(alloc, value, "from")?;
    let by = i32_at(alloc, value, "by")?;
    let to = i32_at(alloc, value, "to")?;
    nothing_but(alloc, value, "name from by to")?;
    Ok(Drift {
        name,
        from: i64::from(from),
        by: i64::from(by),
        to: i64::from(to),
    })
}

impl FromJson for DriftJson {
    type Item = Drift;

    ghost Form = { drift_type };

    ghost plain = { λ drift. drift };

    ghost form = { drift_of };

    fn read(alloc: Global, value: &Value) -> Result<Drift, JsonRefusal> {
        read_drift(alloc, value)
    }
}

impl Alike for DriftJson {
    type Item = Drift;

    ghost Form = { drift_type };

    ghost plain = { λ drift. drift };

    ghost same = { same_drift };

    fn is_like(item: &Drift, other: &Drift) -> bool {
        item.name == other.name
    }
}

#[tactic(auto, unfolding(crate::specs::Form::plan_of))]
fn read_plan(alloc: Global, value: &Value) -> Result<SimPlan, JsonRefusal>
    ensures { ReadsAs plain_plan result (plan_of (view value.now)) }
{
    object_here(alloc, value)?;
    let ticks = u16_at(alloc, value, "ticks", 1, MOST_TICKS)?;
    let run = u16_at(alloc, value, "run", 1, MOST_TICKS)?;
    let drifts = list_of::<DriftJson>(alloc, value, "drift", 0, MOST_DRIFTS)?;
    nothing_but(alloc, value, "ticks run drift")?;
    Ok(SimPlan { ticks, run, drifts })
}

/// The form of a simulation.
pub struct PlanJson;

impl FromJson for PlanJson {
    type Item = SimPlan;

    ghost Form = { PlainPlan };

    ghost plain = { plain_plan };

    ghost form = { plan_of };

    fn read(alloc: Global, value: &Value) -> Result<SimPlan, JsonRefusal> {
        read_plan(alloc, value)
    }
}
