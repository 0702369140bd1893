//! Whole charts as JSON.

ghost use Rattle.std.specs.Prelude.{◌≡◌, ◌≤◌, IfOk, IsTrue, Ok, false, map};
ghost use Rattle.std.specs.List.{list_all};
ghost use Rattle.serde_json.specs.Data.{depth};
ghost use Rattle.serde_json.specs.View.{view};
ghost use Rattle.serde_json.specs.Written.{has_float};
ghost use Rattle.chart_core.specs.Charts.{plain_chart};
ghost use Rattle.chart_core.specs.Roles.{plain_role};
ghost use Rattle.chart_core.specs.Valid.{IsValid};
ghost use Rattle.chart_json.specs.Form.{chart_of};
ghost use Rattle.chart_json.specs.Sound.{is_role_sound};
ghost use Rattle.chart_json.specs.Written.{IsWritten, written_role, written_roles};

use crate::written_nodes::write_node;
use chart_core::{Chart, Role};
use serde_json::{Value, json};
use std::alloc::{AllocError, Global};

#[tactic(auto, unfolding(crate::specs::Written::written_role), using(crate::proofs::Views::requirement_told))]
fn write_role(alloc: Global, role: &Role) -> Result<Value, AllocError>
    ensures value { IfOk result (λ value. view value ≡ written_role (plain_role role.now)) }
    ensures sound { IfOk result (λ _. IsTrue (is_role_sound (plain_role role.now))) }
{
    let name = role.role.as_str();
    let type_name = role.type_name.as_str();
    let wants = role.wants.as_str();
    json!(in alloc; {"role": name, "type": type_name, "version": wants})
}

fn write_roles(alloc: Global, roles: &[Role]) -> Result<Value, AllocError>
    ensures value { IfOk result (λ value. view value ≡ written_roles (map plain_role roles.now)) }
    ensures sound { IfOk result (λ _. IsTrue (list_all is_role_sound (map plain_role roles.now))) }
{
    let mut list = Vec::new(alloc);
    for role in roles {
        list.push(write_role(alloc, role)?)?;
    }
    Ok(Value::Array(list))
}

fn write_both(alloc: Global, chart: &Chart) -> Result<(Value, Value), AllocError>
    ensures { IfOk result (λ pair. IsWritten (plain_chart chart.now) (view pair.0) (view pair.1)) }
{
    let roles = write_roles(alloc, &chart.roles)?;
    let root = write_node(alloc, &chart.root)?;
    Ok((roles, root))
}

/// The values that stand for a chart at the keys `roles` and `chart`, with every key of their forms but `finish` where
/// there is none. What is written is read back as the chart.
pub fn write_chart(alloc: Global, chart: &Chart) -> Result<(Value, Value), AllocError>
    ensures values { IfOk result (λ pair. IsWritten (plain_chart chart.now) (view pair.0) (view pair.1)) }
    ensures reads_back { IfOk result (λ pair. chart_of (view pair.0) (view pair.1) ≡ Ok (plain_chart chart.now)) }
    ensures nests { IfOk result (λ pair. IsValid (plain_chart chart.now) → (depth (view pair.0) ≤ 2)
        × (depth (view pair.1) ≤ 65)) }
    ensures whole { IfOk result (λ pair. (has_float (view pair.0) ≡ false) × (has_float (view pair.1) ≡ false)) }
{
    write_both(alloc, chart)
}
