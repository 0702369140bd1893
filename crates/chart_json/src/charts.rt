//! Whole charts from JSON.

ghost use Rattle.std.specs.Prelude.{IfOk, IsTrue, codes, map};
ghost use Rattle.serde_json.specs.View.{view};
ghost use Rattle.mtp_json.specs.Form.{nested};
ghost use Rattle.mtp_json.specs.ReadsAs.{ReadsAs};
ghost use Rattle.mtp_json.specs.ReadResult.{under};
ghost use Rattle.chart_core.specs.Charts.{plain_chart};
ghost use Rattle.chart_core.specs.Form.{is_tree_formed};
ghost use Rattle.chart_core.specs.Roles.{plain_role};
ghost use Rattle.chart_core.specs.Trees.{plain_node};
ghost use Rattle.chart_json.specs.Form.{are_roles_sized, chart_from, chart_of, roles_of, tree_of};

use crate::nodes::read_node;
use crate::roles::{RoleJson, read_roles};
use chart_core::{Chart, Node, Role};
use mtp_json::{JsonRefusal, under, unlike_under, value_at};
use serde_json::Value;
use std::alloc::Global;

#[tactic(auto, using(mtp_json::proofs::Each::gives_below, crate::proofs::Told::told_below))]
fn roles_under(alloc: Global, value: &Value) -> Result<Vec<Role>, JsonRefusal>
    ensures gives { ReadsAs (λ roles. map plain_role roles.items) result
        (under (codes "roles") (roles_of (view value.now))) }
    ensures sized { IfOk result (λ roles. IsTrue (are_roles_sized (map plain_role roles.items))) }
{
    under("roles", read_roles(alloc, value))
}

#[tactic(auto, using(mtp_json::proofs::Each::gives_below, crate::proofs::Told::told_below))]
fn node_under(alloc: Global, value: &Value) -> Result<Node, JsonRefusal>
    ensures gives { ReadsAs plain_node result (under (codes "chart") (tree_of (view value.now))) }
    ensures formed { IfOk result (λ node. IsTrue (is_tree_formed (plain_node node))) }
{
    under("chart", read_node(alloc, value))
}

/// The roles at the key `roles` of an object, as `read_roles`.
pub fn roles_at(alloc: Global, object: &Value) -> Result<Vec<Role>, JsonRefusal>
    ensures gives { ReadsAs (λ roles. map plain_role roles.items) result
        (nested (codes "roles") roles_of (view object.now)) }
    ensures sized { IfOk result (λ roles. IsTrue (are_roles_sized (map plain_role roles.items))) }
{
    let value = value_at(alloc, object, "roles")?;
    roles_under(alloc, value)
}

/// The node at the key `chart` of an object, as `read_node`.
pub fn node_at(alloc: Global, object: &Value) -> Result<Node, JsonRefusal>
    ensures gives { ReadsAs plain_node result (nested (codes "chart") tree_of (view object.now)) }
    ensures formed { IfOk result (λ node. IsTrue (is_tree_formed (plain_node node))) }
{
    let value = value_at(alloc, object, "chart")?;
    node_under(alloc, value)
}

/// The chart of these roles with this node as its root: Repeated at `roles` where a role is named twice. Whether the
/// chart is valid is not asked.
#[tactic(auto, unfolding(crate::specs::Form::chart_from), using(crate::proofs::Formed::chart_formed))]
pub fn make_chart(alloc: Global, roles: Vec<Role>, root: Node) -> Result<Chart, JsonRefusal>
    requires sized { IsTrue (are_roles_sized (map plain_role roles.items)) }
    requires formed { IsTrue (is_tree_formed (plain_node root)) }
    ensures { ReadsAs plain_chart result (chart_from (map plain_role roles.items) (plain_node root)) }
{
    unlike_under::<RoleJson>(alloc, "roles", &roles)?;
    Ok(Chart { roles, root })
}

/// The chart by the values at the keys `roles` and `chart`; else the first fault in reading order, with its path: of
/// the roles, of the chart, or Repeated at `roles`. Whether the chart is valid is not asked.
#[tactic(auto, unfolding(crate::specs::Form::chart_of))]
pub fn read_chart(alloc: Global, roles: &Value, chart: &Value) -> Result<Chart, JsonRefusal>
    ensures { ReadsAs plain_chart result (chart_of (view roles.now) (view chart.now)) }
{
    let found = roles_under(alloc, roles)?;
    let root = node_under(alloc, chart)?;
    make_chart(alloc, found, root)
}
