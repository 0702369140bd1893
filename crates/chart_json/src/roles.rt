//! Roles in JSON.

ghost use Rattle.std.specs.Prelude.{◌≡◌, IfOk, IsTrue, codes, map};
ghost use Rattle.semver.specs.Identifiers.{comparator_view};
ghost use Rattle.serde_json.specs.View.{items_view, view};
ghost use Rattle.mtp_json.specs.ReadsAs.{ReadsAs};
ghost use Rattle.mtp_json.specs.Leaf.{items_in};
ghost use Rattle.mtp_json.specs.ReadResult.{here as found_here, under};
ghost use Rattle.chart_core.specs.Requirements.{IsReadTo};
ghost use Rattle.chart_core.specs.Roles.{PlainRole, plain_role};
ghost use Rattle.chart_json.specs.Form.{are_roles_sized, role_of, roles_of, same_role};
ghost use Rattle.chart_json.specs.Requirement.{requirement_of};
ghost use Rattle.chart_core.specs.declared.limits.TheConstants.{MOST_ROLES};

use chart_core::{LONGEST_WANTED, MOST_ROLES, Role};
use mtp_json::{
    Alike, FaultKind, FromJson, JsonRefusal, here, keyed, list_in, name_at, nothing_but,
    object_here, read_every, short_at,
};
use semver::VersionReq;
use serde_json::Value;
use std::alloc::{AllocError, Global};

/// The form of a role.
pub struct RoleJson;

fn requirement_under(alloc: Global, text: &str) -> Result<VersionReq, JsonRefusal>
    ensures gives { ReadsAs (λ req. map comparator_view req.comparators.items) result
        (under (codes "version") (found_here (requirement_of text.now))) }
    ensures reads { IfOk result (λ req. IsReadTo text.now req) }
{
    match VersionReq::parse(alloc, text) {
        Ok(req) => Ok(req),
        Err(error) => {
            if error == semver::Error::from(AllocError) {
                Err(JsonRefusal::Memory)
            } else {
                keyed(alloc, "version", Err(FaultKind::OutOfRange))
            }
        }
    }
}

#[tactic(auto, unfolding(crate::specs::Form::role_of))]
fn read_role(alloc: Global, value: &Value) -> Result<Role, JsonRefusal>
    ensures { ReadsAs plain_role result (role_of (view value.now)) }
{
    object_here(alloc, value)?;
    let role = name_at(alloc, value, "role")?;
    let type_name = name_at(alloc, value, "type")?;
    let wants = short_at(alloc, value, "version", LONGEST_WANTED)?;
    let req = requirement_under(alloc, wants.as_str())?;
    nothing_but(alloc, value, "role type version")?;
    Ok(Role {
        role,
        type_name,
        wants,
        req,
    })
}

impl FromJson for RoleJson {
    type Item = Role;

    ghost Form = { PlainRole };

    ghost plain = { plain_role };

    ghost form = { role_of };

    fn read(alloc: Global, value: &Value) -> Result<Role, JsonRefusal> {
        read_role(alloc, value)
    }
}

impl Alike for RoleJson {
    type Item = Role;

    ghost Form = { PlainRole };

    ghost plain = { plain_role };

    ghost same = { same_role };

    fn is_like(item: &Role, other: &Role) -> bool {
        item.role == other.role
    }
}

fn roles_here(alloc: Global, value: &Value) -> Result<&[Value], JsonRefusal>
    ensures { ReadsAs (λ list. items_view list.now) result (found_here (items_in 1 MOST_ROLES (view value.now))) }
{
    here(alloc, list_in(value, 1, MOST_ROLES))
}

/// The roles of a chart (1 to 64) that this value is in the form of; else the first fault in reading order, with its
/// path. Whether a role is named twice is asked with the chart.
#[tactic(auto, unfolding(crate::specs::Form::roles_of))]
pub fn read_roles(alloc: Global, value: &Value) -> Result<Vec<Role>, JsonRefusal>
    ensures gives { ReadsAs (λ roles. map plain_role roles.items) result (roles_of (view value.now)) }
    ensures sized { IfOk result (λ roles. IsTrue (are_roles_sized (map plain_role roles.items))) }
{
    let values = roles_here(alloc, value)?;
    read_every::<RoleJson>(alloc, values)
}
