//! The rules that the binds of a start can break by themselves, against the roles of the recipe.
ghost use Rattle.std.specs.Prelude.{◌≡◌, [], map};
ghost use Rattle.mtp_codes.specs.Names.{is_among};
ghost use Rattle.chart_core.specs.Trees.{plain_node, steps};
ghost use Rattle.pol_bind.specs.Roles.{names_in, twice_from};
ghost use Rattle.pol_events.specs.BindRules.{first_name, is_bound_before, one_module_twice, role_unbound, role_unknown};
ghost use Rattle.pol_events.specs.BindRules.{twice, unknown_role, watched_step};
ghost use Rattle.pol_events.specs.Bound.{bound_tag, given, plain_allocation};

use crate::steps::has_step;
use chart_core::{Node, Role};
use mtp_codes::Name;
use pol_events::{Allocation, Bind, Rule, bound_tag};

/// The first role that no bind gives a tag, held or watched.
pub fn role_unbound(binds: Allocation<'_>, roles: &[Role]) -> Option<Rule>
    ensures { result ≡ role_unbound (given (plain_allocation binds.entry)) (names_in roles.now) }
{
    for role in roles {
        if binds.tag_of(role.role).is_none() {
            return Some(Rule::RoleUnbound { role: role.role });
        }
    }
    None
}

fn has_role(roles: &[Role], name: Name) -> bool
    ensures { result ≡ is_among (names_in roles.now) name }
{
    for role in roles {
        if role.role == name {
            return true;
        }
    }
    false
}

// The role of the first bind whose role the recipe lacks.
fn unknown_role(binds: &[Bind], roles: &[Role]) -> Option<Name>
    ensures { result ≡ unknown_role binds.now (names_in roles.now) }
{
    for bind in binds {
        if !has_role(roles, bind.role) {
            return Some(bind.role);
        }
    }
    None
}

// The one of two names that comes first in byte order.
fn first_name(one: Option<Name>, other: Option<Name>) -> Option<Name>
    ensures { result ≡ first_name one other }
{
    match (one, other) {
        (Some(name), Some(later)) => {
            if later < name {
                Some(later)
            } else {
                Some(name)
            }
        }
        (Some(name), None) => Some(name),
        (None, other) => other,
    }
}

/// The first role in byte order, held or watched, that the recipe lacks; each list is in byte order.
pub fn role_unknown(binds: Allocation<'_>, roles: &[Role]) -> Option<Rule>
    ensures { result ≡ role_unknown (plain_allocation binds.entry) (names_in roles.now) }
{
    let role = first_name(
        unknown_role(binds.held, roles),
        unknown_role(binds.watched, roles),
    )?;
    Some(Rule::RoleUnknown { role })
}

// Whether the tag is bound to one of these roles.
fn is_bound_before(binds: Allocation<'_>, earlier: &[Role], tag: Name) -> bool
    ensures { result ≡ is_bound_before (given (plain_allocation binds.entry)) (names_in earlier.now) tag }
{
    for role in earlier {
        if binds.tag_of(role.role) == Some(tag) {
            return true;
        }
    }
    false
}

fn twice(binds: Allocation<'_>, earlier: &[Role], role: Name) -> Option<Rule>
    ensures { result ≡ twice (given (plain_allocation binds.entry)) (names_in earlier.now)
        (bound_tag (given (plain_allocation binds.entry)) role) }
{
    let tag = binds.tag_of(role)?;
    if is_bound_before(binds, earlier, tag) {
        Some(Rule::OneModuleTwice { tag })
    } else {
        None
    }
}

// The first tag in the order of the roles that an earlier role has, the earlier roles in their order.
fn first_twice(binds: Allocation<'_>, roles: &[Role]) -> Option<Rule>
    ensures { result ≡ twice_from (given (plain_allocation binds.entry)) [] (names_in roles.now) }
{
    for i in 0..roles.len() {
        if let Some(rule) = twice(binds, &roles[..i], roles[i].role) {
            return Some(rule);
        }
    }
    None
}

/// The first tag in the order of the roles that an earlier role has. It takes no memory.
#[tactic(auto, using(crate::proofs::Twice::twice_in_order))]
pub fn one_module_twice(binds: Allocation<'_>, roles: &[Role]) -> Option<Rule>
    ensures { result ≡ one_module_twice (given (plain_allocation binds.entry)) [] (names_in roles.now) }
{
    first_twice(binds, roles)
}

/// The first role that is watched and has a step below this node.
pub fn watched_step(watched: &[Bind], root: &Node, roles: &[Role]) -> Option<Rule>
    ensures { result ≡ watched_step watched.now (map (λ placed. placed.step) (steps (plain_node root.now) 0))
        (names_in roles.now) }
{
    for role in roles {
        if bound_tag(watched, role.role).is_some() && has_step(root, role.role) {
            return Some(Rule::WatchedStep { role: role.role });
        }
    }
    None
}
