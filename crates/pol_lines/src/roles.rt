//! Roles at the front of a text.
ghost use Rattle.std.specs.Prelude.{◌≡◌, IfSome, Ok, codes};
ghost use Rattle.std.specs.List.{list_all};
ghost use Rattle.mtp_json.specs.Form.{is_listed};
ghost use Rattle.chart_core.specs.Roles.{PlainRole, plain_role};
ghost use Rattle.chart_json.specs.Form.{role_of};
ghost use Rattle.pol_lines.specs.Flat.{flat_data};
ghost use Rattle.pol_lines.specs.Keys.{key_text};

use crate::fields::{name_at, short_at};
use crate::flat::Member;
use crate::key::Key;
use crate::lists::Front;
use crate::objects::read_object;
use arrayvec::ArrayVec;
use chart_core::Role;
use semver::VersionReq;
use std::alloc::Global;

fn are_of_role(members: &[Member]) -> bool
    ensures { result ≡ list_all (λ member. is_listed (codes "role type version") (key_text member.key)) members.now }
{
    members.iter().all(|member| matches!(member.key, Key::Role | Key::TypeName | Key::Version))
}

/// A role by its form.
#[tactic(auto, using(crate::proofs::Lookups::only_listed), unfolding(chart_json::specs::Form::role_of))]
fn role_in(alloc: Global, members: &[Member]) -> Option<Role>
    ensures { IfSome result (λ role. role_of (flat_data members.now) ≡ Ok (plain_role role)) }
{
    if !are_of_role(members) {
        return None;
    }
    let role = name_at(members, Key::Role)?;
    let type_name = name_at(members, Key::TypeName)?;
    let wants = short_at(members, Key::Version)?;
    match VersionReq::parse(alloc, wants.as_str()) {
        Ok(req) => Some(Role {
            role,
            type_name,
            wants,
            req,
        }),
        Err(_) => None,
    }
}

/// The form of a role at the front of a text.
pub struct RoleFronts;

impl Front for RoleFronts {
    type Item = Role;

    ghost Form = { PlainRole };

    ghost plain = { plain_role };

    ghost form = { role_of };

    ghost deep = { 1 };

    #[tactic(auto, using(crate::proofs::Cutting::reads_last))]
    fn read(alloc: Global, text: &[u8]) -> Option<(Role, usize)> {
        let mut members = ArrayVec::new();
        let rest = read_object(text, &mut members)?;
        let role = role_in(alloc, members.as_slice())?;
        Some((role, rest.len()))
    }
}
