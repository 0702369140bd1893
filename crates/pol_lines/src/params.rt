//! Parameters and variables of a description, at the front of a text.
ghost use Rattle.std.specs.Prelude.{◌≡◌, IfSome, IsTrue, Ok, codes};
ghost use Rattle.std.specs.List.{list_all};
ghost use Rattle.mtp_codes.specs.Names.{is_name};
ghost use Rattle.mtp_codes.specs.Numbers.{greatest_i32, greatest_i64, least_i32, least_i64};
ghost use Rattle.mtp_json.specs.Form.{is_listed};
ghost use Rattle.mtp_json.specs.Leaf.{meaning_of};
ghost use Rattle.mtp_assembly.specs.Kinds.{is_ordered};
ghost use Rattle.mtp_assembly.specs.Plain.{PlainParam, PlainVariable, plain_param, plain_variable};
ghost use Rattle.mtp_desc.specs.Plain.{same_param, same_variable};
ghost use Rattle.desc_json.specs.Form.{free_param, param_of, ranged_param, variable_of};
ghost use Rattle.desc_json.specs.Words.{variable_words};
ghost use Rattle.pol_lines.specs.Flat.{flat_data};
ghost use Rattle.pol_lines.specs.Keys.{key_text};

use crate::fields::{name_at, text_at, whole_at};
use crate::flat::Member;
use crate::key::Key;
use crate::lists::Front;
use crate::objects::read_object;
use arrayvec::ArrayVec;
use mtp_assembly::{Param, ParamKind, View, ViewKind};
use mtp_codes::Name;
use mtp_json::Alike;
use std::alloc::Global;

fn are_of_ranged(members: &[Member]) -> bool
    ensures { result ≡ list_all (λ member. is_listed (codes "name kind min max") (key_text member.key)) members.now }
{
    members.iter().all(|member| matches!(member.key, Key::Name | Key::Kind | Key::Min | Key::Max))
}

fn are_of_kind(members: &[Member]) -> bool
    ensures { result ≡ list_all (λ member. is_listed (codes "name kind") (key_text member.key)) members.now }
{
    members
        .iter()
        .all(|member| matches!(member.key, Key::Name | Key::Kind))
}

fn ana_param(members: &[Member], name: Name) -> Option<Param>
    requires { IsTrue (is_name name) }
    ensures { IfSome result (λ param. ranged_param name least_i64 greatest_i64 ParamKind.Ana (flat_data members.now)
        ≡ Ok (plain_param param)) }
{
    if !are_of_ranged(members) {
        return None;
    }
    let min = whole_at(members, Key::Min, i64::MIN, i64::MAX)?;
    let max = whole_at(members, Key::Max, i64::MIN, i64::MAX)?;
    if max < min {
        return None;
    }
    Some(Param {
        name,
        kind: ParamKind::Ana { min, max },
    })
}

fn dint_param(members: &[Member], name: Name) -> Option<Param>
    requires { IsTrue (is_name name) }
    ensures { IfSome result (λ param. ranged_param name least_i32 greatest_i32 ParamKind.DInt (flat_data members.now)
        ≡ Ok (plain_param param)) }
{
    if !are_of_ranged(members) {
        return None;
    }
    let min = whole_at(members, Key::Min, i32::MIN as i64, i32::MAX as i64)? as i32;
    let max = whole_at(members, Key::Max, i32::MIN as i64, i32::MAX as i64)? as i32;
    if max < min {
        return None;
    }
    Some(Param {
        name,
        kind: ParamKind::DInt { min, max },
    })
}

#[tactic(auto, using(crate::proofs::Lookups::only_listed), unfolding(desc_json::specs::Form::free_param))]
fn free_param(members: &[Member], name: Name, kind: ParamKind) -> Option<Param>
    requires name { IsTrue (is_name name) }
    requires kind { IsTrue (is_ordered kind) }
    ensures { IfSome result (λ param. free_param name kind (flat_data members.now) ≡ Ok (plain_param param)) }
{
    if !are_of_kind(members) {
        return None;
    }
    Some(Param { name, kind })
}

/// A parameter by its form.
#[tactic(auto, unfolding(desc_json::specs::Form::param_of))]
fn param_in(members: &[Member]) -> Option<Param>
    ensures { IfSome result (λ param. param_of (flat_data members.now) ≡ Ok (plain_param param)) }
{
    let name = name_at(members, Key::Name)?;
    let kind = text_at(members, Key::Kind)?;
    if kind == b"AnaServParam".as_slice() {
        ana_param(members, name)
    } else if kind == b"DIntServParam".as_slice() {
        dint_param(members, name)
    } else if kind == b"BinServParam".as_slice() {
        free_param(members, name, ParamKind::Bin)
    } else if kind == b"StringServParam".as_slice() {
        free_param(members, name, ParamKind::Text)
    } else {
        None
    }
}

/// The form of a parameter at the front of a text.
pub struct ParamFronts;

impl Front for ParamFronts {
    type Item = Param;

    ghost Form = { PlainParam };

    ghost plain = { plain_param };

    ghost form = { param_of };

    ghost deep = { 1 };

    #[tactic(auto, using(crate::proofs::Cutting::reads_last))]
    fn read(_alloc: Global, text: &[u8]) -> Option<(Param, usize)> {
        let mut members = ArrayVec::new();
        let rest = read_object(text, &mut members)?;
        let param = param_in(members.as_slice())?;
        Some((param, rest.len()))
    }
}

impl Alike for ParamFronts {
    type Item = Param;

    ghost Form = { PlainParam };

    ghost plain = { plain_param };

    ghost same = { same_param };

    fn is_like(item: &Param, other: &Param) -> bool {
        item.name == other.name
    }
}

fn view_kind_of(bytes: &[u8]) -> Option<ViewKind>
    ensures { result ≡ meaning_of bytes.now variable_words }
{
    if bytes == b"AnaView".as_slice() {
        Some(ViewKind::Ana)
    } else if bytes == b"DIntView".as_slice() {
        Some(ViewKind::DInt)
    } else if bytes == b"BinView".as_slice() {
        Some(ViewKind::Bin)
    } else if bytes == b"StringView".as_slice() {
        Some(ViewKind::Text)
    } else {
        None
    }
}

/// A variable by its form.
#[tactic(auto, using(crate::proofs::Lookups::only_listed), unfolding(desc_json::specs::Form::variable_of))]
fn variable_in(members: &[Member]) -> Option<View>
    ensures { IfSome result (λ variable. variable_of (flat_data members.now) ≡ Ok (plain_variable variable)) }
{
    if !are_of_kind(members) {
        return None;
    }
    let name = name_at(members, Key::Name)?;
    let kind = view_kind_of(text_at(members, Key::Kind)?)?;
    Some(View { name, kind })
}

/// The form of a variable at the front of a text.
pub struct VariableFronts;

impl Front for VariableFronts {
    type Item = View;

    ghost Form = { PlainVariable };

    ghost plain = { plain_variable };

    ghost form = { variable_of };

    ghost deep = { 1 };

    #[tactic(auto, using(crate::proofs::Cutting::reads_last))]
    fn read(_alloc: Global, text: &[u8]) -> Option<(View, usize)> {
        let mut members = ArrayVec::new();
        let rest = read_object(text, &mut members)?;
        let variable = variable_in(members.as_slice())?;
        Some((variable, rest.len()))
    }
}

impl Alike for VariableFronts {
    type Item = View;

    ghost Form = { PlainVariable };

    ghost plain = { plain_variable };

    ghost same = { same_variable };

    fn is_like(item: &View, other: &View) -> bool {
        item.name == other.name
    }
}
