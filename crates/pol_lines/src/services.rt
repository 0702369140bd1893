//! Procedures and services of a description, at the front of a text.
ghost use Rattle.std.specs.Prelude.{◌≡◌, ◌≤◌, ◌<◌, ◌∷◌, [], Option, None, Some, IfSome, Ok, codes, length, map};
ghost use Rattle.std.specs.Prelude.{option_map};
ghost use Rattle.std.specs.List.{list_all};
ghost use Rattle.serde_json.specs.Data.{Items, array};
ghost use Rattle.mtp_json.specs.Form.{is_listed};
ghost use Rattle.mtp_assembly.specs.Plain.{plain_param};
ghost use Rattle.mtp_desc.specs.Plain.{has_one_default, PlainProcedure, PlainService, same_procedure, same_service};
ghost use Rattle.mtp_desc.specs.PlainProcedure.{plain_procedure};
ghost use Rattle.mtp_desc.specs.PlainService.{plain_service};
ghost use Rattle.mtp_desc.specs.declared.limits.TheConstants.{MOST_PARAMS, MOST_PROCEDURES};
ghost use Rattle.desc_json.specs.Form.{only_procedure, param_of, procedure_of, service_of};
ghost use Rattle.pol_lines.specs.Begins.{Reads, last_of};
ghost use Rattle.pol_lines.specs.Keys.{key_text};
ghost use Rattle.pol_lines.specs.Objects.{GivesEach, Makes, with_value};

use crate::fields::{count_at, name_at, truth_at};
use crate::flat::Member;
use crate::key::Key;
use crate::lists::Front;
use crate::objects::{Cut, begin_object, read_flats, read_list_at};
use crate::params::ParamFronts;
use arrayvec::ArrayVec;
use mtp_assembly::Param;
use mtp_desc::{GREATEST_PROCEDURE, MOST_PARAMS, MOST_PROCEDURES, Procedure, Service};
use mtp_json::{Alike, repeats};
use std::alloc::Global;

fn are_of_procedure(members: &[Member]) -> bool
    ensures { result ≡ list_all (λ member. is_listed (codes "number default self_completing params")
        (key_text member.key)) members.now }
{
    members.iter().all(|member| {
        matches!(
            member.key,
            Key::Number | Key::IsDefault | Key::SelfCompleting
        )
    })
}

/// A procedure of these flat members and these parameters, by its form.
fn procedure_in(members: &[Member], params: Vec<Param>) -> Option<Procedure>
    requires { length params.items ≤ MOST_PARAMS }
    ensures { IfSome result (λ procedure. (values : Option Items)
        → GivesEach param_of (map plain_param params.items) values
        → Makes procedure_of (plain_procedure procedure) members.now
        (with_value (codes "params") (option_map array values) [])) }
{
    if !are_of_procedure(members) || repeats::<ParamFronts>(&params) {
        return None;
    }
    let number = count_at(members, Key::Number, 1, GREATEST_PROCEDURE as u64)? as u16;
    let is_default = truth_at(members, Key::IsDefault)?;
    let self_completing = truth_at(members, Key::SelfCompleting)?;
    Some(Procedure {
        number,
        is_default,
        self_completing,
        params,
    })
}

/// The procedure at the front of a text, with how many bytes follow it.
fn read_procedure(alloc: Global, text: &[u8]) -> Option<(Procedure, usize)>
    ensures { IfSome result (λ read. Reads procedure_of 3 text.now (plain_procedure read.0) (last_of read.1 text.now)) }
{
    let mut members = ArrayVec::new();
    let cut = begin_object(text)?;
    let cut = read_flats(cut, &mut members);
    let mut params = Vec::new(alloc);
    let cut = read_list_at::<ParamFronts>(alloc, cut, b"\"params\":", MOST_PARAMS, &mut params)?;
    let Cut::End(rest) = read_flats(cut, &mut members) else {
        return None;
    };
    let procedure = procedure_in(members.as_slice(), params)?;
    Some((procedure, rest.len()))
}

struct ProcedureFronts;

impl Front for ProcedureFronts {
    type Item = Procedure;

    ghost Form = { PlainProcedure };

    ghost plain = { plain_procedure };

    ghost form = { procedure_of };

    ghost deep = { 3 };

    fn read(alloc: Global, text: &[u8]) -> Option<(Procedure, usize)> {
        read_procedure(alloc, text)
    }
}

impl Alike for ProcedureFronts {
    type Item = Procedure;

    ghost Form = { PlainProcedure };

    ghost plain = { plain_procedure };

    ghost same = { same_procedure };

    fn is_like(item: &Procedure, other: &Procedure) -> bool {
        item.number == other.number
    }
}

/// The procedures of a service that names none.
fn only_procedures(alloc: Global) -> Option<Vec<Procedure>>
    ensures only { IfSome result (λ procedures. map plain_procedure procedures.items ≡ only_procedure ∷ []) }
    ensures one { IfSome result (λ procedures. length procedures.items ≡ 1) }
{
    let mut procedures = Vec::new(alloc);
    let only = Procedure {
        number: 1,
        is_default: true,
        self_completing: false,
        params: Vec::new(alloc),
    };
    match procedures.push(only) {
        Ok(()) => Some(procedures),
        Err(_) => None,
    }
}

#[tactic(auto, using(mtp_desc::proofs::Views::count_map))]
fn has_one_default(procedures: &[Procedure]) -> bool
    ensures { result ≡ has_one_default (map plain_procedure procedures.now) }
{
    procedures
        .iter()
        .filter(|procedure| procedure.is_default)
        .count()
        == 1
}

fn are_of_service(members: &[Member]) -> bool
    ensures { result ≡ list_all (λ member. is_listed (codes "name procedures") (key_text member.key)) members.now }
{
    members.iter().all(|member| matches!(member.key, Key::Name))
}

/// A service of these flat members and these procedures, by its form.
fn service_in(members: &[Member], procedures: Vec<Procedure>) -> Option<Service>
    requires some { 0 < length procedures.items }
    requires few { length procedures.items ≤ MOST_PROCEDURES }
    ensures given { IfSome result (λ service. (values : Items)
        → GivesEach procedure_of (map plain_procedure procedures.items) (Some values)
        → Makes service_of (plain_service service) members.now ((codes "procedures", array values) ∷ [])) }
    ensures none_given { IfSome result (λ service. map plain_procedure procedures.items ≡ only_procedure ∷ []
        → Makes service_of (plain_service service) members.now []) }
{
    if !are_of_service(members)
        || repeats::<ProcedureFronts>(&procedures)
        || !has_one_default(&procedures)
    {
        return None;
    }
    let name = name_at(members, Key::Name)?;
    Some(Service { name, procedures })
}

/// The service at the front of a text, with how many bytes follow it.
fn read_service(alloc: Global, text: &[u8]) -> Option<(Service, usize)>
    ensures { IfSome result (λ read. Reads service_of 5 text.now (plain_service read.0) (last_of read.1 text.now)) }
{
    let mut members = ArrayVec::new();
    let cut = begin_object(text)?;
    let cut = read_flats(cut, &mut members);
    if let Cut::End(rest) = cut {
        let only = only_procedures(alloc)?;
        let service = service_in(members.as_slice(), only)?;
        return Some((service, rest.len()));
    }
    let mut procedures = Vec::new(alloc);
    let cut = read_list_at::<ProcedureFronts>(
        alloc,
        cut,
        b"\"procedures\":",
        MOST_PROCEDURES,
        &mut procedures,
    )?;
    let Cut::End(rest) = read_flats(cut, &mut members) else {
        return None;
    };
    if procedures.is_empty() {
        return None;
    }
    let service = service_in(members.as_slice(), procedures)?;
    Some((service, rest.len()))
}

/// The form of a service at the front of a text.
pub struct ServiceFronts;

impl Front for ServiceFronts {
    type Item = Service;

    ghost Form = { PlainService };

    ghost plain = { plain_service };

    ghost form = { service_of };

    ghost deep = { 5 };

    fn read(alloc: Global, text: &[u8]) -> Option<(Service, usize)> {
        read_service(alloc, text)
    }
}

impl Alike for ServiceFronts {
    type Item = Service;

    ghost Form = { PlainService };

    ghost plain = { plain_service };

    ghost same = { same_service };

    fn is_like(item: &Service, other: &Service) -> bool {
        item.name == other.name
    }
}
