//! Services in JSON.

ghost use Rattle.std.specs.Prelude.{◌≡◌, ◌∷◌, [], IfOk, IfSome, IsTrue, codes, length, map, option_map, unwrap_or};
ghost use Rattle.serde_json.specs.Data.{member, no_members, object, string};
ghost use Rattle.serde_json.specs.View.{view};
ghost use Rattle.mtp_codes.specs.Names.{is_name};
ghost use Rattle.mtp_codes.specs.Numbers.{is_between};
ghost use Rattle.mtp_json.specs.ReadsAs.{ReadsAs};
ghost use Rattle.mtp_desc.specs.Plain.{has_one_default};
ghost use Rattle.desc_json.specs.Form.{only_procedure, ruled_service, service_of};
ghost use Rattle.mtp_desc.specs.Plain.{PlainService, same_service};
ghost use Rattle.mtp_desc.specs.PlainProcedure.{plain_procedure};
ghost use Rattle.mtp_desc.specs.PlainService.{plain_service};
ghost use Rattle.desc_json.specs.Written.{written_service};
ghost use Rattle.mtp_desc.specs.declared.limits.TheConstants.{MOST_PROCEDURES};

use crate::procedures::ProcedureJson;
use mtp_codes::Name;
use mtp_desc::{MOST_PROCEDURES, Procedure, Service};
use mtp_json::{
    Alike, FaultKind, FromJson, JsonRefusal, ToJson, list_if_there, name_at, nothing_but,
    object_here, refused_under, unlike_under, write_list,
};
use serde_json::{Value, json};
use std::alloc::{AllocError, Global};

/// The form of a service.
pub struct ServiceJson;

fn only_procedures(alloc: Global) -> Result<Vec<Procedure>, AllocError>
    ensures { IfOk result (λ procedures. map plain_procedure procedures.items ≡ only_procedure ∷ []) }
{
    let mut procedures = Vec::new(alloc);
    procedures.push(Procedure {
        number: 1,
        is_default: true,
        self_completing: false,
        params: Vec::new(alloc),
    })?;
    Ok(procedures)
}

fn procedures_or(alloc: Global, found: Option<Vec<Procedure>>) -> Result<Vec<Procedure>, AllocError>
    requires { IfSome found (λ list. IsTrue (is_between 1 MOST_PROCEDURES (length list.items))) }
    ensures value { IfOk result (λ procedures. map plain_procedure procedures.items
        ≡ unwrap_or (option_map (λ list. map plain_procedure list.items) found) (only_procedure ∷ [])) }
    ensures size { IfOk result (λ procedures. IsTrue (is_between 1 MOST_PROCEDURES (length procedures.items))) }
{
    match found {
        Some(procedures) => Ok(procedures),
        None => only_procedures(alloc),
    }
}

#[tactic(auto, using(mtp_desc::proofs::Views::count_map))]
fn has_one_default(procedures: &[Procedure]) -> bool
    ensures { result ≡ has_one_default (map plain_procedure procedures.now) }
{
    procedures
        .iter()
        .filter(|procedure| procedure.is_default)
        .count()
        == 1
}

#[tactic(auto, unfolding(crate::specs::Form::ruled_service))]
fn ruled_service(
    alloc: Global,
    name: Name,
    procedures: Vec<Procedure>,
) -> Result<Service, JsonRefusal>
    requires name { IsTrue (is_name name) }
    requires size { IsTrue (is_between 1 MOST_PROCEDURES (length procedures.items)) }
    ensures { ReadsAs plain_service result (ruled_service name (map plain_procedure procedures.items)) }
{
    unlike_under::<ProcedureJson>(alloc, "procedures", &procedures)?;
    let lacks_default = !has_one_default(&procedures);
    refused_under(alloc, "procedures", lacks_default, FaultKind::Unsound)?;
    Ok(Service { name, procedures })
}

#[tactic(auto, unfolding(crate::specs::Form::service_of))]
fn read_service(alloc: Global, value: &Value) -> Result<Service, JsonRefusal>
    ensures { ReadsAs plain_service result (service_of (view value.now)) }
{
    object_here(alloc, value)?;
    let name = name_at(alloc, value, "name")?;
    let found = list_if_there::<ProcedureJson>(alloc, value, "procedures", 1, MOST_PROCEDURES)?;
    nothing_but(alloc, value, "name procedures")?;
    let procedures = procedures_or(alloc, found)?;
    ruled_service(alloc, name, procedures)
}

impl FromJson for ServiceJson {
    type Item = Service;

    ghost Form = { PlainService };

    ghost plain = { plain_service };

    ghost form = { service_of };

    fn read(alloc: Global, value: &Value) -> Result<Service, JsonRefusal> {
        read_service(alloc, value)
    }
}

impl Alike for ServiceJson {
    type Item = Service;

    ghost Form = { PlainService };

    ghost plain = { plain_service };

    ghost same = { same_service };

    fn is_like(item: &Service, other: &Service) -> bool {
        item.name == other.name
    }
}

fn service_object(alloc: Global, name: Name, procedures: Value) -> Result<Value, AllocError>
    ensures { IfOk result (λ value. view value ≡ object
        (member (codes "name") (string name)
        (member (codes "procedures") (view procedures) no_members))) }
{
    let name = name.as_str();
    json!(in alloc; {"name": name, "procedures": procedures})
}

#[tactic(auto, unfolding(crate::specs::Written::written_service))]
fn write_service(alloc: Global, service: &Service) -> Result<Value, AllocError>
    ensures { IfOk result (λ value. view value ≡ written_service (plain_service service.now)) }
{
    let procedures = write_list::<ProcedureJson>(alloc, &service.procedures)?;
    service_object(alloc, service.name, procedures)
}

impl ToJson for ServiceJson {
    type Item = Service;

    ghost Form = { PlainService };

    ghost plain = { plain_service };

    ghost written = { written_service };

    fn write(alloc: Global, item: &Service) -> Result<Value, AllocError> {
        write_service(alloc, item)
    }
}
