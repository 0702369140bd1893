//! The module that a demo journal docks, and the recipe of its batches.
ghost use Rattle.semver.specs.Parse.{memory_error};
ghost use Rattle.std.specs.Prelude.{◌≡◌, IfErr, IfOk, IsTrue, codes};
ghost use Rattle.chart_core.specs.Charts.{plain_chart};
ghost use Rattle.chart_core.specs.Requirements.{IsReadTo};
ghost use Rattle.chart_core.specs.Roles.{plain_role};
ghost use Rattle.chart_core.specs.Trees.{plain_step};
ghost use Rattle.mtp_assembly.specs.Plain.{plain_param, plain_variable};
ghost use Rattle.mtp_codes.specs.Texts.{is_short};
ghost use Rattle.mtp_desc.specs.PlainDescription.{plain_description};
ghost use Rattle.mtp_desc.specs.PlainProcedure.{plain_procedure};
ghost use Rattle.mtp_desc.specs.PlainService.{plain_service};
ghost use Rattle.pol_demo.specs.Doser.{amount, dose, dose_service, dose_step, doser, doser_role, dosing, level};

use crate::names::name;
use chart_core::{Chart, Node, Role, Step};
use mtp_assembly::{Param, ParamKind, View, ViewKind};
use mtp_codes::{Setting, Short, Value};
use mtp_desc::{Description, Procedure, Service};
use semver::{Version, VersionReq};
use std::alloc::{AllocError, Global};

fn short(text: &str) -> Short
    requires { IsTrue (is_short text.now) }
    ensures { result ≡ text.now }
{
    match Short::of_text(text) {
        Some(short) => short,
        None => unreachable!(),
    }
}

fn amount() -> Param
    ensures { plain_param result ≡ amount }
{
    Param {
        name: name("amount"),
        kind: ParamKind::DInt { min: 0, max: 5000 },
    }
}

fn level() -> View
    ensures { plain_variable result ≡ level }
{
    View {
        name: name("level"),
        kind: ViewKind::Ana,
    }
}

fn dose(alloc: Global) -> Result<Procedure, AllocError>
    ensures { IfOk result (λ procedure. plain_procedure procedure ≡ dose) }
{
    Ok(Procedure {
        number: 1,
        is_default: true,
        self_completing: true,
        params: vec![in alloc; amount()]?,
    })
}

fn dose_service(alloc: Global) -> Result<Service, AllocError>
    ensures { IfOk result (λ service. plain_service service ≡ dose_service) }
{
    let procedure = dose(alloc)?;
    Ok(Service {
        name: name("dose"),
        procedures: vec![in alloc; procedure]?,
    })
}

/// A doser: one service, and its level.
#[tactic(auto, unfolding(crate::specs::Doser::doser))]
pub fn doser(alloc: Global) -> Result<Description, AllocError>
    ensures { IfOk result (λ description. plain_description description ≡ doser) }
{
    let service = dose_service(alloc)?;
    Ok(Description {
        type_name: name("Doser"),
        version_text: short("1.0.0"),
        version: Version::new(1, 0, 0),
        services: vec![in alloc; service]?,
        variables: vec![in alloc; level()]?,
    })
}

// The requirement of the first major version. Its text is a requirement, so the only fault is that there is no memory.
fn requirement(alloc: Global) -> Result<VersionReq, semver::Error>
    ensures read { IfOk result (IsReadTo (codes "^1")) }
    ensures wanting { IfErr result (λ error. error ≡ memory_error) }
{
    VersionReq::parse(alloc, "^1")
}

fn role(alloc: Global) -> Result<Role, AllocError>
    ensures { IfOk result (λ role. plain_role role ≡ doser_role) }
{
    let Ok(req) = requirement(alloc) else {
        return Err(AllocError);
    };
    Ok(Role {
        role: name("A"),
        type_name: name("Doser"),
        wants: short("^1"),
        req,
    })
}

fn step(alloc: Global) -> Result<Step, AllocError>
    ensures { IfOk result (λ step. plain_step step ≡ dose_step) }
{
    let amount = Setting {
        name: name("amount"),
        value: Value::Whole(1500),
    };
    Ok(Step {
        name: name("s1"),
        role: name("A"),
        service: name("dose"),
        procedure: 1,
        settings: vec![in alloc; amount]?,
        finish: None,
    })
}

/// The recipe `one`: a doser doses 1500.
#[tactic(auto, unfolding(crate::specs::Doser::dosing))]
pub fn dosing(alloc: Global) -> Result<Chart, AllocError>
    ensures { IfOk result (λ chart. plain_chart chart ≡ dosing) }
{
    let role = role(alloc)?;
    let root = Node::Step(step(alloc)?);
    Ok(Chart {
        roles: vec![in alloc; role]?,
        root,
    })
}
