//! Worked runs of simulated modules.

use desc_json::read_description;
use given::named;
use mtp_assembly::ServiceControl;
use mtp_codes::{Command, Name, Value};
use mtp_desc::Description;
use mtp_json::{JsonRefusal, parse};
use mtp_sim::{Drift, Sim, SimPlan, SimReport};
use std::alloc::Global;
use std::sync::Arc;
use std::test::*;

const PLAIN: &str = r#"{"type":"Doser","version":"1.0.0","services":[{"name":"dose"}]}"#;

const DOSER: &str =
    r#"{"type":"Doser","version":"1.0.0","services":[{"name":"dose","procedures":[{"number":1,"default":true,"self_completing":true},{"number":3}]}],"variables":[{"name":"level","kind":"AnaView"}]}"#;

/// A module with one service and no drift, each change after one tick: what is done with it, and what it answers. A
/// report of a service is its state, its mask and its procedure.
const PLAIN_RUN: &str = r#"
pending => true
tick => dose 16 268 0
pending => false
at_rest => true
take dose 16 0 => false
take dose 4 0 => true
pending => true
tick => dose 8 280 1
tick => dose 64 1880 1
tick => none
at_rest => true
take dose 1024 0 => true
tick => dose 65536 280 1
tick => dose 131072 266 1
take dose 2 0 => true
tick => dose 32768 264 1
tick => dose 16 268 1
at_rest => true
take heat 4 0 => false
"#;

/// A module with one service of two procedures and one drift, a change after two ticks, an execution after four.
const DOSER_RUN: &str = r#"
tick => dose 16 268 0
pending => true
tick => level 0
pending => false
tick => none
at_rest => true
take dose 4 9 => false
take dose 4 3 => true
tick => none
tick => dose 8 280 3
at_rest => false
tick => none
tick => none
tick => none
tick => dose 64 1880 3
at_rest => false
tick => level 40
tick => none
tick => level 80
tick => none
tick => level 100
at_rest => true
take dose 512 0 => true
tick => dose 8 280 3
take dose 8 0 => true
tick => none
tick => dose 128 256 3
tick => none
tick => none
tick => none
tick => dose 4 258 3
take dose 2 0 => true
tick => none
tick => dose 32768 264 3
tick => none
tick => none
tick => none
tick => dose 16 268 3
take dose 4 0 => true
tick => none
tick => dose 8 280 1
tick => none
tick => none
tick => none
tick => dose 64 856 1
take dose 1024 0 => false
tick => none
tick => none
tick => none
tick => none
tick => none
tick => none
tick => none
tick => dose 65536 280 1
"#;

fn described(alloc: Global, text: &str) -> Result<Description, JsonRefusal> {
    let value = parse(alloc, text.as_bytes())?;
    read_description(alloc, &value)
}

fn module(alloc: Global, text: &str, plan: &SimPlan) -> Result<Sim, Fail> {
    let description = described(alloc, text).ok().ok_or("no description")?;
    Ok(Sim::new(alloc, Arc::new(alloc, description)?, plan)?)
}

fn service_text(alloc: Global, name: &Name, control: &ServiceControl) -> Result<String, Fail> {
    let name = name.as_str();
    let (state, mask, procedure) = (control.state.code(), control.mask, control.procedure);
    Ok(format!(in alloc; "{name} {state} {mask} {procedure}")?)
}

fn variable_text(alloc: Global, name: &Name, value: &Value) -> Result<String, Fail> {
    let Value::Whole(number) = value else {
        return Err(Fail::from("no number"));
    };
    let name = name.as_str();
    Ok(format!(in alloc; "{name} {number}")?)
}

fn told(alloc: Global, report: &Option<SimReport>) -> Result<String, Fail> {
    match report {
        None => Ok(String::from_str(alloc, "none")?),
        Some(SimReport::Service { name, control }) => service_text(alloc, name, control),
        Some(SimReport::Variable { name, value }) => variable_text(alloc, name, value),
    }
}

fn taken(sim: &mut Sim, call: &str) -> Result<bool, Fail> {
    let (service, rest) = call.split_once(" ").ok_or("no service")?;
    let (command, procedure) = rest.split_once(" ").ok_or("no command")?;
    let command = command.parse::<u32>().ok().ok_or("no code")?;
    let command = Command::of_code(command).ok_or("no command")?;
    let procedure = procedure.parse::<u16>().ok().ok_or("no procedure")?;
    if sim.pending() {
        return Err(Fail::from("pending"));
    }
    Ok(sim.take(named(service)?, command, procedure))
}

fn answered(alloc: Global, sim: &mut Sim, call: &str) -> Result<String, Fail> {
    let truth = match call {
        "tick" => return told(alloc, &sim.tick()),
        "pending" => sim.pending(),
        "at_rest" => sim.at_rest(),
        _ => taken(sim, call.strip_prefix("take ").ok_or("no call")?)?,
    };
    Ok(format!(in alloc; "{truth}")?)
}

#[test]
fn a_service_starts_completes_and_is_reset(rt: HostRuntime) -> Result<(), Fail> {
    let alloc = rt.alloc();
    let plan = SimPlan {
        ticks: 1,
        run: 1,
        drifts: Vec::new(alloc),
    };
    let mut sim = module(alloc, PLAIN, &plan)?;
    for row in PLAIN_RUN.trim().lines() {
        let (call, answer) = row.split_once(" => ").ok_or("no row")?;
        assert_eq!(rt;
            answered(alloc, &mut sim, call)?.as_str(),
            answer,
            "of {call}"
        );
    }
    Ok(())
}

#[test]
fn a_value_rises_while_a_service_executes(rt: HostRuntime) -> Result<(), Fail> {
    let alloc = rt.alloc();
    let drift = Drift {
        name: named("level")?,
        from: 0,
        by: 40,
        to: 100,
    };
    let plan = SimPlan {
        ticks: 2,
        run: 4,
        drifts: vec![in alloc; drift]?,
    };
    let mut sim = module(alloc, DOSER, &plan)?;
    for row in DOSER_RUN.trim().lines() {
        let (call, answer) = row.split_once(" => ").ok_or("no row")?;
        assert_eq!(rt;
            answered(alloc, &mut sim, call)?.as_str(),
            answer,
            "of {call}"
        );
    }
    Ok(())
}
