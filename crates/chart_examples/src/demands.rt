//! Demands of worked steps on a worked description.

use desc_json::read_description;
use given::named;
use mtp_codes::{Setting, Short, Value};
use mtp_desc::Description;
use mtp_json::{JsonRefusal, parse};
use mtp_procs::{StepDemand, StepFault, check_step};
use std::alloc::Global;
use std::test::*;

const DOSER: &str =
    "{\"type\":\"Doser\",\"version\":\"1.0.0\",\"services\":[{\"name\":\"dose\",\"procedures\":[{\"number\":1,\"default\":true,\"self_completing\":true,\"params\":[{\"name\":\"amount\",\"kind\":\"DIntServParam\",\"min\":0,\"max\":5000},{\"name\":\"note\",\"kind\":\"StringServParam\"}]}]}]}";

fn doser(alloc: Global) -> Result<Description, JsonRefusal> {
    let value = parse(alloc, DOSER.as_bytes())?;
    read_description(alloc, &value)
}

// What `check_step` answers where the doser's service is to set one parameter.
fn answer(
    description: &Description,
    service: &str,
    procedure: u16,
    setting: Setting,
    finishes: bool,
) -> Result<Result<(), StepFault>, Fail> {
    let settings = [setting];
    let demand = StepDemand {
        service: named(service)?,
        procedure,
        settings: &settings,
        finishes,
    };
    Ok(check_step(description, &demand))
}

#[test]
fn the_first_fault_of_a_demand_is_told(rt: HostRuntime) -> Result<(), Fail> {
    let alloc = rt.alloc();
    let description = doser(alloc).ok().ok_or("no description")?;
    let one = Value::Whole(1);
    let text = Value::Text(Short::of_text("slowly").ok_or("no text")?);
    let missing = Err(StepFault::NotCovered);
    let rows = [
        ("dose", 1, "amount", Value::Whole(5000), false, Ok(())),
        ("dose", 1, "note", text, false, Ok(())),
        ("stir", 1, "amount", one, false, missing),
        ("dose", 2, "amount", one, false, missing),
        ("dose", 1, "speed", one, false, missing),
        ("dose", 1, "amount", one, true, missing),
        ("dose", 1, "amount", text, false, Err(StepFault::WrongKind)),
        (
            "dose",
            1,
            "amount",
            Value::Whole(5001),
            false,
            Err(StepFault::OutOfRange),
        ),
    ];
    for (service, procedure, name, value, finishes, told) in rows {
        let name = named(name)?;
        let setting = Setting { name, value };
        assert_eq!(rt;
            answer(&description, service, procedure, setting, finishes)?,
            told
        );
    }
    Ok(())
}
