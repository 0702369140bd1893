//! Worked modules against the role of a worked chart.

use chart_core::Chart;
use chart_json::read_chart;
use desc_json::read_description;
use given::named;
use mtp_desc::Description;
use mtp_json::{JsonRefusal, parse};
use pol_bind::{covers, held_back_by};
use pol_events::Rule;
use std::alloc::Global;
use std::test::*;

const BARE: &str = r#"{"type":"Doser","version":"1.0.0","services":[{"name":"dose"}]}"#;

const FIRST: &str = r#"{
    "type":"Doser","version":"1.0.0",
    "services":[{"name":"dose","procedures":[{
        "number":1,"default":true,"self_completing":true,
        "params":[{"name":"amount","kind":"DIntServParam","min":0,"max":5000}]
    }]}],
    "variables":[{"name":"level","kind":"AnaView"}]
}"#;

const SECOND: &str = r#"{
    "type":"Doser","version":"2.0.0",
    "services":[{"name":"dose","procedures":[{
        "number":1,"default":true,"self_completing":true,
        "params":[{"name":"amount","kind":"DIntServParam","min":0,"max":5000}]
    }]}],
    "variables":[{"name":"level","kind":"AnaView"}]
}"#;

const TEXTUAL: &str = r#"{
    "type":"Doser","version":"1.0.0",
    "services":[{"name":"dose","procedures":[{
        "number":1,"default":true,"self_completing":true,
        "params":[{"name":"amount","kind":"DIntServParam","min":0,"max":5000}]
    }]}],
    "variables":[{"name":"level","kind":"StringView"}]
}"#;

const MIXER: &str = r#"{"type":"Mixer","version":"1.0.0","services":[{"name":"stir"}]}"#;

const ROLES: &str = r#"[{"role":"A","type":"Doser","version":"^1.0"}]"#;

fn description(alloc: Global, text: &str) -> Result<Description, JsonRefusal> {
    let value = parse(alloc, text.as_bytes())?;
    read_description(alloc, &value)
}

/// One step that doses this amount, until the level is this value.
fn dosing(alloc: Global, amount: u32, level: &str) -> Result<Chart, Fail> {
    let text = format!(in alloc;
        "{{\"loop\":{{\"step\":\"s1\",\"role\":\"A\",\"service\":\"dose\",\"procedure\":1,\"settings\":[{{\"name\":\"amount\",\"value\":{amount}}}]}},\"until\":{{\"test\":\"level\",\"role\":\"A\",\"op\":\"eq\",\"value\":{level}}}}}"
    )?;
    let roles = parse(alloc, ROLES.as_bytes()).ok().ok_or("no value")?;
    let chart = parse(alloc, text.as_bytes()).ok().ok_or("no value")?;
    Ok(read_chart(alloc, &roles, &chart).ok().ok_or("no chart")?)
}

#[test]
fn the_first_fault_of_a_module_for_a_role_is_told(rt: HostRuntime) -> Result<(), Fail> {
    let alloc = rt.alloc();
    let (role, other) = (named("A")?, named("B")?);
    let wrong_type = Err(Rule::WrongType { role });
    let wrong_version = Err(Rule::WrongVersion { role });
    let (s1, level) = (named("s1")?, named("level")?);
    let step = Err(Rule::NotCovered { missing: s1 });
    let variable = Err(Rule::NotCovered { missing: level });
    let (whole, bit) = ("7", "true");
    let rows = [
        (FIRST, 1500, whole, Ok(()), None),
        (MIXER, 1500, whole, wrong_type, Some(role)),
        (SECOND, 1500, whole, wrong_version, Some(role)),
        (BARE, 1500, whole, step, Some(s1)),
        (FIRST, 5001, bit, step, Some(s1)),
        (FIRST, 1500, bit, variable, Some(level)),
        (TEXTUAL, 1500, whole, variable, Some(level)),
    ];
    for (text, amount, level, answer, missing) in rows {
        let module = description(alloc, text).ok().ok_or("no description")?;
        let chart = dosing(alloc, amount, level)?;
        assert_eq!(rt; covers(&chart, role, &module), answer);
        assert_eq!(rt; held_back_by(&chart, role, &module), missing);
    }
    let module = description(alloc, FIRST).ok().ok_or("no description")?;
    let chart = dosing(alloc, 1500, whole)?;
    let wrong_type = Err(Rule::WrongType { role: other });
    assert_eq!(rt; covers(&chart, other, &module), wrong_type);
    Ok(())
}
