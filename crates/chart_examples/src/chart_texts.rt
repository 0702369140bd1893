//! Worked charts, and what is wrong with others.

use chart_core::Chart;
use chart_json::{make_chart, node_at, read_chart, roles_at, write_chart};
use given::refusal_text;
use mtp_json::{JsonRefusal, parse};
use serde_json::{Value, json};
use std::alloc::Global;
use std::test::*;

const DOSER: &str = r#"[{"role":"A","type":"Doser","version":"^1"}]"#;

fn value(alloc: Global, text: &str) -> Result<Value, Fail> {
    Ok(parse(alloc, text.as_bytes()).ok().ok_or("no value")?)
}

// By the keys of an object, as a recipe's line has them.
fn read_recipe(alloc: Global, recipe: &Value) -> Result<Chart, JsonRefusal> {
    let roles = roles_at(alloc, recipe)?;
    let root = node_at(alloc, recipe)?;
    make_chart(alloc, roles, root)
}

fn told(alloc: Global, read: Result<Chart, JsonRefusal>) -> Result<String, Fail> {
    match read {
        Ok(chart) => {
            let (roles, root) = write_chart(alloc, &chart)?;
            let recipe = json!(in alloc; {"chart": root, "roles": roles})?;
            Ok(recipe.to_string(alloc)?)
        }
        Err(refusal) => refusal_text(alloc, refusal),
    }
}

fn told_of(alloc: Global, roles: &str, chart: &str) -> Result<String, Fail> {
    let roles = value(alloc, roles)?;
    let chart = value(alloc, chart)?;
    told(alloc, read_chart(alloc, &roles, &chart))
}

const STEP: &str = r#"{"step":"s","role":"A","service":"dose","procedure":1}"#;

/// Recipes, each with its written form.
const WRITTEN: &str = r#"
{"roles":[{"role":"A","type":"Doser","version":"^1"}],"chart":{"step":"s1","role":"A","service":"dose","procedure":1,"settings":[{"name":"amount","value":1500}]}} => {"chart":{"procedure":1,"role":"A","service":"dose","settings":[{"name":"amount","value":1500}],"step":"s1"},"roles":[{"role":"A","type":"Doser","version":"^1"}]}
{"roles":[{"role":"A","type":"Doser","version":"^1"},{"role":"B","type":"Doser","version":"^1"}],"chart":{"seq":[{"step":"s1","role":"A","service":"dose","procedure":1},{"step":"s2","role":"B","service":"dose","procedure":1}]}} => {"chart":{"seq":[{"procedure":1,"role":"A","service":"dose","settings":[],"step":"s1"},{"procedure":1,"role":"B","service":"dose","settings":[],"step":"s2"}]},"roles":[{"role":"A","type":"Doser","version":"^1"},{"role":"B","type":"Doser","version":"^1"}]}
{"roles":[{"role":"A","type":"Doser","version":"^1"},{"role":"B","type":"Mixer","version":"^2"}],"chart":{"seq":[{"loop":{"step":"fill","role":"A","service":"dose","procedure":1,"settings":[{"name":"amount","value":1500}]},"until":{"test":"level","role":"A","op":"ge","value":1500}},{"par":[{"step":"stir","role":"B","service":"stir","procedure":1,"finish":{"test":"temp","role":"B","op":"ge","value":60}},{"step":"heat","role":"B","service":"heat","procedure":1}]}]}} => {"chart":{"seq":[{"loop":{"procedure":1,"role":"A","service":"dose","settings":[{"name":"amount","value":1500}],"step":"fill"},"until":{"op":"ge","role":"A","test":"level","value":1500}},{"par":[{"finish":{"op":"ge","role":"B","test":"temp","value":60},"procedure":1,"role":"B","service":"stir","settings":[],"step":"stir"},{"procedure":1,"role":"B","service":"heat","settings":[],"step":"heat"}]}]},"roles":[{"role":"A","type":"Doser","version":"^1"},{"role":"B","type":"Mixer","version":"^2"}]}
{"roles":[{"role":"A","type":"Doser","version":"^1"},{"role":"B","type":"Mixer","version":"^2"}],"chart":{"par":[{"step":"d","role":"A","service":"dose","procedure":1},{"step":"stir","role":"B","service":"stir","procedure":1,"finish":{"test":"temp","role":"B","op":"ge","value":60}},{"step":"heat","role":"B","service":"heat","procedure":1}]}} => {"chart":{"par":[{"procedure":1,"role":"A","service":"dose","settings":[],"step":"d"},{"finish":{"op":"ge","role":"B","test":"temp","value":60},"procedure":1,"role":"B","service":"stir","settings":[],"step":"stir"},{"procedure":1,"role":"B","service":"heat","settings":[],"step":"heat"}]},"roles":[{"role":"A","type":"Doser","version":"^1"},{"role":"B","type":"Mixer","version":"^2"}]}
{"roles":[{"role":"A","type":"Doser","version":"^1"}],"chart":{"sel":[{"when":{"test":"level","role":"A","op":"ge","value":1000},"then":{"step":"hi","role":"A","service":"dose","procedure":1}},{"when":{"test":"level","role":"A","op":"ge","value":500},"then":{"step":"lo","role":"A","service":"dose","procedure":1}}]}} => {"chart":{"sel":[{"then":{"procedure":1,"role":"A","service":"dose","settings":[],"step":"hi"},"when":{"op":"ge","role":"A","test":"level","value":1000}},{"then":{"procedure":1,"role":"A","service":"dose","settings":[],"step":"lo"},"when":{"op":"ge","role":"A","test":"level","value":500}}]},"roles":[{"role":"A","type":"Doser","version":"^1"}]}
{"roles":[{"role":"A","type":"Doser","version":"^1"}],"chart":{"loop":{"step":"s","role":"A","service":"dose","procedure":65535,"settings":[{"name":"p","value":-9223372036854775808},{"name":"q","value":false},{"name":"r","value":"\u00fc"}],"finish":{"const":false}},"until":{"all":[{"any":[{"const":true},{"not":{"test":"v","role":"A","op":"ne","value":true}}]},{"test":"v","role":"A","op":"lt","value":-5},{"test":"v","role":"A","op":"le","value":5},{"test":"v","role":"A","op":"eq","value":false},{"test":"v","role":"A","op":"gt","value":0}]}}} => {"chart":{"loop":{"finish":{"const":false},"procedure":65535,"role":"A","service":"dose","settings":[{"name":"p","value":-9223372036854775808},{"name":"q","value":false},{"name":"r","value":"ü"}],"step":"s"},"until":{"all":[{"any":[{"const":true},{"not":{"op":"ne","role":"A","test":"v","value":true}}]},{"op":"lt","role":"A","test":"v","value":-5},{"op":"le","role":"A","test":"v","value":5},{"op":"eq","role":"A","test":"v","value":false},{"op":"gt","role":"A","test":"v","value":0}]}},"roles":[{"role":"A","type":"Doser","version":"^1"}]}
"#;

/// Roles, each with their first fault, whatever the chart.
const ROLES: &str = r#"
{} => WrongKind "roles"
[] => OutOfRange "roles"
[7] => WrongKind "roles.0"
[{}] => Missing "roles.0.role"
[{"role":"A","type":"a b","version":"^1"}] => OutOfRange "roles.0.type"
[{"role":"A","type":"Doser","version":1}] => WrongKind "roles.0.version"
[{"role":"A","type":"Doser","version":"^^1"}] => OutOfRange "roles.0.version"
[{"role":"A","type":"Doser","version":"1.0.0-aaaaaaaaaaaaaaaaaaaaaaaaaaaaaaaaaaaaaaaaaaaaaaaaaaaaaaaaaaa"}] => OutOfRange "roles.0.version"
[{"role":"A","type":"Doser","version":"^1","x":1}] => Unknown "roles.0"
[{"role":"A","type":"Doser","version":"^1"},{"role":"A","type":"Doser","version":"^1"}] => Repeated "roles"
"#;

/// Charts, each with its first fault in reading order.
const CHARTS: &str = r#"
[] => WrongKind "chart"
{} => Missing "chart.step"
{"step":7} => WrongKind "chart.step"
{"seq":[],"step":"s"} => Missing "chart.role"
{"step":"s","role":"A","service":"dose","procedure":0} => OutOfRange "chart.procedure"
{"step":"s","role":"A","service":"dose","procedure":65536} => OutOfRange "chart.procedure"
{"step":"s","role":"A","service":"dose","procedure":1.0} => WrongKind "chart.procedure"
{"step":"s","role":"A","service":"dose","procedure":1,"settings":[{"name":"p","value":null}]} => WrongKind "chart.settings.0.value"
{"step":"s","role":"A","service":"dose","procedure":1,"settings":[{"name":"p","value":1},{"name":"p","value":true}]} => Repeated "chart.settings"
{"step":"s","role":"A","service":"dose","procedure":1,"settings":[{"name":"p","value":1},{"name":"p","value":true}],"x":1} => Unknown "chart"
{"step":"s","role":"A","service":"dose","procedure":1,"finish":null} => WrongKind "chart.finish"
{"seq":[]} => OutOfRange "chart.seq"
{"par":[{"step":"s","role":"A","service":"dose","procedure":1}]} => OutOfRange "chart.par"
{"sel":[]} => OutOfRange "chart.sel"
{"sel":[{"then":{"step":"s","role":"A","service":"dose","procedure":1}}]} => Missing "chart.sel.0.when"
{"sel":[{"when":{"const":true},"then":{"step":"s","role":"A","service":"dose","procedure":1}},{"when":{"const":true}}]} => Missing "chart.sel.1.then"
{"loop":{"seq":[{"step":"s","role":"A","service":"dose","procedure":1},{"step":"s1"}]},"until":7} => Missing "chart.loop.seq.1.role"
{"loop":{"step":"s","role":"A","service":"dose","procedure":1}} => Missing "chart.until"
"#;

/// Conditions of a loop, each with its first fault in reading order.
const CONDITIONS: &str = r#"
{} => Missing "chart.until.const"
{"const":1} => WrongKind "chart.until.const"
{"const":true,"not":{"const":true}} => Unknown "chart.until"
{"any":[]} => OutOfRange "chart.until.any"
{"not":7} => WrongKind "chart.until.not"
{"test":"v","role":"A","op":"is","value":1} => OutOfRange "chart.until.op"
{"test":"v","role":"A","op":"eq","value":"a"} => WrongKind "chart.until.value"
{"test":"v","role":"A","op":"eq","value":9223372036854775808} => OutOfRange "chart.until.value"
{"test":"v","role":"A","op":"lt","value":true} => Unsound "chart.until"
{"all":[{"const":true},{"test":"v","role":"A","op":"ge","value":false}]} => Unsound "chart.until.all.1"
{"not":{"not":{"not":{"not":{"not":{"not":{"not":{"not":{"const":true}}}}}}}}} => OutOfRange "chart.until"
{"not":{"not":{"not":{"not":{"not":{"not":{"not":{"not":{}}}}}}}}} => Missing "chart.until.not.not.not.not.not.not.not.not.const"
"#;

#[test]
fn a_chart_is_written_with_every_key_and_read_back(rt: HostRuntime) -> Result<(), Fail> {
    let alloc = rt.alloc();
    for case in WRITTEN.trim().lines() {
        let (text, written) = case.split_once(" => ").ok_or("no case")?;
        let recipe = value(alloc, text)?;
        assert_eq!(rt; told(alloc, read_recipe(alloc, &recipe))?.as_str(), written);
        let recipe = value(alloc, written)?;
        assert_eq!(rt; told(alloc, read_recipe(alloc, &recipe))?.as_str(), written);
    }
    Ok(())
}

#[test]
fn a_fault_of_the_roles_stands_before_one_of_the_chart_unless_it_is_a_repetition(
    rt: HostRuntime,
) -> Result<(), Fail> {
    let alloc = rt.alloc();
    for case in ROLES.trim().lines() {
        let (roles, fault) = case.split_once(" => ").ok_or("no case")?;
        assert_eq!(rt; told_of(alloc, roles, STEP)?.as_str(), fault, "at {roles}");
    }
    let twice =
        r#"[{"role":"A","type":"Doser","version":"^1"},{"role":"A","type":"Doser","version":"^1"}]"#;
    assert_eq!(rt;
        told_of(alloc, twice, "{}")?.as_str(),
        r#"Missing "chart.step""#
    );
    Ok(())
}

#[test]
fn the_first_fault_of_a_chart_in_reading_order_is_told(rt: HostRuntime) -> Result<(), Fail> {
    let alloc = rt.alloc();
    for case in CHARTS.trim().lines() {
        let (chart, fault) = case.split_once(" => ").ok_or("no case")?;
        assert_eq!(rt; told_of(alloc, DOSER, chart)?.as_str(), fault, "at {chart}");
    }
    Ok(())
}

#[test]
fn the_first_fault_of_a_condition_in_reading_order_is_told(rt: HostRuntime) -> Result<(), Fail> {
    let alloc = rt.alloc();
    for case in CONDITIONS.trim().lines() {
        let (until, fault) = case.split_once(" => ").ok_or("no case")?;
        let chart = format!(in alloc; "{{\"loop\":{STEP},\"until\":{until}}}")?;
        assert_eq!(rt;
            told_of(alloc, DOSER, chart.as_str())?.as_str(),
            fault,
            "at {until}"
        );
    }
    Ok(())
}

// A text with as many of these items, commas between.
fn repeated(
    alloc: Global,
    front: &str,
    item: &str,
    count: usize,
    back: &str,
) -> Result<String, Fail> {
    let mut text = String::from_str(alloc, front)?;
    for i in 0..count {
        if i != 0 {
            text.push_str(",")?;
        }
        text.push_str(item)?;
    }
    text.push_str(back)?;
    Ok(text)
}

#[test]
fn a_condition_has_at_most_16_tests_and_a_selection_16_arms(rt: HostRuntime) -> Result<(), Fail> {
    let alloc = rt.alloc();
    let front =
        r#"{"loop":{"step":"s","role":"A","service":"dose","procedure":1},"until":{"all":[{"any":["#;
    let test = r#"{"test":"v","role":"A","op":"ge","value":1}"#;
    let arm =
        r#"{"when":{"const":true},"then":{"step":"s","role":"A","service":"dose","procedure":1}}"#;
    let beside = r#"]},{"test":"v","role":"A","op":"ge","value":1}]}}"#;
    let few = value(alloc, repeated(alloc, front, test, 15, beside)?.as_str())?;
    let many = value(alloc, repeated(alloc, front, test, 16, beside)?.as_str())?;
    let arms = value(
        alloc,
        repeated(alloc, r#"{"sel":["#, arm, 17, "]}")?.as_str(),
    )?;
    let roles = value(alloc, DOSER)?;
    assert!(rt; read_chart(alloc, &roles, &few).is_ok());
    assert_eq!(rt;
        told(alloc, read_chart(alloc, &roles, &many))?.as_str(),
        r#"OutOfRange "chart.until""#
    );
    assert_eq!(rt;
        told(alloc, read_chart(alloc, &roles, &arms))?.as_str(),
        r#"OutOfRange "chart.sel""#
    );
    Ok(())
}

// Deeper than any text that is read nests.
const DEEP: u32 = 130;

#[test]
fn a_chart_is_read_whatever_its_depth_and_a_deep_condition_refused_as_a_whole(
    rt: HostRuntime,
) -> Result<(), Fail> {
    let alloc = rt.alloc();
    let roles = value(alloc, DOSER)?;
    let (mut node, mut until) = (value(alloc, STEP)?, value(alloc, r#"{"const":true}"#)?);
    for _ in 0..DEEP {
        node = json!(in alloc; {"loop": node, "until": {"const": true}})?;
        until = json!(in alloc; {"not": until})?;
    }
    let chart = read_chart(alloc, &roles, &node).ok().ok_or("no chart")?;
    let (_, written) = write_chart(alloc, &chart)?;
    let again = read_chart(alloc, &roles, &written);
    assert!(rt; again.is_ok());
    let step = value(alloc, STEP)?;
    let deep = json!(in alloc; {"loop": step, "until": until})?;
    assert_eq!(rt;
        told(alloc, read_chart(alloc, &roles, &deep))?.as_str(),
        r#"OutOfRange "chart.until""#
    );
    Ok(())
}
