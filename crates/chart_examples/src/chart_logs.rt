//! The log of a worked chart, and parts of it.

use chart_core::{Chart, LogEntry, Readings};
use chart_json::read_chart;
use chart_runs::{is_part, is_whole};
use given::named;
use mtp_codes::Reading;
use mtp_json::parse;
use std::alloc::Global;
use std::test::*;

const ROLES: &str = r#"[
    {"role":"A","type":"Doser","version":"^1"},
    {"role":"B","type":"Mixer","version":"^2"}
]"#;

/// Fills in a loop until the level is 1500, and then stirs and heats.
const MIX: &str = r#"{"seq":[
    {
        "loop":{"step":"fill","role":"A","service":"dose","procedure":1},
        "until":{"test":"level","role":"A","op":"ge","value":1500}
    },
    {"par":[
        {
            "step":"stir","role":"B","service":"stir","procedure":1,
            "finish":{"test":"temp","role":"B","op":"ge","value":60}
        },
        {"step":"heat","role":"B","service":"heat","procedure":1}
    ]}
]}"#;

fn mix(alloc: Global) -> Result<Chart, Fail> {
    let roles = parse(alloc, ROLES.as_bytes()).ok().ok_or("no value")?;
    let chart = parse(alloc, MIX.as_bytes()).ok().ok_or("no value")?;
    Ok(read_chart(alloc, &roles, &chart).ok().ok_or("no chart")?)
}

fn start(step: &str, tag: &str, service: &str) -> Result<LogEntry, Fail> {
    Ok(LogEntry::Start {
        step: named(step)?,
        tag: named(tag)?,
        service: named(service)?,
        procedure: 1,
    })
}

fn reset(step: &str, tag: &str, service: &str) -> Result<LogEntry, Fail> {
    Ok(LogEntry::Reset {
        step: named(step)?,
        tag: named(tag)?,
        service: named(service)?,
    })
}

fn end(step: &str) -> Result<LogEntry, Fail> {
    Ok(LogEntry::End { step: named(step)? })
}

fn leave(level: i64) -> Result<LogEntry, Fail> {
    Ok(LogEntry::Leave {
        node: 1,
        values: Readings::of_list(&[Reading::Whole(level)]).ok_or("too many")?,
    })
}

// Fills twice, since the level is 800 after the first time.
fn filled(level: i64) -> Result<[LogEntry; 8], Fail> {
    let turn = LogEntry::Turn {
        node: 1,
        values: Readings::of_list(&[Reading::Whole(800)]).ok_or("too many")?,
    };
    let start = start("fill", "M1", "dose")?;
    let reset = reset("fill", "M1", "dose")?;
    let end = end("fill")?;
    Ok([start, reset, end, turn, start, reset, end, leave(level)?])
}

// Stirs until the temperature is 60, while it heats.
fn mixed() -> Result<[LogEntry; 7], Fail> {
    let finish = LogEntry::Finish {
        step: named("stir")?,
        tag: named("M2")?,
        service: named("stir")?,
    };
    Ok([
        start("stir", "M2", "stir")?,
        start("heat", "M2", "heat")?,
        reset("heat", "M2", "heat")?,
        finish,
        reset("stir", "M2", "stir")?,
        end("stir")?,
        end("heat")?,
    ])
}

#[test]
fn complete_and_partial_runs_are_told(rt: HostRuntime) -> Result<(), Fail> {
    let alloc = rt.alloc();
    let chart = mix(alloc)?;
    chart.valid().ok().ok_or("not valid")?;
    let front = filled(1500)?;
    let mut log = vec![in alloc]?;
    log.extend_from_slice(&front)?;
    log.extend_from_slice(&mixed()?)?;
    let early = filled(1499)?;
    let rows: [(&[LogEntry], bool, bool); 5] = [
        (&log, true, true),
        (&front, true, false),
        (&early, false, false),
        (&[], true, false),
        (&[end("fill")?], false, false),
    ];
    for (log, part, whole) in rows {
        assert_eq!(rt; is_part(alloc, &chart, log)?, part);
        assert_eq!(rt; is_whole(alloc, &chart, log)?, whole);
    }
    Ok(())
}
