//! Worked policies of plants, and what is wrong with others.

use given::refusal_text;
use pol_rights::{PlantPolicy, read_plant_policy};
use std::alloc::Global;
use std::test::*;

/// Lines, each with its first fault, or with how many rules of lines it has where it is a policy: `none` without the key.
const LINES: &str = r#"
[] => WrongKind ""
{"groups":[],"rules":[] => NotJson ""
{"groups":[],"rules":[]} => none
{"groups":[],"rules":[],"lines":[]} => 0
{"lines":[],"rules":[],"groups":[]} => 0
{"groups":[],"rules":[],"lines":[{"name":"r","allow":true}]} => 1
{"groups":[],"rules":[],"lines":[{"name":"r","allow":true,"who":["ann"],"kinds":["start","freeze"]},{"name":"s","allow":false,"kinds":["exchange_begin"]}]} => 2
{"groups":[],"rules":[{"name":"r","allow":true}],"lines":[{"name":"r","allow":true}]} => 1
{"groups":[],"rules":[],"lines":[{"name":"r","allow":true,"kinds":["plug","unplug","report","variable","recipe","start","advance","freeze","thaw","stop","abandon","exchange_begin","exchange_end","exchange_cancel"]}]} => 1
{"rules":[],"lines":[]} => Missing "groups"
{"groups":[],"lines":[]} => Missing "rules"
{"groups":[],"rules":[],"more":[]} => Unknown ""
{"groups":[],"rules":[],"lines":7,"more":[]} => Unknown ""
{"groups":[],"rules":[],"lines":7} => WrongKind "lines"
{"groups":[],"rules":[],"lines":null} => WrongKind "lines"
{"groups":[],"rules":[],"lines":[7]} => WrongKind "lines.0"
{"groups":[],"rules":[],"lines":[{}]} => Missing "lines.0.name"
{"groups":[],"rules":[],"lines":[{"name":"a b"}]} => OutOfRange "lines.0.name"
{"groups":[],"rules":[],"lines":[{"name":"r"}]} => Missing "lines.0.allow"
{"groups":[],"rules":[],"lines":[{"name":"r","allow":1}]} => WrongKind "lines.0.allow"
{"groups":[],"rules":[],"lines":[{"name":"r","allow":true,"who":[]}]} => OutOfRange "lines.0.who"
{"groups":[],"rules":[],"lines":[{"name":"r","allow":true,"who":["ann",7]}]} => WrongKind "lines.0.who.1"
{"groups":[],"rules":[],"lines":[{"name":"r","allow":true,"kinds":[]}]} => OutOfRange "lines.0.kinds"
{"groups":[],"rules":[],"lines":[{"name":"r","allow":true,"kinds":"start"}]} => WrongKind "lines.0.kinds"
{"groups":[],"rules":[],"lines":[{"name":"r","allow":true,"kinds":["start",4]}]} => WrongKind "lines.0.kinds.1"
{"groups":[],"rules":[],"lines":[{"name":"r","allow":true,"kinds":["begin"]}]} => OutOfRange "lines.0.kinds.0"
{"groups":[],"rules":[],"lines":[{"name":"r","allow":true,"kinds":["start","desk"]}]} => OutOfRange "lines.0.kinds.1"
{"groups":[],"rules":[],"lines":[{"name":"r","allow":true,"kinds":["plug","plug","plug","plug","plug","plug","plug","plug","plug","plug","plug","plug","plug","plug","plug"]}]} => OutOfRange "lines.0.kinds"
{"groups":[],"rules":[],"lines":[{"name":"r","allow":true},{"name":"s","allow":true,"tags":["M"]}]} => Unknown "lines.1"
{"groups":[],"rules":[],"lines":[{"name":"r","allow":true},{"name":"s","allow":true},{"name":"r","allow":false}]} => Repeated "lines"
{"groups":[],"rules":[{"name":"r","allow":true},{"name":"r","allow":true}],"lines":[7]} => Repeated "rules"
{"groups":[{"group":"a","members":[]},{"group":"a","members":[]}],"rules":[],"lines":[7]} => Repeated "groups"
"#;

// How many rules of lines a policy has, or `none`.
fn lines_text(alloc: Global, policy: &PlantPolicy) -> Result<String, Fail> {
    match &policy.lines {
        Some(lines) => {
            let count = lines.rules.len();
            Ok(format!(in alloc; "{count}")?)
        }
        None => Ok(String::from_str(alloc, "none")?),
    }
}

// What a line says, or what is wrong with it.
fn told(alloc: Global, line: &str) -> Result<String, Fail> {
    match read_plant_policy(alloc, line.as_bytes()) {
        Ok(policy) => lines_text(alloc, &policy),
        Err(refusal) => refusal_text(alloc, refusal),
    }
}

#[test]
fn a_policy_is_read_or_its_first_fault_is_told(rt: HostRuntime) -> Result<(), Fail> {
    for case in LINES.trim().lines() {
        let (line, want) = case.split_once(" => ").ok_or("no case")?;
        assert_eq!(rt; told(rt.alloc(), line)?.as_str(), want, "of {line}");
    }
    Ok(())
}
