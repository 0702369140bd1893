//! Worked policies, what is wrong with others, what they say to commands, and journals under a policy.

use given::{fault_text, named, refusal_text};
use mtp_codes::Command;
use mtp_json::JsonFault;
use pol_guard::Guarding;
use pol_io::{LONGEST_LINE, SureSink, SureSource};
use pol_jobs::{JobFault, work};
use pol_policy::{Policy, Verdict, read_policy};
use std::alloc::Global;
use std::convert::Infallible;
use std::test::*;

/// Lines, each with its first fault, or `none` where it says a policy.
const LINES: &str = r#"
[] => WrongKind ""
{"groups":[] => NotJson ""
{"groups":[],"rules":[]} => none
{"rules":[]} => Missing "groups"
{"groups":[]} => Missing "rules"
{"groups":[],"rules":[],"more":1} => Unknown ""
{"groups":[{"group":"a","members":["b",7]}],"rules":[]} => WrongKind "groups.0.members.1"
{"groups":[{"group":"a","members":[]}],"rules":[]} => none
{"groups":[{"group":"a b","members":[]}],"rules":[]} => OutOfRange "groups.0.group"
{"groups":[],"rules":[{"name":"r","allow":1}]} => WrongKind "rules.0.allow"
{"groups":[],"rules":[{"name":"r","allow":true,"who":[]}]} => OutOfRange "rules.0.who"
{"groups":[],"rules":[{"name":"r","allow":true,"commands":[]}]} => OutOfRange "rules.0.commands"
{"groups":[],"rules":[{"name":"r","allow":true,"commands":[3]}]} => OutOfRange "rules.0.commands.0"
{"groups":[],"rules":[{"name":"r","allow":true,"command":[4]}]} => Unknown "rules.0"
{"groups":[{"group":"a","members":[]},{"group":"a","members":[]}],"rules":[{"name":"r","allow":true},{"name":"r","allow":true}]} => Repeated "groups"
{"groups":[{"group":"r","members":[]}],"rules":[{"name":"r","allow":true},{"name":"r","allow":false}]} => Repeated "rules"
"#;

/// A policy that allows the shift, and denies an Abort.
const SHIFT: &str =
    r#"{"groups":[{"group":"shift","members":["ann"]}],"rules":[{"name":"r1","allow":true,"who":["shift"]},{"name":"r2","allow":false,"commands":[256]}]}"#;

/// Two groups that are members of each other.
const CIRCLE: &str =
    r#"{"groups":[{"group":"a","members":["b"]},{"group":"b","members":["a","dan"]}],"rules":[{"name":"r","allow":true,"who":["a"]}]}"#;

/// A group with the name of a person.
const PERSON: &str =
    r#"{"groups":[{"group":"ann","members":["bob"]},{"group":"top","members":["ann"]}],"rules":[{"name":"r","allow":true,"who":["top"]},{"name":"s","allow":false,"who":["bob"],"commands":[8]}]}"#;

/// A chain of five groups.
const CHAIN: &str =
    r#"{"groups":[{"group":"e","members":["zoe"]},{"group":"c","members":["d"]},{"group":"a","members":["b"]},{"group":"d","members":["e"]},{"group":"b","members":["c"]}],"rules":[{"name":"r","allow":true,"who":["a"]},{"name":"s","allow":true,"who":["zoe"]}]}"#;

/// A rule without a list, and two that deny.
const ABSENT: &str =
    r#"{"groups":[],"rules":[{"name":"r","allow":true},{"name":"s","allow":false,"tags":["N"]},{"name":"t","allow":false,"services":["stir"]}]}"#;

// What is wrong with a policy's line, or `none`.
fn told(alloc: Global, line: &str) -> Result<String, Fail> {
    match read_policy(alloc, line.as_bytes()) {
        Ok(_) => Ok(String::from_str(alloc, "none")?),
        Err(refusal) => refusal_text(alloc, refusal),
    }
}

#[test]
fn the_first_fault_of_a_policy_is_told(rt: HostRuntime) -> Result<(), Fail> {
    for case in LINES.trim().lines() {
        let (line, fault) = case.split_once(" => ").ok_or("no case")?;
        assert_eq!(rt; told(rt.alloc(), line)?.as_str(), fault, "of {line}");
    }
    Ok(())
}

// A verdict as a text: `+` or `-`, and the rule that is named.
fn verdict_text(alloc: Global, verdict: &Verdict) -> Result<String, Fail> {
    let mut text = String::new(alloc);
    match verdict {
        Verdict::Allowed(rule) => {
            text.push_str("+")?;
            text.push_str(rule.as_str())?;
        }
        Verdict::Denied(Some(rule)) => {
            text.push_str("-")?;
            text.push_str(rule.as_str())?;
        }
        Verdict::Denied(None) => text.push_str("-")?,
    }
    Ok(text)
}

// What a policy says to a command of this person to a service of a module.
fn verdict(
    alloc: Global,
    policy: &Policy,
    by: &str,
    service: [&str; 2],
    command: Command,
) -> Result<String, Fail> {
    let [tag, service] = service;
    let by = named(by)?;
    let tag = named(tag)?;
    let service = named(service)?;
    let verdict = policy.judge(by, tag, service, command);
    verdict_text(alloc, &verdict)
}

#[test]
fn a_command_is_allowed_or_denied_by_a_rule(rt: HostRuntime) -> Result<(), Fail> {
    const DOSE: [&str; 2] = ["M", "dose"];
    for (line, by, service, command, want) in [
        (SHIFT, "ann", DOSE, Command::Start, "+r1"),
        (SHIFT, "ann", DOSE, Command::Abort, "-r2"),
        (SHIFT, "bob", DOSE, Command::Start, "-"),
        (SHIFT, "bob", DOSE, Command::Abort, "-r2"),
        (CIRCLE, "a", DOSE, Command::Start, "+r"),
        (CIRCLE, "b", DOSE, Command::Start, "+r"),
        (CIRCLE, "dan", DOSE, Command::Start, "+r"),
        (CIRCLE, "c", DOSE, Command::Start, "-"),
        (PERSON, "ann", DOSE, Command::Stop, "+r"),
        (PERSON, "bob", DOSE, Command::Start, "+r"),
        (PERSON, "bob", DOSE, Command::Stop, "-s"),
        (CHAIN, "zoe", DOSE, Command::Start, "+r"),
        (CHAIN, "yan", DOSE, Command::Start, "-"),
        (ABSENT, "ann", DOSE, Command::Complete, "+r"),
        (ABSENT, "ann", ["N", "dose"], Command::Complete, "-s"),
        (ABSENT, "ann", ["M", "stir"], Command::Complete, "-t"),
    ] {
        let policy = read_policy(rt.alloc(), line.as_bytes())
            .ok()
            .ok_or("no policy")?;
        let told = verdict(rt.alloc(), &policy, by, service, command)?;
        assert_eq!(rt; told.as_str(), want, "to {command:?} by {by}");
    }
    Ok(())
}

/// A dosing module under the tag M, whose service is Idle in mode Operator.
const DOSER: &str = r#"
{"at":2,"desc":{"services":[{"name":"dose","procedures":[{"default":true,"number":1,"params":[{"kind":"DIntServParam","max":5000,"min":0,"name":"amount"}],"self_completing":true}]}],"type":"Doser","variables":[{"kind":"AnaView","name":"level"}],"version":"1.0.0"},"ev":"plug","tag":"M"}
{"CommandEn":4,"Mode":"Operator","ProcedureCur":0,"Src":"Internal","StateCur":16,"at":3,"ev":"report","service":"dose","tag":"M"}
"#;

/// Lines behind the policy and the module, each with what is replied to it under the policy of the shift.
const SHIFT_LINES: &str = r#"
{"CommandOp":4,"at":4,"by":"ann","ev":"desk","service":"dose","tag":"M"} => {"did":{"command":4,"do":"asked","service":"dose","tag":"M"}}
{"CommandOp":256,"at":5,"by":"ann","ev":"desk","service":"dose","tag":"M"} => {"denied":true,"policy":"r2"}
{"CommandOp":4,"at":6,"by":"bob","ev":"desk","service":"dose","tag":"M"} => {"denied":true}
{"CommandOp":16,"at":7,"by":"ann","ev":"desk","service":"dose","tag":"M"} => {"refused":31,"rule":"StateForbids"}
{"CommandOp":4,"at":8,"ev":"desk","service":"dose","tag":"M"} => {"bad":"Missing","path":"by"}
{"at":9,"by":"ann","ev":"unplug","tag":"M"} => {"bad":"Unknown","path":""}
{"at":10,"ev":"unplug","tag":"M"} => {"done":true}
"#;

/// The same under the policy of the circle.
const CIRCLE_LINES: &str = r#"
{"CommandOp":4,"at":4,"by":"b","ev":"desk","service":"dose","tag":"M"} => {"did":{"command":4,"do":"asked","service":"dose","tag":"M"}}
{"CommandOp":4,"at":5,"by":"c","ev":"desk","service":"dose","tag":"M"} => {"denied":true}
"#;

// Guards an input.
fn guard(
    alloc: Global,
    input: Vec<u8>,
    sink: &mut SureSink,
) -> Result<(), JobFault<JsonFault, Infallible>> {
    let mut guarding = Guarding::new(alloc);
    let mut source = SureSource::new(input);
    work(alloc, &mut guarding, &mut source, sink)
}

// How the guard of an input ended: `done`, or the fault for which it was refused.
fn ended(alloc: Global, done: Result<(), JobFault<JsonFault, Infallible>>) -> Result<String, Fail> {
    match done {
        Ok(()) => Ok(String::from_str(alloc, "done")?),
        Err(JobFault::Refused(fault)) => fault_text(alloc, &fault),
        Err(JobFault::Failed(never)) => match never {},
        Err(JobFault::Memory) => Ok(String::from_str(alloc, "memory")?),
        Err(JobFault::Read | JobFault::Write | JobFault::TooMuch) => {
            Ok(String::from_str(alloc, "other")?)
        }
    }
}

// How the guard of an input ended, and what was written.
fn guarded(alloc: Global, input: Vec<u8>) -> Result<(String, Vec<u8>), Fail> {
    let mut sink = SureSink::new(alloc);
    let done = guard(alloc, input, &mut sink);
    let how = ended(alloc, done)?;
    Ok((how, Vec::from_slice(alloc, sink.bytes())?))
}

#[test]
fn each_command_of_the_desk_is_judged_by_the_policy(rt: HostRuntime) -> Result<(), Fail> {
    let alloc = rt.alloc();
    for (policy, lines) in [(SHIFT, SHIFT_LINES), (CIRCLE, CIRCLE_LINES)] {
        let mut input = format!(in alloc; " \n{policy}\n\r{DOSER}")?;
        let mut want = String::from_str(alloc, "{\"done\":true}\n{\"done\":true}\n")?;
        for case in lines.trim().lines() {
            let (line, reply) = case.split_once(" => ").ok_or("no case")?;
            input.push_str(&format!(in alloc; "{line}\n")?)?;
            want.push_str(&format!(in alloc; "{reply}\n")?)?;
        }
        want.push_str("{\"end\":true}\n")?;
        let (how, output) = guarded(alloc, input.into_bytes())?;
        assert_eq!(rt; how.as_str(), "done");
        assert_eq!(rt; output.as_slice(), want.as_bytes());
    }
    Ok(())
}

#[test]
fn an_input_without_a_policy_is_refused(rt: HostRuntime) -> Result<(), Fail> {
    let alloc = rt.alloc();
    for (input, want, written) in [
        ("", "Missing \"\"", ""),
        (" \n\r\n", "Missing \"\"", ""),
        ("\n{\"rules\":[]}\n{\"at\":1}\n", "Missing \"groups\"", ""),
        ("{\"groups\":[],\"rules\":[]}", "done", "{\"end\":true}\n"),
    ] {
        let (how, output) = guarded(alloc, Vec::from_slice(alloc, input.as_bytes())?)?;
        assert_eq!(rt; how.as_str(), want, "of {input}");
        assert_eq!(rt; output.as_slice(), written.as_bytes(), "of {input}");
    }
    let long = vec![in alloc; b' '; LONGEST_LINE + 1]?;
    let (how, output) = guarded(alloc, long)?;
    assert_eq!(rt; how.as_str(), "TooLong \"\"");
    assert_eq!(rt; output.len(), 0);
    Ok(())
}
