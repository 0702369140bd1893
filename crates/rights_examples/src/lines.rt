//! Who may give which lines under worked policies.

use event_json::EventKind;
use given::named;
use mtp_codes::{Command, Name};
use pol_policy::Verdict;
use pol_rights::{PlantPolicy, read_plant_policy};
use std::alloc::Global;
use std::test::*;

/// A policy of a plant with two shifts: leads start and freeze, nobody of the night unplugs, machines tell their part.
const SHIFTS: &str =
    r#"{"groups":[{"group":"leads","members":["ann","night"]},{"group":"night","members":["ben"]}],"rules":[{"name":"c","allow":true,"who":["leads"]}],"lines":[{"name":"leads-start","allow":true,"who":["leads"],"kinds":["start","freeze","thaw","unplug"]},{"name":"no-unplug-at-night","allow":false,"who":["night"],"kinds":["unplug"]},{"name":"machines","allow":true,"kinds":["plug","report","variable","advance"]}]}"#;

/// Without a word of lines.
const COMMANDS: &str = r#"{"groups":[],"rules":[{"name":"c","allow":true}]}"#;

/// No line but commands of the desk may be given.
const NOTHING: &str = r#"{"groups":[],"rules":[{"name":"c","allow":true}],"lines":[]}"#;

/// Two groups that are members of each other, and rules of every kind of line.
const CIRCLE: &str =
    r#"{"groups":[{"group":"a","members":["b"]},{"group":"b","members":["a","dan"]}],"rules":[],"lines":[{"name":"r","allow":true,"who":["a"]},{"name":"s","allow":false,"who":["a"],"kinds":["stop"]},{"name":"t","allow":false,"who":["dan"],"kinds":["stop","abandon"]}]}"#;

/// A rule that denies everybody comes before one that allows a person, and one that allows everybody behind.
const ORDER: &str =
    r#"{"groups":[],"rules":[],"lines":[{"name":"r","allow":false,"kinds":["recipe"]},{"name":"s","allow":true,"who":["eve"]},{"name":"t","allow":true}]}"#;

/// Who gives which kind of line under which policy (`-` is nobody), and what the policy says: `+` or `-` with the rule
/// that is named, or `free` where it doesn't judge the line.
const CASES: [(&str, &str, EventKind, &str); 35] = [
    (SHIFTS, "ann", EventKind::Start, "+leads-start"),
    (SHIFTS, "ben", EventKind::Start, "+leads-start"),
    (SHIFTS, "ben", EventKind::Freeze, "+leads-start"),
    (SHIFTS, "leads", EventKind::Thaw, "+leads-start"),
    (SHIFTS, "cat", EventKind::Start, "-"),
    (SHIFTS, "-", EventKind::Start, "-"),
    (SHIFTS, "ann", EventKind::Unplug, "+leads-start"),
    (SHIFTS, "ben", EventKind::Unplug, "-no-unplug-at-night"),
    (SHIFTS, "night", EventKind::Unplug, "-no-unplug-at-night"),
    (SHIFTS, "-", EventKind::Unplug, "-"),
    (SHIFTS, "-", EventKind::Plug, "+machines"),
    (SHIFTS, "-", EventKind::Report, "+machines"),
    (SHIFTS, "cat", EventKind::Variable, "+machines"),
    (SHIFTS, "ben", EventKind::Advance, "+machines"),
    (SHIFTS, "ann", EventKind::Stop, "-"),
    (SHIFTS, "ann", EventKind::ExchangeBegin, "-"),
    (SHIFTS, "ann", EventKind::Desk, "free"),
    (SHIFTS, "-", EventKind::Desk, "free"),
    (COMMANDS, "ann", EventKind::Start, "free"),
    (COMMANDS, "-", EventKind::Abandon, "free"),
    (COMMANDS, "ann", EventKind::Desk, "free"),
    (NOTHING, "ann", EventKind::Start, "-"),
    (NOTHING, "-", EventKind::Report, "-"),
    (NOTHING, "ann", EventKind::Desk, "free"),
    (CIRCLE, "dan", EventKind::ExchangeEnd, "+r"),
    (CIRCLE, "a", EventKind::ExchangeCancel, "+r"),
    (CIRCLE, "b", EventKind::Recipe, "+r"),
    (CIRCLE, "dan", EventKind::Stop, "-s"),
    (CIRCLE, "dan", EventKind::Abandon, "-t"),
    (CIRCLE, "cat", EventKind::Stop, "-"),
    (ORDER, "eve", EventKind::Recipe, "-r"),
    (ORDER, "eve", EventKind::Start, "+s"),
    (ORDER, "fay", EventKind::Start, "+t"),
    (ORDER, "-", EventKind::Start, "+t"),
    (ORDER, "-", EventKind::Recipe, "-r"),
];

// A verdict as a text.
fn verdict_text(alloc: Global, verdict: &Verdict) -> Result<String, Fail> {
    let (sign, rule) = match verdict {
        Verdict::Allowed(rule) => ("+", rule.as_str()),
        Verdict::Denied(Some(rule)) => ("-", rule.as_str()),
        Verdict::Denied(None) => ("-", ""),
    };
    Ok(format!(in alloc; "{sign}{rule}")?)
}

// What a policy says to a line, as a text.
fn said_text(alloc: Global, said: &Option<Verdict>) -> Result<String, Fail> {
    match said {
        Some(verdict) => verdict_text(alloc, verdict),
        None => Ok(String::from_str(alloc, "free")?),
    }
}

// Who gives a line; `-` is nobody.
fn giver(by: &str) -> Result<Option<Name>, Fail> {
    if by == "-" {
        return Ok(None);
    }
    let name = named(by)?;
    Ok(Some(name))
}

// The policy that a line says.
fn policy_of(alloc: Global, line: &str) -> Result<PlantPolicy, Fail> {
    let policy = read_plant_policy(alloc, line.as_bytes())
        .ok()
        .ok_or("no policy")?;
    Ok(policy)
}

// What the policy of a line says to a line of this kind.
fn said(alloc: Global, line: &str, by: &str, kind: EventKind) -> Result<String, Fail> {
    let by = giver(by)?;
    let policy = policy_of(alloc, line)?;
    said_text(alloc, &policy.judge_line(by, kind))
}

#[test]
fn a_line_is_allowed_or_denied_by_a_rule(rt: HostRuntime) -> Result<(), Fail> {
    for (line, by, kind, want) in CASES {
        let told = said(rt.alloc(), line, by, kind)?;
        assert_eq!(rt; told.as_str(), want, "to {kind:?} by {by}");
    }
    Ok(())
}

#[test]
fn commands_are_judged_by_the_same_policy(rt: HostRuntime) -> Result<(), Fail> {
    let policy = policy_of(rt.alloc(), SHIFTS)?;
    let tag = named("M")?;
    let service = named("dose")?;
    for (by, want) in [("ben", "+c"), ("cat", "-")] {
        let verdict = policy
            .commands
            .judge(named(by)?, tag, service, Command::Start);
        let told = verdict_text(rt.alloc(), &verdict)?;
        assert_eq!(rt; told.as_str(), want, "to {by}");
    }
    Ok(())
}
