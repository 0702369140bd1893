//! Worked recipes and modules, and what is found of them.
ghost use Rattle.std.specs.Prelude.{◌≡◌, IsTrue};
ghost use Rattle.std.specs.Ordering.{nat_cmp};
ghost use Rattle.std.specs.declared.cmp.Ordering.TheVariants.{Less};
ghost use Rattle.std.specs.List.{All};
ghost use Rattle.std.specs.Cmp.Lexicographic.{slice_cmp};
ghost use Rattle.pol_match.specs.Bindings.{AreInOrder};
ghost use Rattle.pol_match.specs.Candidates.{plain_candidates};

use chart_core::Chart;
use event_json::read_event;
use given::named;
use mtp_codes::{MOST_MODULES, Name};
use pol_events::{Bind, Event};
use pol_match::{Candidate, Found, find_binding};
use std::alloc::Global;
use std::sync::Arc;
use std::test::*;

// A recipe of one role, A, with a step.
const ONE: &str =
    r#"{"at":5,"chart":{"procedure":1,"role":"A","service":"dose","settings":[{"name":"amount","value":1500}],"step":"s1"},"ev":"recipe","recipe":"one","roles":[{"role":"A","type":"Doser","version":"^1"}]}"#;

// A recipe whose roles A and B have a step each.
const TWO: &str =
    r#"{"at":6,"chart":{"seq":[{"procedure":1,"role":"A","service":"dose","step":"s1"},{"procedure":1,"role":"B","service":"dose","step":"s2"}]},"ev":"recipe","recipe":"two","roles":[{"role":"A","type":"Doser","version":"^1"},{"role":"B","type":"Doser","version":"^1"}]}"#;

// The same, where B asks for one version alone.
const TWO_EXACT: &str =
    r#"{"at":5,"chart":{"seq":[{"procedure":1,"role":"A","service":"dose","step":"s1"},{"procedure":1,"role":"B","service":"dose","step":"s2"}]},"ev":"recipe","recipe":"two","roles":[{"role":"A","type":"Doser","version":"^1"},{"role":"B","type":"Doser","version":"=1.0.0"}]}"#;

// A recipe of five roles: A and B want one version, C and D another, and E one that no module has.
const FIVE: &str =
    r#"{"at":5,"chart":{"seq":[{"procedure":1,"role":"A","service":"dose","step":"s1"},{"procedure":1,"role":"B","service":"dose","step":"s2"},{"procedure":1,"role":"C","service":"dose","step":"s3"},{"procedure":1,"role":"D","service":"dose","step":"s4"},{"procedure":1,"role":"E","service":"dose","step":"s5"}]},"ev":"recipe","recipe":"five","roles":[{"role":"A","type":"Doser","version":"=1.1.0"},{"role":"B","type":"Doser","version":"=1.1.0"},{"role":"C","type":"Doser","version":"=1.0.0"},{"role":"D","type":"Doser","version":"=1.0.0"},{"role":"E","type":"Doser","version":"^3"}]}"#;

// The module's tag comes before that of each of these.
fn is_before(tag: Name, others: &[Candidate]) -> bool
    ensures { IsTrue result → All (λ other. slice_cmp nat_cmp tag other.tag ≡ Less) others.now }
{
    others.iter().all(|other| tag < other.tag)
}

// Whether the tags are in byte order and distinct.
fn are_in_order(candidates: &[Candidate]) -> bool
    ensures { IsTrue result → AreInOrder (plain_candidates candidates.now) }
{
    match candidates.split_first() {
        None => true,
        Some((first, others)) => is_before(first.tag, others) && are_in_order(others),
    }
}

// A module that could be bound to a role that doses.
#[derive(Clone, Copy)]
struct Doser {
    tag: &'static str,
    version: &'static str,
    is_idle: bool,
}

const M: Option<Doser> = Some(Doser {
    tag: "M",
    version: "1.0.0",
    is_idle: true,
});

const BUSY_M: Option<Doser> = Some(Doser {
    tag: "M",
    version: "1.0.0",
    is_idle: false,
});

const OTHER_M: Option<Doser> = Some(Doser {
    tag: "M",
    version: "2.0.0",
    is_idle: true,
});

const N: Option<Doser> = Some(Doser {
    tag: "N",
    version: "1.0.0",
    is_idle: true,
});

const NEWER_N: Option<Doser> = Some(Doser {
    tag: "N",
    version: "1.1.0",
    is_idle: true,
});

// The candidate that a dosing module of this tag and version is.
fn candidate(alloc: Global, tag: &str, version: &str, is_idle: bool) -> Result<Candidate, Fail> {
    let services =
        r#"[{"name":"dose","procedures":[{"default":true,"number":1,"params":[{"kind":"DIntServParam","max":5000,"min":0,"name":"amount"}],"self_completing":true}]}]"#;
    let variables = r#"[{"kind":"AnaView","name":"level"}]"#;
    let desc = format!(in alloc;
        r#"{{"services":{services},"type":"Doser","variables":{variables},"version":"{version}"}}"#
    )?;
    let line = format!(in alloc; r#"{{"at":1,"desc":{desc},"ev":"plug","tag":"{tag}"}}"#)?;
    let event = read_event(alloc, line.as_bytes()).ok().ok_or("no line")?;
    let Event::Plug { tag, desc, .. } = event else {
        return Err("no plug")?;
    };
    let mut idle = Vec::new(alloc);
    if is_idle {
        idle.push(named("dose")?)?;
    }
    Ok(Candidate {
        tag,
        description: desc,
        idle,
    })
}

// The chart of a recipe's line.
fn chart_of(alloc: Global, line: &str) -> Result<Arc<Chart>, Fail> {
    match read_event(alloc, line.as_bytes()).ok().ok_or("no line")? {
        Event::Recipe { chart, .. } => Ok(chart),
        _ => Err("no recipe")?,
    }
}

// What is found, where the candidates are few and in order.
fn found(alloc: Global, recipe: &str, candidates: &[Candidate]) -> Result<Found, Fail> {
    let chart = chart_of(alloc, recipe)?;
    if candidates.len() > MOST_MODULES || !are_in_order(candidates) {
        return Err("candidates out of order")?;
    }
    Ok(find_binding(alloc, &chart, candidates)?)
}

// Names, each behind a space.
fn listed(text: &mut String, names: &[Name]) -> Result<(), Fail> {
    for name in names {
        text.push_str(" ")?;
        text.push_str(name.as_str())?;
    }
    Ok(())
}

// What is found, as a text.
fn told(alloc: Global, found: &Found) -> Result<String, Fail> {
    let mut text = String::new(alloc);
    match found {
        Found::Binding(binds) => {
            for Bind { role, tag } in binds {
                text.push_str(" ")?;
                text.push_str(role.as_str())?;
                text.push_str("=")?;
                text.push_str(tag.as_str())?;
            }
        }
        Found::Short { roles, tags } => {
            text.push_str("short")?;
            listed(&mut text, roles)?;
            text.push_str(" have")?;
            listed(&mut text, tags)?;
        }
    }
    Ok(text)
}

#[test]
fn the_least_binding_or_a_shortage_is_found(rt: HostRuntime) -> Result<(), Fail> {
    let alloc = rt.alloc();
    for (recipe, modules, want) in [
        (ONE, [M, N], " A=M"),
        (ONE, [BUSY_M, N], " A=N"),
        (ONE, [OTHER_M, N], " A=N"),
        (ONE, [OTHER_M, None], "short A have"),
        (ONE, [None, None], "short A have"),
        (TWO, [M, N], " A=M B=N"),
        (TWO, [M, None], "short A B have M"),
        (TWO, [BUSY_M, N], "short A B have N"),
        (TWO_EXACT, [M, NEWER_N], " A=N B=M"),
        (FIVE, [M, NEWER_N], "short A B E have N"),
        (FIVE, [M, N], "short A B E have"),
    ] {
        let mut candidates = Vec::new(alloc);
        for module in modules {
            if let Some(doser) = module {
                candidates.push(candidate(alloc, doser.tag, doser.version, doser.is_idle)?)?;
            }
        }
        let told = told(alloc, &found(alloc, recipe, &candidates)?)?;
        assert_eq!(rt; told.as_str(), want);
    }
    Ok(())
}

// A recipe of 64 roles, each with a step, of which the first fits all of 64 modules of versions from 1.0.0 on, and each
// next one all but the last that the one before it fits.
fn staircase(alloc: Global) -> Result<String, Fail> {
    let mut roles = String::new(alloc);
    let mut steps = String::new(alloc);
    for number in 0..MOST_MODULES {
        let comma = if number == 0 { "" } else { "," };
        let last = MOST_MODULES - 1 - number;
        roles.push_str(&format!(in alloc;
            r#"{comma}{{"role":"r{number}","type":"Doser","version":"<=1.{last}.0"}}"#
        )?)?;
        steps.push_str(&format!(in alloc;
            r#"{comma}{{"procedure":1,"role":"r{number}","service":"dose","step":"s{number}"}}"#
        )?)?;
    }
    Ok(format!(in alloc;
        r#"{{"at":1,"chart":{{"seq":[{steps}]}},"ev":"recipe","recipe":"stairs","roles":[{roles}]}}"#
    )?)
}

#[test]
fn each_of_64_roles_has_the_one_module_that_is_left_to_it(rt: HostRuntime) -> Result<(), Fail> {
    let alloc = rt.alloc();
    let mut candidates = Vec::new(alloc);
    let mut want = String::new(alloc);
    for number in 0..MOST_MODULES {
        let tag = format!(in alloc; "m{number:02}")?;
        let version = format!(in alloc; "1.{number}.0")?;
        candidates.push(candidate(alloc, &tag, &version, true)?)?;
        let last = MOST_MODULES - 1 - number;
        want.push_str(&format!(in alloc; " r{number}=m{last:02}")?)?;
    }
    let told = told(alloc, &found(alloc, &staircase(alloc)?, &candidates)?)?;
    assert_eq!(rt; told.as_str(), want.as_str());
    Ok(())
}
