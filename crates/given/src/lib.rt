//! What the worked examples of several crates share: names, the texts of faults, entries of a log, the words of a
//! command line, and the text of a site.
//!
//! It knows nothing of plants and jobs. It has no contract: the tests compare what it gives.
#![tactic(auto)]

use chart_core::LogEntry;
use mtp_codes::Name;
use mtp_json::{JsonFault, JsonRefusal};
use std::alloc::{AllocError, Global};
use std::test::Fail;

/// The name that a text is.
///
/// # Errors
///
/// Where the text is no name.
pub fn named(text: &str) -> Result<Name, Fail> {
    Ok(Name::of_bytes(text.as_bytes()).ok_or("no name")?)
}

/// A fault's kind and the text of its path.
///
/// # Errors
///
/// Where there is no memory.
pub fn fault_text(alloc: Global, fault: &JsonFault) -> Result<String, Fail> {
    let path = String::from_utf8(fault.path.text(alloc)?)
        .ok()
        .ok_or("no text")?;
    let kind = fault.kind;
    Ok(format!(in alloc; "{kind:?} \"{path}\"")?)
}

/// The same, or that memory was wanting.
///
/// # Errors
///
/// Where there is no memory for the text.
pub fn refusal_text(alloc: Global, refusal: JsonRefusal) -> Result<String, Fail> {
    match refusal {
        JsonRefusal::Memory => Ok(String::from_str(alloc, "memory")?),
        JsonRefusal::Fault(fault) => fault_text(alloc, &fault),
    }
}

/// The entry of a log that starts the step s1: the service dose of the module T1, with procedure 1.
///
/// # Errors
///
/// Never: each name in it is one.
pub fn start() -> Result<LogEntry, Fail> {
    Ok(LogEntry::Start {
        step: named("s1")?,
        tag: named("T1")?,
        service: named("dose")?,
        procedure: 1,
    })
}

/// The entry of a log that resets the service of that step.
///
/// # Errors
///
/// Never: each name in it is one.
pub fn reset() -> Result<LogEntry, Fail> {
    Ok(LogEntry::Reset {
        step: named("s1")?,
        tag: named("T1")?,
        service: named("dose")?,
    })
}

/// The words of a command line, cut at its spaces.
///
/// # Errors
///
/// Where there is no memory.
pub fn words_of(alloc: Global, line: &str) -> Result<Vec<String>, AllocError> {
    let mut words = Vec::new(alloc);
    for word in line.split(' ') {
        words.push(word.to_string(alloc)?)?;
    }
    Ok(words)
}

/// A site of two dosers and a mixer, a batch of dosing and mixing, another of one dose, and an exchange of
/// the second doser.
pub const SITE: &str =
    r#"{"batches":[{"batch":"b1","bind":{"A":"M1","B":"M2"},"recipe":"mix"},{"batch":"b2","bind":{"A":"M3"},"recipe":"one"}],"desk":[],"exchanges":[{"after":0,"desc":{"services":[{"name":"dose","procedures":[{"default":true,"number":1,"params":[{"kind":"DIntServParam","max":5000,"min":0,"name":"amount"}],"self_completing":true}]}],"type":"Doser","variables":[{"kind":"AnaView","name":"level"}],"version":"1.1.0"},"sim":{"drift":[{"by":500,"from":0,"name":"level","to":3000}],"run":2,"ticks":1},"tag":"M3"}],"modules":[{"desc":{"services":[{"name":"dose","procedures":[{"default":true,"number":1,"params":[{"kind":"DIntServParam","max":5000,"min":0,"name":"amount"}],"self_completing":true}]}],"type":"Doser","variables":[{"kind":"AnaView","name":"level"}],"version":"1.0.0"},"sim":{"drift":[{"by":500,"from":0,"name":"level","to":3000}],"run":2,"ticks":1},"tag":"M1"},{"desc":{"services":[{"name":"stir"},{"name":"heat","procedures":[{"default":true,"number":1,"self_completing":true}]}],"type":"Mixer","variables":[{"kind":"DIntView","name":"temp"}],"version":"2.0.0"},"sim":{"drift":[{"by":10,"from":20,"name":"temp","to":90}],"run":2,"ticks":1},"tag":"M2"},{"desc":{"services":[{"name":"dose","procedures":[{"default":true,"number":1,"params":[{"kind":"DIntServParam","max":5000,"min":0,"name":"amount"}],"self_completing":true}]}],"type":"Doser","variables":[{"kind":"AnaView","name":"level"}],"version":"1.0.0"},"sim":{"drift":[{"by":500,"from":0,"name":"level","to":3000}],"run":2,"ticks":1},"tag":"M3"}],"recipes":[{"chart":{"seq":[{"loop":{"procedure":1,"role":"A","service":"dose","settings":[{"name":"amount","value":1500}],"step":"fill"},"until":{"op":"ge","role":"A","test":"level","value":1500}},{"par":[{"finish":{"op":"ge","role":"B","test":"temp","value":60},"procedure":1,"role":"B","service":"stir","step":"stir"},{"procedure":1,"role":"B","service":"heat","step":"heat"}]}]},"recipe":"mix","roles":[{"role":"A","type":"Doser","version":"^1"},{"role":"B","type":"Mixer","version":"^2"}]},{"chart":{"procedure":1,"role":"A","service":"dose","settings":[{"name":"amount","value":1500}],"step":"s1"},"recipe":"one","roles":[{"role":"A","type":"Doser","version":"^1"}]}]}
"#;
