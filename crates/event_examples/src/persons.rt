//! Lines in which any event may name who gives it.

ghost use Rattle.std.specs.Prelude.{Ok};

use crate::event_lines::line_of;
use crate::events::line_fault_text;
use event_json::LineRefusal;
use named_lines::{Named, NamedLines, read_named};
use pol_lines::LineForm;
use std::alloc::Global;
use std::test::*;

/// Who gives an event, and its written form.
fn named_text(alloc: Global, who: &str, line: Vec<u8>) -> Result<String, Fail> {
    let event = String::from_utf8(line).ok().ok_or("no text")?;
    Ok(format!(in alloc; "{who}: {event}")?)
}

/// The same of a line, or its fault.
fn told(alloc: Global, line: &[u8]) -> Result<String, Fail> {
    match read_named(alloc, line) {
        Ok(Named { event, by }) => {
            let written = line_of(alloc, &event)?;
            match by {
                Some(person) => named_text(alloc, person.as_str(), written),
                None => named_text(alloc, "nobody", written),
            }
        }
        Err(LineRefusal::Memory) => Ok(String::from_str(alloc, "memory")?),
        Err(LineRefusal::Fault(fault)) => line_fault_text(alloc, fault),
    }
}

/// Lines, each with who gives its event and the event's written form, or with its first fault.
const LINES: &str = r#"
{"at":1,"ev":"unplug","tag":"M1"} => nobody: {"at":1,"ev":"unplug","tag":"M1"}
{"ev":"unplug","at":1,"by":"ann","tag":"M1"} => ann: {"at":1,"ev":"unplug","tag":"M1"}
{"by":"bob","ev":"unplug","at":1,"tag":"M1","by":"ann"} => ann: {"at":1,"ev":"unplug","tag":"M1"}
{"ev":"unplug","at":1,"\u0062y":"ann","tag":"M1"} => ann: {"at":1,"ev":"unplug","tag":"M1"}
{"ev":"freeze","at":6,"by":"ann","batch":"b1","hold":true} => ann: {"at":6,"batch":"b1","ev":"freeze","hold":true}
{"ev":"start","at":5,"by":"ann","batch":"b1","recipe":"mix","bind":{"by":"M1"}} => ann: {"at":5,"batch":"b1","bind":{"by":"M1"},"ev":"start","recipe":"mix"}
{"ev":"desk","at":9,"by":"ann","tag":"M1","service":"dose","CommandOp":512} => ann: {"CommandOp":512,"at":9,"ev":"desk","service":"dose","tag":"M1"}
{"ev":"desk","at":9,"tag":"M1","service":"dose","CommandOp":512} => Missing "by"
{"ev":"desk","at":9,"by":"ann","tag":"M1","service":"dose","CommandOp":512,"x":1} => Unknown ""
by => NotJson ""
["by"] => WrongKind ""
{"by":7} => Missing "ev"
{"by":7,"ev":"unplug"} => Missing "at"
{"at":1,"by":7,"ev":"unplug"} => WrongKind "by"
{"at":1,"by":null,"ev":"unplug","tag":"M1"} => WrongKind "by"
{"at":1,"by":"a b","ev":"desk"} => OutOfRange "by"
{"at":1,"by":"ann","ev":"unplug"} => Missing "tag"
{"at":1,"by":"ann","ev":"unplug","tag":"M1","x":1} => Unknown ""
{"at":1,"by":"ann","ev":"start","batch":"b","recipe":"r","bind":{"A":"M 1"}} => OutOfRange "bind"
{"at":1,"by":"ann","ev":"recipe","recipe":"r","roles":[{"role":"B","type":"Doser","version":"^1"}],"chart":{"procedure":1,"role":"A","service":"dose","step":"s1"}} => UnknownRole { node: 0 }
"#;

/// Lines that are read without a tree, and others, each with whether it is.
const QUICK: &str = r#"
{"at":1,"ev":"unplug","tag":"M1"} => true
{"ev":"desk","at":9,"by":"ann","tag":"M1","service":"dose","CommandOp":512} => true
{"ev":"unplug","at":1,"by":"ann","tag":"M1"} => false
{"ev":"desk","at":9,"tag":"M1","service":"dose","CommandOp":512} => false
"#;

#[test]
fn any_event_may_name_who_gives_it_and_a_command_of_the_desk_must(
    rt: HostRuntime,
) -> Result<(), Fail> {
    let alloc = rt.alloc();
    for case in LINES.trim().lines() {
        let (line, said) = case.split_once(" => ").ok_or("no case")?;
        assert_eq!(rt; told(alloc, line.as_bytes())?.as_str(), said, "at {line}");
    }
    Ok(())
}

#[test]
fn compact_lines_are_read_without_a_tree(rt: HostRuntime) -> Result<(), Fail> {
    let alloc = rt.alloc();
    for case in QUICK.trim().lines() {
        let (line, is_quick) = case.split_once(" => ").ok_or("no case")?;
        let quick = NamedLines::read_quickly(alloc, line.as_bytes()).is_some();
        assert!(rt; quick == (is_quick == "true"), "at {line}");
    }
    Ok(())
}
