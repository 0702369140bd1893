//! Lines that ask.
ghost use Rattle.std.specs.Prelude.{IsTrue};
ghost use Rattle.pol_events.specs.Events.{plain_event};
ghost use Rattle.pol_events.specs.Orderly.{is_orderly};
ghost use Rattle.question_lines.specs.Questions.{asks_orderly, plain_question};

use crate::event_lines::line_of;
use crate::events::line_fault_text;
use event_json::LineRefusal;
use mtp_codes::Name;
use named_lines::Named;
use question_lines::{Question, is_question, read_question};
use std::alloc::Global;
use std::test::*;

fn name_text(name: &Option<Name>) -> &str {
    match name {
        Some(name) => name.as_str(),
        None => "nobody",
    }
}

/// An event as it is written, and who gives it.
fn named_text(alloc: Global, named: &Named) -> Result<String, Fail>
    requires { IsTrue (is_orderly (plain_event named.now.event)) }
{
    let line = String::from_utf8(line_of(alloc, &named.event)?)
        .ok()
        .ok_or("no text")?;
    let who = name_text(&named.by);
    Ok(format!(in alloc; "{who}: {line}")?)
}

/// What a line asks, in words.
fn question_text(alloc: Global, question: Question) -> Result<String, Fail>
    requires { IsTrue (asks_orderly (plain_question question)) }
{
    match question {
        Question::Would(Ok(named)) => {
            let event = named_text(alloc, &named)?;
            Ok(format!(in alloc; "would {event}")?)
        }
        Question::Would(Err(fault)) => {
            let fault = line_fault_text(alloc, fault)?;
            Ok(format!(in alloc; "would be {fault}")?)
        }
        Question::Plant(person) => {
            let who = name_text(&person);
            Ok(format!(in alloc; "plant by {who}")?)
        }
        Question::Bindings => Ok(String::from_str(alloc, "bindings")?),
        Question::Entries {
            from,
            most: Some(most),
        } => Ok(format!(in alloc; "{most} entries from {from}")?),
        Question::Entries { from, most: None } => Ok(format!(in alloc; "entries from {from}")?),
    }
}

/// The same of a line, or its fault.
fn told(alloc: Global, line: &[u8]) -> Result<String, Fail> {
    match read_question(alloc, line) {
        Ok(question) => question_text(alloc, question),
        Err(LineRefusal::Memory) => Ok(String::from_str(alloc, "memory")?),
        Err(LineRefusal::Fault(fault)) => line_fault_text(alloc, fault),
    }
}

/// Lines that ask, each with what it asks, or with its first fault.
const ASKED: &str = r#"
{"ask":"would","event":{"ev":"unplug","at":1,"tag":"M1"}} => would nobody: {"at":1,"ev":"unplug","tag":"M1"}
{"event":{"at":1,"by":"ann","ev":"unplug","tag":"M1"},"ask":"would"} => would ann: {"at":1,"ev":"unplug","tag":"M1"}
{ "ask" : "would" , "event" : {"ev":"desk","at":9,"by":"ann","tag":"M1","service":"dose","CommandOp":512} } => would ann: {"CommandOp":512,"at":9,"ev":"desk","service":"dose","tag":"M1"}
{"ask":"would","event":{"ev":"start","at":5,"batch":"b1","recipe":"mix","bind":{"B":"M2","A":"M1"}}} => would nobody: {"at":5,"batch":"b1","bind":{"A":"M1","B":"M2"},"ev":"start","recipe":"mix"}
{"ask":"would","event":{"ev":"desk","at":9,"tag":"M1","service":"dose","CommandOp":512}} => would be Missing "by"
{"ask":"would","event":{"ev":"unplug","at":1,"tag":"M 1"}} => would be OutOfRange "tag"
{"ask":"would","event":{"ev":"unplug","at":1,"tag":"M1","x":1}} => would be Unknown ""
{"ask":"would","event":{"ask":"bindings"}} => would be Missing "ev"
{"ask":"would","event":[]} => would be WrongKind ""
{"ask":"would","event":null} => would be WrongKind ""
{"ask":"would","event":{"at":1,"ev":"recipe","recipe":"r","roles":[{"role":"B","type":"Doser","version":"^1"}],"chart":{"procedure":1,"role":"A","service":"dose","step":"s1"}}} => would be UnknownRole { node: 0 }
{"ask":"would"} => Missing "event"
{"ask":"would","event":{"ev":"unplug"},"by":"ann"} => Unknown ""
{"ask":"would","events":1} => Missing "event"
{"ask":"plant"} => plant by nobody
{"ask":"plant","by":"ann"} => plant by ann
{"ask":"plant","by":"a b","x":1} => OutOfRange "by"
{"ask":"plant","by":null} => WrongKind "by"
{"ask":"plant","by":"ann","x":1} => Unknown ""
{"ask":"plant","from":0} => Unknown ""
{"ask":"bindings"} => bindings
{"ask":"bindings","by":"ann"} => Unknown ""
{"ask":"entries","from":0} => entries from 0
{"ask":"entries","from":200000,"most":200000} => 200000 entries from 200000
{"ask":"entries","most":0,"from":7} => 0 entries from 7
{"ask":"entries"} => Missing "from"
{"ask":"entries","most":"x"} => Missing "from"
{"ask":"entries","from":200001,"most":"x"} => OutOfRange "from"
{"ask":"entries","from":-1} => OutOfRange "from"
{"ask":"entries","from":1.0} => WrongKind "from"
{"ask":"entries","from":1,"most":200001} => OutOfRange "most"
{"ask":"entries","from":1,"most":null} => WrongKind "most"
{"ask":"entries","from":1,"most":-1,"by":"ann"} => OutOfRange "most"
{"ask":"entries","from":1,"by":"ann"} => Unknown ""
{"ask":"settings"} => OutOfRange "ask"
{"ask":7,"x":1} => WrongKind "ask"
{"ev":"unplug","at":1,"tag":"M1"} => Missing "ask"
["ask"] => WrongKind ""
{"ask" => NotJson ""
{"ask":"plant"}, => NotJson ""
"#;

/// Lines, each with whether it asks, by its front.
const FRONTS: &[(&[u8], bool)] = &[
    (b"{\"ask\":\"plant\"}", true),
    (b" \t\r\n{ \r\n\t\"ask\"", true),
    (b"{\"ask\"", true),
    (b"{\"ask\":\"ev\",\"ev\":\"unplug\"}", true),
    (b"{\"ask", false),
    (b"{\"asks\":1}", false),
    (b"{\"ev\":\"unplug\",\"ask\":1}", false),
    (b"{\"\\u0061sk\":\"plant\"}", false),
    (b"[\"ask\"]", false),
    (b"\"ask\"", false),
    (b"{{\"ask\"", false),
    (b"\x0c{\"ask\":\"plant\"}", false),
    (b"{", false),
    (b"  ", false),
    (b"", false),
];

#[test]
fn a_line_asks_or_has_its_first_fault(rt: HostRuntime) -> Result<(), Fail> {
    let alloc = rt.alloc();
    for case in ASKED.trim().lines() {
        let (line, said) = case.split_once(" => ").ok_or("no case")?;
        assert_eq!(rt; told(alloc, line.as_bytes())?.as_str(), said, "at {line}");
    }
    Ok(())
}

#[test]
fn a_line_that_asks_is_told_by_its_front(rt: HostRuntime) -> Result<(), Fail> {
    for (line, asks) in FRONTS {
        assert_eq!(rt; is_question(line), *asks, "at {line:?}");
    }
    Ok(())
}
