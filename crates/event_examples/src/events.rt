//! Lines of a journal, read and written.

ghost use Rattle.std.specs.Prelude.{Ok};

use crate::event_lines::line_of;
use event_json::{LineFault, LineRefusal, read_event};
use given::fault_text;
use std::alloc::Global;
use std::test::*;

/// A fault as a text: its kind and the text of its path, or the fault of the chart.
pub fn line_fault_text(alloc: Global, fault: LineFault) -> Result<String, Fail> {
    match fault {
        LineFault::TooLong => Ok(String::from_str(alloc, "too long")?),
        LineFault::Chart(fault) => Ok(format!(in alloc; "{fault:?}")?),
        LineFault::Json(fault) => fault_text(alloc, &fault),
    }
}

/// The written form of what a line says, or its fault: the kind and the text of the path, or the chart's fault.
fn told(alloc: Global, line: &[u8]) -> Result<String, Fail> {
    match read_event(alloc, line) {
        Ok(event) => Ok(
            String::from_utf8(line_of(alloc, &event)?)
                .ok()
                .ok_or("no text")?,
        ),
        Err(LineRefusal::Memory) => Ok(String::from_str(alloc, "memory")?),
        Err(LineRefusal::Fault(fault)) => line_fault_text(alloc, fault),
    }
}

/// Lines with every key, each with the event's written form.
const WRITTEN: &str = r#"
{"ev":"plug","at":1,"tag":"M1","desc":{"type":"Doser","version":"1.0.0","services":[{"name":"dose","procedures":[{"number":1,"default":true,"self_completing":true,"params":[{"name":"amount","kind":"DIntServParam","min":0,"max":5000}]}]}],"variables":[{"name":"level","kind":"AnaView"}]}} => {"at":1,"desc":{"services":[{"name":"dose","procedures":[{"default":true,"number":1,"params":[{"kind":"DIntServParam","max":5000,"min":0,"name":"amount"}],"self_completing":true}]}],"type":"Doser","variables":[{"kind":"AnaView","name":"level"}],"version":"1.0.0"},"ev":"plug","tag":"M1"}
{"ev":"unplug","at":2,"tag":"M1"} => {"at":2,"ev":"unplug","tag":"M1"}
{"ev":"report","at":18446744073709551615,"tag":"M-2","service":"stir","StateCur":131072,"CommandEn":4294967295,"Mode":"Operator","Src":"Internal","ProcedureCur":65535} => {"CommandEn":4294967295,"Mode":"Operator","ProcedureCur":65535,"Src":"Internal","StateCur":131072,"at":18446744073709551615,"ev":"report","service":"stir","tag":"M-2"}
{"ev":"variable","at":3,"tag":"M1","name":"level","value":-9223372036854775808} => {"at":3,"ev":"variable","name":"level","tag":"M1","value":-9223372036854775808}
{"ev":"variable","at":3,"tag":"M1","name":"open","value":true} => {"at":3,"ev":"variable","name":"open","tag":"M1","value":true}
{"ev":"variable","at":3,"tag":"M1","name":"note","value":"half full"} => {"at":3,"ev":"variable","name":"note","tag":"M1","value":"half full"}
{"ev":"recipe","at":4,"recipe":"mix","roles":[{"role":"A","type":"Doser","version":"^1"},{"role":"B","type":"Mixer","version":"^2"}],"chart":{"seq":[{"loop":{"step":"fill","role":"A","service":"dose","procedure":1,"settings":[{"name":"amount","value":1500}]},"until":{"test":"level","role":"A","op":"ge","value":1500}},{"par":[{"step":"stir","role":"B","service":"stir","procedure":1,"settings":[],"finish":{"test":"temp","role":"B","op":"ge","value":60}},{"step":"heat","role":"B","service":"heat","procedure":1,"settings":[]}]}]}} => {"at":4,"chart":{"seq":[{"loop":{"procedure":1,"role":"A","service":"dose","settings":[{"name":"amount","value":1500}],"step":"fill"},"until":{"op":"ge","role":"A","test":"level","value":1500}},{"par":[{"finish":{"op":"ge","role":"B","test":"temp","value":60},"procedure":1,"role":"B","service":"stir","settings":[],"step":"stir"},{"procedure":1,"role":"B","service":"heat","settings":[],"step":"heat"}]}]},"ev":"recipe","recipe":"mix","roles":[{"role":"A","type":"Doser","version":"^1"},{"role":"B","type":"Mixer","version":"^2"}]}
{"ev":"start","at":5,"batch":"b1","recipe":"mix","bind":{"B":"M2","A":"M1","C":"M3"}} => {"at":5,"batch":"b1","bind":{"A":"M1","B":"M2","C":"M3"},"ev":"start","recipe":"mix"}
{"ev":"start","at":5,"watch":{"C":"M3","B":"M2"},"batch":"b1","recipe":"mix","bind":{"A":"M1"}} => {"at":5,"batch":"b1","bind":{"A":"M1"},"ev":"start","recipe":"mix","watch":{"B":"M2","C":"M3"}}
{"ev":"advance","at":6,"batch":"b1"} => {"at":6,"batch":"b1","ev":"advance"}
{"ev":"freeze","at":6,"batch":"b1","hold":true} => {"at":6,"batch":"b1","ev":"freeze","hold":true}
{"ev":"thaw","at":6,"batch":"b1"} => {"at":6,"batch":"b1","ev":"thaw"}
{"ev":"stop","at":6,"batch":"b1"} => {"at":6,"batch":"b1","ev":"stop"}
{"ev":"abandon","at":6,"batch":"b1"} => {"at":6,"batch":"b1","ev":"abandon"}
{"ev":"desk","at":7,"tag":"M1","service":"dose","CommandOp":1024} => {"CommandOp":1024,"at":7,"ev":"desk","service":"dose","tag":"M1"}
{"ev":"exchange_begin","at":8,"tag":"M1"} => {"at":8,"ev":"exchange_begin","tag":"M1"}
{"ev":"exchange_end","at":9,"tag":"M1","ticket":4294967295,"desc":{"type":"Doser","version":"1.0.0","services":[{"name":"dose","procedures":[{"number":1,"default":true,"self_completing":true,"params":[{"name":"amount","kind":"DIntServParam","min":0,"max":5000}]}]}],"variables":[{"name":"level","kind":"AnaView"}]}} => {"at":9,"desc":{"services":[{"name":"dose","procedures":[{"default":true,"number":1,"params":[{"kind":"DIntServParam","max":5000,"min":0,"name":"amount"}],"self_completing":true}]}],"type":"Doser","variables":[{"kind":"AnaView","name":"level"}],"version":"1.0.0"},"ev":"exchange_end","tag":"M1","ticket":4294967295}
{"ev":"exchange_cancel","at":9,"tag":"M1","ticket":0} => {"at":9,"ev":"exchange_cancel","tag":"M1","ticket":0}
"#;

/// Lines that leave keys out, each with the event's written form.
const SHORT: &str = r#"
{"ev":"plug","at":1,"tag":"M1","desc":{"services":[{"name":"dose"}],"type":"Doser","version":"1.0.0"}} => {"at":1,"desc":{"services":[{"name":"dose","procedures":[{"default":true,"number":1,"params":[],"self_completing":false}]}],"type":"Doser","variables":[],"version":"1.0.0"},"ev":"plug","tag":"M1"}
{"ev":"start","at":1,"batch":"b","recipe":"r","bind":{"A":"M1"},"watch":{}} => {"at":1,"batch":"b","bind":{"A":"M1"},"ev":"start","recipe":"r"}
{"ev":"recipe","at":1,"recipe":"r","roles":[{"role":"A","type":"Doser","version":"^1"}],"chart":{"procedure":1,"role":"A","service":"dose","step":"s1"}} => {"at":1,"chart":{"procedure":1,"role":"A","service":"dose","settings":[],"step":"s1"},"ev":"recipe","recipe":"r","roles":[{"role":"A","type":"Doser","version":"^1"}]}
"#;

/// Bad lines, each with its first fault.
const BAD: &str = r#"
[] => WrongKind ""
plug => NotJson ""
{"at":1} => Missing "ev"
{"at":"x","ev":"jump"} => OutOfRange "ev"
{"at":1,"ev":7} => WrongKind "ev"
{"ev":"thaw"} => Missing "at"
{"at":1.5,"ev":"unplug","tag":"M 1"} => WrongKind "at"
{"at":18446744073709551616,"ev":"unplug","tag":"M"} => WrongKind "at"
{"at":-1,"ev":"unplug","tag":"M"} => OutOfRange "at"
{"at":1,"ev":"unplug"} => Missing "tag"
{"at":1,"ev":"unplug","tag":"M","x":1} => Unknown ""
{"at":1,"ev":"plug","tag":"M 1"} => OutOfRange "tag"
{"at":1,"ev":"plug","tag":"M"} => Missing "desc"
{"at":1,"desc":{"services":[{"name":"dose"}],"version":"1.0.0"},"ev":"plug","tag":"M1"} => Missing "desc.type"
{"at":1,"desc":{"services":[{"name":""}],"type":"Doser","version":"1.0.0"},"ev":"plug","tag":"M1"} => OutOfRange "desc.services.0.name"
{"CommandEn":4,"Mode":"Automatic","ProcedureCur":0,"Src":"External","StateCur":5,"at":2,"ev":"report","service":"dose","tag":"M1"} => OutOfRange "StateCur"
{"at":1,"ev":"variable","name":"level","tag":"M","value":null} => WrongKind "value"
{"at":1,"ev":"variable","name":"level","tag":"M","value":1.5} => WrongKind "value"
{"at":1,"ev":"variable","name":"level","tag":"M","value":9223372036854775808} => OutOfRange "value"
{"CommandOp":6,"at":1,"ev":"desk","service":"dose","tag":"M"} => OutOfRange "CommandOp"
{"at":1,"ev":"exchange_cancel","tag":"M","ticket":4294967296} => OutOfRange "ticket"
{"at":1,"ev":"exchange_end","tag":"M","ticket":-1} => OutOfRange "ticket"
{"at":1,"ev":"exchange_end","tag":"M","ticket":1} => Missing "desc"
{"at":1,"ev":"abandon","tag":"M"} => Missing "batch"
{"at":1,"batch":"b","ev":"stop","tag":"M"} => Unknown ""
{"at":1,"batch":"b","ev":"start","recipe":"r"} => Missing "bind"
{"at":1,"ev":"start","batch":"b","recipe":"r","bind":[]} => WrongKind "bind"
{"at":1,"ev":"start","batch":"b","recipe":"r","bind":{"A":"M 1","B":2}} => WrongKind "bind"
{"at":1,"ev":"start","batch":"b","recipe":"r","bind":{"A A":"M1"}} => OutOfRange "bind"
{"at":1,"ev":"start","batch":"b","recipe":"r","bind":{"A":"M 1"}} => OutOfRange "bind"
{"at":1,"ev":"start","batch":"b","recipe":"r","bind":{"A":"M1"},"watch":{"A A":"M1"}} => OutOfRange "watch"
{"at":1,"ev":"start","batch":"b","recipe":"r","bind":{"A":"M1"},"watch":["M2"]} => WrongKind "watch"
{"at":1,"ev":"start","batch":"b","recipe":"r","bind":{"A":"M1","B":"M2"},"watch":{"B":"M3","C":"M4"}} => Repeated "watch"
{"at":1,"ev":"start","batch":"b","recipe":"r","bind":{"A":"M1"},"watch":{"A":"M2"},"x":1} => Unknown ""
{"at":1,"ev":"recipe","recipe":"r","roles":[],"chart":{"procedure":1,"role":"A","service":"dose","step":"s1"}} => OutOfRange "roles"
{"at":1,"ev":"recipe","recipe":"r","roles":[{"role":"A","type":"Doser","version":"^1"},{"role":"A","type":"Doser","version":"^1"}],"chart":{}} => Missing "chart.step"
{"at":1,"ev":"recipe","recipe":"r","roles":[{"role":"A","type":"Doser","version":"^1"},{"role":"A","type":"Doser","version":"^1"}],"chart":{"procedure":1,"role":"A","service":"dose","step":"s1"},"x":1} => Unknown ""
{"at":1,"ev":"recipe","recipe":"r","roles":[{"role":"A","type":"Doser","version":"^1"},{"role":"A","type":"Doser","version":"^1"}],"chart":{"seq":[{"procedure":1,"role":"A","service":"dose","step":"s1"},{"procedure":1,"role":"A","service":"dose","step":"s1"}]}} => Repeated "roles"
{"at":1,"ev":"recipe","recipe":"r","roles":[{"role":"A","type":"Doser","version":"^1"},{"role":"B","type":"Doser","version":"^1"}],"chart":{"seq":[{"procedure":1,"role":"A","service":"dose","step":"s1"},{"procedure":1,"role":"B","service":"dose","step":"s1"}]}} => StepTwice { node: 2 }
{"at":1,"ev":"recipe","recipe":"r","roles":[{"role":"A","type":"Doser","version":"^1"}],"chart":{"par":[{"procedure":1,"role":"A","service":"dose","step":"s1"},{"procedure":1,"role":"A","service":"dose","step":"s2"}]}} => SameService { node: 2 }
{"at":1,"ev":"recipe","recipe":"r","roles":[{"role":"A","type":"Doser","version":"^1"}],"chart":{"seq":[{"seq":[{"seq":[{"seq":[{"seq":[{"seq":[{"seq":[{"seq":[{"seq":[{"seq":[{"seq":[{"seq":[{"seq":[{"seq":[{"seq":[{"seq":[{"procedure":1,"role":"A","service":"dose","step":"s1"}]}]}]}]}]}]}]}]}]}]}]}]}]}]}]}]}} => TooDeep { node: 16 }
{"at":1,"ev":"recipe","recipe":"r","roles":[{"role":"B","type":"Doser","version":"^1"}],"chart":{"procedure":1,"role":"A","service":"dose","step":"s1"}} => UnknownRole { node: 0 }
"#;

#[test]
fn an_event_is_written_with_every_key_and_read_back(rt: HostRuntime) -> Result<(), Fail> {
    let alloc = rt.alloc();
    for case in WRITTEN.trim().lines() {
        let (line, written) = case.split_once(" => ").ok_or("no case")?;
        assert_eq!(rt; told(alloc, line.as_bytes())?.as_str(), written);
        assert_eq!(rt; told(alloc, written.as_bytes())?.as_str(), written);
    }
    Ok(())
}

#[test]
fn what_a_line_leaves_out_is_written_in_full(rt: HostRuntime) -> Result<(), Fail> {
    let alloc = rt.alloc();
    for case in SHORT.trim().lines() {
        let (line, written) = case.split_once(" => ").ok_or("no case")?;
        assert_eq!(rt; told(alloc, line.as_bytes())?.as_str(), written);
    }
    Ok(())
}

#[test]
fn a_bad_line_has_its_first_fault_and_the_path_to_it(rt: HostRuntime) -> Result<(), Fail> {
    let alloc = rt.alloc();
    for case in BAD.trim().lines() {
        let (line, fault) = case.split_once(" => ").ok_or("no case")?;
        assert_eq!(rt; told(alloc, line.as_bytes())?.as_str(), fault, "at {line}");
    }
    assert_eq!(rt; told(alloc, b"PK\x03\x04")?.as_str(), r#"NotJson """#);
    Ok(())
}

/// A start that binds this many roles, all to one tag, which is no name where `tag` is none.
fn start_of(alloc: Global, roles: u32, tag: &str) -> Result<String, Fail> {
    let mut line = String::from_str(
        alloc,
        r#"{"at":1,"batch":"b","ev":"start","recipe":"r","bind":{"#,
    )?;
    for i in 0..roles {
        let comma = if i == 0 { "" } else { "," };
        let member = format!(in alloc; "{comma}\"R{i}\":{tag}")?;
        line.push_str(member.as_str())?;
    }
    line.push_str("}}")?;
    Ok(line)
}

#[test]
fn a_start_binds_at_most_64_roles(rt: HostRuntime) -> Result<(), Fail> {
    let alloc = rt.alloc();
    let most = start_of(alloc, 64, r#""M""#)?;
    assert!(rt; read_event(alloc, most.as_bytes()).is_ok());
    let rows = [
        (r#""M""#, r#"OutOfRange "bind""#),
        ("7", r#"WrongKind "bind""#),
    ];
    for (tag, fault) in rows {
        let line = start_of(alloc, 65, tag)?;
        assert_eq!(rt; told(alloc, line.as_bytes())?.as_str(), fault);
    }
    Ok(())
}
