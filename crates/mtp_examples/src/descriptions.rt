//! Worked descriptions, and what is wrong with others.

use desc_json::{read_description, write_description};
use given::refusal_text;
use mtp_codes::Name;
use mtp_desc::Description;
use mtp_json::{JsonRefusal, parse};
use std::alloc::Global;
use std::test::*;

fn read(alloc: Global, text: &str) -> Result<Description, JsonRefusal> {
    let value = parse(alloc, text.as_bytes())?;
    read_description(alloc, &value)
}

/// The written form of a description, or its fault: the kind and the path.
fn told(alloc: Global, text: &str) -> Result<String, Fail> {
    match read(alloc, text) {
        Ok(description) => Ok(write_description(alloc, &description)?.to_string(alloc)?),
        Err(refusal) => refusal_text(alloc, refusal),
    }
}

/// Descriptions, each with its written form.
const WRITTEN: &str = r#"
{"type":"Doser","version":"1.0.0","services":[{"name":"dose"}]} => {"services":[{"name":"dose","procedures":[{"default":true,"number":1,"params":[],"self_completing":false}]}],"type":"Doser","variables":[],"version":"1.0.0"}
{"type":"Doser","version":"1.0.0","services":[{"name":"dose","procedures":[{"number":1,"default":true,"self_completing":true,"params":[{"name":"amount","kind":"DIntServParam","min":0,"max":5000}]}]}],"variables":[{"name":"level","kind":"AnaView"}]} => {"services":[{"name":"dose","procedures":[{"default":true,"number":1,"params":[{"kind":"DIntServParam","max":5000,"min":0,"name":"amount"}],"self_completing":true}]}],"type":"Doser","variables":[{"kind":"AnaView","name":"level"}],"version":"1.0.0"}
{"type":"Doser","version":"1.1.0","services":[{"name":"dose","procedures":[{"number":1,"default":true,"self_completing":true,"params":[{"name":"amount","kind":"DIntServParam","min":0,"max":5000}]}]}],"variables":[{"name":"level","kind":"AnaView"}]} => {"services":[{"name":"dose","procedures":[{"default":true,"number":1,"params":[{"kind":"DIntServParam","max":5000,"min":0,"name":"amount"}],"self_completing":true}]}],"type":"Doser","variables":[{"kind":"AnaView","name":"level"}],"version":"1.1.0"}
{"type":"Doser","version":"1.2.0","services":[{"name":"dose","procedures":[{"number":2,"default":true,"self_completing":true,"params":[{"name":"amount","kind":"DIntServParam","min":0,"max":5000}]}]}],"variables":[{"name":"level","kind":"AnaView"}]} => {"services":[{"name":"dose","procedures":[{"default":true,"number":2,"params":[{"kind":"DIntServParam","max":5000,"min":0,"name":"amount"}],"self_completing":true}]}],"type":"Doser","variables":[{"kind":"AnaView","name":"level"}],"version":"1.2.0"}
{"type":"Mixer","version":"2.0.0","services":[{"name":"stir"},{"name":"heat","procedures":[{"number":1,"default":true,"self_completing":true}]}],"variables":[{"name":"temp","kind":"DIntView"}]} => {"services":[{"name":"stir","procedures":[{"default":true,"number":1,"params":[],"self_completing":false}]},{"name":"heat","procedures":[{"default":true,"number":1,"params":[],"self_completing":true}]}],"type":"Mixer","variables":[{"kind":"DIntView","name":"temp"}],"version":"2.0.0"}
"#;

/// Descriptions, each with its first fault in reading order.
const FAULTS: &str = r#"
[] => WrongKind ""
{} => Missing "type"
{"type":7,"version":"1.0.0","services":[{"name":"a"}]} => WrongKind "type"
{"type":"a b","version":"1.0.0","services":[{"name":"a"}]} => OutOfRange "type"
{"type":"D","version":"1.0","services":[{"name":"a"}]} => OutOfRange "version"
{"type":"D","version":"1.0.0-aaaaaaaaaaaaaaaaaaaaaaaaaaaaaaaaaaaaaaaaaaaaaaaaaaaaaaaaaaa","services":[{"name":"a"}]} => OutOfRange "version"
{"type":"D","version":"1.0.0"} => Missing "services"
{"type":"D","version":"1.0.0","services":[]} => OutOfRange "services"
{"type":"D","version":"1.0.0","services":[{"name":"a"},{}]} => Missing "services.1.name"
{"type":"D","version":"1.0.0","services":[{"name":"a"},{"name":"a"}]} => Repeated "services"
{"type":"D","version":"1.0.0","services":[7]} => WrongKind "services.0"
{"type":"D","version":"1.0.0","services":[{"name":"a","x":1}]} => Unknown "services.0"
{"type":"D","version":"1.0.0","services":[{"name":"a"},{"name":"a"}],"x":1} => Unknown ""
{"type":"D","version":"1.0.0","services":[{"name":"a"},{"name":"a"}],"variables":[{"name":"v"}]} => Missing "variables.0.kind"
{"type":"D","version":"1.0.0","services":[{"name":"a"}],"variables":[{"name":"v","kind":"AnaView"},{"name":"v","kind":"BinView"}]} => Repeated "variables"
{"type":"D","version":"1.0.0","services":[{"name":"a"}],"variables":[{"name":"v","kind":"AnaServParam"}]} => OutOfRange "variables.0.kind"
{"type":"D","version":"1.0.0","services":[{"name":"a","procedures":[]}]} => OutOfRange "services.0.procedures"
{"type":"D","version":"1.0.0","services":[{"name":"a","procedures":[{"number":0}]}]} => OutOfRange "services.0.procedures.0.number"
{"type":"D","version":"1.0.0","services":[{"name":"a","procedures":[{"number":65536}]}]} => OutOfRange "services.0.procedures.0.number"
{"type":"D","version":"1.0.0","services":[{"name":"a","procedures":[{"number":1.0}]}]} => WrongKind "services.0.procedures.0.number"
{"type":"D","version":"1.0.0","services":[{"name":"a","procedures":[{"number":1}]}]} => Unsound "services.0.procedures"
{"type":"D","version":"1.0.0","services":[{"name":"a","procedures":[{"number":1,"default":true},{"number":2,"default":true}]}]} => Unsound "services.0.procedures"
{"type":"D","version":"1.0.0","services":[{"name":"a","procedures":[{"number":1,"default":true},{"number":1,"default":true}]}]} => Repeated "services.0.procedures"
{"type":"D","version":"1.0.0","services":[{"name":"a","procedures":[{"number":1,"default":true,"params":[{"name":"p"}]}]}]} => Missing "services.0.procedures.0.params.0.kind"
{"type":"D","version":"1.0.0","services":[{"name":"a","procedures":[{"number":1,"default":true,"params":[{"name":"p","kind":"BinServParam","min":0}]}]}]} => Unknown "services.0.procedures.0.params.0"
{"type":"D","version":"1.0.0","services":[{"name":"a","procedures":[{"number":1,"default":true,"params":[{"name":"p","kind":"AnaServParam","min":1,"max":0}]}]}]} => Unsound "services.0.procedures.0.params.0"
{"type":"D","version":"1.0.0","services":[{"name":"a","procedures":[{"number":1,"default":true,"params":[{"name":"p","kind":"DIntServParam","min":0,"max":2147483648}]}]}]} => OutOfRange "services.0.procedures.0.params.0.max"
{"type":"D","version":"1.0.0","services":[{"name":"a","procedures":[{"number":1,"default":true,"params":[{"name":"p","kind":"BinServParam"},{"name":"p","kind":"BinServParam"}]}]}]} => Repeated "services.0.procedures.0.params"
"#;

#[test]
fn a_description_is_written_with_every_key_and_read_back(rt: HostRuntime) -> Result<(), Fail> {
    let alloc = rt.alloc();
    for case in WRITTEN.trim().lines() {
        let (text, written) = case.split_once(" => ").ok_or("no case")?;
        assert_eq!(rt; told(alloc, text)?.as_str(), written);
        assert_eq!(rt; told(alloc, written)?.as_str(), written);
    }
    Ok(())
}

#[test]
fn the_first_fault_in_reading_order_is_told(rt: HostRuntime) -> Result<(), Fail> {
    let alloc = rt.alloc();
    for case in FAULTS.trim().lines() {
        let (text, fault) = case.split_once(" => ").ok_or("no case")?;
        assert_eq!(rt; told(alloc, text)?.as_str(), fault, "at {text}");
    }
    Ok(())
}

#[test]
fn a_description_is_looked_into_by_names_and_numbers(rt: HostRuntime) -> Result<(), Fail> {
    let alloc = rt.alloc();
    let text =
        r#"{"type":"Mixer","version":"2.0.0","services":[{"name":"stir"},{"name":"heat","procedures":[{"number":1,"default":true,"self_completing":true}]}],"variables":[{"name":"temp","kind":"DIntView"}]}"#;
    let description = read(alloc, text).ok().ok_or("no description")?;
    let heat = Name::of_bytes(b"heat").ok_or("no name")?;
    let temp = Name::of_bytes(b"temp").ok_or("no name")?;
    assert_eq!(rt; description.service_place(heat), Some(1));
    assert_eq!(rt; description.variable_place(temp), Some(0));
    assert!(rt; description.variable(heat).is_none());
    assert!(rt; description.self_completes(heat, 1));
    assert!(rt; !description.self_completes(heat, 2));
    let service = description.service(heat).ok_or("no service")?;
    assert_eq!(rt; service.default_procedure().number, 1);
    assert!(rt; service.default_procedure().param(temp).is_none());
    Ok(())
}
