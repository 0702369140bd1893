//! Readers and writers on worked texts, each with ample memory.

use given::named;
use mtp_codes::{Command, State};
use mtp_json::{
    FaultKind, JsonRefusal, NameJson, Path, PathPart, command_at, form_at, form_if_there, get_name,
    get_u64, get_whole, i32_at, i64_at, list_if_there, list_of, list_or_none, name_at, nothing_but,
    object_here, only, parse, refused_under, scalar_at, short_at, state_at, text_at, truth_at,
    truth_or, u16_at, u32_at, u64_at, under, unlike_under, value_at, whole_at, write_list,
    write_scalar,
};
use serde_json::Value;
use std::alloc::Global;
use std::test::*;

fn told<T: Drop>(alloc: Global, read: Result<T, JsonRefusal>) -> Result<String, Fail> {
    match read {
        Ok(_) => Ok(String::from_str(alloc, "ok")?),
        Err(JsonRefusal::Memory) => Ok(String::from_str(alloc, "memory")?),
        Err(JsonRefusal::Fault(fault)) => {
            let path = String::from_utf8(fault.path.text(alloc)?)
                .ok()
                .ok_or("no text")?;
            let kind = fault.kind;
            Ok(format!(in alloc; "{kind:?} {path}")?)
        }
    }
}

fn sample(alloc: Global) -> Result<Value, Fail> {
    let text =
        b"{\"big\":9223372036854775808,\"code\":16,\"exponent\":1e3,\"float\":1.0,\"least\":-2147483648,\"list\":[\"a\",\"b\",\"a\"],\"minus\":-1,\"name\":\"a.b\",\"object\":{\"name\":\"c\"},\"spaced\":\"a b\",\"true\":true,\"whole\":5}";
    Ok(parse(alloc, text).ok().ok_or("no value")?)
}

#[test]
fn a_path_is_its_parts_with_dots_between(rt: HostRuntime) -> Result<(), Fail> {
    let alloc = rt.alloc();
    let mut path = Path::new(alloc);
    assert_eq!(rt; path.text(alloc)?.as_slice(), b"".as_slice());
    path.add(PathPart::Key(named("services")?))?;
    path.add(PathPart::Place(10))?;
    path.add(PathPart::Key(named("name")?))?;
    assert_eq!(rt;
        path.text(alloc)?.as_slice(),
        b"services.10.name".as_slice()
    );
    Ok(())
}

#[test]
fn what_serde_json_does_not_read_is_not_json(rt: HostRuntime) -> Result<(), Fail> {
    let alloc = rt.alloc();
    assert_eq!(rt; told(alloc, parse(alloc, b"[1, 2]"))?.as_str(), "ok");
    assert_eq!(rt; told(alloc, parse(alloc, b""))?.as_str(), "NotJson ");
    assert_eq!(rt; told(alloc, parse(alloc, b"[1,]"))?.as_str(), "NotJson ");
    assert_eq!(rt;
        told(alloc, parse(alloc, b"\"\xff\""))?.as_str(),
        "NotJson "
    );
    Ok(())
}

#[test]
fn the_kind_of_a_value_stands_before_its_range(rt: HostRuntime) -> Result<(), Fail> {
    let object = sample(rt.alloc())?;
    let found = [
        get_whole(&object, "whole", 0, 5),
        get_whole(&object, "whole", 6, 9),
        get_whole(&object, "big", 0, 9),
        get_whole(&object, "float", 0, 9),
        get_whole(&object, "exponent", 0, 9),
        get_whole(&object, "absent", 0, 9),
    ];
    let wanted = [
        Ok(5),
        Err(FaultKind::OutOfRange),
        Err(FaultKind::OutOfRange),
        Err(FaultKind::WrongKind),
        Err(FaultKind::WrongKind),
        Err(FaultKind::Missing),
    ];
    assert!(rt; found == wanted);
    assert!(rt; get_u64(&object, "minus") == Err(FaultKind::OutOfRange));
    assert!(rt; get_name(&object, "spaced") == Err(FaultKind::OutOfRange));
    assert!(rt; get_name(&object, "list") == Err(FaultKind::WrongKind));
    assert!(rt; only(&object, "big float") == Err(FaultKind::Unknown));
    Ok(())
}

fn numbers(alloc: Global, object: &Value) -> Result<(i64, i64, i32, u64, u32, u16), JsonRefusal> {
    Ok((
        whole_at(alloc, object, "whole", 5, 5)?,
        i64_at(alloc, object, "minus")?,
        i32_at(alloc, object, "least")?,
        u64_at(alloc, object, "big")?,
        u32_at(alloc, object, "whole", 0, 5)?,
        u16_at(alloc, object, "whole", 1, 65535)?,
    ))
}

fn codes(alloc: Global, object: &Value) -> Result<(State, Command, bool, bool), JsonRefusal> {
    Ok((
        state_at(alloc, object, "code")?,
        command_at(alloc, object, "code")?,
        truth_at(alloc, object, "true")?,
        truth_or(alloc, object, "absent", true)?,
    ))
}

fn texts(alloc: Global, object: &Value) -> Result<bool, JsonRefusal> {
    let scalar = scalar_at(alloc, object, "minus")?;
    let short = short_at(alloc, object, "spaced", 3)?;
    let text = text_at(alloc, object, "spaced")?;
    let name = name_at(alloc, object, "name")?;
    let inner = form_at::<NameJson>(alloc, value_at(alloc, object, "object")?, "name")?;
    Ok(
        scalar == mtp_codes::Value::Whole(-1)
            && short.as_str() == text
            && name.as_str() == "a.b"
            && inner.as_str() == "c",
    )
}

#[test]
fn each_kind_of_value_is_read_at_its_key(rt: HostRuntime) -> Result<(), Fail> {
    let alloc = rt.alloc();
    let object = sample(alloc)?;
    assert!(rt;
        numbers(alloc, &object).ok() == Some((5, -1, -2147483648, 9223372036854775808, 5, 5))
    );
    assert!(rt; codes(alloc, &object).ok() == Some((State::Idle, Command::Hold, true, true)));
    assert!(rt; texts(alloc, &object).is_ok_and(|same| same));
    Ok(())
}

#[test]
fn a_fault_has_the_path_of_its_key(rt: HostRuntime) -> Result<(), Fail> {
    let alloc = rt.alloc();
    let object = sample(alloc)?;
    let faults = [
        told(alloc, u32_at(alloc, &object, "minus", 0, 9))?,
        told(alloc, truth_or(alloc, &object, "name", true))?,
        told(alloc, value_at(alloc, &object, "absent"))?,
        told(alloc, nothing_but(alloc, &object, "big"))?,
        told(alloc, object_here(alloc, &Value::Null))?,
        told(
            alloc,
            refused_under(alloc, "list", true, FaultKind::Unsound),
        )?,
        told(alloc, form_if_there::<NameJson>(alloc, &object, "spaced"))?,
    ];
    let wanted = [
        "OutOfRange minus",
        "WrongKind name",
        "Missing absent",
        "Unknown ",
        "WrongKind ",
        "Unsound list",
        "OutOfRange spaced",
    ];
    for (fault, text) in faults.iter().zip(wanted) {
        assert_eq!(rt; fault.as_str(), text);
    }
    Ok(())
}

#[test]
fn the_items_of_a_list_have_their_places(rt: HostRuntime) -> Result<(), Fail> {
    let alloc = rt.alloc();
    let mixed = parse(alloc, b"{\"list\":[\"a\",1]}")
        .ok()
        .ok_or("no value")?;
    let inner = list_if_there::<NameJson>(alloc, &mixed, "list", 1, 3);
    assert_eq!(rt;
        told(alloc, under("outer", inner))?.as_str(),
        "WrongKind outer.list.1"
    );
    let object = sample(alloc)?;
    let absent = list_or_none::<NameJson>(alloc, &object, "absent", 0, 3);
    assert_eq!(rt; told(alloc, absent)?.as_str(), "ok");
    Ok(())
}

#[test]
fn a_list_is_written_item_by_item(rt: HostRuntime) -> Result<(), Fail> {
    let alloc = rt.alloc();
    let object = sample(alloc)?;
    let names = list_of::<NameJson>(alloc, &object, "list", 1, 3)
        .ok()
        .ok_or("no list")?;
    let twice = unlike_under::<NameJson>(alloc, "list", &names);
    assert_eq!(rt; told(alloc, twice)?.as_str(), "Repeated list");
    let list = write_list::<NameJson>(alloc, &names)?;
    assert_eq!(rt; list.to_string(alloc)?.as_str(), "[\"a\",\"b\",\"a\"]");
    let scalar = write_scalar(alloc, &mtp_codes::Value::Whole(-5))?;
    assert_eq!(rt; scalar.to_string(alloc)?.as_str(), "-5");
    Ok(())
}
