//! Values of a worked example against a parameter and a variable.

use mtp_assembly::{Param, ParamKind, ValueFault, View, ViewKind, check_value, check_view};
use mtp_codes::{Name, Short, Value};
use std::test::*;

#[test]
fn a_value_is_asked_for_its_kind_and_then_for_its_range(rt: HostRuntime) -> Result<(), Fail> {
    let Some(name) = Name::of_bytes(b"amount") else {
        return Err("no name".into());
    };
    let amount = Param {
        name,
        kind: ParamKind::DInt { min: 0, max: 5000 },
    };
    let text = Value::Text(Short::of_text("1500").ok_or("no text")?);
    assert_eq!(rt; check_value(&amount, &Value::Whole(5000)), Ok(()));
    assert_eq!(rt;
        check_value(&amount, &Value::Whole(5001)),
        Err(ValueFault::OutOfRange)
    );
    assert_eq!(rt;
        check_value(&amount, &Value::Whole(-1)),
        Err(ValueFault::OutOfRange)
    );
    assert_eq!(rt; check_value(&amount, &text), Err(ValueFault::WrongKind));
    Ok(())
}

#[test]
fn a_variable_of_32_bits_has_no_larger_number(rt: HostRuntime) -> Result<(), Fail> {
    let Some(name) = Name::of_bytes(b"temp") else {
        return Err("no name".into());
    };
    let temperature = View {
        name,
        kind: ViewKind::DInt,
    };
    assert_eq!(rt;
        check_view(&temperature, &Value::Whole(-2147483648)),
        Ok(())
    );
    assert_eq!(rt;
        check_view(&temperature, &Value::Whole(2147483648)),
        Err(ValueFault::OutOfRange)
    );
    assert_eq!(rt;
        check_view(&temperature, &Value::Bit(true)),
        Err(ValueFault::WrongKind)
    );
    Ok(())
}
