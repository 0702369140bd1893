//! Values that are read by themselves, or what is wrong with them.

ghost use Rattle.std.specs.Prelude.{◌≡◌, IfOk, IsTrue};
ghost use Rattle.serde_json.specs.Data.{string};
ghost use Rattle.serde_json.specs.View.{view};
ghost use Rattle.mtp_codes.specs.Names.{is_name};
ghost use Rattle.mtp_codes.specs.Numbers.{is_within};
ghost use Rattle.mtp_json.specs.Leaf.{name, scalar, whole};
ghost use Rattle.mtp_json.specs.Written.{is_scalar};

use crate::fault::FaultKind;
use mtp_codes::{Name, Short};
use serde_json::Value;

/// A whole number from `low` to `high`: WrongKind for what `serde_json` holds as no whole number, as `1.0`.
pub fn whole_of(value: &Value, low: i64, high: i64) -> Result<i64, FaultKind>
    ensures value { result ≡ whole low high (view value.now) }
    ensures range { IfOk result (λ z. IsTrue (is_within low high z)) }
{
    match value.as_i64() {
        Some(number) if low <= number && number <= high => Ok(number),
        Some(_) => Err(FaultKind::OutOfRange),
        None if value.is_u64() => Err(FaultKind::OutOfRange),
        None => Err(FaultKind::WrongKind),
    }
}

/// A name: OutOfRange for another text.
pub fn name_of(value: &Value) -> Result<Name, FaultKind>
    ensures value { result ≡ name (view value.now) }
    ensures form { IfOk result (λ bytes. IsTrue (is_name bytes)) }
{
    let text = value.as_str().ok_or(FaultKind::WrongKind)?;
    Name::of_bytes(text.as_bytes()).ok_or(FaultKind::OutOfRange)
}

fn short_scalar(text: &str) -> Result<mtp_codes::Value, FaultKind>
    ensures value { result ≡ scalar (string text.now) }
    ensures form { IfOk result (λ found. IsTrue (is_scalar found)) }
{
    match Short::of_text(text) {
        Some(text) => Ok(mtp_codes::Value::Text(text)),
        None => Err(FaultKind::OutOfRange),
    }
}

/// A value of a variable or of a parameter: a whole number of 64 bits, a truth value, or a text of at most 254 bytes.
pub fn scalar_of(value: &Value) -> Result<mtp_codes::Value, FaultKind>
    ensures value { result ≡ scalar (view value.now) }
    ensures form { IfOk result (λ found. IsTrue (is_scalar found)) }
{
    match value {
        Value::Bool(bit) => Ok(mtp_codes::Value::Bit(*bit)),
        Value::String(text) => short_scalar(text.as_str()),
        Value::Number(_) => {
            let number = whole_of(value, i64::MIN, i64::MAX)?;
            Ok(mtp_codes::Value::Whole(number))
        }
        _ => Err(FaultKind::WrongKind),
    }
}
