//! Whether a value fits a parameter or a variable.

ghost use Rattle.std.specs.Prelude.{◌≡◌};
ghost use Rattle.mtp_codes.specs.Faults.{done_unless};
ghost use Rattle.mtp_assembly.specs.Fits.{range_fault, value_fault, view_fault};

use crate::param::{Param, ParamKind};
use crate::variable::{View, ViewKind};
use mtp_codes::Value;

/// Why a value does not fit.
#[derive(Clone, Copy, Debug, PartialEq, Eq)]
pub enum ValueFault {
    /// The value is of another kind than the parameter or variable.
    WrongKind,
    /// A whole number of the right kind that is outside its range.
    OutOfRange,
}

fn check_range(low: i64, high: i64, number: i64) -> Result<(), ValueFault>
    ensures { result ≡ done_unless (range_fault low high number) }
{
    if low <= number && number <= high {
        Ok(())
    } else {
        Err(ValueFault::OutOfRange)
    }
}

/// Whether a parameter takes the value: WrongKind exactly where the value isn't a whole number for Ana and DInt, a
/// truth value for Bin, a text for Text; else OutOfRange exactly where a whole number is outside `min` to `max`.
pub fn check_value(param: &Param, value: &Value) -> Result<(), ValueFault>
    ensures { result ≡ done_unless (value_fault param.now.kind value.now) }
{
    match (param.kind, *value) {
        (ParamKind::Ana { min, max }, Value::Whole(number)) => check_range(min, max, number),
        (ParamKind::DInt { min, max }, Value::Whole(number)) => {
            check_range(min as i64, max as i64, number)
        }
        (ParamKind::Bin, Value::Bit(_)) | (ParamKind::Text, Value::Text(_)) => Ok(()),
        _ => Err(ValueFault::WrongKind),
    }
}

/// Whether a variable may have the value: WrongKind as for a parameter; else OutOfRange exactly for a DInt number
/// outside the range of 32 bits.
pub fn check_view(view: &View, value: &Value) -> Result<(), ValueFault>
    ensures { result ≡ done_unless (view_fault view.now.kind value.now) }
{
    match (view.kind, *value) {
        (ViewKind::DInt, Value::Whole(number)) => {
            check_range(i32::MIN as i64, i32::MAX as i64, number)
        }
        (ViewKind::Ana, Value::Whole(_))
        | (ViewKind::Bin, Value::Bit(_))
        | (ViewKind::Text, Value::Text(_)) => Ok(()),
        _ => Err(ValueFault::WrongKind),
    }
}
