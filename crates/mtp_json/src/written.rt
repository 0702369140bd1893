//! Values as JSON.

ghost use Rattle.std.specs.Prelude.{◌≡◌, List, map, IfOk, IsTrue};
ghost use Rattle.mtp_json.specs.Written.{is_scalar, scalar_data};
ghost use Rattle.serde_json.specs.Data.{Data, array};
ghost use Rattle.serde_json.specs.View.{items_of, items_view, view};

use serde_json::{Value, json};
use std::alloc::{AllocError, Global};

/// A form in which the values of one type are written as JSON.
pub trait ToJson {
    type Item;

    ghost Form: { Type 0 };

    ghost plain: { Self.Item → Form };

    ghost written: { Form → Data };

    /// The written form.
    fn write(alloc: Global, item: &Self::Item) -> Result<Value, AllocError>
        ensures { IfOk result (λ value. view value ≡ written (plain item.now)) };
}

fn write_items<T: ToJson>(alloc: Global, items: &[T::Item]) -> Result<Vec<Value>, AllocError>
    ensures { IfOk result (λ list. items_view list.items ≡ items_of (map T.written (map T.plain items.now))) }
{
    let mut list = Vec::new(alloc);
    for item in items {
        list.push(T::write(alloc, item)?)?;
    }
    Ok(list)
}

/// The list of the items' written forms, in order.
pub fn write_list<T: ToJson>(alloc: Global, items: &[T::Item]) -> Result<Value, AllocError>
    ensures { IfOk result (λ value. view value ≡ array (items_of (map T.written (map T.plain items.now)))) }
{
    Ok(Value::Array(write_items::<T>(alloc, items)?))
}

/// A value of a variable or of a parameter as JSON.
pub fn write_scalar(alloc: Global, scalar: &mtp_codes::Value) -> Result<Value, AllocError>
    ensures value { IfOk result (λ value. view value ≡ scalar_data scalar.now) }
    ensures form { IfOk result (λ _. IsTrue (is_scalar scalar.now)) }
{
    match scalar {
        mtp_codes::Value::Whole(number) => json!(in alloc; *number),
        mtp_codes::Value::Bit(bit) => json!(in alloc; *bit),
        mtp_codes::Value::Text(text) => {
            let text = text.as_str();
            json!(in alloc; text)
        }
    }
}
