//! Values that modules report and take.
use super::name::Name;
use super::short::Short;

/// A value of a variable or of a parameter. An analogue value is a whole number of thousandths.
#[derive(Clone, Copy, Debug, PartialEq, Eq)]
pub enum Value {
    Whole(i64),
    Bit(bool),
    Text(Short),
}

/// A value that a condition of a recipe can be asked of: every value but a text.
#[derive(Clone, Copy, Debug, PartialEq, Eq)]
pub enum Reading {
    Whole(i64),
    Bit(bool),
}

/// A parameter of a procedure with the value that a recipe's step gives it.
#[derive(Clone, Copy, Debug, PartialEq, Eq)]
pub struct Setting {
    /// The name of the parameter.
    pub name: Name,
    /// The value that it is given.
    pub value: Value,
}
