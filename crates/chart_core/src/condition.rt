//! Conditions on the readings of variables.
use mtp_codes::{Name, Reading};

/// How a test compares a reading with its value.
#[derive(Clone, Copy, Debug, PartialEq, Eq)]
pub enum Op {
    Lt,
    Le,
    Eq,
    Ne,
    Ge,
    Gt,
}

/// A condition of a selection's arm, of a loop's end or of a step's finish. A test reads the variable `var` of the
/// module that plays `role`; it is true where the reading and the value are of one kind and compare as `op` says.
#[derive(Drop)]
pub enum Condition {
    Const(bool),
    All(Vec<Condition>),
    Any(Vec<Condition>),
    Not(Box<Condition>),
    Test {
        role: Name,
        var: Name,
        op: Op,
        value: Reading,
    },
}
