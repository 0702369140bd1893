//! Why a module can't play a role.
use super::name::Name;

/// Why a module, by its description, can't play a role of a recipe's chart.
#[derive(Clone, Copy, Debug, PartialEq, Eq)]
pub enum CoverFault {
    /// The module is of another type than the role asks for.
    WrongType,
    /// The role's requirement doesn't match the version of the module's type.
    WrongVersion,
    /// The module can't do the step of this name, or hasn't a variable of this name that fits the chart's tests.
    NotCovered(Name),
}
