//! The first variable of a role that doesn't fit a chart's tests.

ghost use Rattle.std.specs.Prelude.{◌≡◌};
ghost use Rattle.mtp_desc.specs.PlainDescription.{plain_description};
ghost use Rattle.mtp_desc.specs.Lookup.{variable_named};
ghost use Rattle.chart_core.specs.Trees.{plain_node};
ghost use Rattle.mtp_procs.specs.Covers.{can_be_compared, is_test_misfit_of, is_test_refused, is_variable_misfit};
ghost use Rattle.mtp_procs.specs.Covers.{variable_of_first};
ghost use Rattle.mtp_procs.specs.Tests.{tests_in};
ghost use Rattle.pol_bind.specs.TestMisfits.{is_test_misfit_for};

use crate::picks::{Picks, first_test};
use chart_core::Node;
use mtp_assembly::ViewKind;
use mtp_codes::{Name, Reading};
use mtp_desc::Description;

// Whether a variable of this kind can be compared with the value.
fn can_be_compared(kind: ViewKind, value: Reading) -> bool
    ensures { result ≡ can_be_compared kind value }
{
    match (kind, value) {
        (ViewKind::Ana, Reading::Whole(_))
        | (ViewKind::DInt, Reading::Whole(_))
        | (ViewKind::Bin, Reading::Bit(_)) => true,
        _ => false,
    }
}

// Whether the module has no variable of this name that can be compared with the value.
pub(crate) fn is_unfit(description: &Description, variable: Name, value: Reading) -> bool
    ensures { result ≡ is_variable_misfit value (variable_named variable (plain_description description.now)) }
{
    match description.variable(variable) {
        Some(variable) => !can_be_compared(variable.kind, value),
        None => true,
    }
}

// Of the tests of a role: those that don't fit.
#[derive(Clone, Copy)]
struct Misfits<'a> {
    role: Name,
    description: &'a Description,
}

impl<'a> Picks for Misfits<'a> {
    ghost property = { λ wanted test. is_test_misfit_for wanted.role (plain_description wanted.description.now) test };

    fn picks(&self, role: Name, variable: Name, value: Reading) -> bool {
        role == self.role && is_unfit(self.description, variable, value)
    }
}

// Of the tests of a variable of a role: those that don't fit.
#[derive(Clone, Copy)]
struct MisfitsOf<'a> {
    role: Name,
    variable: Name,
    description: &'a Description,
}

impl<'a> Picks for MisfitsOf<'a> {
    ghost property = { λ wanted test. is_test_misfit_of wanted.role wanted.variable
        (plain_description wanted.description.now) test };

    fn picks(&self, role: Name, variable: Name, value: Reading) -> bool {
        role == self.role
            && variable == self.variable
            && is_unfit(self.description, variable, value)
    }
}

// Of the tests of a role: those of a variable that some test of the chart doesn't fit.
#[derive(Clone, Copy)]
struct Refused<'a> {
    role: Name,
    root: &'a Node,
    description: &'a Description,
}

impl<'a> Picks for Refused<'a> {
    ghost property = { λ wanted test.
        is_test_refused (plain_node wanted.root.now) wanted.role (plain_description wanted.description.now) test };

    #[tactic(auto, using(crate::proofs::Firsts::found_where_any))]
    fn picks(&self, role: Name, variable: Name, value: Reading) -> bool {
        let misfits = MisfitsOf {
            role: self.role,
            variable,
            description: self.description,
        };
        role == self.role && first_test(self.root, &misfits).is_some()
    }
}

/// The first variable of the role, in order of first appearance in the chart, that some test of it doesn't fit. Walks
/// the chart once where every test fits, else once more for each test before the one that it finds.
#[tactic(auto, using(crate::proofs::Firsts::none_refused))]
pub fn refused_variable(root: &Node, role: Name, description: &Description) -> Option<Name>
    ensures { result ≡ variable_of_first
        (is_test_refused (plain_node root.now) role (plain_description description.now))
        (tests_in (plain_node root.now)) }
{
    let misfits = Misfits { role, description };
    let refused = Refused {
        role,
        root,
        description,
    };
    match first_test(root, &misfits) {
        Some(_) => first_test(root, &refused),
        None => None,
    }
}
