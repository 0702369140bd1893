//! What a role of a chart needs of a module, gathered once for many modules.

ghost use Rattle.std.specs.Prelude.{◌≡◌, IfOk, filter, is_none, map, option_map};
ghost use Rattle.mtp_codes.specs.Names.{same_name};
ghost use Rattle.mtp_desc.specs.Plain.{PlainDescription};
ghost use Rattle.mtp_desc.specs.PlainDescription.{plain_description};
ghost use Rattle.chart_core.specs.Charts.{plain_chart};
ghost use Rattle.chart_core.specs.Order.{plans_seen};
ghost use Rattle.chart_core.specs.Roles.{plain_role};
ghost use Rattle.chart_core.specs.Trees.{plain_node, steps};
ghost use Rattle.mtp_procs.specs.Covers.{cover_fault, role_fault};
ghost use Rattle.mtp_procs.specs.Tests.{tests_in};
ghost use Rattle.pol_bind.specs.Gathered.{plain_tests};
ghost use Rattle.pol_bind.specs.Needs.{are_done, are_met, fit_all, needs_of};
ghost use Rattle.pol_bind.specs.PlainNeeds.{plain_needs};

use crate::cover::{check_role, role_of};
use crate::gathered::Test;
use crate::steps::is_refused;
use crate::variables::is_unfit;
use chart_core::{Chart, Role, Step};
use mtp_codes::Name;
use mtp_desc::Description;
use std::alloc::{AllocError, Global};

/// What a role of a chart needs of the module that plays it.
#[derive(Drop)]
pub struct Needs<'a> {
    /// The role as the chart has it, if it has it.
    pub role: Option<&'a Role>,
    /// The steps of the role, in chart order.
    pub steps: Vec<&'a Step>,
    /// The tests of the role's variables, in chart order.
    pub tests: Vec<Test>,
}

// The steps that are of the role.
fn steps_of<'a>(alloc: Global, all: &[&'a Step], role: Name) -> Result<Vec<&'a Step>, AllocError>
    ensures { IfOk result (λ found. plans_seen found.items
        ≡ filter (λ step. same_name step.role role) (plans_seen all.now)) }
{
    let mut found = Vec::new(alloc);
    for step in all {
        if step.role == role {
            found.push(*step)?;
        }
    }
    Ok(found)
}

// The tests that are of the role.
fn tests_of(alloc: Global, all: &[Test], role: Name) -> Result<Vec<Test>, AllocError>
    ensures { IfOk result (λ found. plain_tests found.items
        ≡ filter (λ test. same_name test.role role) (plain_tests all.now)) }
{
    let mut found = Vec::new(alloc);
    for test in all {
        if test.role == role {
            found.push(*test)?;
        }
    }
    Ok(found)
}

/// What the role of the chart needs, by all steps and all tests of the chart, in chart order, as `steps_in_order` and
/// `tests_in_order` list them. A description meets it exactly where `covers` finds no fault.
///
/// # Errors
///
/// AllocError where there is no memory for an entry for each step and each test of the role.
pub fn needs_of<'a>(
    alloc: Global,
    chart: &'a Chart,
    every_step: &[&'a Step],
    every_test: &[Test],
    role: Name,
) -> Result<Needs<'a>, AllocError>
    requires steps { plans_seen every_step.now ≡ map (λ placed. placed.step) (steps (plain_node chart.now.root) 0) }
    requires tests { plain_tests every_test.now ≡ tests_in (plain_node chart.now.root) }
    ensures needs { IfOk result (λ needs. plain_needs needs ≡ needs_of (plain_chart chart.now) role) }
    ensures covers { IfOk result (λ needs. (description : PlainDescription)
        → are_met (plain_needs needs) description ≡ is_none (cover_fault (plain_chart chart.now) role description)) }
{
    Ok(Needs {
        role: role_of(chart, role),
        steps: steps_of(alloc, every_step, role)?,
        tests: tests_of(alloc, every_test, role)?,
    })
}

// Whether the module has the type and the version of the role; no module has those of a role that the chart lacks.
fn is_of_type(role: Option<&Role>, description: &Description) -> bool
    ensures { result ≡ is_none (role_fault (plain_description description.now)
        (option_map (λ role. plain_role role.now) role.entry)) }
{
    match role {
        Some(role) => check_role(role, description).is_ok(),
        None => false,
    }
}

// Whether the module can do each of the steps.
fn can_do(steps: &[&Step], description: &Description) -> bool
    ensures { result ≡ are_done (plain_description description.now) (plans_seen steps.now) }
{
    for step in steps {
        if is_refused(step, description) {
            return false;
        }
    }
    true
}

// Whether a variable of the module fits each of the tests.
fn fits_all(tests: &[Test], description: &Description) -> bool
    ensures { result ≡ fit_all (plain_description description.now) (plain_tests tests.now) }
{
    for test in tests {
        if is_unfit(description, test.variable, test.value) {
            return false;
        }
    }
    true
}

impl<'a> Needs<'a> {
    /// Whether a module with this description meets these needs. Looks at the steps and the tests of the role alone.
    pub fn are_met(&self, description: &Description) -> bool
        ensures { result ≡ are_met (plain_needs self.now) (plain_description description.now) }
    {
        is_of_type(self.role, description)
            && can_do(&self.steps, description)
            && fits_all(&self.tests, description)
    }
}
