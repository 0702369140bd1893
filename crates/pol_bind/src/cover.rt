//! Whether a description covers a role of a chart.

ghost use Rattle.std.specs.Prelude.{◌≡◌, find, option_map, Some};
ghost use Rattle.std.specs.Str.{bytes_eq};
ghost use Rattle.semver.specs.Identifiers.{parts_of};
ghost use Rattle.semver.specs.Parse.{req_of};
ghost use Rattle.mtp_codes.specs.Faults.{done_unless};
ghost use Rattle.mtp_desc.specs.PlainDescription.{plain_description};
ghost use Rattle.chart_core.specs.Charts.{plain_chart};
ghost use Rattle.chart_core.specs.Roles.{plain_role};
ghost use Rattle.mtp_procs.specs.Covers.{cover_fault, meets, missing_by, role_fault, role_named};
ghost use Rattle.pol_events.specs.Refusals.{cover_rule};

use crate::steps::refused_step;
use crate::variables::refused_variable;
use chart_core::{Chart, Role};
use mtp_codes::{CoverFault, Name};
use mtp_desc::Description;
use pol_events::Rule;
use semver::Version;

fn find_role(roles: &[Role], name: Name) -> Option<&Role>
    ensures { option_map (λ role. role.now) result ≡ find (λ role. bytes_eq role.role name) roles.now }
{
    roles.iter().find(|role| role.role == name)
}

pub(crate) fn role_of(chart: &Chart, name: Name) -> Option<&Role>
    ensures { option_map (λ role. plain_role role.now) result ≡ role_named name (plain_chart chart.now) }
{
    find_role(&chart.roles, name)
}

// Whether the role's requirement matches the version.
fn is_met(role: &Role, version: &Version) -> bool
    ensures { result ≡ meets (parts_of version.now) (req_of role.now.wants) }
{
    role.req.matches(version)
}

pub(crate) fn check_role(role: &Role, description: &Description) -> Result<(), CoverFault>
    ensures { result ≡ done_unless (role_fault (plain_description description.now) (Some (plain_role role.now))) }
{
    if role.type_name != description.type_name {
        return Err(CoverFault::WrongType);
    }
    if !is_met(role, &description.version) {
        return Err(CoverFault::WrongVersion);
    }
    Ok(())
}

// The first fault of the description for the role of the chart; a chart that hasn't the role asks for no type.
fn check_cover(chart: &Chart, role: Name, description: &Description) -> Result<(), CoverFault>
    ensures { result ≡ done_unless (cover_fault (plain_chart chart.now) role (plain_description description.now)) }
{
    let Some(wanted) = role_of(chart, role) else {
        return Err(CoverFault::WrongType);
    };
    check_role(wanted, description)?;
    if let Some(step) = refused_step(&chart.root, role, description) {
        return Err(CoverFault::NotCovered(step));
    }
    match refused_variable(&chart.root, role, description) {
        Some(variable) => Err(CoverFault::NotCovered(variable)),
        None => Ok(()),
    }
}

fn cover_rule(role: Name, fault: CoverFault) -> Rule
    ensures { result ≡ cover_rule role fault }
{
    match fault {
        CoverFault::WrongType => Rule::WrongType { role },
        CoverFault::WrongVersion => Rule::WrongVersion { role },
        CoverFault::NotCovered(missing) => Rule::NotCovered { missing },
    }
}

fn missing_by(role: Name, fault: CoverFault) -> Name
    ensures { result ≡ missing_by role fault }
{
    match fault {
        CoverFault::WrongType | CoverFault::WrongVersion => role,
        CoverFault::NotCovered(missing) => missing,
    }
}

/// Whether a module with this description can play the role of the chart.
///
/// `WrongType` exactly where its type isn't the role's (or the chart hasn't the role); else `WrongVersion` exactly
/// where `semver` says that the role's requirement doesn't match; else `NotCovered` with the first step of the role in
/// chart order that `check_step` refuses, or else with the first variable, in order of first appearance, that the chart
/// reads of the role and that is missing, is a text, or is a number tested against a truth value or the other way
/// round. Takes no memory. Where all fits, its time grows with the chart's tests; else at most with their square.
pub fn covers(chart: &Chart, role: Name, description: &Description) -> Result<(), Rule>
    ensures { result ≡ done_unless
        (option_map (cover_rule role) (cover_fault (plain_chart chart.now) role (plain_description description.now))) }
{
    match check_cover(chart, role, description) {
        Ok(()) => Ok(()),
        Err(fault) => Err(cover_rule(role, fault)),
    }
}

/// What keeps a module with this description from playing the role that it holds: the role's own name where the type or
/// the version is wrong, else the step or the variable that `covers` names; None exactly where `covers` answers Ok.
pub fn held_back_by(chart: &Chart, role: Name, description: &Description) -> Option<Name>
    ensures { result ≡ option_map (missing_by role)
        (cover_fault (plain_chart chart.now) role (plain_description description.now)) }
{
    match check_cover(chart, role, description) {
        Ok(()) => None,
        Err(fault) => Some(missing_by(role, fault)),
    }
}
