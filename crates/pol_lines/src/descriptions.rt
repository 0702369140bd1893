//! Descriptions at the front of a text.
ghost use Rattle.std.specs.Prelude.{◌≡◌, ◌≤◌, [], Option, IfSome, Ok, codes, length, map, option_map};
ghost use Rattle.std.specs.List.{list_all};
ghost use Rattle.serde_json.specs.Data.{Items, array};
ghost use Rattle.semver.specs.Identifiers.{parts_of};
ghost use Rattle.mtp_json.specs.Form.{is_listed};
ghost use Rattle.mtp_assembly.specs.Plain.{plain_variable};
ghost use Rattle.mtp_desc.specs.PlainDescription.{plain_description};
ghost use Rattle.mtp_desc.specs.Plain.{PlainDescription};
ghost use Rattle.mtp_desc.specs.PlainService.{plain_service};
ghost use Rattle.mtp_desc.specs.Version.{version_of};
ghost use Rattle.mtp_desc.specs.declared.limits.TheConstants.{MOST_SERVICES, MOST_VARIABLES};
ghost use Rattle.desc_json.specs.Form.{description_of, service_of, variable_of};
ghost use Rattle.pol_lines.specs.Begins.{Reads, last_of};
ghost use Rattle.pol_lines.specs.Keys.{key_text};
ghost use Rattle.pol_lines.specs.Objects.{GivesEach, Makes, with_value};

use crate::fields::{name_at, short_at};
use crate::flat::Member;
use crate::key::Key;
use crate::lists::Front;
use crate::objects::{Cut, begin_object, read_flats, read_list_at};
use crate::params::VariableFronts;
use crate::services::ServiceFronts;
use arrayvec::ArrayVec;
use mtp_assembly::View;
use mtp_desc::{Description, MOST_SERVICES, MOST_VARIABLES, Service};
use mtp_json::repeats;
use semver::Version;
use std::alloc::Global;

/// The version that a text says.
fn version_in(alloc: Global, text: &str) -> Option<Version>
    ensures { IfSome result (λ version. version_of text.now ≡ Ok (parts_of version)) }
{
    match Version::parse(alloc, text) {
        Ok(version) => Some(version),
        Err(_) => None,
    }
}

fn are_of_description(members: &[Member]) -> bool
    ensures { result ≡ list_all (λ member. is_listed (codes "type version services variables") (key_text member.key))
        members.now }
{
    members.iter().all(|member| matches!(member.key, Key::TypeName | Key::Version))
}

/// A description of these flat members, services and variables, by its form.
fn description_in(
    alloc: Global,
    members: &[Member],
    services: Vec<Service>,
    variables: Vec<View>,
) -> Option<Description>
    requires services { length services.items ≤ MOST_SERVICES }
    requires variables { length variables.items ≤ MOST_VARIABLES }
    ensures { IfSome result (λ description. (served seen : Option Items)
        → GivesEach service_of (map plain_service services.items) served
        → GivesEach variable_of (map plain_variable variables.items) seen
        → Makes description_of (plain_description description) members.now
        (with_value (codes "variables") (option_map array seen)
        (with_value (codes "services") (option_map array served) []))) }
{
    if !are_of_description(members) || services.is_empty() {
        return None;
    }
    if repeats::<ServiceFronts>(&services) || repeats::<VariableFronts>(&variables) {
        return None;
    }
    let type_name = name_at(members, Key::TypeName)?;
    let version_text = short_at(members, Key::Version)?;
    let version = version_in(alloc, version_text.as_str())?;
    Some(Description {
        type_name,
        version_text,
        version,
        services,
        variables,
    })
}

/// The description at the front of a text, with how many bytes follow it: its variables come behind its services.
#[inline(never)]
fn read_description(alloc: Global, text: &[u8]) -> Option<(Description, usize)>
    ensures { IfSome result (λ read. Reads description_of 7 text.now (plain_description read.0)
        (last_of read.1 text.now)) }
{
    let mut members = ArrayVec::new();
    let cut = begin_object(text)?;
    let cut = read_flats(cut, &mut members);
    let mut services = Vec::new(alloc);
    let cut = read_list_at::<ServiceFronts>(
        alloc,
        cut,
        b"\"services\":",
        MOST_SERVICES,
        &mut services,
    )?;
    let cut = read_flats(cut, &mut members);
    let mut variables = Vec::new(alloc);
    let cut = read_list_at::<VariableFronts>(
        alloc,
        cut,
        b"\"variables\":",
        MOST_VARIABLES,
        &mut variables,
    )?;
    let Cut::End(rest) = read_flats(cut, &mut members) else {
        return None;
    };
    let description = description_in(alloc, members.as_slice(), services, variables)?;
    Some((description, rest.len()))
}

/// The form of a description at the front of a text.
pub struct DescriptionFronts;

impl Front for DescriptionFronts {
    type Item = Description;

    ghost Form = { PlainDescription };

    ghost plain = { plain_description };

    ghost form = { description_of };

    ghost deep = { 7 };

    fn read(alloc: Global, text: &[u8]) -> Option<(Description, usize)> {
        read_description(alloc, text)
    }
}
