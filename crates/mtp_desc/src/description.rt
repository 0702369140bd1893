//! The description of a module.

ghost use Rattle.std.specs.Prelude.{◌≡◌, false, find, length, map, nat_le, option_map, position, IsTrue, Ok};
ghost use Rattle.std.specs.Str.{bytes_eq};
ghost use Rattle.semver.specs.Identifiers.{parts_of};
ghost use Rattle.mtp_codes.specs.Names.{is_name};
ghost use Rattle.mtp_codes.specs.Numbers.{is_between};
ghost use Rattle.mtp_assembly.specs.Plain.{plain_variable};
ghost use Rattle.mtp_codes.specs.Repeats.{repeats_by};
ghost use Rattle.mtp_desc.specs.Plain.{same_service, same_variable};
ghost use Rattle.mtp_desc.specs.PlainService.{plain_service};
ghost use Rattle.mtp_desc.specs.Version.{version_of};
ghost use Rattle.mtp_desc.specs.declared.limits.TheConstants.{LONGEST_VERSION, MOST_SERVICES, MOST_VARIABLES};

use crate::service::Service;
use mtp_assembly::View;
use mtp_codes::{Name, Short};
use semver::Version;

/// The description of a module: its type with its version, 1 to 32 services and at most 64 variables, no two services
/// and no two variables of one name. `version` is what `semver` reads of `version_text`.
#[derive(Drop)]
pub struct Description {
    /// The type of the module, by which roles ask for it.
    pub type_name: Name,
    /// The version as the description writes it, at most 64 bytes.
    pub version_text: Short,
    /// The version, read (Semantic Versioning 2.0.0).
    pub version: Version,
    /// 1 to 32, no two of one name.
    pub services: Vec<Service>,
    /// At most 64, no two of one name.
    pub variables: Vec<View>,
    ghost typed: { IsTrue (is_name type_name) },
    ghost short: { IsTrue (nat_le (length version_text) LONGEST_VERSION) },
    ghost versioned: { version_of version_text ≡ Ok (parts_of version) },
    ghost some_services: { IsTrue (is_between 1 MOST_SERVICES (length services.items)) },
    ghost few_variables: { IsTrue (is_between 0 MOST_VARIABLES (length variables.items)) },
    ghost unlike_services: { repeats_by same_service (map plain_service services.items) ≡ false },
    ghost unlike_variables: { repeats_by same_variable (map plain_variable variables.items) ≡ false },
}

fn find_service(services: &[Service], name: Name) -> Option<&Service>
    ensures { option_map (λ service. service.now) result ≡ find (λ service. bytes_eq service.name name) services.now }
{
    services.iter().find(|service| service.name == name)
}

fn place_of_service(services: &[Service], name: Name) -> Option<usize>
    ensures { result ≡ position (λ service. bytes_eq service.name name) services.now }
{
    services.iter().position(|service| service.name == name)
}

fn find_variable(variables: &[View], name: Name) -> Option<&View>
    ensures { option_map (λ variable. variable.now) result ≡ find (λ variable. bytes_eq variable.name name)
        variables.now }
{
    variables.iter().find(|variable| variable.name == name)
}

fn place_of_variable(variables: &[View], name: Name) -> Option<usize>
    ensures { result ≡ position (λ variable. bytes_eq variable.name name) variables.now }
{
    variables.iter().position(|variable| variable.name == name)
}

impl Description {
    ghost use Rattle.mtp_desc.specs.PlainDescription.{plain_description};
    ghost use Rattle.mtp_desc.specs.Lookup.{self_completes, service_named, service_place};
    ghost use Rattle.mtp_desc.specs.Lookup.{variable_named, variable_place};

    /// The service of this name.
    pub fn service(&self, name: Name) -> Option<&Service>
        ensures { option_map (λ service. plain_service service.now) result
            ≡ service_named name (plain_description self.now) }
    {
        find_service(&self.services, name)
    }

    /// The place of the service of this name among the services, from 0.
    pub fn service_place(&self, name: Name) -> Option<usize>
        ensures { result ≡ service_place name (plain_description self.now) }
    {
        place_of_service(&self.services, name)
    }

    /// The variable of this name.
    pub fn variable(&self, name: Name) -> Option<&View>
        ensures { option_map (λ variable. plain_variable variable.now) result
            ≡ variable_named name (plain_description self.now) }
    {
        find_variable(&self.variables, name)
    }

    /// The place of the variable of this name among the variables, from 0.
    pub fn variable_place(&self, name: Name) -> Option<usize>
        ensures { result ≡ variable_place name (plain_description self.now) }
    {
        place_of_variable(&self.variables, name)
    }

    /// Whether the procedure completes by itself; false where there is no such procedure.
    pub fn self_completes(&self, service: Name, procedure: u16) -> bool
        ensures { result ≡ self_completes service procedure (plain_description self.now) }
    {
        match self.service(service) {
            Some(service) => match service.procedure(procedure) {
                Some(procedure) => procedure.self_completing,
                None => false,
            },
            None => false,
        }
    }
}
