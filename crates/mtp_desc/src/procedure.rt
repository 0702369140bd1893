//! A procedure of a service.

ghost use Rattle.std.specs.Prelude.{◌≡◌, false, find, length, map, option_map, IsTrue};
ghost use Rattle.std.specs.Str.{bytes_eq};
ghost use Rattle.mtp_codes.specs.Numbers.{is_between};
ghost use Rattle.mtp_assembly.specs.Plain.{plain_param};
ghost use Rattle.mtp_codes.specs.Repeats.{repeats_by};
ghost use Rattle.mtp_desc.specs.Plain.{same_param};
ghost use Rattle.mtp_desc.specs.declared.limits.TheConstants.{GREATEST_PROCEDURE, MOST_PARAMS};

use mtp_assembly::Param;
use mtp_codes::Name;

/// A procedure of a service: a number from 1 to 65535 and at most 32 parameters, no two of one name.
#[derive(Drop)]
pub struct Procedure {
    /// From 1 to 65535.
    pub number: u16,
    /// Whether a start that names no procedure starts this one.
    pub is_default: bool,
    /// Whether the procedure goes from Execute to Completing by itself (VDI/VDE/NAMUR 2658 part 4).
    pub self_completing: bool,
    /// At most 32, no two of one name.
    pub params: Vec<Param>,
    ghost numbered: { IsTrue (is_between 1 GREATEST_PROCEDURE number) },
    ghost few: { IsTrue (is_between 0 MOST_PARAMS (length params.items)) },
    ghost unlike: { repeats_by same_param (map plain_param params.items) ≡ false },
}

fn find_param(params: &[Param], name: Name) -> Option<&Param>
    ensures { option_map (λ param. param.now) result ≡ find (λ param. bytes_eq param.name name) params.now }
{
    params.iter().find(|param| param.name == name)
}

impl Procedure {
    ghost use Rattle.mtp_desc.specs.Lookup.{param_named};
    ghost use Rattle.mtp_desc.specs.PlainProcedure.{plain_procedure};

    /// The parameter of this name.
    pub fn param(&self, name: Name) -> Option<&Param>
        ensures { option_map (λ param. plain_param param.now) result ≡ param_named name (plain_procedure self.now) }
    {
        find_param(&self.params, name)
    }
}
