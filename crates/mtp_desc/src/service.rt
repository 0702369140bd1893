//! A service of a module.

ghost use Rattle.std.specs.Prelude.{◌≡◌, ◌==◌, false, find, length, map, option_map, IsTrue};
ghost use Rattle.mtp_codes.specs.Names.{is_name};
ghost use Rattle.mtp_codes.specs.Numbers.{is_between};
ghost use Rattle.mtp_codes.specs.Repeats.{repeats_by};
ghost use Rattle.mtp_desc.specs.Plain.{has_one_default};
ghost use Rattle.mtp_desc.specs.Plain.{same_procedure};
ghost use Rattle.mtp_desc.specs.PlainProcedure.{plain_procedure};
ghost use Rattle.mtp_desc.specs.declared.limits.TheConstants.{MOST_PROCEDURES};

use crate::procedure::Procedure;
use mtp_codes::Name;

/// A service of a module: 1 to 16 procedures, no two of one number, exactly one of them the default.
#[derive(Drop)]
pub struct Service {
    /// Its name in the module.
    pub name: Name,
    /// 1 to 16, no two of one number, one of them the default.
    pub procedures: Vec<Procedure>,
    ghost named: { IsTrue (is_name name) },
    ghost few: { IsTrue (is_between 1 MOST_PROCEDURES (length procedures.items)) },
    ghost unlike: { repeats_by same_procedure (map plain_procedure procedures.items) ≡ false },
    ghost one_default: { IsTrue (has_one_default (map plain_procedure procedures.items)) },
}

fn find_procedure(procedures: &[Procedure], number: u16) -> Option<&Procedure>
    ensures { option_map (λ procedure. procedure.now) result ≡ find (λ procedure. procedure.number == number)
        procedures.now }
{
    procedures
        .iter()
        .find(|procedure| procedure.number == number)
}

fn find_default(procedures: &[Procedure]) -> Option<&Procedure>
    ensures { option_map (λ procedure. procedure.now) result ≡ find (λ procedure. procedure.is_default) procedures.now }
{
    procedures.iter().find(|procedure| procedure.is_default)
}

impl Service {
    ghost use Rattle.std.specs.Prelude.{Some};
    ghost use Rattle.mtp_desc.specs.Lookup.{default_procedure, procedure_numbered};
    ghost use Rattle.mtp_desc.specs.PlainService.{plain_service};

    /// The procedure of this number.
    pub fn procedure(&self, number: u16) -> Option<&Procedure>
        ensures { option_map (λ procedure. plain_procedure procedure.now) result
            ≡ procedure_numbered number (plain_service self.now) }
    {
        find_procedure(&self.procedures, number)
    }

    /// The default procedure.
    pub fn default_procedure(&self) -> &Procedure
        ensures { default_procedure (plain_service self.now) ≡ Some (plain_procedure result.now) }
    {
        match find_default(&self.procedures) {
            Some(procedure) => procedure,
            None => unreachable!(),
        }
    }
}
