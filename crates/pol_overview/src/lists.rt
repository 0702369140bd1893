//! Names, and lists of what is written of names.
ghost use Rattle.std.specs.Prelude.{◌≡◌, ◌≤◌, ◌++◌, length, OnOk};
ghost use Rattle.mtp_codes.specs.declared.limits.TheConstants.{LONGEST_HISTORY};
ghost use Rattle.pol_record.specs.Objects.{data_tokens};
ghost use Rattle.pol_overview.specs.Lists.{each_data, name_or_null};

use json::Writer;
use mtp_codes::Name;
use std::alloc::AllocError;

/// Names that are found by their places, and what is written of each.
pub trait Listed {
    ghost use Rattle.std.specs.Prelude.{◌≡◌, ◌++◌, ℕ, List, OnOk, slice_get};
    ghost use Rattle.serde_json.specs.Data.{Data};
    ghost use Rattle.pol_record.specs.Objects.{data_tokens};

    ghost names: { Self → List (List ℕ) };

    ghost told: { Self → List ℕ → Data };

    /// The name at this place, from 0; None from their number on.
    fn name_at(&self, place: u32) -> Option<Name>
        ensures { result ≡ slice_get (names self.now) place };

    /// Writes the list's item for a name.
    fn write(&self, writer: &mut Writer, name: Name) -> Result<(), AllocError>
        ensures tokens { OnOk result (writer.new.tokens ≡ writer.old.tokens ++ data_tokens (told self.now name)) }
        ensures before { writer.new.before ≡ writer.old.before };
}

/// Writes a list with an item for each name.
pub fn write_each<L: Listed>(writer: &mut Writer, list: &L) -> Result<(), AllocError>
    requires { length (L.names list.now) ≤ LONGEST_HISTORY }
    ensures tokens { OnOk result (writer.new.tokens
        ≡ writer.old.tokens ++ data_tokens (each_data (L.told list.now) (L.names list.now))) }
    ensures before { writer.new.before ≡ writer.old.before }
{
    writer.begin_array()?;
    let mut place = 0;
    while let Some(name) = list.name_at(place) {
        list.write(writer, name)?;
        place += 1;
    }
    writer.end_array()
}

/// Writes a name, or null where there is none.
pub fn write_name_or_null(writer: &mut Writer, name: Option<Name>) -> Result<(), AllocError>
    ensures tokens { OnOk result (writer.new.tokens ≡ writer.old.tokens ++ data_tokens (name_or_null name)) }
    ensures before { writer.new.before ≡ writer.old.before }
{
    match name {
        Some(name) => writer.string(name.as_str()),
        None => writer.null(),
    }
}
