//! Names in a demo journal.
ghost use Rattle.std.specs.Prelude.{◌≡◌, length, IfOk, IsTrue};
ghost use Rattle.mtp_codes.specs.Names.{is_name};
ghost use Rattle.pol_demo.specs.Names.{numbered_name};

use mtp_codes::Name;
use std::alloc::{AllocError, Global};

/// The name that this text is.
pub fn name(text: &str) -> Name
    requires { IsTrue (is_name text.now) }
    ensures { result ≡ text.now }
{
    match Name::of_bytes(text.as_bytes()) {
        Some(name) => name,
        None => unreachable!(),
    }
}

/// The name of a letter and a number, as `U7`.
#[tactic(auto, using(crate::proofs::Digits::numbered_is_name))]
pub fn numbered(alloc: Global, letter: &str, number: u8) -> Result<Name, AllocError>
    requires letter { IsTrue (is_name letter.now) }
    requires short { length letter.now ≡ 1 }
    ensures { IfOk result (λ name. name ≡ numbered_name letter.now number) }
{
    let text = format!(in alloc; "{letter}{number}")?;
    Ok(name(&text))
}
