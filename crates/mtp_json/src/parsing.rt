//! From bytes to a JSON value.

ghost use Rattle.std.specs.Prelude.{◌≡◌};
ghost use Rattle.serde_json.specs.Read.{read};
ghost use Rattle.serde_json.specs.View.{view};
ghost use Rattle.mtp_json.specs.ReadsAs.{ReadsAs};
ghost use Rattle.mtp_json.specs.Parse.{json_of, or_not_json};
ghost use Rattle.mtp_json.specs.ReadResult.{here};

use crate::fault::{FaultKind, JsonRefusal};
use crate::placed::here;
use serde_json::Value;
use std::alloc::Global;

fn parse_text(alloc: Global, text: &str) -> Result<Value, JsonRefusal>
    ensures { ReadsAs view result (here (or_not_json (read text.now))) }
{
    match Value::from_str(alloc, text) {
        Ok(value) => Ok(value),
        Err(error) => {
            if error.is_memory() {
                Err(JsonRefusal::Memory)
            } else {
                here(alloc, Err(FaultKind::NotJson))
            }
        }
    }
}

/// The value that `serde_json` reads of the bytes (RFC 8259); NotJson with the empty path exactly where it reads none.
#[tactic(auto, unfolding(crate::specs::Parse::json_of), using(crate::proofs::Utf8::utf8_is, crate::proofs::Utf8::not_utf8_is))]
pub fn parse(alloc: Global, text: &[u8]) -> Result<Value, JsonRefusal>
    ensures { ReadsAs view result (here (json_of text.now)) }
{
    match str::from_utf8(text) {
        Ok(text) => parse_text(alloc, text),
        Err(_) => here(alloc, Err(FaultKind::NotJson)),
    }
}
