//! What is found at a place of an image where a gate should be.
ghost use Rattle.std.specs.Prelude.{◌≡◌, List, ℕ, MatchOption};
ghost use Rattle.pol_texts.specs.Finds.{IsFound};
ghost use Rattle.pol_texts.specs.Stands.{IsBody};

use crate::gate::CLOSED_GATE;

/// What is found where a gate should be.
#[derive(Clone, Copy, Debug, PartialEq, Eq)]
pub enum Found<'a> {
    /// A closed gate.
    Closed,
    /// A record of this text.
    Text(&'a [u8]),
    /// Neither: the end of the image, or a record that is cut short.
    Neither,
}

/// How many bytes hold the length of a text.
pub const LENGTH_BYTES: usize = 8;

// The text of a body, where it isn't cut short.
fn text_of(body: &[u8]) -> Option<&[u8]>
    ensures { MatchOption result ((text behind : List ℕ) → IsBody text body.now behind → ⊥)
        (λ text. (behind : List ℕ) × IsBody text.now body.now behind) }
{
    let (size, behind) = body.split_first_chunk::<LENGTH_BYTES>()?;
    let size = u64::from_be_bytes(*size);
    if size > behind.len() as u64 {
        return None;
    }
    Some(&behind[..size as usize])
}

/// What is at the front of these bytes.
pub fn find(bytes: &[u8]) -> Found<'_>
    ensures { IsFound bytes.now result }
{
    let Some((gate, body)) = bytes.split_first() else {
        return Found::Neither;
    };
    if *gate == CLOSED_GATE {
        return Found::Closed;
    }
    match text_of(body) {
        None => Found::Neither,
        Some(text) => Found::Text(text),
    }
}
