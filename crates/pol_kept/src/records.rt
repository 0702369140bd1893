//! Records of items.
ghost use Rattle.std.specs.Prelude.{◌≡◌, ◌∷◌, [], ℕ, IfOk, length};
ghost use Rattle.pol_kept.specs.Names.{IsNext, SoundNext, WritesBehind};

use crate::chronicle::Chronicle;
use pol_texts::{CLOSED_GATE, Found, find};
use std::alloc::{AllocError, Global};

/// What is found where a record should be.
#[derive(Drop)]
pub enum Next<'a, T> {
    /// A closed gate.
    Closed,
    /// A record of this item, with its text.
    Record(T, &'a [u8]),
    /// Neither.
    Broken,
}

/// How many bytes come before the text of a record.
pub const GATE_AND_LENGTH: usize = 9;

/// What is written behind the closed gate: the length of a text, the text and the next closed gate.
pub fn behind_gate(alloc: Global, text: &[u8]) -> Result<Vec<u8>, AllocError>
    ensures { IfOk result (λ behind. WritesBehind text.now behind.items) }
{
    let mut behind = (text.len() as u64).to_be_bytes().to_vec(alloc)?;
    behind.extend_from_slice(text)?;
    behind.push(CLOSED_GATE)?;
    Ok(behind)
}

/// What is at the front of these bytes, behind the records of a chronicle's items. The buffer is room to work in.
pub fn next_record<'a, C: Chronicle>(
    alloc: Global,
    chronicle: &C,
    bytes: &'a [u8],
    room: &mut Vec<u8>,
) -> Result<Next<'a, C::Item>, AllocError>
    ensures is { IfOk result (IsNext C.work C.plain (C.work.items (C.state chronicle.now)) bytes.now) }
    ensures sound { IfOk result (SoundNext C.IsSound C.plain) }
{
    let text = match find(bytes) {
        Found::Closed => return Ok(Next::Closed),
        Found::Neither => return Ok(Next::Broken),
        Found::Text(text) => text,
    };
    if chronicle.is_full() {
        return Ok(Next::Broken);
    }
    match chronicle.item_of(alloc, text, room)? {
        Some(item) => Ok(Next::Record(item, text)),
        None => Ok(Next::Broken),
    }
}
