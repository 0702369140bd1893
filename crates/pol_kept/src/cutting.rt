//! The texts of the items that an image stands for, one after another.
ghost use Rattle.std.specs.Prelude.{◌≡◌, ◌<◌, [], List, length, IfNone, IfSome};
ghost use Rattle.pol_kept.specs.Stands.{HasFirst, StandsBehind};

use crate::chronicle::Chronicle;
use crate::records::GATE_AND_LENGTH;
use pol_texts::{Found, find};

/// The text of the first item that an image stands for, and what comes behind its record: an image that stands for the
/// others. None where the image stands for no item.
pub fn first_text<C: Chronicle>(image: &[u8]) -> Option<(&[u8], &[u8])>
    ensures first { IfSome result (λ cut. (before items : List C.Plain) → StandsBehind C.work before items image.now
        → HasFirst C.work before cut.0.now cut.1.now items) }
    ensures none { IfNone result ((before items : List C.Plain) → StandsBehind C.work before items image.now
        → items ≡ []) }
    ensures shorter { IfSome result (λ cut. length cut.1.now < length image.now) }
{
    match find(image) {
        Found::Text(text) => Some((text, &image[GATE_AND_LENGTH + text.len()..])),
        Found::Closed | Found::Neither => None,
    }
}
