//! The kinds of lines that rules of lines list.
ghost use Rattle.std.specs.Prelude.{◌≡◌};
ghost use Rattle.serde_json.specs.View.{view};
ghost use Rattle.mtp_json.specs.Leaf.{word};
ghost use Rattle.event_json.specs.declared.kind.EventKind.{EventKind as kind_type};
ghost use Rattle.event_json.specs.Guarded.{is_desk_kind};
ghost use Rattle.event_json.specs.Words.{kind_words};
ghost use Rattle.pol_rights.specs.Form.{kind_of, unless_desk};

use event_json::{EventKind, KindWords};
use mtp_json::{FaultKind, FromJson, JsonRefusal, Words, here};
use serde_json::Value;
use std::alloc::Global;

/// Whether a kind of line is that of a command of the desk.
pub fn is_desk(kind: EventKind) -> bool
    ensures { result ≡ is_desk_kind kind }
{
    matches!(kind, EventKind::Desk)
}

// A word of `ev`.
fn word_of(value: &Value) -> Result<EventKind, FaultKind>
    ensures { result ≡ word kind_words (view value.now) }
{
    let text = value.as_str().ok_or(FaultKind::WrongKind)?;
    KindWords::of_text(text).ok_or(FaultKind::OutOfRange)
}

// A word of `ev` other than `desk`.
fn line_kind_of(value: &Value) -> Result<EventKind, FaultKind>
    ensures { result ≡ unless_desk (word kind_words (view value.now)) }
{
    let kind = word_of(value)?;
    if is_desk(kind) {
        return Err(FaultKind::OutOfRange);
    }
    Ok(kind)
}

/// The form of a kind of line: a word of `ev` other than `desk`.
pub struct KindJson;

impl FromJson for KindJson {
    type Item = EventKind;

    ghost Form = { kind_type };

    ghost plain = { λ kind. kind };

    ghost form = { kind_of };

    fn read(alloc: Global, value: &Value) -> Result<EventKind, JsonRefusal> {
        here(alloc, line_kind_of(value))
    }
}
