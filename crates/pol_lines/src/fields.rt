//! What is at the keys of a flat line.
ghost use Rattle.std.specs.Prelude.{◌≡◌, ◌≤◌, false, Ok, Some, IfSome, IsTrue, option_map};
ghost use Rattle.serde_json.specs.Data.{string};
ghost use Rattle.serde_json.specs.Find.{get};
ghost use Rattle.mtp_codes.specs.Codes.{command_codes, state_codes};
ghost use Rattle.mtp_codes.specs.Numbers.{is_within};
ghost use Rattle.mtp_json.specs.Form.{field, present_or};
ghost use Rattle.mtp_json.specs.Leaf.{code, count, meaning_of, name, scalar, text_to, truth, whole, word};
ghost use Rattle.chart_json.specs.Form.{compared};
ghost use Rattle.event_json.specs.Words.{kind_words, mode_words, origin_words};
ghost use Rattle.pol_lines.specs.Flat.{flat_data};
ghost use Rattle.pol_lines.specs.Keys.{key_text};
ghost use Rattle.pol_lines.specs.Leaves.{leaf_data};

use crate::flat::Member;
use crate::key::Key;
use crate::leaf::Leaf;
use crate::pieces::is_word;
use event_json::EventKind;
use mtp_codes::{Command, Mode, Name, Origin, Reading, Short, State, Value};

/// The value at a key: the last one, where the key occurs more than once.
#[inline(always)]
pub fn leaf_at<'a>(members: &[Member<'a>], key: Key) -> Option<Leaf<'a>>
    ensures { option_map leaf_data result ≡ get (key_text key) (flat_data members.now) }
{
    for i in (0..members.len()).rev() {
        if members[i].key == key {
            return Some(members[i].leaf);
        }
    }
    None
}

/// The text at a key.
#[inline(always)]
pub fn text_at<'a>(members: &[Member<'a>], key: Key) -> Option<&'a [u8]>
    ensures { IfSome result (λ bytes. get (key_text key) (flat_data members.now) ≡ Some (string bytes.now)) }
{
    match leaf_at(members, key)? {
        Leaf::Text(bytes) => Some(bytes),
        _ => None,
    }
}

/// The name at a key.
#[inline(always)]
pub fn name_at(members: &[Member], key: Key) -> Option<Name>
    ensures { IfSome result (λ found. field (key_text key) name (flat_data members.now) ≡ Ok found) }
{
    Name::of_bytes(text_at(members, key)?)
}

/// The whole number from `least` to `most` at a key.
#[inline(always)]
pub fn count_at(members: &[Member], key: Key, least: u64, most: u64) -> Option<u64>
    ensures value { IfSome result (λ found. field (key_text key) (count least most) (flat_data members.now)
        ≡ Ok found) }
    ensures most { IfSome result (λ found. found ≤ most) }
{
    match leaf_at(members, key)? {
        Leaf::Whole(number) if number >= 0 && least <= number as u64 && number as u64 <= most =>
            Some(number as u64),
        _ => None,
    }
}

/// The state whose code is at a key.
#[inline(always)]
pub fn state_at(members: &[Member], key: Key) -> Option<State>
    ensures { IfSome result (λ found. field (key_text key) (code state_codes) (flat_data members.now) ≡ Ok found) }
{
    State::of_code(count_at(members, key, 0, u32::MAX as u64)? as u32)
}

/// The command whose code is at a key.
#[inline(always)]
pub fn command_at(members: &[Member], key: Key) -> Option<Command>
    ensures { IfSome result (λ found. field (key_text key) (code command_codes) (flat_data members.now) ≡ Ok found) }
{
    Command::of_code(count_at(members, key, 0, u32::MAX as u64)? as u32)
}

/// The mode that a word names.
pub fn mode_of(bytes: &[u8]) -> Option<Mode>
    ensures { result ≡ meaning_of bytes.now mode_words }
{
    if is_word(bytes, b"Off") {
        Some(Mode::Off)
    } else if is_word(bytes, b"Operator") {
        Some(Mode::Operator)
    } else if is_word(bytes, b"Automatic") {
        Some(Mode::Automatic)
    } else {
        None
    }
}

/// The mode whose word is at a key.
#[inline(always)]
pub fn mode_at(members: &[Member], key: Key) -> Option<Mode>
    ensures { IfSome result (λ found. field (key_text key) (word mode_words) (flat_data members.now) ≡ Ok found) }
{
    mode_of(text_at(members, key)?)
}

/// The source of commands that a word names.
pub fn origin_of(bytes: &[u8]) -> Option<Origin>
    ensures { result ≡ meaning_of bytes.now origin_words }
{
    if is_word(bytes, b"Internal") {
        Some(Origin::Internal)
    } else if is_word(bytes, b"External") {
        Some(Origin::External)
    } else {
        None
    }
}

/// The source of commands whose word is at a key.
#[inline(always)]
pub fn origin_at(members: &[Member], key: Key) -> Option<Origin>
    ensures { IfSome result (λ found. field (key_text key) (word origin_words) (flat_data members.now) ≡ Ok found) }
{
    origin_of(text_at(members, key)?)
}

/// The kind that a word names; the kinds of which a journal has most come first.
pub fn kind_of(bytes: &[u8]) -> Option<EventKind>
    ensures { result ≡ meaning_of bytes.now kind_words }
{
    if is_word(bytes, b"variable") {
        Some(EventKind::Variable)
    } else if is_word(bytes, b"report") {
        Some(EventKind::Report)
    } else if is_word(bytes, b"advance") {
        Some(EventKind::Advance)
    } else if is_word(bytes, b"desk") {
        Some(EventKind::Desk)
    } else if is_word(bytes, b"unplug") {
        Some(EventKind::Unplug)
    } else if is_word(bytes, b"freeze") {
        Some(EventKind::Freeze)
    } else if is_word(bytes, b"thaw") {
        Some(EventKind::Thaw)
    } else if is_word(bytes, b"stop") {
        Some(EventKind::Stop)
    } else if is_word(bytes, b"abandon") {
        Some(EventKind::Abandon)
    } else if is_word(bytes, b"exchange_begin") {
        Some(EventKind::ExchangeBegin)
    } else if is_word(bytes, b"exchange_cancel") {
        Some(EventKind::ExchangeCancel)
    } else if is_word(bytes, b"recipe") {
        Some(EventKind::Recipe)
    } else if is_word(bytes, b"plug") {
        Some(EventKind::Plug)
    } else if is_word(bytes, b"exchange_end") {
        Some(EventKind::ExchangeEnd)
    } else if is_word(bytes, b"start") {
        Some(EventKind::Start)
    } else {
        None
    }
}

/// The kind whose word is at a key.
#[inline(always)]
pub fn kind_at(members: &[Member], key: Key) -> Option<EventKind>
    ensures { IfSome result (λ found. field (key_text key) (word kind_words) (flat_data members.now) ≡ Ok found) }
{
    kind_of(text_at(members, key)?)
}

/// The text as a value of a variable.
#[inline(never)]
pub fn text_value(bytes: &[u8]) -> Option<Value>
    ensures { IfSome result (λ found. scalar (string bytes.now) ≡ Ok found) }
{
    match std::str::from_utf8(bytes) {
        Ok(text) => Some(Value::Text(Short::of_text(text)?)),
        Err(_) => None,
    }
}

/// The value of a variable at a key.
#[inline(always)]
pub fn scalar_at(members: &[Member], key: Key) -> Option<Value>
    ensures { IfSome result (λ found. field (key_text key) scalar (flat_data members.now) ≡ Ok found) }
{
    match leaf_at(members, key)? {
        Leaf::Text(bytes) => text_value(bytes),
        Leaf::Whole(number) => Some(Value::Whole(number)),
        Leaf::Bit(bit) => Some(Value::Bit(bit)),
    }
}

/// What a test compares with, at a key: a whole number or a truth value.
pub fn compared_at(members: &[Member], key: Key) -> Option<Reading>
    ensures { IfSome result (λ found. field (key_text key) compared (flat_data members.now) ≡ Ok found) }
{
    match leaf_at(members, key)? {
        Leaf::Text(_) => None,
        Leaf::Whole(number) => Some(Reading::Whole(number)),
        Leaf::Bit(bit) => Some(Reading::Bit(bit)),
    }
}

/// The text of at most 64 bytes at a key.
pub fn short_at(members: &[Member], key: Key) -> Option<Short>
    ensures { IfSome result (λ found. field (key_text key) (text_to 64) (flat_data members.now) ≡ Ok found) }
{
    let bytes = text_at(members, key)?;
    if bytes.len() > 64 {
        return None;
    }
    match std::str::from_utf8(bytes) {
        Ok(text) => Short::of_text(text),
        Err(_) => None,
    }
}

/// The whole number from `least` to `most` at a key.
pub fn whole_at(members: &[Member], key: Key, least: i64, most: i64) -> Option<i64>
    ensures value { IfSome result (λ found. field (key_text key) (whole least most) (flat_data members.now)
        ≡ Ok found) }
    ensures within { IfSome result (λ found. IsTrue (is_within least most found)) }
{
    match leaf_at(members, key)? {
        Leaf::Whole(number) if least <= number && number <= most => Some(number),
        _ => None,
    }
}

/// The truth value at a key; false where the key is absent.
pub fn truth_at(members: &[Member], key: Key) -> Option<bool>
    ensures { IfSome result (λ bit. present_or false truth (get (key_text key) (flat_data members.now)) ≡ Ok bit) }
{
    match leaf_at(members, key) {
        None => Some(false),
        Some(Leaf::Bit(bit)) => Some(bit),
        _ => None,
    }
}
