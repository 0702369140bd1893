//! The spots at which flat lines are at fault.
ghost use Rattle.std.specs.Prelude.{◌≡◌, ◌≤◌, IfOk, option_map};
ghost use Rattle.std.specs.List.{list_all};
ghost use Rattle.std.specs.Str.{bytes_eq};
ghost use Rattle.serde_json.specs.Data.{number};
ghost use Rattle.serde_json.specs.Find.{get, of_integer};
ghost use Rattle.mtp_codes.specs.Codes.{command_codes, state_codes};
ghost use Rattle.mtp_json.specs.Form.{field, is_listed, nothing_but, required};
ghost use Rattle.mtp_json.specs.Leaf.{code, count, name, scalar, text, word};
ghost use Rattle.mtp_json.specs.ReadResult.{here, under};
ghost use Rattle.mtp_json.specs.ReadsAs.{seen};
ghost use Rattle.event_json.specs.Forms.{control_in};
ghost use Rattle.event_json.specs.Words.{kind_words, mode_words, origin_words};
ghost use Rattle.pol_lines.specs.Keys.{key_text};
ghost use Rattle.pol_lines.specs.Parts.{held_data, parts_data};
ghost use Rattle.pol_lines.specs.Spots.{batch_judged, cancel_judged, desk_judged, fault_of, judged, judged_by};
ghost use Rattle.pol_lines.specs.Spots.{kind_judged, line_judged, named_desk_judged, report_judged, tag_judged};
ghost use Rattle.pol_lines.specs.Spots.{told, variable_judged};

use crate::fields::{kind_of, mode_of, origin_of};
use crate::key::{Key, text_of};
use crate::parts::{Held, Part};
use event_json::EventKind;
use mtp_assembly::ServiceControl;
use mtp_codes::{Command, Mode, Name, Origin, State};
use mtp_json::FaultKind;

/// What is wrong with a flat line, and at which key; at none, where it is wrong with the line as a whole.
#[derive(Clone, Copy)]
pub struct Spot {
    pub kind: FaultKind,
    pub key: Option<Key>,
}

/// What is kept at a key: of the last one, where the key occurs more than once.
fn held_at<'a>(parts: &[Part<'a>], key: Key) -> Option<Held<'a>>
    ensures { option_map held_data result ≡ get (key_text key) (parts_data parts.now) }
{
    let name = text_of(key);
    for i in (0..parts.len()).rev() {
        if parts[i].key == name {
            return Some(parts[i].held);
        }
    }
    None
}

fn get_text<'a>(parts: &[Part<'a>], key: Key) -> Result<&'a [u8], FaultKind>
    ensures { seen (λ bytes. bytes.now) result ≡ field (key_text key) text (parts_data parts.now) }
{
    match held_at(parts, key) {
        Some(Held::Text(bytes)) => Ok(bytes),
        Some(_) => Err(FaultKind::WrongKind),
        None => Err(FaultKind::Missing),
    }
}

fn get_name(parts: &[Part], key: Key) -> Result<Name, FaultKind>
    ensures { result ≡ field (key_text key) name (parts_data parts.now) }
{
    Name::of_bytes(get_text(parts, key)?).ok_or(FaultKind::OutOfRange)
}

fn in_range(whole: i64, most: u64) -> Result<u64, FaultKind>
    ensures value { result ≡ count 0 most (number (of_integer whole)) }
    ensures most { IfOk result (λ found. found ≤ most) }
{
    if whole < 0 {
        return Err(FaultKind::OutOfRange);
    }
    if whole as u64 <= most {
        Ok(whole as u64)
    } else {
        Err(FaultKind::OutOfRange)
    }
}

fn get_count(parts: &[Part], key: Key, most: u64) -> Result<u64, FaultKind>
    ensures value { result ≡ field (key_text key) (count 0 most) (parts_data parts.now) }
    ensures most { IfOk result (λ found. found ≤ most) }
{
    match held_at(parts, key) {
        Some(Held::Whole(whole)) => in_range(whole, most),
        Some(_) => Err(FaultKind::WrongKind),
        None => Err(FaultKind::Missing),
    }
}

fn get_state(parts: &[Part], key: Key) -> Result<State, FaultKind>
    ensures { result ≡ field (key_text key) (code state_codes) (parts_data parts.now) }
{
    State::of_code(get_count(parts, key, u32::MAX as u64)? as u32).ok_or(FaultKind::OutOfRange)
}

fn get_command(parts: &[Part], key: Key) -> Result<Command, FaultKind>
    ensures { result ≡ field (key_text key) (code command_codes) (parts_data parts.now) }
{
    Command::of_code(get_count(parts, key, u32::MAX as u64)? as u32).ok_or(FaultKind::OutOfRange)
}

fn get_mode(parts: &[Part], key: Key) -> Result<Mode, FaultKind>
    ensures { result ≡ field (key_text key) (word mode_words) (parts_data parts.now) }
{
    mode_of(get_text(parts, key)?).ok_or(FaultKind::OutOfRange)
}

fn get_origin(parts: &[Part], key: Key) -> Result<Origin, FaultKind>
    ensures { result ≡ field (key_text key) (word origin_words) (parts_data parts.now) }
{
    origin_of(get_text(parts, key)?).ok_or(FaultKind::OutOfRange)
}

fn get_kind(parts: &[Part], key: Key) -> Result<EventKind, FaultKind>
    ensures { result ≡ field (key_text key) (word kind_words) (parts_data parts.now) }
{
    kind_of(get_text(parts, key)?).ok_or(FaultKind::OutOfRange)
}

/// What is wrong with a variable's value at a key, if something is.
fn scalar_fault(parts: &[Part], key: Key) -> Option<FaultKind>
    ensures { result ≡ fault_of (field (key_text key) scalar (parts_data parts.now)) }
{
    match held_at(parts, key) {
        Some(Held::Text(bytes)) if bytes.len() > 254 => Some(FaultKind::OutOfRange),
        Some(Held::Other) => Some(FaultKind::WrongKind),
        Some(_) => None,
        None => Some(FaultKind::Missing),
    }
}

/// What was found at a key, with the key where it is a fault.
fn keyed<T: Drop>(key: Key, found: Result<T, FaultKind>) -> Result<T, Spot>
    ensures { told result ≡ under (key_text key) (here found) }
{
    match found {
        Ok(value) => Ok(value),
        Err(kind) => Err(Spot {
            kind,
            key: Some(key),
        }),
    }
}

fn ask_name(parts: &[Part], key: Key) -> Result<Name, Spot>
    ensures { told result ≡ required (key_text key) name (parts_data parts.now) }
{
    keyed(key, get_name(parts, key))
}

fn ask_count(parts: &[Part], key: Key, most: u64) -> Result<u64, Spot>
    ensures value { told result ≡ required (key_text key) (count 0 most) (parts_data parts.now) }
    ensures most { IfOk result (λ found. found ≤ most) }
{
    keyed(key, get_count(parts, key, most))
}

fn is_same(word: &str, name: &[u8]) -> bool
    ensures { result ≡ bytes_eq word.now name.now }
{
    word.as_bytes() == name
}

fn is_listed(keys: &str, name: &[u8]) -> bool
    ensures { result ≡ is_listed keys.now name.now }
{
    keys.split(' ').any(|word| is_same(word, name))
}

fn are_listed(keys: &str, parts: &[Part]) -> bool
    ensures { result ≡ list_all (λ part. is_listed keys.now part.key.now) parts.now }
{
    parts.iter().all(|part| is_listed(keys, part.key))
}

/// Asks that no part has a key but these, which are given in one text with one space between neighbours.
#[tactic(auto, using(crate::proofs::Keeping::parts_listed))]
fn nothing_but(parts: &[Part], keys: &str) -> Result<(), Spot>
    ensures { told result ≡ nothing_but keys.now (parts_data parts.now) }
{
    if are_listed(keys, parts) {
        Ok(())
    } else {
        Err(Spot {
            kind: FaultKind::Unknown,
            key: None,
        })
    }
}

/// Asks for a variable's value.
#[tactic(auto, using(crate::proofs::Judging::judged_found))]
fn judge_scalar(parts: &[Part], key: Key) -> Result<(), Spot>
    ensures { told result ≡ judged (required (key_text key) scalar (parts_data parts.now)) }
{
    match scalar_fault(parts, key) {
        None => Ok(()),
        Some(kind) => Err(Spot {
            kind,
            key: Some(key),
        }),
    }
}

fn judge_variable(parts: &[Part]) -> Result<(), Spot>
    ensures { told result ≡ variable_judged (parts_data parts.now) }
{
    ask_count(parts, Key::At, u64::MAX)?;
    ask_name(parts, Key::Tag)?;
    ask_name(parts, Key::Name)?;
    judge_scalar(parts, Key::Value)?;
    nothing_but(parts, "ev at tag name value")
}

#[tactic(auto, unfolding(event_json::specs::Forms::control_in))]
fn judge_control(parts: &[Part]) -> Result<ServiceControl, Spot>
    ensures { told result ≡ control_in (parts_data parts.now) }
{
    let state = keyed(Key::StateCur, get_state(parts, Key::StateCur))?;
    let mask = ask_count(parts, Key::CommandEn, u32::MAX as u64)?;
    let mode = keyed(Key::Mode, get_mode(parts, Key::Mode))?;
    let origin = keyed(Key::Src, get_origin(parts, Key::Src))?;
    let procedure = ask_count(parts, Key::ProcedureCur, u16::MAX as u64)?;
    Ok(ServiceControl {
        state,
        mask: mask as u32,
        mode,
        origin,
        procedure: procedure as u16,
    })
}

fn judge_report(parts: &[Part]) -> Result<(), Spot>
    ensures { told result ≡ report_judged (parts_data parts.now) }
{
    ask_count(parts, Key::At, u64::MAX)?;
    ask_name(parts, Key::Tag)?;
    ask_name(parts, Key::Service)?;
    judge_control(parts)?;
    nothing_but(
        parts,
        "ev at tag service StateCur CommandEn Mode Src ProcedureCur",
    )
}

fn judge_desk(parts: &[Part]) -> Result<(), Spot>
    ensures { told result ≡ desk_judged (parts_data parts.now) }
{
    ask_count(parts, Key::At, u64::MAX)?;
    ask_name(parts, Key::Tag)?;
    ask_name(parts, Key::Service)?;
    keyed(Key::CommandOp, get_command(parts, Key::CommandOp))?;
    nothing_but(parts, "ev at tag service CommandOp")
}

fn judge_cancel(parts: &[Part]) -> Result<(), Spot>
    ensures { told result ≡ cancel_judged (parts_data parts.now) }
{
    ask_count(parts, Key::At, u64::MAX)?;
    ask_name(parts, Key::Tag)?;
    ask_count(parts, Key::Ticket, u32::MAX as u64)?;
    nothing_but(parts, "ev at tag ticket")
}

fn judge_tag(parts: &[Part]) -> Result<(), Spot>
    ensures { told result ≡ tag_judged (parts_data parts.now) }
{
    ask_count(parts, Key::At, u64::MAX)?;
    ask_name(parts, Key::Tag)?;
    nothing_but(parts, "ev at tag")
}

fn judge_batch(parts: &[Part]) -> Result<(), Spot>
    ensures { told result ≡ batch_judged (parts_data parts.now) }
{
    ask_count(parts, Key::At, u64::MAX)?;
    ask_name(parts, Key::Batch)?;
    nothing_but(parts, "ev at batch")
}

fn judge_kind(parts: &[Part], kind: EventKind) -> Result<(), Spot>
    ensures { told result ≡ judged_by (parts_data parts.now) kind }
{
    match kind {
        EventKind::Variable => judge_variable(parts),
        EventKind::Report => judge_report(parts),
        EventKind::Desk => judge_desk(parts),
        EventKind::ExchangeCancel => judge_cancel(parts),
        EventKind::Unplug | EventKind::ExchangeBegin => judge_tag(parts),
        EventKind::Advance | EventKind::Thaw | EventKind::Stop | EventKind::Abandon => judge_batch(
            parts,
        ),
        _ => Ok(()),
    }
}

fn judge_named_desk(parts: &[Part]) -> Result<(), Spot>
    ensures { told result ≡ named_desk_judged (parts_data parts.now) }
{
    ask_count(parts, Key::At, u64::MAX)?;
    ask_name(parts, Key::By)?;
    ask_name(parts, Key::Tag)?;
    ask_name(parts, Key::Service)?;
    keyed(Key::CommandOp, get_command(parts, Key::CommandOp))?;
    nothing_but(parts, "ev at by tag service CommandOp")
}

/// What is wrong with a line of a kind, under a policy where `guarded` says so.
fn judge_guarded(parts: &[Part], kind: EventKind, guarded: bool) -> Result<(), Spot>
    ensures { told result ≡ kind_judged guarded (parts_data parts.now) kind }
{
    match kind {
        EventKind::Desk if guarded => judge_named_desk(parts),
        _ => judge_kind(parts, kind),
    }
}

/// The spot at which a flat line is at fault, under a policy where `guarded` says so; Ok for some lines at fault, and
/// for each that says an event.
pub fn judge(parts: &[Part], guarded: bool) -> Result<(), Spot>
    ensures { told result ≡ line_judged guarded (parts_data parts.now) }
{
    let kind = keyed(Key::Ev, get_kind(parts, Key::Ev))?;
    judge_guarded(parts, kind, guarded)
}
