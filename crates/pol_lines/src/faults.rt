//! The faults of flat lines, and of lines that are no JSON by their ends.
ghost use Rattle.std.specs.Prelude.{◌≡◌, [], Err, IfSome, IsTrue};
ghost use Rattle.std.specs.Str.{IsUtf8};
ghost use Rattle.event_json.specs.Guarded.{guarded_of};
ghost use Rattle.event_json.specs.Lines.{event_of};
ghost use Rattle.event_json.specs.Version1.{event_of_version_1};
ghost use Rattle.event_json.specs.declared.fault.LineFault.TheVariants.{Json};
ghost use Rattle.pol_lines.specs.Faults.{IsFault};
ghost use Rattle.pol_lines.specs.Spots.{fault_at};

use crate::key::text_of;
use crate::no_json::is_no_json;
use crate::parts::{read_held, read_parts};
use crate::pieces::is_text;
use crate::spots::{Spot, judge};
use arrayvec::ArrayVec;
use event_json::LineFault;
use mtp_codes::Name;
use mtp_json::{FaultKind, JsonFault, Path, PathPart};
use std::alloc::Global;

/// The fault at a spot; None without memory.
fn fault_at(alloc: Global, spot: Spot) -> Option<JsonFault>
    ensures { IfSome result (λ fault. fault ≡ fault_at spot) }
{
    let mut path = Path::new(alloc);
    if let Some(key) = spot.key {
        let Ok(()) = path.add(PathPart::Key(Name::of_bytes(text_of(key))?)) else {
            return None;
        };
    }
    Some(JsonFault {
        kind: spot.kind,
        path,
    })
}

/// Whether nothing comes behind a value, and the line is text.
fn is_whole(rest: &[u8], line: &[u8]) -> bool
    ensures ended { IsTrue result → rest.now ≡ [] }
    ensures text { IsTrue result → IsUtf8 line.now }
{
    rest.is_empty() && is_text(line)
}

/// The spot at which a line of one flat object is at fault; under a policy, where `guarded` says so.
fn object_spot(line: &[u8], guarded: bool) -> Option<Spot>
    ensures { IfSome result (λ spot. IsFault guarded line.now (Json (fault_at spot))) }
{
    let mut parts = ArrayVec::new();
    let rest = read_parts(line, &mut parts)?;
    if !is_whole(rest, line) {
        return None;
    }
    match judge(parts.as_slice(), guarded) {
        Ok(()) => None,
        Err(spot) => Some(spot),
    }
}

/// The spot at which a line is at fault that is no object.
fn other_spot(line: &[u8], guarded: bool) -> Option<Spot>
    ensures { IfSome result (λ spot. IsFault guarded line.now (Json (fault_at spot))) }
{
    let (_held, rest) = read_held(line)?;
    if !is_whole(rest, line) {
        return None;
    }
    Some(Spot {
        kind: FaultKind::WrongKind,
        key: None,
    })
}

/// The spot at which a line is at fault, under a policy where `guarded` says so.
fn line_spot(line: &[u8], guarded: bool) -> Option<Spot>
    ensures { IfSome result (λ spot. IsFault guarded line.now (Json (fault_at spot))) }
{
    if is_no_json(line) {
        return Some(Spot {
            kind: FaultKind::NotJson,
            key: None,
        });
    }
    match line {
        [b'{', ..] => object_spot(line, guarded),
        _ => other_spot(line, guarded),
    }
}

/// The fault of a compact line, under a policy where `guarded` says so.
#[tactic(auto, using(crate::proofs::Judging::fault_told))]
fn line_fault(alloc: Global, line: &[u8], guarded: bool) -> Option<LineFault>
    ensures { IfSome result (IsFault guarded line.now) }
{
    let spot = line_spot(line, guarded)?;
    let fault = fault_at(alloc, spot)?;
    Some(LineFault::Json(fault))
}

/// The fault of a compact line that says no event, in a journal of either version; None for some such lines, and for
/// each that says one. It is read without a tree: a flat object, in which lists and null may occur too, a
/// list, a text, a number, a truth value, null, and what is no JSON by its first or last byte.
#[inline(never)]
pub fn read_fault(alloc: Global, line: &[u8]) -> Option<LineFault>
    ensures journal { IfSome result (λ fault. event_of line.now ≡ Err fault) }
    ensures version_1 { IfSome result (λ fault. event_of_version_1 line.now ≡ Err fault) }
{
    line_fault(alloc, line, false)
}

/// The fault of a compact line that says no event, in a journal under a policy; None for some such lines, and for each
/// that says one.
#[inline(never)]
pub fn read_guarded_fault(alloc: Global, line: &[u8]) -> Option<LineFault>
    ensures { IfSome result (λ fault. guarded_of line.now ≡ Err fault) }
{
    line_fault(alloc, line, true)
}
