//! The body of a record, written and read.
ghost use Rattle.std.specs.Prelude.{◌≡◌, ◌++◌, ◌∷◌, List, ℕ, IfNone, IfOk, IfSome, OnOk, Option};
ghost use Rattle.pol_kept.specs.Names.{SoundOption};
ghost use Rattle.pol_ledger.specs.Items.{IsInForm, IsSound, IsWho, asked, header, body_of, plain_asked, plain_item, who_bytes};
ghost use Rattle.pol_ledger.specs.Read.{BeginsWithNobody, BeginsWithWho, NamesBuild, NamesItem};

use crate::build::Build;
use crate::items::{Asked, LedgerItem};
use mtp_codes::Name;
use pol_store::{event_of_text, put_event_text};
use std::alloc::{AllocError, Global};

/// The version of the form, the second byte of a header.
pub const FORM: u8 = 1;

// The first byte of a header's body, and of an event's.
const HEADER: u8 = 0;

const ASKED: u8 = 1;

// Puts who asked behind what a buffer holds.
fn put_who(out: &mut Vec<u8>, by: Option<Name>) -> Result<(), AllocError>
    ensures bytes { OnOk result (out.new.items ≡ out.old.items ++ who_bytes by) }
    ensures form { IsWho by }
{
    match by {
        Some(name) => {
            let bytes = name.as_bytes();
            out.push(bytes.len() as u8)?;
            out.extend_from_slice(bytes)?;
        }
        None => out.push(0)?,
    }
    Ok(())
}

// The body of a header.
fn header_body(alloc: Global, build: &Build) -> Result<Vec<u8>, AllocError>
    ensures body { IfOk result (λ body. body.items ≡ body_of (header build.now)) }
    ensures form { IsInForm (header build.now) }
{
    let bytes = build.as_bytes();
    let mut body = Vec::new(alloc);
    body.push(HEADER)?;
    body.push(FORM)?;
    body.extend_from_slice(bytes)?;
    Ok(body)
}

// The body of an event that was asked for.
fn asked_body(alloc: Global, one: &Asked) -> Result<Vec<u8>, AllocError>
    requires { IsSound (asked (plain_asked one.now)) }
    ensures body { IfOk result (λ body. body.items ≡ body_of (asked (plain_asked one.now))) }
    ensures form { OnOk result (IsInForm (asked (plain_asked one.now))) }
{
    let mut body = Vec::new(alloc);
    body.push(ASKED)?;
    put_who(&mut body, one.by)?;
    put_event_text(alloc, &mut body, &one.event)?;
    Ok(body)
}

/// The body of an item.
pub fn body_of(alloc: Global, item: &LedgerItem) -> Result<Vec<u8>, AllocError>
    requires { IsSound (plain_item item.now) }
    ensures body { IfOk result (λ body. body.items ≡ body_of (plain_item item.now)) }
    ensures form { OnOk result (IsInForm (plain_item item.now)) }
{
    match item {
        LedgerItem::Header(build) => header_body(alloc, build),
        LedgerItem::Asked(one) => asked_body(alloc, one),
    }
}

// The build of a header's body, of which this follows the kind.
fn build_of(rest: &[u8]) -> Option<Build>
    ensures { NamesBuild rest.now result }
{
    match rest.split_first() {
        Some((&FORM, bytes)) => Build::of_bytes(bytes),
        _ => None,
    }
}

// Who asked, and what follows that.
fn who_of(bytes: &[u8]) -> Option<(Option<Name>, &[u8])>
    ensures some { IfSome result (λ cut. BeginsWithWho bytes.now cut.0 cut.1.now) }
    ensures none { IfNone result (BeginsWithNobody bytes.now) }
{
    let (len, rest) = bytes.split_first()?;
    if *len == 0 {
        return Some((None, rest));
    }
    let (name, behind) = rest.split_at_checked(*len as usize)?;
    match Name::of_bytes(name) {
        Some(name) => Some((Some(name), behind)),
        None => None,
    }
}

/// The item whose body this is; None where it is that of none. The buffer is room to work in.
pub fn item_of(
    alloc: Global,
    body: &[u8],
    room: &mut Vec<u8>,
) -> Result<Option<LedgerItem>, AllocError>
    ensures names { IfOk result (NamesItem body.now) }
    ensures sound { IfOk result (SoundOption IsSound plain_item) }
{
    let Some((kind, rest)) = body.split_first() else {
        return Ok(None);
    };
    if *kind == HEADER {
        return Ok(build_of(rest).map(LedgerItem::Header));
    }
    if *kind != ASKED {
        return Ok(None);
    }
    let Some((by, text)) = who_of(rest) else {
        return Ok(None);
    };
    match event_of_text(alloc, text, room)? {
        Some(event) => Ok(Some(LedgerItem::Asked(Asked { event, by }))),
        None => Ok(None),
    }
}
