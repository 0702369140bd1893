//! The path to a part of a JSON value.

ghost use Rattle.std.specs.Prelude.{◌≡◌, ◌++◌, ◌∷◌, [], IfOk, OnOk, OnErr, decimal};
ghost use Rattle.std.specs.Str.{IsUtf8};
ghost use Rattle.mtp_json.specs.PathText.{part_text, path_text, with_dot};

use mtp_codes::Name;
use std::alloc::{AllocError, Global};
use std::marker::Model;

/// One step into a JSON value: the member of an object at a key, or the item of a list at a place (from 0).
#[derive(Clone, Copy, PartialEq, Eq)]
pub enum PathPart {
    Key(Name),
    Place(u64),
}

/// The steps from a whole JSON value to a part of it, seen as the list of its parts.
#[derive(Drop)]
pub struct Path {
    parts: Vec<PathPart>,
}

impl Model for Path {
    ghost use Rattle.std.specs.Prelude.{List};
    ghost use Rattle.mtp_json.specs.declared.path.PathPart.{PathPart};

    ghost Value = { List PathPart };

    ghost view = { λ path. path.parts.items };
}

fn put_text(out: &mut Vec<u8>, text: &str) -> Result<(), AllocError>
    ensures bytes { OnOk result (out.new.items ≡ out.old.items ++ text.now) }
    ensures utf8 { OnOk result (IsUtf8 out.old.items → IsUtf8 out.new.items) }
{
    out.extend_from_slice(text.as_bytes())
}

fn put_number(out: &mut Vec<u8>, number: u64) -> Result<(), AllocError>
    ensures bytes { OnOk result (out.new.items ≡ out.old.items ++ decimal number) }
    ensures utf8 { OnOk result (IsUtf8 out.old.items → IsUtf8 out.new.items) }
{
    let mut buffer = itoa::Buffer::new();
    put_text(out, buffer.format(number))
}

fn put_part(out: &mut Vec<u8>, part: &PathPart) -> Result<(), AllocError>
    ensures bytes { OnOk result (out.new.items ≡ out.old.items ++ part_text part.now) }
    ensures utf8 { OnOk result (IsUtf8 out.old.items → IsUtf8 out.new.items) }
{
    match part {
        PathPart::Key(name) => put_text(out, name.as_str()),
        PathPart::Place(place) => put_number(out, *place),
    }
}

fn put_step(out: &mut Vec<u8>, count: usize, part: &PathPart) -> Result<(), AllocError>
    ensures bytes { OnOk result (out.new.items ≡ with_dot count out.old.items ++ part_text part.now) }
    ensures utf8 { OnOk result (IsUtf8 out.old.items → IsUtf8 out.new.items) }
{
    if count != 0 {
        put_text(out, ".")?;
    }
    put_part(out, part)
}

fn parts_text(alloc: Global, parts: &[PathPart]) -> Result<Vec<u8>, AllocError>
    ensures bytes { IfOk result (λ text. text.items ≡ path_text parts.now) }
    ensures utf8 { IfOk result (λ text. IsUtf8 text.items) }
{
    let mut out = Vec::new(alloc);
    for (i, part) in parts.iter().enumerate() {
        put_step(&mut out, i, part)?;
    }
    Ok(out)
}

impl Path {
    /// The empty path, that of the whole value.
    pub fn new(alloc: Global) -> Path
        ensures { result ≡ [] }
    {
        Path {
            parts: Vec::new(alloc),
        }
    }

    /// Puts a part at the end. After AllocError the path is unchanged.
    pub fn add(&mut self, part: PathPart) -> Result<(), AllocError>
        ensures ok { OnOk result (self.new ≡ self.old ++ part ∷ []) }
        ensures unchanged { OnErr result (self.new ≡ self.old) }
    {
        self.parts.push(part)?;
        Ok(())
    }

    /// Puts a part in front. After AllocError the path is unchanged.
    pub fn add_first(&mut self, part: PathPart) -> Result<(), AllocError>
        ensures ok { OnOk result (self.new ≡ part ∷ self.old) }
        ensures unchanged { OnErr result (self.new ≡ self.old) }
    {
        self.parts.insert(0, part)?;
        Ok(())
    }

    /// The parts joined with `.`, a place in decimal; the empty path has the empty text. The bytes are UTF-8.
    pub fn text(&self, alloc: Global) -> Result<Vec<u8>, AllocError>
        ensures bytes { IfOk result (λ text. text.items ≡ path_text self.now) }
        ensures utf8 { IfOk result (λ text. IsUtf8 text.items) }
    {
        parts_text(alloc, &self.parts)
    }
}
