//! Short texts.
ghost use Rattle.std.specs.Prelude.{◌≡◌, Some, None, IsTrue, if◌then◌else◌};
ghost use Rattle.mtp_codes.specs.Texts.{is_short};

use std::fmt;
use std::marker::Model;

/// A text of at most 254 bytes of UTF-8, kept inline.
#[derive(Clone, Copy)]
pub struct Short {
    bytes: [u8; 254],
    len: u8,
}

impl Model for Short {
    ghost use Rattle.std.specs.Prelude.{List, ℕ, take};
    ghost use Rattle.mtp_codes.specs.Texts.{IsKeptText};
    ghost use Rattle.mtp_codes.specs.Fields.{text_fields, text_fields-kept};

    ghost Value = { List ℕ };

    ghost view = { λ text. take text.len text.bytes };

    ghost invariant = { λ text. IsKeptText text.bytes text.len };

    ghost inverse = { text_fields };

    ghost inverse_ok = { text_fields-kept };
}

impl Short {
    /// This text, kept inline; None exactly where it is longer than 254 bytes.
    pub fn of_text(text: &str) -> Option<Short>
        ensures { result ≡ if is_short text.now then Some text.now else None }
    {
        let bytes = text.as_bytes();
        if bytes.len() > 254 {
            return None;
        }
        let mut kept = [0u8; 254];
        kept[..bytes.len()].copy_from_slice(bytes);
        Some(Short {
            bytes: kept,
            len: bytes.len() as u8,
        })
    }

    /// The text.
    pub fn as_str(&self) -> &str
        ensures text { result.now ≡ self.now }
        ensures form { IsTrue (is_short self.now) }
    {
        unsafe { std::str::from_utf8_unchecked(&self.bytes[..self.len as usize]) }
    }
}

impl fmt::Debug for Short {
    fn fmt<W: fmt::Write>(&self, f: &mut fmt::Formatter<W>) -> fmt::Result {
        fmt::Debug::fmt(self.as_str(), f)
    }
}

impl PartialEq for Short {
    ghost use Rattle.std.specs.Prelude.{nat_eq};
    ghost use Rattle.std.specs.Cmp.Lexicographic.{pointwise, lists_per};
    ghost use Rattle.std.specs.Cmp.Rules.{comparing};
    ghost use Rattle.std.proofs.Common.{rules};

    ghost eq = { pointwise nat_eq };

    ghost laws = { Prim.search (comparing, rules) };

    fn eq(&self, other: &Short) -> bool {
        self.as_str() == other.as_str()
    }
}

impl Eq for Short {
    ghost use Rattle.std.specs.Cmp.Rules.{comparing};
    ghost use Rattle.std.proofs.Common.{rules};

    ghost laws = { Prim.search (comparing, rules) };
}
