//! Pieces at the front of a text.
ghost use Rattle.std.specs.Prelude.{◌≡◌, ◌++◌, IfSome, IsTrue};
ghost use Rattle.std.specs.Bool.{Decides};
ghost use Rattle.std.specs.Str.{IsUtf8};
ghost use Rattle.pol_lines.specs.Begins.{last_of};

/// What follows the piece, where the text begins with it.
#[inline(always)]
#[tactic(auto, using(crate::proofs::Cutting::front_and_rest))]
pub fn eat<'a>(text: &'a [u8], piece: &[u8]) -> Option<&'a [u8]>
    ensures { IfSome result (λ rest. text.now ≡ piece.now ++ rest.now) }
{
    if text.len() >= piece.len() && &text[..piece.len()] == piece {
        Some(&text[piece.len()..])
    } else {
        None
    }
}

/// The last bytes of a text, this many; all of them, where it has fewer.
#[inline(always)]
#[tactic(auto, using(crate::proofs::Cutting::last_cut))]
pub fn last(text: &[u8], count: usize) -> &[u8]
    ensures { result.now ≡ last_of count text.now }
{
    &text[text.len().saturating_sub(count)..]
}

/// Whether a text is this word.
#[inline(always)]
pub fn is_word(text: &[u8], word: &[u8]) -> bool
    ensures { Decides result (text.now ≡ word.now) }
{
    text == word
}

/// Whether the bytes are UTF-8.
pub fn is_text(bytes: &[u8]) -> bool
    ensures { IsTrue result → IsUtf8 bytes.now }
{
    match std::str::from_utf8(bytes) {
        Ok(_text) => true,
        Err(_) => false,
    }
}
