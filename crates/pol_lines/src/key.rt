//! The keys of flat lines.
ghost use Rattle.std.specs.Prelude.{◌≡◌, ◌++◌, IfSome};
ghost use Rattle.pol_lines.specs.Keys.{key_piece, key_text};

use crate::pieces::eat;

/// A key of a line whose values are numbers, texts and truth values.
#[derive(Clone, Copy, PartialEq, Eq)]
pub enum Key {
    At,
    Ev,
    Tag,
    Name,
    Value,
    Service,
    Batch,
    By,
    Ticket,
    StateCur,
    CommandEn,
    CommandOp,
    Mode,
    Src,
    ProcedureCur,
    Role,
    TypeName,
    Version,
    Step,
    Procedure,
    Recipe,
    Kind,
    Min,
    Max,
    Number,
    IsDefault,
    SelfCompleting,
    Test,
    Op,
}

/// A key as a line writes it.
fn piece_of(key: Key) -> &'static [u8]
    ensures { result.now ≡ key_piece key }
{
    match key {
        Key::At => b"\"at\":",
        Key::Ev => b"\"ev\":",
        Key::Tag => b"\"tag\":",
        Key::TypeName => b"\"type\":",
        Key::Test => b"\"test\":",
        Key::Ticket => b"\"ticket\":",
        Key::Name => b"\"name\":",
        Key::Number => b"\"number\":",
        Key::Value => b"\"value\":",
        Key::Version => b"\"version\":",
        Key::Service => b"\"service\":",
        Key::SelfCompleting => b"\"self_completing\":",
        Key::Step => b"\"step\":",
        Key::Role => b"\"role\":",
        Key::Recipe => b"\"recipe\":",
        Key::Op => b"\"op\":",
        Key::Procedure => b"\"procedure\":",
        Key::Kind => b"\"kind\":",
        Key::Min => b"\"min\":",
        Key::Max => b"\"max\":",
        Key::IsDefault => b"\"default\":",
        Key::Batch => b"\"batch\":",
        Key::By => b"\"by\":",
        Key::StateCur => b"\"StateCur\":",
        Key::Src => b"\"Src\":",
        Key::CommandOp => b"\"CommandOp\":",
        Key::Mode => b"\"Mode\":",
        Key::ProcedureCur => b"\"ProcedureCur\":",
        Key::CommandEn => b"\"CommandEn\":",
    }
}

/// The text of a key.
pub fn text_of(key: Key) -> &'static [u8]
    ensures { result.now ≡ key_text key }
{
    match key {
        Key::At => b"at",
        Key::Ev => b"ev",
        Key::Tag => b"tag",
        Key::TypeName => b"type",
        Key::Test => b"test",
        Key::Ticket => b"ticket",
        Key::Name => b"name",
        Key::Number => b"number",
        Key::Value => b"value",
        Key::Version => b"version",
        Key::Service => b"service",
        Key::SelfCompleting => b"self_completing",
        Key::Step => b"step",
        Key::Role => b"role",
        Key::Recipe => b"recipe",
        Key::Op => b"op",
        Key::Procedure => b"procedure",
        Key::Kind => b"kind",
        Key::Min => b"min",
        Key::Max => b"max",
        Key::IsDefault => b"default",
        Key::Batch => b"batch",
        Key::By => b"by",
        Key::StateCur => b"StateCur",
        Key::Src => b"Src",
        Key::CommandOp => b"CommandOp",
        Key::Mode => b"Mode",
        Key::ProcedureCur => b"ProcedureCur",
        Key::CommandEn => b"CommandEn",
    }
}

/// One key where the letter comes next, and another where it doesn't.
#[inline(always)]
fn by_letter(rest: &[u8], letter: u8, key: Key, other: Key) -> Key {
    match rest {
        [next, ..] if *next == letter => key,
        _ => other,
    }
}

/// The only key that a text may begin with, by its first letters behind the quote.
#[inline(always)]
fn candidate(text: &[u8]) -> Option<Key> {
    let [_, first, rest @ ..] = text else {
        return None;
    };
    let key = match first {
        b'a' => Key::At,
        b'e' => Key::Ev,
        b't' => match rest {
            [b'a', ..] => Key::Tag,
            [b'y', ..] => Key::TypeName,
            [b'e', ..] => Key::Test,
            _ => Key::Ticket,
        },
        b'n' => by_letter(rest, b'a', Key::Name, Key::Number),
        b'v' => by_letter(rest, b'a', Key::Value, Key::Version),
        b's' => match rest {
            [_, b'r', ..] => Key::Service,
            [_, b'l', ..] => Key::SelfCompleting,
            _ => Key::Step,
        },
        b'r' => by_letter(rest, b'o', Key::Role, Key::Recipe),
        b'o' => Key::Op,
        b'p' => Key::Procedure,
        b'k' => Key::Kind,
        b'm' => by_letter(rest, b'i', Key::Min, Key::Max),
        b'd' => Key::IsDefault,
        b'b' => by_letter(rest, b'a', Key::Batch, Key::By),
        b'S' => by_letter(rest, b't', Key::StateCur, Key::Src),
        b'C' => match rest {
            [_, _, _, _, _, _, b'E', ..] => Key::CommandEn,
            _ => Key::CommandOp,
        },
        b'M' => Key::Mode,
        b'P' => Key::ProcedureCur,
        _ => return None,
    };
    Some(key)
}

/// The key at the front of a text, with what follows its colon.
// It is small, so that the compiler does inline it.
#[inline(always)]
pub fn read_key(text: &[u8]) -> Option<(Key, &[u8])>
    ensures { IfSome result (λ read. text.now ≡ key_piece read.0 ++ read.1.now) }
{
    let key = candidate(text)?;
    let rest = eat(text, piece_of(key))?;
    Some((key, rest))
}
