//! The words of `Mode` and `Src`, both ways.
ghost use Rattle.std.specs.Prelude.{◌≡◌};
ghost use Rattle.event_json.specs.Words.{mode_words, origin_words};
ghost use Rattle.event_json.specs.Written.{mode_word, origin_word};

use mtp_codes::{Mode, Origin};
use mtp_json::Words;

/// The words of `Mode`.
pub struct ModeWords;

impl Words for ModeWords {
    type Item = Mode;

    ghost words = { mode_words };

    fn of_text(text: &str) -> Option<Mode> {
        match text {
            "Off" => Some(Mode::Off),
            "Operator" => Some(Mode::Operator),
            "Automatic" => Some(Mode::Automatic),
            _ => None,
        }
    }
}

/// The words of `Src`.
pub struct OriginWords;

impl Words for OriginWords {
    type Item = Origin;

    ghost words = { origin_words };

    fn of_text(text: &str) -> Option<Origin> {
        match text {
            "Internal" => Some(Origin::Internal),
            "External" => Some(Origin::External),
            _ => None,
        }
    }
}

/// The word that names a mode.
pub fn mode_word(mode: Mode) -> &'static str
    ensures { result.now ≡ mode_word mode }
{
    match mode {
        Mode::Off => "Off",
        Mode::Operator => "Operator",
        Mode::Automatic => "Automatic",
    }
}

/// The word that names a source of commands.
pub fn origin_word(origin: Origin) -> &'static str
    ensures { result.now ≡ origin_word origin }
{
    match origin {
        Origin::Internal => "Internal",
        Origin::External => "External",
    }
}
