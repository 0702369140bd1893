//! Kinds of parameters and variables by their names.

ghost use Rattle.desc_json.specs.Words.{param_words, variable_words};

use mtp_assembly::ViewKind;
use mtp_json::Words;

/// The kind of a parameter, before its range is known.
#[derive(Clone, Copy)]
pub enum ParamWord {
    Ana,
    DInt,
    Bin,
    Text,
}

/// The names of the kinds of parameters.
pub struct ParamWords;

impl Words for ParamWords {
    type Item = ParamWord;

    ghost words = { param_words };

    fn of_text(text: &str) -> Option<ParamWord> {
        match text {
            "AnaServParam" => Some(ParamWord::Ana),
            "DIntServParam" => Some(ParamWord::DInt),
            "BinServParam" => Some(ParamWord::Bin),
            "StringServParam" => Some(ParamWord::Text),
            _ => None,
        }
    }
}

/// The names of the kinds of variables.
pub struct VariableWords;

impl Words for VariableWords {
    type Item = ViewKind;

    ghost words = { variable_words };

    fn of_text(text: &str) -> Option<ViewKind> {
        match text {
            "AnaView" => Some(ViewKind::Ana),
            "DIntView" => Some(ViewKind::DInt),
            "BinView" => Some(ViewKind::Bin),
            "StringView" => Some(ViewKind::Text),
            _ => None,
        }
    }
}
