//! The kinds of questions by the words of `ask`.
ghost use Rattle.question_lines.specs.Words.{ask_words};

use mtp_json::Words;

/// The kind of a question, as `ask` names it.
#[derive(Clone, Copy)]
pub enum AskKind {
    Would,
    Plant,
    Bindings,
    Entries,
}

/// The words of `ask`.
pub struct AskWords;

impl Words for AskWords {
    type Item = AskKind;

    ghost words = { ask_words };

    fn of_text(text: &str) -> Option<AskKind> {
        match text {
            "would" => Some(AskKind::Would),
            "plant" => Some(AskKind::Plant),
            "bindings" => Some(AskKind::Bindings),
            "entries" => Some(AskKind::Entries),
            _ => None,
        }
    }
}
