//! The kinds of events by the words of `ev`.
ghost use Rattle.event_json.specs.Words.{kind_words};

use mtp_json::Words;

/// The kind of an event, as `ev` names it.
#[derive(Clone, Copy, Debug, PartialEq, Eq)]
pub enum EventKind {
    Plug,
    Unplug,
    Report,
    Variable,
    Recipe,
    Start,
    Advance,
    Freeze,
    Thaw,
    Stop,
    Abandon,
    Desk,
    ExchangeBegin,
    ExchangeEnd,
    ExchangeCancel,
}

/// A kind of event that names a tag and nothing more.
#[derive(Clone, Copy)]
pub enum TagKind {
    Unplug,
    ExchangeBegin,
}

/// A kind of event that names a batch and nothing more.
#[derive(Clone, Copy)]
pub enum BatchKind {
    Advance,
    Thaw,
    Stop,
    Abandon,
}

/// The words of `ev`.
pub struct KindWords;

impl Words for KindWords {
    type Item = EventKind;

    ghost words = { kind_words };

    fn of_text(text: &str) -> Option<EventKind> {
        match text {
            "plug" => Some(EventKind::Plug),
            "unplug" => Some(EventKind::Unplug),
            "report" => Some(EventKind::Report),
            "variable" => Some(EventKind::Variable),
            "recipe" => Some(EventKind::Recipe),
            "start" => Some(EventKind::Start),
            "advance" => Some(EventKind::Advance),
            "freeze" => Some(EventKind::Freeze),
            "thaw" => Some(EventKind::Thaw),
            "stop" => Some(EventKind::Stop),
            "abandon" => Some(EventKind::Abandon),
            "desk" => Some(EventKind::Desk),
            "exchange_begin" => Some(EventKind::ExchangeBegin),
            "exchange_end" => Some(EventKind::ExchangeEnd),
            "exchange_cancel" => Some(EventKind::ExchangeCancel),
            _ => None,
        }
    }
}
