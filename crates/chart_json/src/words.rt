//! Operators by their words.

ghost use Rattle.chart_json.specs.Words.{op_words};

use chart_core::Op;
use mtp_json::Words;

/// The words of the operators of tests.
pub struct OpWords;

impl Words for OpWords {
    type Item = Op;

    ghost words = { op_words };

    fn of_text(text: &str) -> Option<Op> {
        match text {
            "lt" => Some(Op::Lt),
            "le" => Some(Op::Le),
            "eq" => Some(Op::Eq),
            "ne" => Some(Op::Ne),
            "ge" => Some(Op::Ge),
            "gt" => Some(Op::Gt),
            _ => None,
        }
    }
}
