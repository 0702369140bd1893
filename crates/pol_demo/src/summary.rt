//! The summary of a history, and its line.
ghost use Rattle.std.specs.Prelude.{◌≡◌, false, IfOk};
ghost use Rattle.serde_json.specs.View.{view};
ghost use Rattle.serde_json.specs.Written.{has_float};
ghost use Rattle.pol_events.specs.Events.{plain_history};
ghost use Rattle.pol_demo.specs.Summary.{demo_output, summary_data, summary_of, summary_text};

use crate::journal::tell_journal;
use chart_core::Outcome;
use pol_events::{Answer, Entry};
use serde_json::{Value, json};
use std::alloc::{AllocError, Global};

/// How many answers there are, how many of them close a completed batch, and how many refuse an event.
#[derive(Clone, Copy, Debug, PartialEq, Eq)]
pub struct Summary {
    pub answers: u64,
    pub closed: u64,
    pub refused: u64,
}

/// The summary of a history.
pub fn summary_of(history: &[Entry]) -> Summary
    ensures { result ≡ summary_of (plain_history history.now) }
{
    let mut closed = 0;
    let mut refused = 0;
    for entry in history {
        match entry.answer {
            Answer::Closed(Outcome::Completed) => closed += 1,
            Answer::Refused(_) => refused += 1,
            _ => {}
        }
    }
    Summary {
        answers: history.len() as u64,
        closed,
        refused,
    }
}

#[tactic(auto, unfolding(crate::specs::Summary::summary_data))]
fn summary_value(alloc: Global, summary: &Summary) -> Result<Value, AllocError>
    ensures value { IfOk result (λ value. view value ≡ summary_data summary.now) }
    ensures whole { IfOk result (λ value. has_float (view value) ≡ false) }
{
    let Summary {
        answers,
        closed,
        refused,
    } = *summary;
    json!(in alloc; {"answers": answers, "closed": closed, "refused": refused})
}

/// The line of a summary: a JSON object in compact text, and a line feed.
pub fn summary_line(alloc: Global, summary: &Summary) -> Result<Vec<u8>, AllocError>
    ensures { IfOk result (λ line. line.items ≡ summary_text summary.now) }
{
    let value = summary_value(alloc, summary)?;
    let mut line = value.to_vec(alloc)?;
    line.push(b'\n')?;
    Ok(line)
}

/// The line of the demo of a seed: the summary of what is answered to its journal.
///
/// # Errors
///
/// AllocError where there is no memory.
pub fn demo_line(alloc: Global, seed: u32) -> Result<Vec<u8>, AllocError>
    ensures { IfOk result (λ line. line.items ≡ demo_output seed) }
{
    let teller = tell_journal(alloc, seed)?;
    summary_line(alloc, &summary_of(teller.plant.history()))
}
