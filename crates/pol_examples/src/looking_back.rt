//! A journal's output, each answer worked out by looking back over the history: no part of a plant has a hand in it.
ghost use Rattle.std.specs.Prelude.{IfOk};
ghost use Rattle.pol_events.specs.Events.{plain_history};
ghost use Rattle.pol_history.specs.Runs.{IsOrderly};

use event_json::{LineRefusal, read_event};
use pol_audit::says;
use pol_events::{Answer, Entry, Event, Rule};
use pol_record::{answer_line, batch_line, end_line, fault_line};
use std::alloc::{AllocError, Global};

// Puts the answer to each line, and gives the history.
fn put_answers(alloc: Global, journal: &str, output: &mut Vec<u8>) -> Result<Vec<Entry>, AllocError>
    ensures { IfOk result (λ history. IsOrderly (plain_history history.items)) }
{
    let mut history = Vec::new(alloc);
    for line in journal.split('\n') {
        if line.trim().is_empty() {
            continue;
        }
        match read_event(alloc, line.as_bytes()) {
            Ok(event) => {
                let answer = says(alloc, &history, &event)?;
                output.extend_from_slice(&answer_line(alloc, &answer)?)?;
                if answer != Answer::Refused(Rule::HistoryFull) {
                    history.push(Entry { event, answer })?;
                }
            }
            Err(LineRefusal::Fault(fault)) => {
                output.extend_from_slice(&fault_line(alloc, &fault)?)?;
            }
            Err(LineRefusal::Memory) => return Err(AllocError),
        }
    }
    Ok(history)
}

// Puts the line of each batch that was started.
fn put_batches(alloc: Global, history: &[Entry], output: &mut Vec<u8>) -> Result<(), AllocError>
    requires { IsOrderly (plain_history history.now) }
{
    for entry in history {
        if let Event::Start { batch, .. } = &entry.event {
            if entry.answer.is_accepted() {
                output.extend_from_slice(&batch_line(alloc, history, *batch)?)?;
            }
        }
    }
    Ok(())
}

/// The output of a journal whose lines are short enough.
pub fn output_of(alloc: Global, journal: &str) -> Result<Vec<u8>, AllocError> {
    let mut output = Vec::new(alloc);
    let history = put_answers(alloc, journal, &mut output)?;
    put_batches(alloc, &history, &mut output)?;
    output.extend_from_slice(&end_line(alloc)?)?;
    Ok(output)
}
