//! The lines that are to follow the entries of a history.
ghost use Rattle.std.specs.Prelude.{◌≡◌, ◌≤◌, IfOk, length, map, suc};
ghost use Rattle.pol_events.specs.Events.{plain_history};
ghost use Rattle.pol_history.specs.Batches.{batches};
ghost use Rattle.pol_record.specs.Gathered.{known_of, record_text};
ghost use Rattle.pol_record.specs.Texts.{batch_text};
ghost use Rattle.pol_audit.specs.Verdict.{closing_lines};

use mtp_codes::Name;
use pol_events::Entry;
use pol_record::{BatchRecords, end_line, gather, gathered_line};
use std::alloc::{AllocError, Global};

// The line of each of these batches.
fn batch_lines(
    alloc: Global,
    gathered: &BatchRecords,
    batches: &[Name],
) -> Result<Vec<Vec<u8>>, AllocError>
    ensures { IfOk result (λ lines. map (λ line. line.items) lines.items
        ≡ map (λ batch. record_text batch (known_of gathered.now.records.entries batch)) batches.now) }
{
    let mut lines = Vec::new(alloc);
    for batch in batches {
        let line = gathered_line(alloc, gathered, *batch)?;
        lines.push(line)?;
    }
    Ok(lines)
}

// The line of each batch of the history in the order of the starts.
#[tactic(auto, using(crate::proofs::ClosingLines::records_are))]
fn record_lines(alloc: Global, history: &[Entry]) -> Result<Vec<Vec<u8>>, AllocError>
    ensures { IfOk result (λ lines. map (λ line. line.items) lines.items
        ≡ map (batch_text (plain_history history.now)) (batches (plain_history history.now))) }
{
    let gathered = gather(alloc, history)?;
    batch_lines(alloc, &gathered, &gathered.started)
}

/// The line of each batch of the history in the order of the starts, and the end line; each with its line feed.
#[tactic(auto, using(crate::proofs::ClosingLines::closing_is, crate::proofs::ClosingLines::closing_few))]
pub fn closing_lines(alloc: Global, history: &[Entry]) -> Result<Vec<Vec<u8>>, AllocError>
    ensures lines { IfOk result (λ lines. map (λ line. line.items) lines.items
        ≡ closing_lines (plain_history history.now)) }
    ensures few { IfOk result (λ lines. length lines.items ≤ suc (length history.now)) }
{
    let mut lines = record_lines(alloc, history)?;
    let last = end_line(alloc)?;
    lines.push(last)?;
    Ok(lines)
}
