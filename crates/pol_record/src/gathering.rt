//! What is known of all batches of a history, by one pass over it.
ghost use Rattle.std.specs.Prelude.{◌≡◌, ℕ, ◌∷◌, ◌++◌, [], List, IfOk, OnOk, if◌then◌else◌};
ghost use Rattle.std.specs.List.{cons_option};
ghost use Rattle.std.specs.Str.{bytes_eq};
ghost use Rattle.pol_events.specs.Events.{plain_entry, plain_history};
ghost use Rattle.pol_history.specs.Looking.{History};
ghost use Rattle.pol_record.specs.Gathered.{IsGathered, known_of, newly_started, with_entry};

use crate::records::{BatchRecord, started_batch};
use indexmap::IndexMap;
use mtp_codes::Name;
use pol_events::Entry;
use std::alloc::{AllocError, Global};

/// The batches of a history.
#[derive(Drop)]
pub struct BatchRecords<'a> {
    /// The batches that were started, in the order of their starts.
    pub started: Vec<Name>,
    /// What is known of each batch of which an event was accepted.
    pub records: IndexMap<Name, BatchRecord<'a>>,
}

// One more entry of the batch is known.
fn add_to<'a>(
    alloc: Global,
    records: &mut IndexMap<Name, BatchRecord<'a>>,
    batch: Name,
    entry: &'a Entry,
) -> Result<(), AllocError>
    ensures { OnOk result ((other : List ℕ) → known_of records.new.entries other ≡ (if bytes_eq batch other
        then with_entry (plain_entry entry.now) (known_of records.old.entries other)
        else known_of records.old.entries other)) }
{
    if let Some(known) = records.get_mut(&batch) {
        return known.add(entry);
    }
    let mut known = BatchRecord::new(alloc);
    known.add(entry)?;
    records.insert(batch, known)?;
    Ok(())
}

// The batch that the entry starts, if it starts one, is the last that was started.
fn add_start(started: &mut Vec<Name>, entry: &Entry) -> Result<(), AllocError>
    ensures { OnOk result (started.new.items
        ≡ started.old.items ++ cons_option (newly_started (plain_entry entry.now)) []) }
{
    if let Some(batch) = started_batch(entry) {
        started.push(batch)?;
    }
    Ok(())
}

// One more entry of the history is gathered.
fn gather_entry<'a>(
    alloc: Global,
    gathered: &mut BatchRecords<'a>,
    entry: &'a Entry,
) -> Result<(), AllocError>
    ensures { OnOk result ((history : History) → IsGathered gathered.old history
        → IsGathered gathered.new (plain_entry entry.now ∷ history)) }
{
    add_start(&mut gathered.started, entry)?;
    match entry.accepted_batch() {
        Some(batch) => add_to(alloc, &mut gathered.records, batch, entry),
        None => Ok(()),
    }
}

/// What the history says of its batches. One pass; as much memory as the logs of all batches.
pub fn gather(alloc: Global, history: &[Entry]) -> Result<BatchRecords<'_>, AllocError>
    ensures { IfOk result (λ gathered. IsGathered gathered (plain_history history.now)) }
{
    let mut gathered = BatchRecords {
        started: Vec::new(alloc),
        records: IndexMap::new(alloc),
    };
    for entry in history {
        gather_entry(alloc, &mut gathered, entry)?;
    }
    Ok(gathered)
}
