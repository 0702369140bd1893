//! What is known of one batch, entry by entry.
ghost use Rattle.std.specs.Prelude.{◌≡◌, IfOk, OnOk, []};
ghost use Rattle.std.specs.Option.{option_map};
ghost use Rattle.pol_events.specs.Events.{plain_entry, plain_event, plain_history};
ghost use Rattle.pol_history.specs.Batches.{starting};
ghost use Rattle.pol_history.specs.Looking.{past_of_batch};
ghost use Rattle.pol_record.specs.Gathered.{newly_started, plain_record, plain_start, record_by, with_entry};

use chart_core::LogEntry;
use mtp_codes::Name;
use pol_events::{Allocation, Answer, Entry, Event, Outcome};
use std::alloc::{AllocError, Global};

/// What a batch was started with.
#[derive(Clone, Copy)]
pub struct Start<'a> {
    /// The recipe.
    pub recipe: Name,
    /// What plays each role, held or watched.
    pub binds: Allocation<'a>,
}

/// What is known of a batch.
#[derive(Drop)]
pub struct BatchRecord<'a> {
    /// Its start; None where it wasn't started.
    pub start: Option<Start<'a>>,
    /// Its log, the oldest entry first.
    pub log: Vec<LogEntry>,
    /// Its outcome; None while it is open.
    pub outcome: Option<Outcome>,
}

/// The batch that an accepted start starts; None for any other entry.
pub fn started_batch(entry: &Entry) -> Option<Name>
    ensures { result ≡ newly_started (plain_entry entry.now) }
{
    match entry.event {
        Event::Start { batch, .. } if entry.answer.is_accepted() => Some(batch),
        _ => None,
    }
}

/// What the event starts a batch with; None where it is no start.
pub fn starting(event: &Event) -> Option<Start<'_>>
    ensures { option_map plain_start result ≡ starting (plain_event event.now) }
{
    match event {
        Event::Start {
            recipe,
            bind,
            watch,
            ..
        } => Some(Start {
            recipe: *recipe,
            binds: Allocation {
                held: bind,
                watched: watch,
            },
        }),
        _ => None,
    }
}

impl<'a> BatchRecord<'a> {
    /// Nothing is known.
    pub(crate) fn new(alloc: Global) -> BatchRecord<'a>
        ensures { plain_record result ≡ record_by [] }
    {
        BatchRecord {
            start: None,
            log: Vec::new(alloc),
            outcome: None,
        }
    }

    /// Adds what one more entry of the batch says.
    pub(crate) fn add(&mut self, entry: &'a Entry) -> Result<(), AllocError>
        ensures { OnOk result (plain_record self.new ≡ with_entry (plain_entry entry.now) (plain_record self.old)) }
    {
        if let Some(start) = starting(&entry.event) {
            self.start = Some(start);
        }
        match entry.answer {
            Answer::Did(done) => self.log.push(done)?,
            Answer::Closed(outcome) => self.outcome = Some(outcome),
            _ => {}
        }
        Ok(())
    }
}

/// What the history says of one batch.
pub fn record_of(
    alloc: Global,
    history: &[Entry],
    batch: Name,
) -> Result<BatchRecord<'_>, AllocError>
    ensures { IfOk result (λ known. plain_record known ≡ record_by (past_of_batch batch (plain_history history.now))) }
{
    let mut known = BatchRecord::new(alloc);
    for entry in history {
        if entry.accepted_batch() == Some(batch) {
            known.add(entry)?;
        }
    }
    Ok(known)
}
