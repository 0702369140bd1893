//! The history that is compacted, with what is known of its batches.
ghost use Rattle.std.specs.Prelude.{◌≡◌, [], not};
ghost use Rattle.std.specs.Option.{option_map, option_map_or};
ghost use Rattle.pol_events.specs.Bound.{given, plain_allocation};
ghost use Rattle.pol_events.specs.Events.{plain_entry, plain_event, plain_history};
ghost use Rattle.pol_history.specs.Batches.{is_open, start_of};
ghost use Rattle.pol_history.specs.Looking.{subject};
ghost use Rattle.pol_record.specs.Gathered.{plain_start};
ghost use Rattle.pol_compaction.specs.Lasting.{is_closed_batch, is_desk, is_lasting, is_wait};
ghost use Rattle.pol_compaction.specs.Reading.{read_binds};

use mtp_codes::Name;
use pol_events::{Allocation, Answer, Entry, Event, Subject};
use pol_record::{BatchRecords, Start};
use std::marker::Model;

// Whether the entry is a batch's wait.
fn is_wait(entry: &Entry) -> bool
    ensures { result ≡ is_wait (plain_entry entry.now) }
{
    matches!(entry.event, Event::Advance { .. }) && matches!(entry.answer, Answer::Waiting(_))
}

// Whether the event is an operator's command.
fn is_desk(event: &Event) -> bool
    ensures { result ≡ is_desk (plain_event event.now) }
{
    matches!(event, Event::Desk { .. })
}

/// The entries of a history, and what one pass over it gathered of its batches.
#[derive(Drop)]
pub struct Whole<'a, 'b> {
    pub entries: &'a [Entry],
    pub batches: &'b BatchRecords<'a>,
}

impl<'a, 'b> Model for Whole<'a, 'b> {
    ghost use Rattle.std.specs.Prelude.{List};
    ghost use Rattle.std.specs.Coded.{codes};
    ghost use Rattle.pol_events.specs.contracts.event.Entry as entry_type;
    ghost use Rattle.pol_events.specs.Events.{plain_history};
    ghost use Rattle.pol_events.specs.declared.event.Entry.{Entry};
    ghost use Rattle.pol_record.specs.Gathered.{IsGathered};

    ghost Value = { List Entry };

    ghost coded = { Prim.hlevel (codes, entry_type.the_row.coded) };

    ghost view = { λ whole. whole.entries.now };

    ghost invariant = { λ whole. IsGathered whole.batches.now (plain_history whole.entries.now) };
}

impl<'a> Whole<'a, '_> {
    // What the batch was started with.
    fn start_of(&self, batch: Name) -> Option<&Start<'a>>
        ensures { option_map (λ start. plain_start start.now) result ≡ start_of (plain_history self.now) batch }
    {
        match self.batches.records.get(&batch) {
            Some(known) => known.start.as_ref(),
            None => None,
        }
    }

    // Whether the batch is closed.
    fn is_closed(&self, batch: Name) -> bool
        ensures { result ≡ not (is_open (plain_history self.now) batch) }
    {
        match self.batches.records.get(&batch) {
            Some(known) => known.outcome.is_some(),
            None => false,
        }
    }

    // Whether the event is of a batch that is closed.
    fn is_of_closed(&self, event: &Event) -> bool
        ensures { result ≡ is_closed_batch (plain_history self.now) (subject (plain_event event.now)) }
    {
        match event.subject() {
            Subject::Batch(batch) => self.is_closed(batch),
            _ => false,
        }
    }

    /// Whether the entry lasts.
    pub fn is_lasting(&self, entry: &Entry) -> bool
        ensures { result ≡ is_lasting (plain_history self.now) (plain_entry entry.now) }
    {
        entry.answer.is_accepted()
            && !is_wait(entry)
            && !is_desk(&entry.event)
            && !self.is_of_closed(&entry.event)
    }

    /// The binds of the modules that the event reads; None where it reads none.
    pub fn read_by<'c>(&'c self, event: &'c Event) -> Option<Allocation<'c>>
        ensures { option_map_or (λ binds. given (plain_allocation binds)) result []
            ≡ read_binds (plain_history self.now) (plain_event event.now) }
    {
        match event {
            Event::Start { bind, watch, .. } => Some(Allocation {
                held: bind,
                watched: watch,
            }),
            Event::Advance { batch, .. } => match self.start_of(*batch) {
                Some(start) => Some(start.binds),
                None => None,
            },
            _ => None,
        }
    }
}
