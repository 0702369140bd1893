//! Looking back at a batch, at the recipes and at the holders of modules.
ghost use Rattle.std.specs.Prelude.{◌≡◌, Some, filter, length};
ghost use Rattle.std.specs.Option.{option_map};
ghost use Rattle.mtp_codes.specs.Names.{is_among};
ghost use Rattle.chart_core.specs.Charts.{plain_chart};
ghost use Rattle.pol_events.specs.Events.{plain_entry, plain_history};
ghost use Rattle.pol_events.specs.Bound.{tags_of};
ghost use Rattle.pol_history.specs.Looking.{past_of_batch, recipes, last_of};
ghost use Rattle.pol_history.specs.Batches.{start_by, chart_named, closing, outcome_by, if_open, taken, takes};
ghost use Rattle.pol_history.specs.Batches.{holder_of, is_start, watches};
ghost use Rattle.pol_record.specs.Gathered.{plain_start};

use crate::past::Past;
use chart_core::{Chart, LogEntry};
use mtp_codes::Name;
use pol_events::{Answer, Bind, Entry, Event, Outcome};
use pol_record::{Start, starting};

/// The chart of the recipe of this name.
pub fn chart_named<'a>(history: &'a Past<'_, '_>, name: Name) -> Option<&'a Chart>
    ensures { option_map (λ chart. plain_chart chart.now) result
        ≡ chart_named name (recipes (plain_history history.now)) }
{
    match history.recipes().chart(name) {
        Some(chart) => Some(chart),
        None => None,
    }
}

/// How many recipes are known.
#[tactic(auto, using(crate::proofs::Listing::as_listed))]
pub fn recipe_count(history: &Past<'_, '_>) -> usize
    ensures { result ≡ length (recipes (plain_history history.now)) }
{
    history.recipes().len()
}

/// What the batch was started with.
pub fn start_of<'a>(history: &'a Past<'_, '_>, batch: Name) -> Option<Start<'a>>
    ensures { option_map plain_start result ≡ start_by (past_of_batch batch (plain_history history.now)) }
{
    history
        .starts_of(batch)
        .iter()
        .rev()
        .find_map(|entry| starting(&entry.event))
}

/// The outcome with which the answer closes a batch.
pub fn closing(answer: &Answer) -> Option<Outcome>
    ensures { result ≡ closing answer.now }
{
    match answer {
        Answer::Closed(outcome) => Some(*outcome),
        _ => None,
    }
}

/// The outcome with which the batch was closed.
pub fn outcome_of(history: &Past<'_, '_>, batch: Name) -> Option<Outcome>
    ensures { result ≡ outcome_by (past_of_batch batch (plain_history history.now)) }
{
    history
        .closings(batch)
        .iter()
        .rev()
        .find_map(|entry| closing(&entry.answer))
}

/// The entry that the answer says was taken into the log.
pub fn taken(answer: &Answer) -> Option<LogEntry>
    ensures { result ≡ taken answer.now }
{
    match answer {
        Answer::Did(entry) => Some(*entry),
        _ => None,
    }
}

// Whether the tag is bound.
fn binds(binds: &[Bind], tag: Name) -> bool
    ensures { result ≡ is_among (tags_of binds.now) tag }
{
    for bind in binds {
        if bind.tag == tag {
            return true;
        }
    }
    false
}

// The batch of the entry, where it is an accepted start on the module.
fn takes(entry: &Entry, tag: Name) -> Option<Name>
    ensures { result ≡ takes tag (plain_entry entry.now) }
{
    match &entry.event {
        Event::Start { batch, bind, .. } if entry.answer.is_accepted() && binds(bind, tag) => {
            Some(*batch)
        }
        _ => None,
    }
}

// The batch of the last accepted start on the module.
fn taker(history: &Past<'_, '_>, tag: Name) -> Option<Name>
    ensures { result ≡ last_of (takes tag) (plain_history history.now) }
{
    history
        .starts()
        .iter()
        .rev()
        .find_map(|entry| takes(entry, tag))
}

// The batch, where it isn't closed.
fn if_open(history: &Past<'_, '_>, batch: Name) -> Option<Name>
    ensures { result ≡ if_open (plain_history history.now) (Some batch) }
{
    match outcome_of(history, batch) {
        Some(_) => None,
        None => Some(batch),
    }
}

/// The batch that holds the module: that of the last start on it, where that batch isn't closed.
pub fn holder_of(history: &Past<'_, '_>, tag: Name) -> Option<Name>
    ensures { result ≡ holder_of (plain_history history.now) tag }
{
    let batch = taker(history, tag)?;
    if_open(history, batch)
}

// The batch of the entry, where it is an accepted start that watches the module.
fn watches(entry: &Entry, tag: Name) -> Option<Name>
    ensures { result ≡ watches tag (plain_entry entry.now) }
{
    match &entry.event {
        Event::Start { batch, watch, .. } if entry.answer.is_accepted() && binds(watch, tag) => {
            Some(*batch)
        }
        _ => None,
    }
}

/// The batch of the entry, where it is an accepted start that watches the module and that batch isn't closed.
pub fn watcher_by(history: &Past<'_, '_>, entry: &Entry, tag: Name) -> Option<Name>
    ensures { result ≡ if_open (plain_history history.now) (watches tag (plain_entry entry.now)) }
{
    let batch = watches(entry, tag)?;
    if_open(history, batch)
}

/// How many batches were started.
#[tactic(auto, using(crate::proofs::Listing::as_listed))]
pub fn start_count(history: &Past<'_, '_>) -> usize
    ensures { result ≡ length (filter is_start (plain_history history.now)) }
{
    history.starts().len()
}
