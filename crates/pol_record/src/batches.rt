//! Lines of batches: what a batch was started with, its log and its outcome.
ghost use Rattle.std.specs.Prelude.{◌≡◌, ◌++◌, ◌∷◌, [], IfOk, OnOk};
ghost use Rattle.json.specs.Token as token;
ghost use Rattle.pol_events.specs.Events.{plain_history};
ghost use Rattle.event_json.specs.Written.{written_binds};
ghost use Rattle.pol_history.specs.Batches.{log_of};
ghost use Rattle.pol_record.specs.Gathered.{known_of, plain_record, plain_start, record_text};
ghost use Rattle.pol_record.specs.Objects.{data_tokens};
ghost use Rattle.pol_record.specs.Texts.{batch_data, batch_text, course_tokens, log_data, outcome_text, start_tokens};
ghost use Rattle.pol_record.specs.Texts.{watch_tokens};

use crate::answers::{outcome_name, write_entry};
use crate::gathering::BatchRecords;
use crate::lines::ended_line;
use crate::records::{BatchRecord, Start, record_of};
use chart_core::{LogEntry, Outcome};
use json::Writer;
use mtp_codes::Name;
use pol_events::{Bind, Entry};
use std::alloc::{AllocError, Global};

fn outcome_text(outcome: Option<Outcome>) -> &'static str
    ensures { result.now ≡ outcome_text outcome }
{
    match outcome {
        Some(outcome) => outcome_name(outcome),
        None => "Running",
    }
}

/// Writes a text under a key.
pub fn write_text(writer: &mut Writer, key: &str, text: &str) -> Result<(), AllocError>
    ensures tokens { OnOk result (writer.new.tokens
        ≡ writer.old.tokens ++ token.key key.now ∷ token.string text.now ∷ []) }
    ensures before { writer.new.before ≡ writer.old.before }
{
    writer.key(key)?;
    writer.string(text)
}

/// Writes binds as an object from role to tag.
#[tactic(auto, unfolding(event_json::specs::Written::written_binds))]
pub fn write_binds(writer: &mut Writer, binds: &[Bind]) -> Result<(), AllocError>
    ensures tokens { OnOk result (writer.new.tokens ≡ writer.old.tokens ++ data_tokens (written_binds binds.now)) }
    ensures before { writer.new.before ≡ writer.old.before }
{
    writer.begin_object()?;
    for bind in binds {
        write_text(writer, bind.role.as_str(), bind.tag.as_str())?;
    }
    writer.end_object()
}

fn write_log(writer: &mut Writer, log: &[LogEntry]) -> Result<(), AllocError>
    ensures tokens { OnOk result (writer.new.tokens ≡ writer.old.tokens ++ data_tokens (log_data log.now)) }
    ensures before { writer.new.before ≡ writer.old.before }
{
    writer.begin_array()?;
    for entry in log {
        write_entry(writer, entry)?;
    }
    writer.end_array()
}

// Writes what a batch was started on and holds.
fn write_start(writer: &mut Writer, batch: Name, binds: &[Bind]) -> Result<(), AllocError>
    ensures tokens { OnOk result (writer.new.tokens ≡ writer.old.tokens ++ start_tokens batch binds.now) }
    ensures before { writer.new.before ≡ writer.old.before }
{
    write_text(writer, "batch", batch.as_str())?;
    writer.key("bind")?;
    write_binds(writer, binds)
}

// Writes what became of a batch, and its recipe.
fn write_course(
    writer: &mut Writer,
    log: &[LogEntry],
    outcome: Option<Outcome>,
    recipe: Name,
) -> Result<(), AllocError>
    ensures tokens { OnOk result (writer.new.tokens ≡ writer.old.tokens ++ course_tokens log.now outcome recipe) }
    ensures before { writer.new.before ≡ writer.old.before }
{
    writer.key("log")?;
    write_log(writer, log)?;
    write_text(writer, "outcome", outcome_text(outcome))?;
    write_text(writer, "recipe", recipe.as_str())
}

// Writes what a batch watches, if it watches anything.
fn write_watch(writer: &mut Writer, watches: &[Bind]) -> Result<(), AllocError>
    ensures tokens { OnOk result (writer.new.tokens ≡ writer.old.tokens ++ watch_tokens watches.now) }
    ensures before { writer.new.before ≡ writer.old.before }
{
    if watches.is_empty() {
        return Ok(());
    }
    writer.key("watch")?;
    write_binds(writer, watches)
}

fn write_batch(
    writer: &mut Writer,
    batch: Name,
    start: &Start<'_>,
    log: &[LogEntry],
    outcome: Option<Outcome>,
) -> Result<(), AllocError>
    ensures tokens { OnOk result (writer.new.tokens
        ≡ writer.old.tokens ++ data_tokens (batch_data batch (plain_start start.now) log.now outcome)) }
    ensures before { writer.new.before ≡ writer.old.before }
{
    writer.begin_object()?;
    write_start(writer, batch, start.binds.held)?;
    write_course(writer, log, outcome, start.recipe)?;
    write_watch(writer, start.binds.watched)?;
    writer.end_object()
}

#[tactic(auto, using(crate::proofs::Tokens::line_of_tokens))]
fn record_line(alloc: Global, batch: Name, known: &BatchRecord<'_>) -> Result<Vec<u8>, AllocError>
    ensures { IfOk result (λ line. line.items ≡ record_text batch (plain_record known.now)) }
{
    let Some(start) = &known.start else {
        return Ok(Vec::new(alloc));
    };
    let mut writer = Writer::new(Vec::new(alloc));
    write_batch(&mut writer, batch, start, &known.log, known.outcome)?;
    ended_line(writer)
}

/// The line of a batch that was gathered: the same line as [`batch_line`]'s. No bytes for a batch that wasn't started.
pub fn gathered_line(
    alloc: Global,
    gathered: &BatchRecords,
    batch: Name,
) -> Result<Vec<u8>, AllocError>
    ensures { IfOk result (λ line. line.items ≡ record_text batch (known_of gathered.now.records.entries batch)) }
{
    match gathered.records.get(&batch) {
        Some(known) => record_line(alloc, batch, known),
        None => Ok(Vec::new(alloc)),
    }
}

/// The batch's log, the oldest entry first.
pub fn batch_log(alloc: Global, history: &[Entry], batch: Name) -> Result<Vec<LogEntry>, AllocError>
    ensures { IfOk result (λ log. log.items ≡ log_of (plain_history history.now) batch) }
{
    Ok(record_of(alloc, history, batch)?.log)
}

/// The line of a batch: its name, the modules that it holds, its log, its outcome (Running while it is open), its
/// recipe, and the modules that it watches, where it watches any. No bytes for a batch that wasn't started.
pub fn batch_line(alloc: Global, history: &[Entry], batch: Name) -> Result<Vec<u8>, AllocError>
    ensures { IfOk result (λ line. line.items ≡ batch_text (plain_history history.now) batch) }
{
    record_line(alloc, batch, &record_of(alloc, history, batch)?)
}
