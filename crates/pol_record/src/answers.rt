//! Answers, written token by token.
ghost use Rattle.std.specs.Prelude.{◌≡◌, ◌++◌, OnOk, codes, true};
ghost use Rattle.serde_json.specs.Data.{boolean};
ghost use Rattle.event_json.specs.Fields.{fields_of};
ghost use Rattle.event_json.specs.FieldRanges.{are_in_range};
ghost use Rattle.event_json.specs.RuleTable.{rule_row};
ghost use Rattle.pol_record.specs.Objects.{data_tokens};
ghost use Rattle.pol_record.specs.Ranges.{is_in_range, is_start_in_range};
ghost use Rattle.pol_record.specs.Rows.{entry_row, obstacle_row};
ghost use Rattle.pol_record.specs.Texts.{answer_data, entry_data, entry_fields, obstacle_fields, outcome_name};
ghost use Rattle.pol_record.specs.Texts.{refusal_fields, under_key};

use crate::objects::write_fields;
use crate::rows::{entry_row, obstacle_row};
use chart_core::{LogEntry, Outcome, Why};
use event_json::{Fields, rule_row};
use json::Writer;
use pol_events::{Answer, Rule};
use std::alloc::AllocError;

/// The name of an outcome.
pub fn outcome_name(outcome: Outcome) -> &'static str
    ensures { result.now ≡ outcome_name outcome }
{
    match outcome {
        Outcome::Completed => "Completed",
        Outcome::Broken => "Broken",
        Outcome::Stopped => "Stopped",
        Outcome::Abandoned => "Abandoned",
    }
}

/// The fields of a refusal: the rule's, its name and its number.
#[tactic(auto, using(crate::proofs::Tokens::two_behind))]
pub fn refusal_fields(rule: &Rule) -> Fields<'_>
    ensures fields { fields_of result ≡ refusal_fields rule.now }
    ensures held { are_in_range (rule_row rule.now).fields ≡ true }
{
    let row = rule_row(rule);
    row.fields
        .text("rule", row.name)
        .number("refused", row.number)
}

/// The fields of a log entry: its own, and what was done.
pub fn entry_fields(entry: &LogEntry) -> Fields<'_>
    ensures fields { fields_of result ≡ entry_fields entry.now }
    ensures held { are_in_range (entry_row entry.now).fields ≡ true }
    ensures start { is_start_in_range entry.now ≡ true }
{
    entry_row(entry).named_fields("do")
}

/// The fields of an obstacle: its own, and what is waited for.
pub fn obstacle_fields(obstacle: &Why) -> Fields<'_>
    ensures fields { fields_of result ≡ obstacle_fields obstacle.now }
    ensures held { are_in_range (obstacle_row obstacle.now).fields ≡ true }
{
    obstacle_row(obstacle).named_fields("wait")
}

#[tactic(auto, unfolding(crate::specs::Texts::under_key))]
fn write_done(writer: &mut Writer) -> Result<(), AllocError>
    ensures tokens { OnOk result (writer.new.tokens
        ≡ writer.old.tokens ++ data_tokens (under_key (codes "done") (boolean true))) }
    ensures before { writer.new.before ≡ writer.old.before }
{
    writer.begin_object()?;
    writer.key("done")?;
    writer.boolean(true)?;
    writer.end_object()
}

/// Writes an entry of a log.
pub fn write_entry(writer: &mut Writer, entry: &LogEntry) -> Result<(), AllocError>
    ensures tokens { OnOk result (writer.new.tokens ≡ writer.old.tokens ++ data_tokens (entry_data entry.now)) }
    ensures before { writer.new.before ≡ writer.old.before }
    ensures held { are_in_range (entry_row entry.now).fields ≡ true }
    ensures start { is_start_in_range entry.now ≡ true }
{
    write_fields(writer, &entry_fields(entry))
}

#[tactic(auto, unfolding(crate::specs::Texts::under_key))]
fn write_did(writer: &mut Writer, entry: &LogEntry) -> Result<(), AllocError>
    ensures tokens { OnOk result (writer.new.tokens
        ≡ writer.old.tokens ++ data_tokens (under_key (codes "did") (entry_data entry.now))) }
    ensures before { writer.new.before ≡ writer.old.before }
    ensures held { OnOk result (are_in_range (entry_row entry.now).fields ≡ true) }
    ensures start { OnOk result (is_start_in_range entry.now ≡ true) }
{
    writer.begin_object()?;
    writer.key("did")?;
    write_entry(writer, entry)?;
    writer.end_object()
}

/// Writes an answer: what was done, what is waited for, or the refusal.
pub fn write_answer(writer: &mut Writer, answer: &Answer) -> Result<(), AllocError>
    ensures tokens { OnOk result (writer.new.tokens ≡ writer.old.tokens ++ data_tokens (answer_data answer.now)) }
    ensures before { writer.new.before ≡ writer.old.before }
    ensures held { OnOk result (is_in_range answer.now ≡ true) }
{
    match answer {
        Answer::Done => write_done(writer),
        Answer::Ticket(ticket) => write_fields(writer, &Fields::none().number("ticket", *ticket)),
        Answer::Did(entry) => write_did(writer, entry),
        Answer::Waiting(obstacle) => write_fields(writer, &obstacle_fields(obstacle)),
        Answer::Closed(outcome) => write_fields(
            writer,
            &Fields::none().text("closed", outcome_name(*outcome)),
        ),
        Answer::Refused(rule) => write_fields(writer, &refusal_fields(rule)),
    }
}
