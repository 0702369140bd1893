//! The lines of a plant that is operated which no journal has.
ghost use Rattle.std.specs.Prelude.{◌≡◌, ◌<◌, ◌++◌, length, IfOk, OnOk};
ghost use Rattle.std.specs.String.{string_bytes};
ghost use Rattle.chart_json.specs.Written.{written_setting, written_settings};
ghost use Rattle.pol_record.specs.Objects.{data_tokens};
ghost use Rattle.pol_record.specs.Texts.{entry_data};
ghost use Rattle.pol_ledger.specs.Ledgers.{ledger_state};
ghost use Rattle.pol_overview.specs.Near.{near_limits};
ghost use Rattle.pol_operate.specs.Texts.{begun_text, did_object, end_object, history_in, kept_object, kept_text};
ghost use Rattle.pol_operate.specs.Texts.{near_tokens, sealed_text, sum_text, told_text};

use crate::history::history_in;
use chart_core::LogEntry;
use json::Writer;
use mtp_codes::Setting;
use pol_core::Plant;
use pol_events::{Answer, Rule};
use pol_ledger::Ledger;
use pol_overview::{near_limits, write_rules};
use pol_record::{ended_line, put_answer_line, write_entry, write_scalar, write_text};
use std::alloc::{AllocError, Global};
use std::mem;

// ---- an answer that starts a step has its settings

#[tactic(auto, using(crate::proofs::Tokens::setting_tokens))]
fn write_setting(writer: &mut Writer, setting: &Setting) -> Result<(), AllocError>
    ensures tokens { OnOk result (writer.new.tokens
        ≡ writer.old.tokens ++ data_tokens (written_setting setting.now)) }
    ensures before { writer.new.before ≡ writer.old.before }
{
    writer.begin_object()?;
    write_text(writer, "name", setting.name.as_str())?;
    writer.key("value")?;
    write_scalar(writer, &setting.value)?;
    writer.end_object()
}

fn write_settings(writer: &mut Writer, settings: &[Setting]) -> Result<(), AllocError>
    ensures tokens { OnOk result (writer.new.tokens
        ≡ writer.old.tokens ++ data_tokens (written_settings settings.now)) }
    ensures before { writer.new.before ≡ writer.old.before }
{
    writer.begin_array()?;
    for setting in settings {
        write_setting(writer, setting)?;
    }
    writer.end_array()
}

#[tactic(auto, using(crate::proofs::Tokens::start_tokens))]
fn write_start(
    writer: &mut Writer,
    entry: &LogEntry,
    settings: &[Setting],
) -> Result<(), AllocError>
    ensures tokens { OnOk result (writer.new.tokens ≡ writer.old.tokens
        ++ data_tokens (did_object (entry_data entry.now) (written_settings settings.now))) }
    ensures before { writer.new.before ≡ writer.old.before }
{
    writer.begin_object()?;
    writer.key("did")?;
    write_entry(writer, entry)?;
    writer.key("settings")?;
    write_settings(writer, settings)?;
    writer.end_object()
}

/// Puts the line of an answer behind what a buffer holds: with these settings where there are some and the answer says
/// what was done. Where there is no memory, what the buffer held is lost.
#[tactic(auto, using(pol_record::proofs::Tokens::line_of_tokens))]
pub fn put_told_line(
    alloc: Global,
    out: &mut Vec<u8>,
    answer: &Answer,
    settings: &[Setting],
) -> Result<(), AllocError>
    ensures { OnOk result (out.new.items ≡ out.old.items ++ told_text settings.now answer.now) }
{
    let Answer::Did(entry) = answer else {
        return put_answer_line(alloc, out, answer);
    };
    if settings.is_empty() {
        return put_answer_line(alloc, out, answer);
    }
    let mut writer = Writer::new(mem::replace(out, Vec::new(alloc)));
    write_start(&mut writer, entry, settings)?;
    *out = ended_line(writer)?;
    Ok(())
}

// ---- the file is open, and the end

/// What a ledger's header says; empty where there is none.
#[tactic(auto, using(crate::proofs::Printable::begun_printable))]
pub fn begun_text(ledger: &Ledger) -> &str
    ensures { result.now ≡ begun_text (ledger_state ledger.now) }
{
    match ledger.build() {
        Some(build) => match std::str::from_utf8(build.as_bytes()) {
            Ok(text) => text,
            Err(_) => "",
        },
        None => "",
    }
}

/// The sum of a ledger's last record, in hex; empty where there is none.
pub fn sum_text(alloc: Global, ledger: &Ledger) -> Result<String, AllocError>
    ensures { IfOk result (λ text. string_bytes text ≡ sum_text (ledger_state ledger.now)) }
{
    match ledger.sum() {
        Some(sum) => hex::encode(alloc, sum),
        None => Ok(String::new(alloc)),
    }
}

// The rules of a ledger's plant whose limits are near.
#[tactic(auto, using(crate::proofs::Histories::entries_begun, crate::proofs::Histories::entries_none))]
fn near_in(alloc: Global, ledger: &Ledger) -> Result<Vec<Rule>, AllocError>
    ensures { IfOk result (λ rules. rules.items ≡ near_limits (history_in (ledger_state ledger.now))) }
{
    if ledger.is_begun() {
        return near_limits(alloc, ledger.plant());
    }
    near_limits(alloc, &Plant::new(alloc))
}

// Writes the rules whose limits are near under their key, where there are such.
fn write_near(writer: &mut Writer, near: &[Rule]) -> Result<(), AllocError>
    ensures tokens { OnOk result (writer.new.tokens ≡ writer.old.tokens ++ near_tokens near.now) }
    ensures before { writer.new.before ≡ writer.old.before }
{
    if near.is_empty() {
        return Ok(());
    }
    writer.key("near")?;
    write_rules(writer, near)
}

#[tactic(auto, using(crate::proofs::Tokens::kept_tokens))]
fn write_kept(writer: &mut Writer, count: u64, near: &[Rule], sum: &str) -> Result<(), AllocError>
    ensures tokens { OnOk result (writer.new.tokens
        ≡ writer.old.tokens ++ data_tokens (kept_object count near.now sum.now)) }
    ensures before { writer.new.before ≡ writer.old.before }
{
    writer.begin_object()?;
    writer.key("kept")?;
    writer.u64(count)?;
    write_near(writer, near)?;
    write_text(writer, "sum", sum)?;
    writer.end_object()
}

/// Puts the line that answers the policy behind what a buffer holds: how many events the ledger has, the limits of its
/// plant that are near, where there are such, and the sum of its last record. Where there is no memory, what the buffer
/// held is lost.
#[tactic(auto, using(pol_record::proofs::Tokens::line_of_tokens))]
pub fn put_kept_line(alloc: Global, out: &mut Vec<u8>, ledger: &Ledger) -> Result<(), AllocError>
    ensures { OnOk result (out.new.items ≡ out.old.items ++ kept_text (ledger_state ledger.now)) }
{
    let near = near_in(alloc, ledger)?;
    let sum = sum_text(alloc, ledger)?;
    let count = history_in(ledger).len() as u64;
    let mut writer = Writer::new(mem::replace(out, Vec::new(alloc)));
    write_kept(&mut writer, count, &near, sum.as_str())?;
    *out = ended_line(writer)?;
    Ok(())
}

#[tactic(auto, using(crate::proofs::Tokens::end_tokens))]
fn write_end(writer: &mut Writer, sum: &str) -> Result<(), AllocError>
    ensures tokens { OnOk result (writer.new.tokens ≡ writer.old.tokens ++ data_tokens (end_object sum.now)) }
    ensures before { writer.new.before ≡ writer.old.before }
{
    writer.begin_object()?;
    writer.key("end")?;
    writer.boolean(true)?;
    write_text(writer, "sum", sum)?;
    writer.end_object()
}

/// The last line of every output: the sum of the ledger's last record is in it.
#[tactic(auto, using(pol_record::proofs::Tokens::line_of_tokens, crate::proofs::Tokens::some_line))]
pub fn sealed_line(alloc: Global, ledger: &Ledger) -> Result<Vec<u8>, AllocError>
    ensures text { IfOk result (λ line. line.items ≡ sealed_text (ledger_state ledger.now)) }
    ensures some { IfOk result (λ line. 0 < length line.items) }
{
    let sum = sum_text(alloc, ledger)?;
    let mut writer = Writer::new(Vec::new(alloc));
    write_end(&mut writer, sum.as_str())?;
    ended_line(writer)
}
