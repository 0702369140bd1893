//! The verdict of an audit, as a line.
ghost use Rattle.std.specs.Prelude.{◌≡◌, ◌∷◌, ◌++◌, IfOk, OnOk, codes};
ghost use Rattle.json.specs.Token as token;
ghost use Rattle.event_json.specs.Fields.{fields_of};
ghost use Rattle.pol_record.specs.Objects.{data_tokens, fields_data};
ghost use Rattle.pol_record.specs.Texts.{answer_data};
ghost use Rattle.pol_record.specs.Verdicts.{bad_fields, good_fields, place_tokens, verdict_data, verdict_text};
ghost use Rattle.pol_record.specs.Verdicts.{wrong_object};

use crate::answers::write_answer;
use crate::batches::write_text;
use crate::lines::ended_line;
use crate::objects::write_fields;
use event_json::Fields;
use json::Writer;
use pol_events::Answer;
use std::alloc::{AllocError, Global};

/// What an audit finds of a history.
#[derive(Clone, Copy, Debug, PartialEq, Eq)]
pub enum Verdict {
    /// It is true, and has so many entries.
    Good { entries: u32 },
    /// The answer of the entry at this place, counted from 0, isn't the one that the entries before it give.
    WrongAnswer { place: u32, says: Answer },
    /// It has more entries than an audit takes; the first that is too many is at this place.
    TooMany { place: u32 },
    /// The line with this number, counted from 0 over the lines that aren't blank, isn't the next of those that follow
    /// the entries; or it is missing.
    WrongTail { place: u32 },
}

// Writes that the verdict is bad, and at which place.
fn write_place(writer: &mut Writer, place: u32) -> Result<(), AllocError>
    ensures tokens { OnOk result (writer.new.tokens ≡ writer.old.tokens ++ place_tokens place) }
    ensures before { writer.new.before ≡ writer.old.before }
{
    write_text(writer, "audit", "bad")?;
    writer.key("place")?;
    writer.u64(place as u64)
}

// Writes what should be answered.
fn write_says(writer: &mut Writer, says: &Answer) -> Result<(), AllocError>
    ensures tokens { OnOk result (writer.new.tokens
        ≡ writer.old.tokens ++ token.key (codes "says") ∷ data_tokens (answer_data says.now)) }
    ensures before { writer.new.before ≡ writer.old.before }
{
    writer.key("says")?;
    write_answer(writer, says)
}

#[tactic(auto, using(crate::proofs::Tokens::wrong_tokens))]
fn write_wrong(writer: &mut Writer, place: u32, says: &Answer) -> Result<(), AllocError>
    ensures tokens { OnOk result (writer.new.tokens
        ≡ writer.old.tokens ++ data_tokens (wrong_object place (answer_data says.now))) }
    ensures before { writer.new.before ≡ writer.old.before }
{
    writer.begin_object()?;
    write_place(writer, place)?;
    write_says(writer, says)?;
    write_text(writer, "why", "Answer")?;
    writer.end_object()
}

// The fields of a bad verdict: the place, and what is wrong there.
fn bad_fields<'a>(place: u32, why: &'a str) -> Fields<'a>
    ensures { fields_of result ≡ bad_fields place why.now }
{
    Fields::none()
        .text("audit", "bad")
        .number("place", place)
        .text("why", why)
}

fn write_bad(writer: &mut Writer, place: u32, why: &str) -> Result<(), AllocError>
    ensures tokens { OnOk result (writer.new.tokens
        ≡ writer.old.tokens ++ data_tokens (fields_data (bad_fields place why.now))) }
    ensures before { writer.new.before ≡ writer.old.before }
{
    write_fields(writer, &bad_fields(place, why))
}

fn write_good(writer: &mut Writer, entries: u32) -> Result<(), AllocError>
    ensures tokens { OnOk result (writer.new.tokens
        ≡ writer.old.tokens ++ data_tokens (fields_data (good_fields entries))) }
    ensures before { writer.new.before ≡ writer.old.before }
{
    let fields = Fields::none().text("audit", "good");
    write_fields(writer, &fields.number("entries", entries))
}

fn write_verdict(writer: &mut Writer, verdict: &Verdict) -> Result<(), AllocError>
    ensures tokens { OnOk result (writer.new.tokens ≡ writer.old.tokens ++ data_tokens (verdict_data verdict.now)) }
    ensures before { writer.new.before ≡ writer.old.before }
{
    match verdict {
        Verdict::Good { entries } => write_good(writer, *entries),
        Verdict::WrongAnswer { place, says } => write_wrong(writer, *place, says),
        Verdict::TooMany { place } => write_bad(writer, *place, "TooMany"),
        Verdict::WrongTail { place } => write_bad(writer, *place, "Tail"),
    }
}

/// The line of a verdict.
#[tactic(auto, using(crate::proofs::Tokens::line_of_tokens))]
pub fn verdict_line(alloc: Global, verdict: &Verdict) -> Result<Vec<u8>, AllocError>
    ensures { IfOk result (λ line. line.items ≡ verdict_text verdict.now) }
{
    let mut writer = Writer::new(Vec::new(alloc));
    write_verdict(&mut writer, verdict)?;
    ended_line(writer)
}
