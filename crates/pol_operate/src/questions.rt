//! What is replied to a question; it changes nothing.
ghost use Rattle.std.specs.Prelude.{◌≡◌, ◌++◌, IfOk, OnOk, Some};
ghost use Rattle.named_lines.specs.Named.{plain_named};
ghost use Rattle.mtp_json.specs.ReadsAs.{seen};
ghost use Rattle.pol_core.specs.Plants.{plant_history};
ghost use Rattle.pol_events.specs.Events.{plain_event};
ghost use Rattle.pol_find.specs.Bindings.{bindings_text};
ghost use Rattle.pol_jobs.specs.InputLines.{plain_line};
ghost use Rattle.pol_ledger.specs.Ledgers.{ledger_state};
ghost use Rattle.pol_overview.specs.Entries.{cut_of, entries_text};
ghost use Rattle.pol_overview.specs.Overview.{plant_text};
ghost use Rattle.pol_replay.specs.Meanings.{meaning_from};
ghost use Rattle.pol_rights.specs.PlainPlantPolicy.{plain_plant_policy};
ghost use Rattle.question_lines.specs.Questions.{plain_question};
ghost use Rattle.pol_operate.specs.Lines.{admitted, asked_by};
ghost use Rattle.pol_operate.specs.Questions.{allows_by, asks, entries_in, told, told_to, would_text};
ghost use Rattle.pol_operate.specs.Saying.{foreseen_text, text_after, text_met};
ghost use Rattle.pol_operate.specs.Texts.{begun_text, history_in, sum_text};

use crate::allowed::AllowedTo;
use crate::asking::{advanced_by, settings_told};
use crate::telling::{begun_text, put_told_line, sum_text};
use crate::verdicts::verdict_on;
use event_json::{LineFault, LineRefusal};
use mtp_codes::Name;
use named_lines::Named;
use pol_core::Plant;
use pol_events::Event;
use pol_find::put_bindings_line;
use pol_foresight::would_answer;
use pol_guard::put_denial_line;
use pol_jobs::InputLine;
use pol_ledger::Ledger;
use pol_overview::{FileWords, put_entries_line, put_plant_line};
use pol_policy::Verdict;
use pol_record::put_fault_line;
use pol_rights::PlantPolicy;
use question_lines::{Question, is_question, read_question};
use std::alloc::{AllocError, Global};

/// Whether a line asks.
#[inline(always)]
pub fn asks(line: InputLine<'_>) -> bool
    ensures { result ≡ asks (plain_line line.entry) }
{
    match line {
        InputLine::Text(text) => is_question(text),
        InputLine::TooLong => false,
    }
}

// Puts the line of the answer that the plant would give to an event behind what a buffer holds.
fn put_foreseen_line(
    alloc: Global,
    out: &mut Vec<u8>,
    plant: &Plant,
    event: &Event,
) -> Result<(), AllocError>
    ensures { OnOk result (out.new.items
        ≡ out.old.items ++ foreseen_text (plant_history plant.now) (plain_event event.now)) }
{
    let answer = would_answer(plant, event);
    let settings = settings_told(plant, advanced_by(event), &answer);
    put_told_line(alloc, out, &answer, settings)
}

// Puts the line of the answer to an event by a ledger: nothing is answered before it was begun.
#[tactic(auto, using(crate::proofs::Foreseen::nothing_foreseen))]
fn put_foreseen(
    alloc: Global,
    out: &mut Vec<u8>,
    ledger: &Ledger,
    said: &Named,
) -> Result<(), AllocError>
    ensures { OnOk result (out.new.items
        ≡ out.old.items ++ text_after (ledger_state ledger.now) (admitted (asked_by (plain_named said.now)))) }
{
    if ledger.is_begun() {
        return put_foreseen_line(alloc, out, ledger.plant(), &said.event);
    }
    Ok(())
}

// The line that an event would be answered with now, or its fault.
fn would_line(
    alloc: Global,
    policy: &PlantPolicy,
    ledger: &Ledger,
    read: &Result<Named, LineFault>,
) -> Result<Vec<u8>, AllocError>
    ensures { IfOk result (λ line. line.items ≡ text_met (Some (plain_plant_policy policy.now))
        (ledger_state ledger.now) (meaning_from (seen plain_named read.now))) }
{
    let mut line = Vec::new(alloc);
    match read {
        Ok(said) => match verdict_on(policy, said) {
            Some(Verdict::Denied(rule)) => put_denial_line(alloc, &mut line, rule)?,
            Some(Verdict::Allowed(_)) | None => put_foreseen(alloc, &mut line, ledger, said)?,
        },
        Err(fault) => put_fault_line(alloc, &mut line, fault)?,
    }
    Ok(line)
}

// Puts what an event would be answered with behind what a buffer holds: the object of that line, at `would`.
fn put_would_line(out: &mut Vec<u8>, line: &[u8]) -> Result<(), AllocError>
    ensures { OnOk result (out.new.items ≡ out.old.items ++ would_text line.now) }
{
    out.extend_from_slice(b"{\"would\":")?;
    out.extend_from_slice(&line[..line.len().saturating_sub(1)])?;
    out.extend_from_slice(b"}\n")
}

// Puts how each recipe could be bound now behind what a buffer holds.
#[tactic(auto, using(crate::proofs::Histories::entries_begun, crate::proofs::Histories::entries_none))]
fn put_bindings(alloc: Global, out: &mut Vec<u8>, ledger: &Ledger) -> Result<(), AllocError>
    ensures { OnOk result (out.new.items
        ≡ out.old.items ++ bindings_text (history_in (ledger_state ledger.now))) }
{
    if ledger.is_begun() {
        return put_bindings_line(alloc, out, ledger.plant());
    }
    put_bindings_line(alloc, out, &Plant::new(alloc))
}

// Puts the overview of the plant, with its file's header and last sum, and with what a person may command there, behind
// what a buffer holds.
#[tactic(auto, using(crate::proofs::Histories::entries_begun, crate::proofs::Histories::entries_none))]
fn put_plant(
    alloc: Global,
    out: &mut Vec<u8>,
    policy: &PlantPolicy,
    ledger: &Ledger,
    person: Option<Name>,
) -> Result<(), AllocError>
    ensures { OnOk result (out.new.items ≡ out.old.items ++ plant_text
        (allows_by (plain_plant_policy policy.now) person) (history_in (ledger_state ledger.now))
        (begun_text (ledger_state ledger.now)) (sum_text (ledger_state ledger.now))) }
{
    let allowed = AllowedTo { policy, person };
    let sum = sum_text(alloc, ledger)?;
    let file = FileWords {
        begun: begun_text(ledger),
        sum: sum.as_str(),
    };
    if ledger.is_begun() {
        return put_plant_line(alloc, out, ledger.plant(), &allowed, &file);
    }
    put_plant_line(alloc, out, &Plant::new(alloc), &allowed, &file)
}

// Puts the entries from a place on, at most so many, with who asked for each, behind what a buffer holds.
#[tactic(auto, using(crate::proofs::Histories::entries_asked, crate::proofs::Histories::no_entries))]
fn put_entries(
    alloc: Global,
    out: &mut Vec<u8>,
    ledger: &Ledger,
    from: u32,
    most: Option<u32>,
) -> Result<(), AllocError>
    ensures { OnOk result (out.new.items
        ≡ out.old.items ++ entries_text (cut_of from most (entries_in (ledger_state ledger.now)))) }
{
    if ledger.is_begun() {
        return put_entries_line(alloc, out, ledger.plant(), ledger.persons(), from, most);
    }
    put_entries_line(alloc, out, &Plant::new(alloc), &[], from, most)
}

// Puts what is replied to a question behind what a buffer holds.
fn put_told(
    alloc: Global,
    out: &mut Vec<u8>,
    policy: &PlantPolicy,
    ledger: &Ledger,
    question: &Question,
) -> Result<(), AllocError>
    ensures { OnOk result (out.new.items ≡ out.old.items
        ++ told (plain_plant_policy policy.now) (ledger_state ledger.now) (plain_question question.now)) }
{
    match question {
        Question::Would(read) => {
            put_would_line(out, would_line(alloc, policy, ledger, read)?.as_slice())
        }
        Question::Plant(person) => put_plant(alloc, out, policy, ledger, *person),
        Question::Bindings => put_bindings(alloc, out, ledger),
        Question::Entries { from, most } => put_entries(alloc, out, ledger, *from, *most),
    }
}

/// Puts what is replied to a line that asks behind what a buffer holds.
pub fn answer_question(
    alloc: Global,
    out: &mut Vec<u8>,
    policy: &PlantPolicy,
    ledger: &Ledger,
    line: InputLine<'_>,
) -> Result<(), AllocError>
    ensures { OnOk result (out.new.items ≡ out.old.items
        ++ told_to (plain_plant_policy policy.now) (ledger_state ledger.now) (plain_line line.entry)) }
{
    let InputLine::Text(text) = line else {
        return Ok(());
    };
    match read_question(alloc, text) {
        Ok(question) => put_told(alloc, out, policy, ledger, &question),
        Err(LineRefusal::Fault(fault)) => put_fault_line(alloc, out, &fault),
        Err(LineRefusal::Memory) => Err(AllocError),
    }
}
