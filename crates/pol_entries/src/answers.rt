//! Reading the object of an answer.
ghost use Rattle.std.specs.Prelude.{◌≡◌, codes, option_and_then, option_map};
ghost use Rattle.serde_json.specs.View.{view};
ghost use Rattle.mtp_json.specs.ReadsAs.{ReadsAs};
ghost use Rattle.pol_entries.specs.Answers.{ReadsAnswer, alone, answer_form, answer_in, done_in, entry_in, has};
ghost use Rattle.pol_entries.specs.Answers.{obstacle_in, outcome_in, rule_in, ticket_in};

use crate::candidates::{entry_named, obstacle_named, outcome_named, rule_numbered};
use crate::comparing::is_object;
use crate::found::{number_at, text_at};
use chart_core::{LogEntry, Outcome, Why};
use event_json::Fields;
use mtp_json::{FaultKind, FromJson, JsonRefusal, here};
use pol_events::{Answer, Rule};
use pol_record::{entry_fields, obstacle_fields, outcome_name, refusal_fields};
use serde_json::Value;
use std::alloc::Global;

fn rule_in(value: &Value) -> Option<Rule>
    ensures { result ≡ rule_in (view value.now) }
{
    let rule = rule_numbered(number_at(value, "refused"), value)?;
    if is_object(value, &refusal_fields(&rule)) {
        Some(rule)
    } else {
        None
    }
}

fn entry_in(value: &Value) -> Option<LogEntry>
    ensures { result ≡ entry_in (view value.now) }
{
    let entry = entry_named(text_at(value, "do"), value)?;
    if is_object(value, &entry_fields(&entry)) {
        Some(entry)
    } else {
        None
    }
}

fn obstacle_in(value: &Value) -> Option<Why>
    ensures { result ≡ obstacle_in (view value.now) }
{
    let obstacle = obstacle_named(text_at(value, "wait"), value)?;
    if is_object(value, &obstacle_fields(&obstacle)) {
        Some(obstacle)
    } else {
        None
    }
}

fn outcome_in(value: &Value) -> Option<Outcome>
    ensures { result ≡ outcome_in (view value.now) }
{
    let outcome = outcome_named(text_at(value, "closed"))?;
    if is_object(value, &Fields::none().text("closed", outcome_name(outcome))) {
        Some(outcome)
    } else {
        None
    }
}

fn ticket_in(value: &Value) -> Option<u32>
    ensures { result ≡ ticket_in (view value.now) }
{
    let ticket = number_at(value, "ticket");
    if is_object(value, &Fields::none().number("ticket", ticket)) {
        Some(ticket)
    } else {
        None
    }
}

// The value in an object that has this key and no other.
fn alone<'a>(value: &'a Value, key: &str) -> Option<&'a Value>
    ensures { option_map (λ inner. view inner.now) result ≡ alone key.now (view value.now) }
{
    let members = value.as_object()?;
    let mut rest = members.iter();
    let (other, inner) = rest.next()?;
    if other.as_str() == key && rest.next().is_none() {
        Some(inner)
    } else {
        None
    }
}

fn done_in(value: &Value) -> Option<Answer>
    ensures { result ≡ done_in (view value.now) }
{
    match alone(value, "done")?.as_bool() {
        Some(true) => Some(Answer::Done),
        _ => None,
    }
}

fn did_in(value: &Value) -> Option<LogEntry>
    ensures { result ≡ option_and_then entry_in (alone (codes "did") (view value.now)) }
{
    entry_in(alone(value, "did")?)
}

fn has(value: &Value, key: &str) -> bool
    ensures { result ≡ has key.now (view value.now) }
{
    value.get(key).is_some()
}

// The answer that the object says, by the key that is there.
fn answer_in(value: &Value) -> Option<Answer>
    ensures { result ≡ answer_in (view value.now) }
{
    if has(value, "refused") {
        Some(Answer::Refused(rule_in(value)?))
    } else if has(value, "wait") {
        Some(Answer::Waiting(obstacle_in(value)?))
    } else if has(value, "closed") {
        Some(Answer::Closed(outcome_in(value)?))
    } else if has(value, "did") {
        Some(Answer::Did(did_in(value)?))
    } else if has(value, "ticket") {
        Some(Answer::Ticket(ticket_in(value)?))
    } else {
        done_in(value)
    }
}

#[tactic(auto, unfolding(crate::specs::Answers::answer_form))]
fn read_form(alloc: Global, value: &Value) -> Result<Answer, JsonRefusal>
    ensures { ReadsAs (λ answer. answer) result (answer_form (view value.now)) }
{
    here(alloc, answer_in(value).ok_or(FaultKind::Unsound))
}

/// The answer whose object this is: what `answer_line` writes of it. Any other value is Unsound, with the empty path.
#[tactic(auto, using(crate::proofs::Told::reads_answer))]
pub fn read_answer(alloc: Global, value: &Value) -> Result<Answer, JsonRefusal>
    ensures gives { ReadsAs (λ answer. answer) result (answer_form (view value.now)) }
    ensures reads { ReadsAnswer (view value.now) result }
{
    read_form(alloc, value)
}

/// The form of an answer's object.
pub struct AnswerJson;

impl FromJson for AnswerJson {
    ghost use Rattle.pol_events.specs.declared.answer.Answer.{Answer};
    ghost use Rattle.pol_entries.specs.Answers.{answer_form};

    type Item = Answer;

    ghost Form = { Answer };

    ghost plain = { λ answer. answer };

    ghost form = { answer_form };

    fn read(alloc: Global, value: &Value) -> Result<Answer, JsonRefusal> {
        read_answer(alloc, value)
    }
}
