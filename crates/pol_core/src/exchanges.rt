//! Modules that are exchanged.
ghost use Rattle.std.specs.Prelude.{◌≡◌, ℕ, false, [], ◌∷◌, map, Some, None, IfOk, OnOk, OnErr, option_map, option_and_then};
ghost use Rattle.mtp_codes.specs.Faults.{first_of, done_unless};
ghost use Rattle.mtp_desc.specs.PlainDescription.{plain_description};
ghost use Rattle.mtp_procs.specs.Covers.{cover_fault, missing_by};
ghost use Rattle.chart_core.specs.Charts.{plain_chart};
ghost use Rattle.chart_cursor.specs.Logs.{active};
ghost use Rattle.pol_events.specs.Bound.{bound_role, step_on, ArePaired};
ghost use Rattle.pol_events.specs.Events.{exchange_begin, exchange_end, exchange_cancel};
ghost use Rattle.pol_history.specs.Answers.{answer_of, is_full, rules};
ghost use Rattle.pol_history.specs.Looking.{History};
ghost use Rattle.pol_history.specs.Rules.{active_step, held_back};
ghost use Rattle.pol_slots.specs.Refused.{ticket_rule};
ghost use Rattle.pol_slots.specs.Slots.{slot_ticket, IsDocked, IsUnchanged};
ghost use Rattle.pol_slots.specs.declared.slot.Slot.{Slot as slot_type};
ghost use Rattle.pol_table.specs.Rows.{holder_of, part_of, watchers_of};
ghost use Rattle.pol_runs.specs.Logs.{Follows};
ghost use Rattle.pol_core.specs.Batches.{ModuleAnswersBeside, RunsMirror};
ghost use Rattle.pol_core.specs.Calls.{ticket_answer};
ghost use Rattle.pol_core.specs.Exchanges.{HaveBegunFew, IsDockedAt, SendsAway, lacks};
ghost use Rattle.pol_core.specs.Seats.{IsCounted, ModuleAnswers, SeatsMirror};

use crate::modules::{done_or_refused, next_ticket};
use indexmap::IndexMap;
use mtp_codes::Name;
use mtp_desc::Description;
use pol_bind::held_back_by;
use pol_events::{Answer, Rule, bound_role};
use pol_runs::Run;
use pol_slots::{Slot, SlotRefusal};
use pol_table::Table;
use std::alloc::AllocError;
use std::sync::Arc;

// The batch that holds the module has an active step on it.
fn active_step(modules: &Table<Slot>, runs: &IndexMap<Name, Run>, tag: Name) -> Option<Rule>
    ensures { (history : History) → SeatsMirror modules.now history → RunsMirror runs.now.entries history
        → result ≡ active_step history tag }
{
    let batch = modules.holder(tag)?;
    let run = runs.get(&batch)?;
    let step = run.active_on(tag)?;
    Some(Rule::ActiveStep { batch, step })
}

/// The rule that the begin of an exchange would be refused by, while the history has room. Takes no memory.
pub fn begin_rule(modules: &Table<Slot>, runs: &IndexMap<Name, Run>, tag: Name) -> Option<Rule>
    ensures rule { (history : History) (at : ℕ) → SeatsMirror modules.now history → RunsMirror runs.now.entries history
        → result ≡ first_of (rules history (exchange_begin at tag)) }
    ensures docked { result ≡ None → IsDockedAt tag modules.now }
{
    let Some(slot) = modules.get(tag) else {
        return Some(Rule::NoModule { tag });
    };
    if let Some(ticket) = slot.ticket() {
        return Some(Rule::InExchange { tag, ticket });
    }
    if let Some(rule) = active_step(modules, runs, tag) {
        return Some(rule);
    }
    slot.at_rest().err()
}

/// The ticket that the begin of an exchange would be answered with, or the rule that it would be refused by, while the
/// history has room. Takes no memory.
pub fn begin_ticket(
    modules: &Table<Slot>,
    runs: &IndexMap<Name, Run>,
    tag: Name,
) -> Result<u32, Rule>
    requires few { HaveBegunFew modules.now }
    ensures { (history : History) (at : ℕ) → SeatsMirror modules.now history → RunsMirror runs.now.entries history
        → is_full history ≡ false → ticket_answer result ≡ answer_of history (exchange_begin at tag) }
{
    match begin_rule(modules, runs, tag) {
        Some(rule) => Err(rule),
        None => Ok(next_ticket(modules, tag)),
    }
}

// Sends the module away that is docked under the tag.
fn send_away(modules: &mut Table<Slot>, tag: Name) -> u32
    requires docked { IsDockedAt tag modules.old }
    requires few { HaveBegunFew modules.old }
    ensures { (slot : slot_type) → part_of tag modules.old ≡ Some slot
        → SendsAway tag result slot modules.old modules.new }
{
    match modules.get_mut(tag) {
        Some(slot) => slot.begin(),
        None => unreachable!(),
    }
}

/// A module is taken away to be exchanged; the answer is its ticket.
pub fn exchange_begin(modules: &mut Table<Slot>, runs: &IndexMap<Name, Run>, tag: Name) -> Answer
    requires few { HaveBegunFew modules.old }
    ensures answered { ModuleAnswersBeside runs.now.entries (λ at. exchange_begin at tag) modules.old result
        modules.new }
{
    if let Some(rule) = begin_rule(modules, runs, tag) {
        return Answer::Refused(rule);
    }
    Answer::Ticket(send_away(modules, tag))
}

// What of the batch's chart the description doesn't cover, for the role that the tag plays.
fn missing_of(run: &Run, tag: Name, desc: &Description) -> Option<Name>
    ensures { result ≡ option_and_then
        (λ role. option_map (missing_by role)
        (cover_fault (plain_chart run.now.chart) role (plain_description desc.now)))
        (bound_role run.now.binds tag) }
{
    let role = bound_role(run.binds(), tag)?;
    held_back_by(run.chart(), role, desc)
}

// The new module doesn't cover its role in the batch.
fn uncovered_in(
    runs: &IndexMap<Name, Run>,
    batch: Name,
    tag: Name,
    desc: &Description,
) -> Option<Rule>
    ensures { result ≡ lacks runs.now.entries tag (plain_description desc.now) batch }
{
    let run = runs.get(&batch)?;
    let missing = missing_of(run, tag, desc)?;
    Some(Rule::HeldBack { batch, missing })
}

// The new module doesn't cover its role in the batch that holds the tag.
fn held_back_by_holder(
    modules: &Table<Slot>,
    runs: &IndexMap<Name, Run>,
    tag: Name,
    desc: &Description,
) -> Option<Rule>
    ensures { result ≡ option_and_then (lacks runs.now.entries tag (plain_description desc.now))
        (holder_of tag modules.now) }
{
    let batch = modules.holder(tag)?;
    uncovered_in(runs, batch, tag, desc)
}

// The new module doesn't cover its role in a batch that watches the tag; the first such batch.
fn held_back_by_watcher(
    modules: &Table<Slot>,
    runs: &IndexMap<Name, Run>,
    tag: Name,
    desc: &Description,
) -> Option<Rule>
    ensures { result ≡ first_of (map (lacks runs.now.entries tag (plain_description desc.now))
        (watchers_of tag modules.now)) }
{
    for watch in modules.watches() {
        if watch.tag == tag {
            if let Some(rule) = uncovered_in(runs, watch.batch, tag, desc) {
                return Some(rule);
            }
        }
    }
    None
}

// The new module doesn't cover its role in the batch that holds the tag, or else in one that watches it.
fn held_back(
    modules: &Table<Slot>,
    runs: &IndexMap<Name, Run>,
    tag: Name,
    desc: &Description,
) -> Option<Rule>
    ensures { (history : History) → SeatsMirror modules.now history → RunsMirror runs.now.entries history
        → result ≡ held_back history tag (plain_description desc.now) }
{
    match held_back_by_holder(modules, runs, tag, desc) {
        Some(rule) => Some(rule),
        None => held_back_by_watcher(modules, runs, tag, desc),
    }
}

/// The rule that the end of an exchange would be refused by, while the history has room. Takes no memory.
pub fn end_rule(
    modules: &Table<Slot>,
    runs: &IndexMap<Name, Run>,
    tag: Name,
    ticket: u32,
    desc: &Description,
) -> Option<Rule>
    ensures { (history : History) (at : ℕ) → SeatsMirror modules.now history → RunsMirror runs.now.entries history
        → result ≡ first_of (rules history (exchange_end at tag ticket (plain_description desc.now))) }
{
    let Some(slot) = modules.get(tag) else {
        return Some(Rule::NoModule { tag });
    };
    match slot.ticket_rule(ticket) {
        Some(rule) => Some(rule),
        None => held_back(modules, runs, tag, desc),
    }
}

// Docks another module in place of the one that is away, unless the ticket is wrong or this rule holds the module back.
// AllocError where there is no memory; then, as after a refusal, the slot is unchanged.
fn dock_again(
    slot: &mut Slot,
    ticket: u32,
    held_back: Option<Rule>,
    desc: &Arc<Description>,
) -> Result<Result<(), Rule>, AllocError>
    ensures answer { IfOk result (λ answer. answer
        ≡ done_unless (first_of (ticket_rule ticket (slot_ticket slot.old) ∷ held_back ∷ []))) }
    ensures docked { IfOk result (λ answer. OnOk answer
        (IsDocked slot.old slot.new (plain_description desc.now.value))) }
    ensures refused { IfOk result (λ answer. OnErr answer (IsUnchanged slot.old slot.new)) }
    ensures unchanged { OnErr result (IsUnchanged slot.old slot.new) }
{
    if let Some(rule) = held_back {
        return Ok(Err(slot.ticket_rule(ticket).unwrap_or(rule)));
    }
    match slot.finish(ticket, desc.clone()?) {
        Ok(()) => Ok(Ok(())),
        Err(SlotRefusal::Rule(rule)) => Ok(Err(rule)),
        Err(SlotRefusal::Memory) => Err(AllocError),
    }
}

/// Another module comes in place of the one that is away. AllocError where there is no memory; then nothing that is
/// seen changes.
pub fn exchange_end(
    modules: &mut Table<Slot>,
    runs: &IndexMap<Name, Run>,
    tag: Name,
    ticket: u32,
    desc: &Arc<Description>,
) -> Result<Answer, AllocError>
    ensures answered { IfOk result (λ answer. ModuleAnswersBeside runs.now.entries
        (λ at. exchange_end at tag ticket (plain_description desc.now.value)) modules.old answer modules.new) }
    ensures kept { OnErr result ((history : History) → SeatsMirror modules.old history → IsCounted modules.old history
        → SeatsMirror modules.new history × IsCounted modules.new history) }
{
    let held_back = held_back(modules, runs, tag, desc);
    match modules.get_mut(tag) {
        None => Ok(Answer::Refused(Rule::NoModule { tag })),
        Some(slot) => Ok(done_or_refused(dock_again(slot, ticket, held_back, desc)?)),
    }
}

/// An exchange is cancelled: the module that is away is docked again.
pub fn exchange_cancel(modules: &mut Table<Slot>, tag: Name, ticket: u32) -> Answer
    ensures answered { ModuleAnswers (λ at. exchange_cancel at tag ticket) modules.old result modules.new }
{
    match modules.get_mut(tag) {
        None => Answer::Refused(Rule::NoModule { tag }),
        Some(slot) => done_or_refused(slot.cancel(ticket)),
    }
}
