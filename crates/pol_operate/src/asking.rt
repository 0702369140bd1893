//! What is asked of the ledger by a line that isn't denied.
ghost use Rattle.std.specs.Prelude.{◌≡◌, ◌++◌, IfErr, IfOk, IsTrue, OnOk, true};
ghost use Rattle.kept_jobs.specs.Keeping.{Admits};
ghost use Rattle.named_lines.specs.Named.{plain_named};
ghost use Rattle.pol_core.specs.Plants.{plant_history};
ghost use Rattle.pol_events.specs.Events.{plain_event};
ghost use Rattle.pol_events.specs.Orderly.{is_orderly};
ghost use Rattle.pol_jobs.specs.Faults.{FailedSo, RefusedFor};
ghost use Rattle.pol_ledger.specs.Items.{asked, plain_asked};
ghost use Rattle.pol_ledger.specs.Ledgers.{ledger_state};
ghost use Rattle.pol_ledger.specs.Work.{items_of, ledger_after, ledger_answer, ledger_work};
ghost use Rattle.pol_operate.specs.Lines.{admitted, asked_by};
ghost use Rattle.pol_operate.specs.Texts.{advanced_by, settings_told};
ghost use Rattle.pol_operate.specs.Saying.{answered_text, ledger_with, text_after};

use crate::fault::DiskFailed;
use crate::telling::put_told_line;
use chart_core::LogEntry;
use mtp_codes::{Name, Setting};
use mtp_json::JsonFault;
use named_lines::Named;
use pol_core::Plant;
use pol_disk::Disk;
use pol_events::{Answer, Event};
use pol_jobs::Stop;
use pol_kept::{Kept, KeptRefusal};
use pol_ledger::{Asked, Ledger, LedgerAnswer, LedgerItem};
use std::alloc::{AllocError, Global};

/// The batch that an event has go on, if it is an advance.
pub fn advanced_by(event: &Event) -> Option<Name>
    ensures { result ≡ advanced_by (plain_event event.now) }
{
    match event {
        Event::Advance { batch, .. } => Some(*batch),
        _ => None,
    }
}

/// The settings that are written with an answer: where a batch went on and started a step, those of that step.
pub fn settings_told<'a>(plant: &'a Plant, batch: Option<Name>, answer: &Answer) -> &'a [Setting]
    ensures { result.now ≡ settings_told (plant_history plant.now) batch answer.now }
{
    let (Some(batch), Answer::Did(LogEntry::Start { step, .. })) = (batch, answer) else {
        return &[];
    };
    match plant.settings(batch, *step) {
        Some(settings) => settings,
        None => &[],
    }
}

// Puts the line of what the ledger answers behind what a buffer holds, by the plant that this leaves.
fn put_answered(
    alloc: Global,
    out: &mut Vec<u8>,
    plant: &Plant,
    batch: Option<Name>,
    answer: &LedgerAnswer,
) -> Result<(), AllocError>
    ensures { OnOk result (out.new.items
        ≡ out.old.items ++ answered_text (plant_history plant.now) batch answer.now) }
{
    match answer {
        LedgerAnswer::Answered(answer) => {
            put_told_line(alloc, out, answer, settings_told(plant, batch, answer))
        }
        LedgerAnswer::Begun | LedgerAnswer::Misplaced => Ok(()),
    }
}

// Asks the ledger for an event, which waits to be kept then.
#[tactic(auto, using(kept_jobs::proofs::Admitting::refused))]
fn admit<D: Disk>(
    store: &mut Kept<D, Ledger>,
    one: Asked,
) -> Result<LedgerAnswer, Stop<JsonFault, DiskFailed>>
    requires { IsTrue (is_orderly (plain_event one.event)) }
    ensures answer { IfOk result (λ answer.
        answer ≡ ledger_answer (ledger_state store.old.chronicle) (asked (plain_asked one))) }
    ensures after { OnOk result (ledger_state store.new.chronicle
        ≡ ledger_after (ledger_state store.old.chronicle) (asked (plain_asked one))) }
    ensures admits { Admits ledger_work ledger_state store.old store.new
        (items_of (ledger_after (ledger_state store.old.chronicle) (asked (plain_asked one)))) }
    ensures failed { IfErr result (FailedSo (store.new.closed ≡ true)) }
    ensures unrefused { IfErr result (RefusedFor (λ _. ⊥)) }
{
    match store.admit(LedgerItem::Asked(one)) {
        Ok(answer) => Ok(answer),
        Err(KeptRefusal::Memory(_item)) => Err(Stop::Memory),
        Err(KeptRefusal::Disk) => Err(Stop::Failed(DiskFailed)),
        Err(KeptRefusal::Closed(_item)) => Err(Stop::Failed(DiskFailed)),
    }
}

/// Asks the ledger for what a line says, which waits to be kept then, and puts the line of the answer behind what a
/// buffer holds.
#[tactic(auto, using(crate::proofs::Histories::answered_same))]
pub fn ask<D: Disk>(
    alloc: Global,
    store: &mut Kept<D, Ledger>,
    said: Named,
    out: &mut Vec<u8>,
) -> Result<(), Stop<JsonFault, DiskFailed>>
    requires { IsTrue (is_orderly (plain_event said.event)) }
    ensures line { OnOk result (out.new.items ≡ out.old.items
        ++ text_after (ledger_state store.old.chronicle) (admitted (asked_by (plain_named said)))) }
    ensures ledger { OnOk result (ledger_state store.new.chronicle
        ≡ ledger_with (ledger_state store.old.chronicle) (admitted (asked_by (plain_named said)))) }
    ensures admits { Admits ledger_work ledger_state store.old store.new
        (items_of (ledger_after (ledger_state store.old.chronicle) (asked (asked_by (plain_named said))))) }
    ensures failed { IfErr result (FailedSo (store.new.closed ≡ true)) }
    ensures unrefused { IfErr result (RefusedFor (λ _. ⊥)) }
{
    let batch = advanced_by(&said.event);
    let one = Asked {
        event: said.event,
        by: said.by,
    };
    let answer = admit(store, one)?;
    put_answered(alloc, out, store.chronicle().plant(), batch, &answer)?;
    Ok(())
}
