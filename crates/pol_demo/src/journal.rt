//! The demo journal of a seed.
ghost use Rattle.std.specs.Prelude.{◌≡◌, ◌+◌, ◌≤◌, ◌<◌, ◌^◌, [], codes, IfOk, OnOk};
ghost use Rattle.mtp_desc.specs.PlainDescription.{plain_description};
ghost use Rattle.pol_events.specs.Events.{plain_history};
ghost use Rattle.pol_history.specs.Runs.{history_after};
ghost use Rattle.pol_demo.specs.Doser.{doser};
ghost use Rattle.pol_demo.specs.Journal.{advanced, batch_run, batch_runs, batches_of, busy, demo_events, docked, dosed};
ghost use Rattle.pol_demo.specs.Journal.{each, idle, known, leveled, measured, reported, started};
ghost use Rattle.pol_demo.specs.Telling.{line_told, lines_told, told_by};
ghost use Rattle.pol_demo.specs.Values.{drawn};

use crate::doser::{doser, dosing};
use crate::names::{name, numbered};
use crate::sequence::Sequence;
use crate::telling::Teller;
use mtp_assembly::ServiceControl;
use mtp_codes::{Mode, Name, Origin, State, Value};
use mtp_desc::Description;
use pol_events::{Bind, Event};
use std::alloc::{AllocError, Global};
use std::sync::Arc;

/// How many modules are docked.
const MODULES: u8 = 8;

/// How many values a batch has.
const VALUES: u16 = 1000;

// How many lines a journal has beside those of its batches.
const FIRST_LINES: u32 = 17;

// How many lines a batch has at most.
const BATCH_LINES: u32 = 1012;

// Docks the module of this place.
#[tactic(auto, unfolding(crate::specs::Telling::line_told))]
fn dock_at(
    alloc: Global,
    teller: &mut Teller,
    place: u8,
    desc: Arc<Description>,
) -> Result<(), AllocError>
    requires doser { plain_description desc.value ≡ doser }
    requires room { teller.old.at + 1 < 2 ^ 64 }
    ensures told { OnOk result (told_by teller.new ≡ line_told (docked place) (told_by teller.old)) }
    ensures at { OnOk result (teller.new.at ≡ teller.old.at + 1) }
{
    let tag = numbered(alloc, "U", place)?;
    teller.tell(Event::Plug {
        at: teller.at,
        tag,
        desc,
    })
}

// Docks the modules.
fn dock(alloc: Global, teller: &mut Teller) -> Result<(), AllocError>
    requires { teller.old.at + MODULES < 2 ^ 64 }
    ensures told { OnOk result (told_by teller.new ≡ lines_told (each docked MODULES) (told_by teller.old)) }
    ensures at { OnOk result (teller.new.at ≡ teller.old.at + MODULES) }
{
    let desc = Arc::new(alloc, doser(alloc)?)?;
    for place in 0..MODULES {
        dock_at(alloc, teller, place, desc.clone()?)?;
    }
    Ok(())
}

// The service of a module reports.
#[tactic(auto, unfolding(crate::specs::Telling::line_told))]
fn report(teller: &mut Teller, tag: Name, state: State, mask: u32) -> Result<(), AllocError>
    requires { teller.old.at + 1 < 2 ^ 64 }
    ensures told { OnOk result (told_by teller.new ≡ line_told (reported tag state mask) (told_by teller.old)) }
    ensures at { OnOk result (teller.new.at ≡ teller.old.at + 1) }
{
    let control = ServiceControl {
        state,
        mask,
        mode: Mode::Automatic,
        origin: Origin::External,
        procedure: 0,
    };
    teller.tell(Event::Report {
        at: teller.at,
        tag,
        service: name("dose"),
        control,
    })
}

// Each module reports for the first time.
fn report_idle(alloc: Global, teller: &mut Teller) -> Result<(), AllocError>
    requires { teller.old.at + MODULES < 2 ^ 64 }
    ensures told { OnOk result (told_by teller.new ≡ lines_told (each idle MODULES) (told_by teller.old)) }
    ensures at { OnOk result (teller.new.at ≡ teller.old.at + MODULES) }
{
    for place in 0..MODULES {
        let tag = numbered(alloc, "U", place)?;
        report(teller, tag, State::Idle, 4)?;
    }
    Ok(())
}

// Makes the recipe known.
#[tactic(auto, unfolding(crate::specs::Telling::line_told))]
fn make_known(alloc: Global, teller: &mut Teller) -> Result<(), AllocError>
    requires { teller.old.at + 1 < 2 ^ 64 }
    ensures told { OnOk result (told_by teller.new ≡ line_told known (told_by teller.old)) }
    ensures at { OnOk result (teller.new.at ≡ teller.old.at + 1) }
{
    let chart = Arc::new(alloc, dosing(alloc)?)?;
    teller.tell(Event::Recipe {
        at: teller.at,
        recipe: name("one"),
        chart,
    })
}

// Starts a batch on a module.
#[tactic(auto, unfolding(crate::specs::Telling::line_told))]
fn start(alloc: Global, teller: &mut Teller, batch: Name, tag: Name) -> Result<(), AllocError>
    requires { teller.old.at + 1 < 2 ^ 64 }
    ensures told { OnOk result (told_by teller.new ≡ line_told (started batch tag) (told_by teller.old)) }
    ensures at { OnOk result (teller.new.at ≡ teller.old.at + 1) }
{
    let bind = Bind {
        role: name("A"),
        tag,
    };
    teller.tell(Event::Start {
        at: teller.at,
        batch,
        recipe: name("one"),
        bind: vec![in alloc; bind]?,
        watch: Vec::new(alloc),
    })
}

// Reports the level of a module.
#[tactic(auto, unfolding(crate::specs::Telling::line_told))]
fn tell_level(teller: &mut Teller, tag: Name, level: Name, value: u32) -> Result<(), AllocError>
    requires named { level ≡ codes "level" }
    requires room { teller.old.at + 1 < 2 ^ 64 }
    ensures told { OnOk result (told_by teller.new ≡ line_told (leveled tag value) (told_by teller.old)) }
    ensures at { OnOk result (teller.new.at ≡ teller.old.at + 1) }
{
    teller.tell(Event::Variable {
        at: teller.at,
        tag,
        name: level,
        value: Value::Whole(i64::from(value)),
    })
}

// Reports the values of a module, the next ones of the sequence.
fn measure(teller: &mut Teller, sequence: &mut Sequence, tag: Name) -> Result<(), AllocError>
    requires { teller.old.at + VALUES < 2 ^ 64 }
    ensures told { OnOk result (told_by teller.new
        ≡ lines_told (each (measured tag sequence.old) VALUES) (told_by teller.old)) }
    ensures drawn { OnOk result (sequence.new ≡ drawn sequence.old VALUES) }
    ensures at { OnOk result (teller.new.at ≡ teller.old.at + VALUES) }
{
    let level = name("level");
    for place in 0..VALUES {
        let value = sequence.next();
        tell_level(teller, tag, level, value)?;
    }
    Ok(())
}

// Advances a batch.
#[tactic(auto, unfolding(crate::specs::Telling::line_told))]
fn advance(teller: &mut Teller, batch: Name) -> Result<(), AllocError>
    requires { teller.old.at + 1 < 2 ^ 64 }
    ensures told { OnOk result (told_by teller.new ≡ line_told (advanced batch) (told_by teller.old)) }
    ensures at { OnOk result (teller.new.at ≡ teller.old.at + 1) }
{
    teller.tell(Event::Advance {
        at: teller.at,
        batch,
    })
}

// Runs the recipe in a batch.
#[tactic(auto, unfolding(crate::specs::Journal::dosed))]
fn dose(teller: &mut Teller, batch: Name, tag: Name) -> Result<(), AllocError>
    requires { teller.old.at + 10 < 2 ^ 64 }
    ensures told { OnOk result (told_by teller.new ≡ lines_told (dosed batch tag) (told_by teller.old)) }
    ensures at { OnOk result (teller.new.at ≡ teller.old.at + 10) }
{
    advance(teller, batch)?;
    report(teller, tag, State::Starting, 0)?;
    report(teller, tag, State::Execute, 0)?;
    report(teller, tag, State::Completing, 0)?;
    report(teller, tag, State::Completed, 2)?;
    advance(teller, batch)?;
    report(teller, tag, State::Resetting, 0)?;
    report(teller, tag, State::Idle, 4)?;
    advance(teller, batch)?;
    advance(teller, batch)
}

// Starts the batch of this number, and behind each tenth one another batch, on the same module.
#[tactic(auto, unfolding(crate::specs::Journal::busy))]
fn start_batch(
    alloc: Global,
    teller: &mut Teller,
    number: u8,
    batch: Name,
    tag: Name,
) -> Result<(), AllocError>
    requires { teller.old.at + 2 < 2 ^ 64 }
    ensures told { OnOk result (told_by teller.new
        ≡ lines_told (busy number tag) (line_told (started batch tag) (told_by teller.old))) }
    ensures at { OnOk result (teller.new.at ≤ teller.old.at + 2) }
{
    start(alloc, teller, batch, tag)?;
    if number % 10 == 9 {
        let busy = numbered(alloc, "X", number)?;
        start(alloc, teller, busy, tag)?;
    }
    Ok(())
}

// Runs the batch of this number from its start to its end.
fn run_batch(
    alloc: Global,
    teller: &mut Teller,
    sequence: &mut Sequence,
    number: u8,
) -> Result<(), AllocError>
    requires { teller.old.at + BATCH_LINES < 2 ^ 64 }
    ensures told { OnOk result (told_by teller.new
        ≡ lines_told (batch_run sequence.old number) (told_by teller.old)) }
    ensures drawn { OnOk result (sequence.new ≡ drawn sequence.old VALUES) }
    ensures at { OnOk result (teller.new.at ≤ teller.old.at + BATCH_LINES) }
{
    let tag = numbered(alloc, "U", number % MODULES)?;
    let batch = numbered(alloc, "B", number)?;
    start_batch(alloc, teller, number, batch, tag)?;
    measure(teller, sequence, tag)?;
    dose(teller, batch, tag)
}

// How many batches a seed has: 1 to 120.
fn batches_of(seed: u32) -> u8
    ensures count { result ≡ batches_of seed }
    ensures few { result ≤ 120 }
{
    1 + (seed % 120) as u8
}

// Runs the batches of a seed, one after another.
fn run_batches(alloc: Global, teller: &mut Teller, seed: u32) -> Result<(), AllocError>
    requires { teller.old.at < 2 ^ 63 }
    ensures { OnOk result (told_by teller.new ≡ lines_told (batch_runs seed (batches_of seed)) (told_by teller.old)) }
{
    let mut sequence = Sequence::new(seed);
    for number in 0..batches_of(seed) {
        run_batch(alloc, teller, &mut sequence, number)?;
    }
    Ok(())
}

/// Applies the demo journal of a seed to a plant.
///
/// # Errors
///
/// AllocError where there is no memory.
pub fn tell_journal(alloc: Global, seed: u32) -> Result<Teller, AllocError>
    ensures { IfOk result (λ teller. plain_history teller.plant.entries ≡ history_after [] (demo_events seed)) }
{
    let lines = FIRST_LINES + BATCH_LINES * u32::from(batches_of(seed));
    let mut teller = Teller::new(alloc, lines)?;
    dock(alloc, &mut teller)?;
    report_idle(alloc, &mut teller)?;
    make_known(alloc, &mut teller)?;
    run_batches(alloc, &mut teller, seed)?;
    Ok(teller)
}
