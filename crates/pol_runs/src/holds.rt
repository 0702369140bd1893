//! Which steps of a chart were held.
ghost use Rattle.std.specs.Prelude.{◌≡◌, ◌<◌, ℕ, length, false, IfOk, if◌then◌else◌};
ghost use Rattle.std.specs.List.{Contains};
ghost use Rattle.mtp_codes.specs.Names.{same_name};
ghost use Rattle.chart_core.specs.Charts.{plain_chart};
ghost use Rattle.chart_core.specs.Trees.{Placed, size, steps};
ghost use Rattle.chart_core.specs.Valid.{IsValid};
ghost use Rattle.chart_cursor.specs.Holding.{flag_at};
ghost use Rattle.pol_runs.specs.Holds.{HaveRoom, Moves, is_hold};

use chart_core::{Chart, LogEntry, chart_size, step_number};
use mtp_codes::Name;
use std::alloc::{AllocError, Global};
use std::marker::Model;

/// For each node of a chart, by its number: whether its step was asked to hold since the batch was last frozen, and
/// whether it was held and not unheld since it last started.
#[derive(Drop)]
pub struct Holds {
    asked: Vec<bool>,
    held: Vec<bool>,
}

impl Model for Holds {
    ghost use Rattle.std.specs.Coded.{codes};
    ghost use Rattle.pol_runs.specs.Holds.{PlainHolds};

    ghost Value = { PlainHolds };

    ghost coded = { Prim.hlevel codes };

    ghost view = { λ holds. record { asked = holds.asked.items; held = holds.held.items } };
}

/// Whether the entry holds or unholds a step.
pub fn is_hold(entry: &LogEntry) -> bool
    ensures { result ≡ is_hold entry.now }
{
    matches!(entry, LogEntry::Hold { .. } | LogEntry::Unhold { .. })
}

// A flag for each of so many nodes, none of them set.
fn no_flags(alloc: Global, count: u32) -> Result<Vec<bool>, AllocError>
    ensures room { IfOk result (λ flags. length flags.items ≡ count) }
    ensures clear { IfOk result (λ flags. (i : ℕ) → flag_at flags.items i ≡ false) }
{
    let mut flags = Vec::new(alloc);
    for _ in 0..count {
        flags.push(false)?;
    }
    Ok(flags)
}

// Sets the flag of the step with this name, where the chart has one.
fn set_flag(chart: &Chart, flags: &mut [bool], name: Name, flag: bool)
    requires valid { IsValid (plain_chart chart.now) }
    requires room { length flags.old ≡ size (plain_chart chart.now).root }
    ensures room { length flags.new ≡ length flags.old }
    ensures flags { (placed : Placed) → Contains (steps (plain_chart chart.now).root 0) placed
        → flag_at flags.new placed.number
        ≡ (if same_name name placed.step.name then flag else flag_at flags.old placed.number) }
{
    if let Some(number) = step_number(chart, name) {
        flags[number as usize] = flag;
    }
}

impl Holds {
    /// No step of the valid chart was held.
    ///
    /// # Errors
    ///
    /// AllocError where there is no memory for two flags for each node.
    pub fn new(alloc: Global, chart: &Chart) -> Result<Holds, AllocError>
        requires { IsValid (plain_chart chart.now) }
        ensures room { IfOk result (λ holds. HaveRoom (plain_chart chart.now) holds) }
        ensures asked { IfOk result (λ holds. (i : ℕ) → flag_at holds.asked i ≡ false) }
        ensures held { IfOk result (λ holds. (i : ℕ) → flag_at holds.held i ≡ false) }
    {
        let count = chart_size(chart);
        let asked = no_flags(alloc, count)?;
        let held = no_flags(alloc, count)?;
        Ok(Holds { asked, held })
    }

    /// Moves the flags as the entry says. Walks the chart's nodes at most twice, and takes no memory.
    pub fn take(&mut self, chart: &Chart, entry: &LogEntry)
        requires valid { IsValid (plain_chart chart.now) }
        requires room { HaveRoom (plain_chart chart.now) self.old }
        ensures room { HaveRoom (plain_chart chart.now) self.new }
        ensures moves { Moves (plain_chart chart.now) entry.now self.old self.new }
    {
        match entry {
            LogEntry::Start { step, .. } | LogEntry::Unhold { step, .. } => {
                set_flag(chart, &mut self.held, *step, false)
            }
            LogEntry::Hold { step, .. } => {
                set_flag(chart, &mut self.asked, *step, true);
                set_flag(chart, &mut self.held, *step, true);
            }
            _ => {}
        }
    }

    /// The batch is frozen anew: no step was asked to hold since. Walks the flags once.
    pub fn begin(&mut self)
        ensures room { length self.new.asked ≡ length self.old.asked }
        ensures asked { (i : ℕ) → flag_at self.new.asked i ≡ false }
        ensures held { self.new.held ≡ self.old.held }
    {
        self.asked.fill(false);
    }

    /// The flags of the steps that were asked to hold.
    pub fn asked(&self) -> &[bool]
        ensures { result.now ≡ self.now.asked }
    {
        &self.asked
    }

    /// The flags of the steps that were held.
    pub fn held(&self) -> &[bool]
        ensures { result.now ≡ self.now.held }
    {
        &self.held
    }
}
