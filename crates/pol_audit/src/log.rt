//! The log of a batch, with those of its entries that are of the run of its chart, those that have it stopped, and the
//! steps that run or are held after it.
ghost use Rattle.std.specs.Prelude.{◌≡◌, ℕ, List, filter};
ghost use Rattle.mtp_codes.specs.Names.{is_among};
ghost use Rattle.chart_core.specs.Active.{is_running, phase_after};
ghost use Rattle.chart_cursor.specs.Logs.{chart_entries, has_broken, was_held, was_stopped};
ghost use Rattle.pol_audit.specs.Halts.{is_halt};

use crate::following::{has_broken, was_stopped};
use crate::standings::is_one_of;
use chart_core::LogEntry;
use mtp_codes::Name;

/// A batch's log, the oldest entry first.
#[derive(Drop)]
pub struct Log<'a> {
    /// The whole log.
    pub whole: &'a [LogEntry],
    /// The entries that belong to the run of the chart.
    pub run: &'a [LogEntry],
    /// The entries after which the batch is stopped.
    pub halts: &'a [LogEntry],
    /// The steps that run.
    pub running: &'a [Name],
    /// The steps that are held.
    pub held: &'a [Name],
    ghost ran: { run.now ≡ chart_entries whole.now },
    ghost halted: { halts.now ≡ filter is_halt whole.now },
    ghost runs: { (name : List ℕ) → is_among running.now name ≡ is_running (phase_after whole.now name) },
    ghost holds: { (name : List ℕ) → is_among held.now name ≡ was_held whole.now name },
}

impl Log<'_> {
    /// Whether the batch broke.
    pub fn has_broken(&self) -> bool
        ensures { result ≡ has_broken self.now.whole.now }
    {
        has_broken(self.halts)
    }

    /// Whether the operator had the batch stopped.
    pub fn was_stopped(&self) -> bool
        ensures { result ≡ was_stopped self.now.whole.now }
    {
        was_stopped(self.halts)
    }

    /// The entries that belong to the run of the chart.
    pub fn run(&self) -> &[LogEntry]
        ensures { result.now ≡ chart_entries self.now.whole.now }
    {
        self.run
    }

    /// Whether the step of this name is active: its last entry is Start, Finish or Reset.
    pub fn is_active(&self, step: Name) -> bool
        ensures { result ≡ is_running (phase_after self.now.whole.now step) }
    {
        is_one_of(self.running, step)
    }

    /// Whether the step of this name was held since it last started, and not unheld after.
    pub fn was_held(&self, step: Name) -> bool
        ensures { result ≡ was_held self.now.whole.now step }
    {
        is_one_of(self.held, step)
    }
}
