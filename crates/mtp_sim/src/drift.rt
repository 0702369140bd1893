//! A drifting variable of a simulated module.
ghost use Rattle.std.specs.Prelude.{◌≡◌, ◌<ℤ◌, ◌+ℤ◌, pos};
ghost use Rattle.mtp_sim.specs.Sims.{drift_in, first_drift};
ghost use Rattle.mtp_sim.specs.Ticks.{at_most, is_left, is_silent, next_value, value_told};

use super::plan::Drift;
use mtp_codes::Name;

/// The state of a drifting variable: its drift, and the value that it reported last.
#[derive(Clone, Copy)]
pub struct SimDrift {
    /// The variable's name.
    pub name: Name,
    /// Its first value.
    pub from: i64,
    /// By how much it rises.
    pub by: u64,
    /// Its greatest value.
    pub to: i64,
    /// The value that it reported last; None before the first.
    pub last: Option<i64>,
}

// The last value plus a number, at most this greatest value.
fn sum_to(last: i64, by: u64, to: i64) -> i64
    requires { last <ℤ to }
    ensures { result ≡ at_most to (last +ℤ pos by) }
{
    match last.checked_add_unsigned(by) {
        Some(next) if next < to => next,
        _ => to,
    }
}

impl SimDrift {
    /// A drift of which nothing was reported.
    pub fn first(drift: &Drift) -> SimDrift
        ensures { result ≡ first_drift drift.now }
    {
        SimDrift {
            name: drift.name,
            from: drift.from,
            by: drift.by.unsigned_abs(),
            to: drift.to,
            last: None,
        }
    }

    /// The value that follows the one reported last; None where that is the greatest.
    pub fn next_value(&self) -> Option<i64>
        ensures { result ≡ next_value (drift_in self.now) self.now.last }
    {
        match self.last {
            None => Some(self.from),
            Some(last) if last < self.to => Some(sum_to(last, self.by, self.to)),
            Some(_) => None,
        }
    }

    /// Whether its first value is still to be reported.
    pub fn is_silent(&self) -> bool
        ensures { result ≡ is_silent self.now }
    {
        self.last.is_none()
    }

    /// Whether a value follows the one reported last.
    pub fn is_left(&self) -> bool
        ensures { result ≡ is_left self.now }
    {
        self.next_value().is_some()
    }

    /// The value that a tick reports when it looks at the drift: the first one, or while a service executes the next
    /// one.
    pub fn value_told(&self, executing: bool) -> Option<i64>
        ensures { result ≡ value_told executing self.now }
    {
        if executing || self.is_silent() {
            self.next_value()
        } else {
            None
        }
    }
}
