//! A clock in memory.
ghost use Rattle.std.specs.Prelude.{◌≡◌, ◌≤◌, drop};
ghost use Rattle.pol_io.specs.Causes.{Rose};
ghost use Rattle.pol_io.specs.Clocks.{Timed, after_call, next_moment};

use super::clock::Clock;
use std::marker::Model;

/// A clock that answers these moments in order and then the last one again, 0 where there is none.
#[derive(Drop)]
pub struct MemoryClock {
    moments: Vec<u64>,
    at: usize,
    last: u64,
    calls: u64,
}

impl Model for MemoryClock {
    ghost Value = { Timed };

    ghost view = { λ clock. record {
      moments = drop clock.at clock.moments.items;
      last = clock.last;
      calls = clock.calls;
    } };

    ghost invariant = { λ clock. clock.at ≤ clock.moments.len };
}

impl MemoryClock {
    /// All these moments are to come.
    pub fn new(moments: Vec<u64>) -> MemoryClock
        ensures { result ≡ record { moments = moments.items; last = 0; calls = 0 } }
    {
        MemoryClock {
            moments,
            at: 0,
            last: 0,
            calls: 0,
        }
    }
}

impl Clock for MemoryClock {
    ghost last = { λ clock. clock.last };

    ghost calls = { λ clock. clock.calls };

    fn now(&mut self) -> u64
        ensures last { self.new.last ≡ result }
        ensures calls { Rose self.old.calls self.new.calls }
        ensures moment { result ≡ next_moment self.old }
        ensures after { self.new ≡ after_call self.old }
    {
        self.calls = self.calls.saturating_add(1);
        if let Some(moment) = self.moments.get(self.at) {
            self.last = *moment;
            self.at += 1;
        }
        self.last
    }
}
