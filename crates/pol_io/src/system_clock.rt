//! The runtime's clock as a `Clock`: the edge to the outside.
ghost use Rattle.std.specs.Prelude.{◌≡◌};
ghost use Rattle.pol_io.specs.Causes.{Rose};
ghost use Rattle.pol_io.specs.Clocks.{Ticking};
ghost use Rattle.pol_io.specs.Scripted.{counted};

use super::clock::Clock;
use std::marker::Model;

/// The runtime's clock, in whole milliseconds since 1970. Where that clock fails, or gives more than 64 bits hold, it
/// answers its last number again, 0 before any. Nothing is known of what the runtime's clock gives.
#[derive(Drop)]
pub struct SystemClock<T: std::rt::Clock + Drop> {
    rt: T,
    last: u64,
    calls: u64,
}

impl<T: std::rt::Clock + Drop> Model for SystemClock<T> {
    ghost Value = { Ticking };

    ghost view = { λ clock. record { last = clock.last; calls = clock.calls } };
}

impl<T: std::rt::Clock + Drop> SystemClock<T> {
    /// The runtime's clock, which wasn't asked yet.
    pub fn new(rt: T) -> SystemClock<T>
        ensures { result ≡ record { last = 0; calls = 0 } }
    {
        SystemClock {
            rt,
            last: 0,
            calls: 0,
        }
    }
}

// The milliseconds since 1970, where the clock gives them and 64 bits hold them.
fn millis_of<T: std::rt::Clock>(rt: &T) -> Option<u64> {
    let time = rt.since_1970().ok()?;
    u64::try_from(time.as_millis()).ok()
}

impl<T: std::rt::Clock + Drop> Clock for SystemClock<T> {
    ghost last = { λ clock. clock.last };

    ghost calls = { λ clock. clock.calls };

    fn now(&mut self) -> u64
        ensures last { self.new.last ≡ result }
        ensures calls { Rose self.old.calls self.new.calls }
        ensures counts { self.new.calls ≡ counted self.old.calls }
    {
        self.calls = self.calls.saturating_add(1);
        if let Some(millis) = millis_of(&self.rt) {
            self.last = millis;
        }
        self.last
    }
}
