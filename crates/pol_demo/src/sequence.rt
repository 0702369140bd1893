//! The numbers of which the values of a demo journal are made.
ghost use Rattle.std.specs.Prelude.{◌≡◌};
ghost use Rattle.pol_demo.specs.Values.{following, value_of};

use std::marker::Model;

const FACTOR: u64 = 6_364_136_223_846_793_005;

const ADDEND: u64 = 1_442_695_040_888_963_407;

/// A linear congruential sequence. Contracts see it as its current number.
#[derive(Drop)]
pub struct Sequence {
    number: u64,
}

impl Model for Sequence {
    ghost use Rattle.std.specs.Prelude.{ℕ};

    ghost Value = { ℕ };

    ghost view = { λ sequence. sequence.number };
}

impl Sequence {
    /// A sequence whose current number is its seed.
    pub fn new(seed: u32) -> Sequence
        ensures { result ≡ seed }
    {
        Sequence {
            number: u64::from(seed),
        }
    }

    /// Goes on to the next number, and answers the value that it makes, below 2^31.
    pub fn next(&mut self) -> u32
        ensures number { self.new ≡ following self.old }
        ensures value { result ≡ value_of (following self.old) }
    {
        self.number = self.number.wrapping_mul(FACTOR).wrapping_add(ADDEND);
        (self.number >> 33) as u32
    }
}
