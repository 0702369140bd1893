//! A clock, which gives the time.
ghost use Rattle.std.specs.Prelude.{◌≡◌, ℕ};
ghost use Rattle.pol_io.specs.Causes.{Rose};

/// Tells the time. It can't fail, and nothing is claimed of its numbers: they may stand still or go back.
pub trait Clock: Drop {
    /// The number that the last call answered.
    ghost last: { Self → ℕ };

    /// How many calls there were. It rises at each call, until it is at the greatest u64.
    ghost calls: { Self → ℕ };

    /// What time it is, in whole milliseconds.
    fn now(&mut self) -> u64
        ensures last { last self.new ≡ result }
        ensures calls { Rose (calls self.old) (calls self.new) };
}
