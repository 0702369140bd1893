//! Whether a batch runs on or is being stopped.
ghost use Rattle.std.specs.Prelude.{◌≡◌};
ghost use Rattle.pol_runs.specs.Runs.{from_of};

/// Whether a batch runs on, broke, or was to be stopped. A batch that is being stopped takes its active steps in chart
/// order, and no step becomes active again: `from` is the number of the first node whose step may still be active, and
/// the active steps before it were stopped or left.
#[derive(Clone, Copy, Debug, PartialEq, Eq)]
pub enum Course {
    Running,
    Breaking { from: u32 },
    Stopping { from: u32 },
}

impl Course {
    /// The number of the first node whose step may still be active.
    pub fn first_number(self) -> u32
        ensures { result ≡ from_of self }
    {
        match self {
            Course::Running => 0,
            Course::Breaking { from } => from,
            Course::Stopping { from } => from,
        }
    }
}
