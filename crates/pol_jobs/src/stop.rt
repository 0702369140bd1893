//! Why a job goes no further.
use std::alloc::AllocError;

/// Why a job goes no further, at a line or at the end of its input.
#[derive(Drop)]
pub enum Stop<R, F> {
    /// There was no memory.
    Memory,
    /// What it works with failed.
    Failed(F),
    /// It refuses its input, for this reason.
    Refused(R),
}

impl<R, F> From<AllocError> for Stop<R, F> {
    ghost use Rattle.std.specs.Prelude.{◌≡◌};
    ghost use Rattle.pol_jobs.specs.declared.stop.Stop.TheVariants.{Memory};

    ghost from_gives = { λ _ stop. stop ≡ Memory };

    fn from(_error: AllocError) -> Stop<R, F> {
        Stop::Memory
    }
}
