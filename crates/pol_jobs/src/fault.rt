//! Why a job doesn't come to its end.
use crate::output::PutFault;
use crate::stop::Stop;
use pol_io::IoFault;
use std::alloc::AllocError;

/// Why a job doesn't come to its end.
pub enum JobFault<R, F> {
    /// The source failed.
    Read,
    /// The sink failed.
    Write,
    /// There was no memory.
    Memory,
    /// The input has more than 268,435,456 bytes.
    TooMuch,
    /// What the job works with failed.
    Failed(F),
    /// The job refuses its input, for this reason.
    Refused(R),
}

impl<R, F> From<AllocError> for JobFault<R, F> {
    ghost use Rattle.std.specs.Prelude.{◌≡◌};
    ghost use Rattle.pol_jobs.specs.declared.fault.JobFault.TheVariants.{Memory};

    ghost from_gives = { λ _ fault. fault ≡ Memory };

    fn from(_error: AllocError) -> JobFault<R, F> {
        JobFault::Memory
    }
}

impl<R, F> From<IoFault> for JobFault<R, F> {
    ghost use Rattle.std.specs.Prelude.{◌≡◌};
    ghost use Rattle.pol_jobs.specs.Faults.{of_lines};

    ghost from_gives = { λ io_fault fault. fault ≡ of_lines io_fault };

    fn from(fault: IoFault) -> JobFault<R, F> {
        match fault {
            IoFault::Read => JobFault::Read,
            IoFault::TooMuch => JobFault::TooMuch,
        }
    }
}

impl<R, F> From<PutFault> for JobFault<R, F> {
    ghost use Rattle.std.specs.Prelude.{◌≡◌};
    ghost use Rattle.pol_jobs.specs.Faults.{of_output};

    ghost from_gives = { λ put_fault fault. fault ≡ of_output put_fault };

    fn from(fault: PutFault) -> JobFault<R, F> {
        match fault {
            PutFault::Write => JobFault::Write,
            PutFault::Memory => JobFault::Memory,
        }
    }
}

impl<R, F> From<Stop<R, F>> for JobFault<R, F> {
    ghost use Rattle.std.specs.Prelude.{◌≡◌};
    ghost use Rattle.pol_jobs.specs.Faults.{of_stop};

    ghost from_gives = { λ stop fault. fault ≡ of_stop stop };

    fn from(stop: Stop<R, F>) -> JobFault<R, F> {
        match stop {
            Stop::Memory => JobFault::Memory,
            Stop::Failed(failure) => JobFault::Failed(failure),
            Stop::Refused(reason) => JobFault::Refused(reason),
        }
    }
}
