//! Why a job on a kept plant ends early.
ghost use Rattle.std.specs.Prelude.{◌≡◌, ◌≢◌, ℕ, IfErr};
ghost use Rattle.pol_keep.specs.Exported.{put_result};
ghost use Rattle.pol_keep.specs.Kept.{IsFaultOf, job_result};

use pol_jobs::{JobFault, PutFault};
use pol_store::OpenFault;
use std::convert::Infallible;

/// The disk of a kept plant failed.
#[derive(Drop)]
pub struct DiskFailed;

/// Why a job on a kept plant ends early.
#[derive(Clone, Copy, Debug, PartialEq, Eq)]
pub enum KeepFault {
    /// The source failed.
    Read,
    /// The sink failed.
    Write,
    /// There was no memory.
    Memory,
    /// The input has more than 268,435,456 bytes.
    TooMuch,
    /// The disk failed.
    Disk,
    /// The disk isn't a store; nothing was read or written.
    NotAStore {
        /// The place of the first record that isn't one: how many bytes come before it.
        place: u64,
    },
}

/// Why the job didn't begin, where its disk couldn't be opened.
pub fn unopened(fault: OpenFault) -> KeepFault
    ensures { IsFaultOf fault result }
{
    match fault {
        OpenFault::Memory => KeepFault::Memory,
        OpenFault::Disk => KeepFault::Disk,
        OpenFault::NotAStore { place } => KeepFault::NotAStore { place },
    }
}

/// How the job ended.
pub fn ended(done: Result<(), JobFault<Infallible, DiskFailed>>) -> Result<(), KeepFault>
    ensures job { job_result result ≡ done }
    ensures store { IfErr result (λ fault. (place : ℕ) → fault ≢ KeepFault.NotAStore place) }
{
    match done {
        Ok(()) => Ok(()),
        Err(JobFault::Read) => Err(KeepFault::Read),
        Err(JobFault::Write) => Err(KeepFault::Write),
        Err(JobFault::Memory) => Err(KeepFault::Memory),
        Err(JobFault::TooMuch) => Err(KeepFault::TooMuch),
        Err(JobFault::Failed(DiskFailed)) => Err(KeepFault::Disk),
        Err(JobFault::Refused(never)) => match never {},
    }
}

/// How a job ended that only writes.
pub fn put_ended(done: Result<(), PutFault>) -> Result<(), KeepFault>
    ensures { result ≡ put_result done }
{
    match done {
        Ok(()) => Ok(()),
        Err(PutFault::Write) => Err(KeepFault::Write),
        Err(PutFault::Memory) => Err(KeepFault::Memory),
    }
}
