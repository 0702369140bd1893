//! Why the job on an operated plant ends early.
ghost use Rattle.std.specs.Prelude.{◌≡◌, ◌≢◌, ℕ, IfErr};
ghost use Rattle.pol_operate.specs.Ends.{IsFaultOf, job_result};

use mtp_json::JsonFault;
use pol_jobs::JobFault;
use pol_kept::OpenFault;

/// The disk of an operated plant failed.
#[derive(Drop)]
pub struct DiskFailed;

/// Why the job on an operated plant ends early.
#[derive(Drop)]
pub enum OperateFault {
    /// The source failed.
    Read,
    /// The sink failed.
    Write,
    /// There was no memory.
    Memory,
    /// The input has more than 268,435,456 bytes.
    TooMuch,
    /// The disk failed.
    Disk,
    /// The disk isn't a ledger; nothing was read or written.
    NotALedger {
        /// The place of the first record that doesn't follow: how many bytes come before it.
        place: u64,
    },
    /// The first line that isn't blank says no policy; Missing, where there is no such line.
    BadPolicy(JsonFault),
}

/// Why the job didn't begin, where its disk couldn't be opened.
pub fn unopened(fault: OpenFault) -> OperateFault
    ensures { IsFaultOf fault result }
{
    match fault {
        OpenFault::Memory => OperateFault::Memory,
        OpenFault::Disk => OperateFault::Disk,
        OpenFault::NotAStore { place } => OperateFault::NotALedger { place },
    }
}

/// How the job ended.
pub fn ended(done: Result<(), JobFault<JsonFault, DiskFailed>>) -> Result<(), OperateFault>
    ensures job { job_result result ≡ done }
    ensures ledger { IfErr result (λ fault. (place : ℕ) → fault ≢ OperateFault.NotALedger place) }
{
    match done {
        Ok(()) => Ok(()),
        Err(JobFault::Read) => Err(OperateFault::Read),
        Err(JobFault::Write) => Err(OperateFault::Write),
        Err(JobFault::Memory) => Err(OperateFault::Memory),
        Err(JobFault::TooMuch) => Err(OperateFault::TooMuch),
        Err(JobFault::Failed(DiskFailed)) => Err(OperateFault::Disk),
        Err(JobFault::Refused(fault)) => Err(OperateFault::BadPolicy(fault)),
    }
}
