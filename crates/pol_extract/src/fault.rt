//! Why no journal is written of a file.
ghost use Rattle.std.specs.Prelude.{◌≡◌};
ghost use Rattle.pol_extract.specs.Extracts.{of_put, of_read};

use pol_jobs::PutFault;
use pol_stream::ReadFault;

/// Why the journal of a ledger isn't written, or not to its end.
#[derive(Clone, Copy, Debug, PartialEq, Eq)]
pub enum ExtractFault {
    /// The source failed.
    Read,
    /// The sink failed.
    Write,
    /// There was no memory.
    Memory,
    /// The bytes are those of no ledger; nothing was written.
    NotALedger {
        /// The place of the first record that doesn't follow: how many bytes come before it.
        place: u64,
    },
}

impl From<ReadFault> for ExtractFault {
    ghost use Rattle.std.specs.Prelude.{◌≡◌};
    ghost use Rattle.pol_extract.specs.Extracts.{of_read};

    ghost from_gives = { λ fault other. other ≡ of_read fault };

    fn from(fault: ReadFault) -> ExtractFault {
        match fault {
            ReadFault::Read => ExtractFault::Read,
            ReadFault::Memory => ExtractFault::Memory,
        }
    }
}

impl From<PutFault> for ExtractFault {
    ghost use Rattle.std.specs.Prelude.{◌≡◌};
    ghost use Rattle.pol_extract.specs.Extracts.{of_put};

    ghost from_gives = { λ fault other. other ≡ of_put fault };

    fn from(fault: PutFault) -> ExtractFault {
        match fault {
            PutFault::Write => ExtractFault::Write,
            PutFault::Memory => ExtractFault::Memory,
        }
    }
}
