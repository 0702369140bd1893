//! What is supposed of a file as it is opened.
ghost use Rattle.std.specs.Prelude.{ℕ, List, []};
ghost use Rattle.pol_disk.specs.Records.{Deed, IsLeft};
ghost use Rattle.pol_disk.proofs.Remaining.{remains_synced};

/// What a file held when it was opened. What is proved over each `S: Start` holds whatever the file held, since no code
/// can read it.
pub trait Start: Drop {
    /// The bytes that reads gave.
    ghost bytes: { List ℕ };

    /// What earlier programs had written without a sync, and the syncs before, the newest first.
    ghost deeds: { List Deed };

    /// The bytes are one of the images that a crash might have left then.
    ghost left: { IsLeft bytes deeds bytes };
}

/// The start that a program names. Here it is a file without bytes; what is proved of a program is proved for each
/// start.
#[derive(Drop)]
pub struct Unknown;

impl Start for Unknown {
    ghost bytes = { [] };

    ghost deeds = { [] };

    ghost left = { remains_synced [] };
}
