//! Laws of ledgers.
ghost use Rattle.std.specs.Prelude.{◌≡◌, ℕ, List};
ghost use Rattle.pol_kept.specs.Stands.{StandsFor};
ghost use Rattle.pol_ledger.specs.Items.{PlainItem};
ghost use Rattle.pol_ledger.specs.Told.{RecordsFollowOne, SumsTellItems};
ghost use Rattle.pol_ledger.specs.Work.{ledger_work};

/// An image stands for at most one list of items.
pub fn images_stand_for_one_ledger()
    ensures { (image : List ℕ) (items others : List PlainItem) → StandsFor ledger_work items image
        → StandsFor ledger_work others image → items ≡ others }
{}

/// Whoever knows the sum of a ledger's last record knows all its items, as long as nobody has two messages with one
/// SHA-256.
pub fn sums_tell_items()
    ensures { SumsTellItems }
{}

/// A record follows the items of one ledger, as long as nobody has two messages with one SHA-256: so records that are
/// put together from two ledgers don't follow.
pub fn records_follow_one_ledger()
    ensures { RecordsFollowOne }
{}
