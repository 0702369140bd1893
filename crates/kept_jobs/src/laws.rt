//! Laws on kept items, each the contract of a function with an empty body.
ghost use Rattle.kept_jobs.specs.Leaving.{KeptJob};
ghost use Rattle.kept_jobs.specs.Life.{KeepsOld, LivesKeepAnswers};
ghost use Rattle.kept_jobs.specs.Telling.{telling};

use pol_disk::Disk;
use pol_kept::Chronicle;

/// However many runs of a job there are, and whatever ends each of them: the items of each line that was answered in
/// one of them are kept, in order.
pub fn answers_are_kept<C: Chronicle, D: Disk>()
    ensures { (job : KeptJob C.Plain) → KeepsOld C.work job
        → LivesKeepAnswers C.work (telling D.bytes D.images D.moment D.left_since D.faults) job }
{}
