//! Laws on kept plants, each the contract of a function with an empty body.
ghost use Rattle.kept_jobs.specs.Life.{LivesKeepAnswers};
ghost use Rattle.kept_jobs.specs.Telling.{telling};
ghost use Rattle.pol_store.specs.Work.{plant_work};
ghost use Rattle.pol_keep.specs.Exported.{JournalsAreReplayed};
ghost use Rattle.pol_keep.specs.Keeping.{plant_job};

use pol_disk::Disk;
use pol_retold::replays_answer;

/// However many runs there are, and whatever ends each of them: each event that was answered in one of them is kept, in
/// order.
pub fn answers_are_kept<D: Disk>()
    ensures { LivesKeepAnswers plant_work (telling D.bytes D.images D.moment D.left_since D.faults) plant_job }
{}

/// The lines of kept events are replayed as these events were answered, where no line has more than 1,048,576 bytes,
/// and all together have at most 268,435,456.
pub fn journals_are_replayed()
    ensures { JournalsAreReplayed }
{
    replays_answer();
}
