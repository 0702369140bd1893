//! Laws of operated plants, each the contract of a function with an empty body or one that only takes up other laws.
ghost use Rattle.kept_jobs.specs.Life.{LivesKeepAnswers};
ghost use Rattle.kept_jobs.specs.Telling.{telling};
ghost use Rattle.pol_ledger.specs.Work.{ledger_work};
ghost use Rattle.pol_operate.specs.Asked.{OperatedIsRun};
ghost use Rattle.pol_operate.specs.Kept.{operate_job};
ghost use Rattle.pol_operate.specs.Laws.{LinesAreGuarded};
ghost use Rattle.pol_operate.specs.QuestionLaws.{QuestionsChangeNothing};

use pol_disk::Disk;
use pol_policy::verdicts_are_judged;
use pol_rights::lines_are_judged;

/// However many runs of the job there are, and whatever ends each of them: each event whose answer was taken in one of
/// them is kept, in order, with who asked for it.
pub fn answers_are_kept<D: Disk>()
    ensures { LivesKeepAnswers ledger_work (telling D.bytes D.images D.moment D.left_since D.faults) operate_job }
{}

/// Behind its policy, a command of the desk is asked for only where it is allowed to the person whom its line names,
/// and any other event only where the rules of lines allow it, if there are such; and each denial is right and names
/// its rule.
#[tactic(auto, using(crate::proofs::Guarded::lines_guarded))]
pub fn operated_are_guarded()
    ensures { LinesAreGuarded }
{
    verdicts_are_judged();
    lines_are_judged();
}

/// The history behind any lines is the run of the old events and of those that the lines ask for.
#[tactic(auto, using(crate::proofs::Runs::operated_is_run))]
pub fn operated_are_runs()
    ensures { OperatedIsRun }
{}

/// Leaving all questions out leaves out just their replies; and a question what an event would be answered gets the
/// reply that its line would get now.
#[tactic(auto, using(crate::proofs::Quiet::questions_are_quiet))]
pub fn questions_change_nothing()
    ensures { QuestionsChangeNothing }
{}
