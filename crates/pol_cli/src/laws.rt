//! The laws: what holds of every input and of every legal history, whatever the program is asked for.
ghost use Rattle.std.specs.Prelude.{ℕ, List};
ghost use Rattle.pol_find.specs.Starts.{BindingsStart};
ghost use Rattle.pol_guard.specs.Laws.{GuardTheorem};
ghost use Rattle.pol_migration.specs.Migration.{MigrationKeepsOutputs};
ghost use Rattle.pol_operate.specs.Asked.{OperatedIsRun};
ghost use Rattle.pol_operate.specs.Laws.{LinesAreGuarded};
ghost use Rattle.pol_operate.specs.QuestionLaws.{QuestionsChangeNothing};
ghost use Rattle.pol_cli.specs.Audits.{AuditTheorem};
ghost use Rattle.pol_cli.specs.Compacting.{CompactionTheorem};
ghost use Rattle.pol_cli.specs.Journal.{JournalTheorem, Laws};

use pol_audit::good_verdicts_are_true;
use pol_compaction::{
    again_changes_nothing, compaction_is_no_longer, compaction_keeps_answers, once_more_is_at_once,
};
use pol_find::bindings_start;
use pol_guard::guards_are_sound;
use pol_history::{reports_are_paths, runs_are_legal};
use pol_migration::migration_keeps_outputs;
use pol_operate::{operated_are_guarded, operated_are_runs, questions_change_nothing};
use pol_removal::{removal_of_events, removal_of_lines};
use pol_renewed::{compaction_finds_alike, compaction_guards_alike, compaction_tells_alike};
use pol_safety::{commands_are_permitted, histories_are_sound, logs_follow_charts};

/// Whatever the input: the journal theorem holds of it, and so do those of an audit, of a guard and of a migration, and
/// what is said of the lines of an operated plant. Whatever the events: a plant goes on from those that stay as from
/// all of them. Whatever the legal history: the laws hold of it, and printed bindings start.
pub fn laws_hold()
    ensures theorem { (bytes : List ℕ) → JournalTheorem bytes }
    ensures laws { Laws }
    ensures audits { (bytes : List ℕ) → AuditTheorem bytes }
    ensures guards { (bytes : List ℕ) → GuardTheorem bytes }
    ensures migrations { MigrationKeepsOutputs }
    ensures compaction { CompactionTheorem }
    ensures bindings { BindingsStart }
    ensures operated { LinesAreGuarded }
    ensures operations { OperatedIsRun }
    ensures questions { QuestionsChangeNothing }
{
    runs_are_legal();
    histories_are_sound();
    removal_of_lines();
    removal_of_events();
    commands_are_permitted();
    reports_are_paths();
    logs_follow_charts();
    good_verdicts_are_true();
    guards_are_sound();
    migration_keeps_outputs();
    compaction_keeps_answers();
    compaction_is_no_longer();
    again_changes_nothing();
    once_more_is_at_once();
    compaction_finds_alike();
    compaction_guards_alike();
    compaction_tells_alike();
    bindings_start();
    operated_are_guarded();
    operated_are_runs();
    questions_change_nothing();
}
