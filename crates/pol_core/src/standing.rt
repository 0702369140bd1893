//! How a batch stands.
ghost use Rattle.std.specs.Prelude.{◌≡◌, ◌||◌, List};
ghost use Rattle.mtp_codes.specs.Faults.{when};
ghost use Rattle.chart_core.specs.declared.entry.LogEntry.{LogEntry};
ghost use Rattle.chart_cursor.specs.Logs.{has_broken, was_stopped};
ghost use Rattle.pol_history.specs.Looking.{History};
ghost use Rattle.pol_runs.specs.Freezes.{is_frozen, is_holding};
ghost use Rattle.pol_runs.specs.Logs.{Follows};
ghost use Rattle.pol_core.specs.Batches.{RunsMirror};
ghost use Rattle.pol_core.specs.Calls.{standing_of};

use indexmap::IndexMap;
use mtp_codes::Name;
use pol_events::Outcome;
use pol_runs::Run;

/// How a batch that was started stands.
#[derive(Clone, Copy, Debug, PartialEq, Eq)]
pub struct Standing {
    /// How it was closed; None while it is open.
    pub outcome: Option<Outcome>,
    /// Whether the services of its active steps are held while it is frozen; None where it isn't frozen.
    pub hold: Option<bool>,
    /// Whether it broke, or is to be stopped step by step.
    pub is_stopping: bool,
}

// Whether the services of a run are held; None where it isn't frozen.
fn hold(run: &Run) -> Option<bool>
    ensures { result ≡ when (is_frozen run.now.freeze) (is_holding run.now.freeze) }
{
    if run.is_frozen() {
        Some(run.is_holding())
    } else {
        None
    }
}

// How a run stands.
fn stands(run: &Run) -> Standing
    ensures { (log : List LogEntry) → Follows run.now log → result ≡ record {
      outcome = run.now.outcome;
      hold = when (is_frozen run.now.freeze) (is_holding run.now.freeze);
      is_stopping = has_broken log || was_stopped log;
    } }
{
    Standing {
        outcome: run.closed(),
        hold: hold(run),
        is_stopping: run.is_stopping(),
    }
}

/// How a batch stands; None exactly where it wasn't started.
pub fn batch_standing(runs: &IndexMap<Name, Run>, batch: Name) -> Option<Standing>
    ensures { (history : History) → RunsMirror runs.now.entries history → result ≡ standing_of history batch }
{
    let run = runs.get(&batch)?;
    Some(stands(run))
}
