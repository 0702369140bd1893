//! A running step of a chart breaks where its service is stopped or aborted.
ghost use Rattle.std.specs.Prelude.{◌≡◌, None, if◌then◌else◌};
ghost use Rattle.chart_core.specs.Active.{is_running};
ghost use Rattle.chart_core.specs.Trees.{plain_step};
ghost use Rattle.chart_cursor.specs.OpenNodes.{phase_of};
ghost use Rattle.chart_cursor.specs.NextEntry.{broken_step, is_broken_state};

use super::sight::Sight;
use chart_core::{LogEntry, Progress, Step};
use mtp_codes::State;

fn is_broken_state(state: State) -> bool
    ensures { result ≡ is_broken_state state }
{
    matches!(state, State::Stopped | State::Aborted)
}

/// The entry Broke of a step, by what is seen of its service: where that is stopped or aborted.
pub fn broken_step(step: &Step, sight: Sight) -> Option<LogEntry>
    ensures { result ≡ broken_step (plain_step step.now) sight }
{
    match sight {
        Sight::Is(view) if is_broken_state(view.control.state) => Some(LogEntry::Broke {
            step: step.name,
            state: view.control.state,
        }),
        _ => None,
    }
}

/// The entry Broke of a step that has come so far, by what is seen of its service: where the step runs, and its service
/// is stopped or aborted.
pub fn broken_running(step: &Step, progress: Progress, sight: Sight) -> Option<LogEntry>
    ensures { result ≡ (if is_running (phase_of progress) then broken_step (plain_step step.now) sight else None) }
{
    match progress {
        Progress::Begun | Progress::Finished | Progress::WasReset => broken_step(step, sight),
        _ => None,
    }
}
