//! What a batch that is stopped does with an active step.
ghost use Rattle.std.specs.Prelude.{◌≡◌};
ghost use Rattle.chart_cursor.specs.NextEntry.{stop_step};

use super::sight::Sight;
use chart_core::{LogEntry, Next, Why};
use mtp_codes::{Command, Name, Speaker};
use mtp_modes::permitted;

/// What a batch that is stopped does with an active step, by what is seen of the step's service.
pub fn stop_step(step: Name, service: Name, tag: Name, sight: Sight) -> Next
    ensures { result ≡ stop_step step service tag sight }
{
    match sight {
        Sight::Away => Next::Waiting(Why::Away { tag }),
        Sight::Unreported => Next::Waiting(Why::NotReported { tag, name: service }),
        Sight::Is(view) if permitted(&view, Speaker::Recipe, Command::Stop).is_ok() => {
            Next::Did(LogEntry::Stop { step, tag, service })
        }
        Sight::Is(view) => Next::Did(LogEntry::Left {
            step,
            state: view.control.state,
        }),
    }
}
