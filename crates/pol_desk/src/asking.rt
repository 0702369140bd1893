//! The answer to a command of the operator's.
ghost use Rattle.std.specs.Prelude.{◌≡◌};
ghost use Rattle.pol_desk.specs.Desk.{desk_answer};

use chart_core::LogEntry;
use mtp_codes::{Command, Name, Speaker};
use mtp_modes::{ServiceView, permitted};
use pol_events::Rule;

/// The answer to a command of the operator's to a service: the entry `Asked`, by which the command goes to the
/// module. `view` is what the service last reported. A Start asks for the service's default procedure.
///
/// `ModeForbids` where the service isn't in mode Operator, `SelfCompletes` for Complete to a procedure that completes
/// by itself, `StateForbids` where the command doesn't leave the state, `NotEnabled` where its bit of `CommandEn` isn't
/// set (VDI/VDE/NAMUR 2658 part 4); the first of these that holds is the answer.
pub fn desk(
    tag: Name,
    service: Name,
    view: &ServiceView,
    command: Command,
) -> Result<LogEntry, Rule>
    ensures { result ≡ desk_answer tag service view.now command }
{
    permitted(view, Speaker::Operator, command)?;
    Ok(LogEntry::Asked {
        tag,
        service,
        command,
    })
}
