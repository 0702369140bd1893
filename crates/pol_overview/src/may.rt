//! Which commands of the desk would go out now.
ghost use Rattle.std.specs.Prelude.{◌≡◌, ◌≤◌};
ghost use Rattle.mtp_codes.specs.Codes.{command_number};
ghost use Rattle.pol_core.specs.Plants.{plant_history};
ghost use Rattle.pol_overview.specs.May.{code_if, goes_out, is_asked, may_of};

use crate::allowing::Allowing;
use chart_core::LogEntry;
use mtp_codes::{Command, Name};
use pol_core::Plant;
use pol_events::{Answer, Event};
use pol_foresight::would_answer;

fn is_asked(answer: &Answer) -> bool
    ensures { result ≡ is_asked answer.now }
{
    matches!(answer, Answer::Did(LogEntry::Asked { .. }))
}

// Whether a command would go out to a service of a module now.
fn goes_out<A: Allowing>(
    plant: &Plant,
    allowing: &A,
    tag: Name,
    service: Name,
    command: Command,
) -> bool
    ensures { result ≡ goes_out (A.allows allowing.now) (plant_history plant.now) tag service command }
{
    let event = Event::Desk {
        at: 0,
        tag,
        service,
        command,
    };
    is_asked(&would_answer(plant, &event)) && allowing.allows(tag, service, command)
}

// The code of a command that would go out to a service of a module now; 0 for any other.
fn code_if<A: Allowing>(
    plant: &Plant,
    allowing: &A,
    tag: Name,
    service: Name,
    command: Command,
) -> u32
    ensures code { result ≡ code_if (goes_out (A.allows allowing.now) (plant_history plant.now) tag service command)
        (command_number command) }
    ensures low { result ≤ 1024 }
{
    if goes_out(plant, allowing, tag, service, command) {
        command.code()
    } else {
        0
    }
}

/// The sum of the codes of the commands of the desk that would go out now to a service of a module: those whose line
/// would be answered so, and that are allowed.
pub fn may_of<A: Allowing>(plant: &Plant, allowing: &A, tag: Name, service: Name) -> u32
    ensures { result ≡ may_of (A.allows allowing.now) (plant_history plant.now) tag service }
{
    code_if(plant, allowing, tag, service, Command::Reset)
        + code_if(plant, allowing, tag, service, Command::Start)
        + code_if(plant, allowing, tag, service, Command::Stop)
        + code_if(plant, allowing, tag, service, Command::Hold)
        + code_if(plant, allowing, tag, service, Command::Unhold)
        + code_if(plant, allowing, tag, service, Command::Pause)
        + code_if(plant, allowing, tag, service, Command::Resume)
        + code_if(plant, allowing, tag, service, Command::Abort)
        + code_if(plant, allowing, tag, service, Command::Restart)
        + code_if(plant, allowing, tag, service, Command::Complete)
}
