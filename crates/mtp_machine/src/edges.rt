//! Where commands lead, and which changes are edges.
ghost use Rattle.std.specs.Prelude.{◌≡◌};
ghost use Rattle.mtp_machine.specs.Machine.{command_target, own_target, is_edge, edge_count};
ghost use Rattle.mtp_machine.specs.Masks.{command_goal};

use super::masks::{enabled_from, successors};
use mtp_codes::{Command, State};

/// The state to which the command leads from this one; None exactly where it does not leave this state.
#[tactic(auto)]
pub fn by_command(state: State, command: Command) -> Option<State>
    ensures { result ≡ command_target state command }
{
    if enabled_from(state) & command.code() != 0 {
        Some(goal(command))
    } else {
        None
    }
}

// The one state to which a command leads, wherever it is given.
fn goal(command: Command) -> State
    ensures { result ≡ command_goal command }
{
    match command {
        Command::Reset => State::Resetting,
        Command::Start => State::Starting,
        Command::Stop => State::Stopping,
        Command::Hold => State::Holding,
        Command::Unhold => State::Unholding,
        Command::Pause => State::Pausing,
        Command::Resume => State::Resuming,
        Command::Abort => State::Aborting,
        Command::Restart => State::Starting,
        Command::Complete => State::Completing,
    }
}

/// The state to which this one changes by itself; None exactly where it changes by command alone.
#[tactic(auto, unfolding(crate::specs::Machine::own_target))]
pub fn by_itself(state: State) -> Option<State>
    ensures { result ≡ own_target state }
{
    match state {
        State::Starting => Some(State::Execute),
        State::Execute => Some(State::Completing),
        State::Completing => Some(State::Completed),
        State::Resetting => Some(State::Idle),
        State::Pausing => Some(State::Paused),
        State::Resuming => Some(State::Execute),
        State::Holding => Some(State::Held),
        State::Unholding => Some(State::Execute),
        State::Stopping => Some(State::Stopped),
        State::Aborting => Some(State::Aborted),
        State::Stopped
        | State::Idle
        | State::Paused
        | State::Aborted
        | State::Held
        | State::Completed => None,
    }
}

/// Whether a command leads from the first state to the second, or the first changes to the second by itself.
#[tactic(auto)]
pub fn edge(from: State, to: State) -> bool
    ensures { result ≡ is_edge from to }
{
    successors(from) & to.code() != 0
}

/// A law: there are 51 edges. It does nothing.
#[tactic(auto, unfolding(crate::specs::Machine::edge_count, crate::specs::Machine::is_edge))]
pub fn edges_are_51()
    ensures { edge_count ≡ 51 }
{}
