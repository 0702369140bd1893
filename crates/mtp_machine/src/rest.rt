//! When a service is at rest.
ghost use Rattle.std.specs.Prelude.{◌≡◌};
ghost use Rattle.mtp_machine.specs.States.{is_at_rest};

use mtp_codes::State;

/// Whether a service in this state is at rest: in Idle, Completed, Stopped or Aborted, where nothing goes on in it
/// (states of VDI/VDE/NAMUR 2658 part 4).
pub fn is_at_rest(state: State) -> bool
    ensures { result ≡ is_at_rest state }
{
    matches!(
        state,
        State::Idle | State::Completed | State::Stopped | State::Aborted
    )
}
