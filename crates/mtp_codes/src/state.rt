//! The states of a service.
ghost use Rattle.std.specs.Prelude.{◌≡◌, Some};
ghost use Rattle.mtp_codes.specs.Codes.{state_codes, state_of, state_number};

/// The state of a service, as in the state machine of VDI/VDE/NAMUR 2658 part 4.
#[derive(Clone, Copy, Debug, PartialEq, Eq)]
pub enum State {
    Stopped,
    Starting,
    Idle,
    Paused,
    Execute,
    Stopping,
    Aborting,
    Aborted,
    Holding,
    Held,
    Unholding,
    Pausing,
    Resuming,
    Resetting,
    Completing,
    Completed,
}

impl State {
    /// The state whose code this is, as `StateCur` carries it; None exactly where no state has this code.
    pub fn of_code(code: u32) -> Option<State>
        ensures { result ≡ state_of code state_codes }
    {
        match code {
            4 => Some(State::Stopped),
            8 => Some(State::Starting),
            16 => Some(State::Idle),
            32 => Some(State::Paused),
            64 => Some(State::Execute),
            128 => Some(State::Stopping),
            256 => Some(State::Aborting),
            512 => Some(State::Aborted),
            1024 => Some(State::Holding),
            2048 => Some(State::Held),
            4096 => Some(State::Unholding),
            8192 => Some(State::Pausing),
            16384 => Some(State::Resuming),
            32768 => Some(State::Resetting),
            65536 => Some(State::Completing),
            131072 => Some(State::Completed),
            _ => None,
        }
    }

    /// The code of the state: a power of two from 4 to 131,072.
    pub fn code(self) -> u32
        ensures number { result ≡ state_number self }
        ensures table { state_of result state_codes ≡ Some self }
    {
        match self {
            State::Stopped => 4,
            State::Starting => 8,
            State::Idle => 16,
            State::Paused => 32,
            State::Execute => 64,
            State::Stopping => 128,
            State::Aborting => 256,
            State::Aborted => 512,
            State::Holding => 1024,
            State::Held => 2048,
            State::Unholding => 4096,
            State::Pausing => 8192,
            State::Resuming => 16384,
            State::Resetting => 32768,
            State::Completing => 65536,
            State::Completed => 131072,
        }
    }
}
