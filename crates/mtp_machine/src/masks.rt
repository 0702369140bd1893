//! For each state one mask of the commands that leave it, and one of the states that it leads to.
ghost use Rattle.std.specs.Prelude.{◌≡◌};
ghost use Rattle.mtp_machine.specs.Machine.{enabled_mask};
ghost use Rattle.mtp_machine.specs.Masks.{successor_mask};

use mtp_codes::State;

// The bits of the commands: their codes.
const RESET: u32 = 2;

const START: u32 = 4;

const STOP: u32 = 8;

const HOLD: u32 = 16;

const UNHOLD: u32 = 32;

const PAUSE: u32 = 64;

const RESUME: u32 = 128;

const ABORT: u32 = 256;

const RESTART: u32 = 512;

const COMPLETE: u32 = 1024;

// The bits of the states: their codes.
const STOPPED: u32 = 4;

const STARTING: u32 = 8;

const IDLE: u32 = 16;

const PAUSED: u32 = 32;

const EXECUTE: u32 = 64;

const STOPPING: u32 = 128;

const ABORTING: u32 = 256;

const ABORTED: u32 = 512;

const HOLDING: u32 = 1024;

const HELD: u32 = 2048;

const UNHOLDING: u32 = 4096;

const PAUSING: u32 = 8192;

const RESUMING: u32 = 16384;

const RESETTING: u32 = 32768;

const COMPLETING: u32 = 65536;

const COMPLETED: u32 = 131072;

/// The commands that leave the state, as the bits of `CommandEn`: the sum of their codes.
pub fn enabled_from(state: State) -> u32
    ensures { result ≡ enabled_mask state }
{
    match state {
        State::Stopped => RESET + ABORT,
        State::Starting => HOLD + STOP + ABORT,
        State::Idle => START + STOP + ABORT,
        State::Paused => RESUME + HOLD + STOP + ABORT,
        State::Execute => RESTART + COMPLETE + PAUSE + HOLD + STOP + ABORT,
        State::Stopping => ABORT,
        State::Aborting => 0,
        State::Aborted => RESET,
        State::Holding => STOP + ABORT,
        State::Held => UNHOLD + STOP + ABORT,
        State::Unholding => HOLD + STOP + ABORT,
        State::Pausing => HOLD + STOP + ABORT,
        State::Resuming => HOLD + STOP + ABORT,
        State::Resetting => STOP + ABORT,
        State::Completing => HOLD + STOP + ABORT,
        State::Completed => RESET + STOP + ABORT,
    }
}

/// The states to which an edge leads from the state: the sum of their codes.
pub(crate) fn successors(state: State) -> u32
    ensures { result ≡ successor_mask state }
{
    match state {
        State::Stopped => RESETTING + ABORTING,
        State::Starting => EXECUTE + HOLDING + STOPPING + ABORTING,
        State::Idle => STARTING + STOPPING + ABORTING,
        State::Paused => RESUMING + HOLDING + STOPPING + ABORTING,
        State::Execute => STARTING + COMPLETING + PAUSING + HOLDING + STOPPING + ABORTING,
        State::Stopping => STOPPED + ABORTING,
        State::Aborting => ABORTED,
        State::Aborted => RESETTING,
        State::Holding => HELD + STOPPING + ABORTING,
        State::Held => UNHOLDING + STOPPING + ABORTING,
        State::Unholding => EXECUTE + HOLDING + STOPPING + ABORTING,
        State::Pausing => PAUSED + HOLDING + STOPPING + ABORTING,
        State::Resuming => EXECUTE + HOLDING + STOPPING + ABORTING,
        State::Resetting => IDLE + STOPPING + ABORTING,
        State::Completing => COMPLETED + HOLDING + STOPPING + ABORTING,
        State::Completed => RESETTING + STOPPING + ABORTING,
    }
}
