//! The commands to a service.
ghost use Rattle.std.specs.Prelude.{◌≡◌, Some};
ghost use Rattle.mtp_codes.specs.Codes.{command_codes, command_of, command_number};

/// A command to a service, as in the state machine of VDI/VDE/NAMUR 2658 part 4.
#[derive(Clone, Copy, Debug, PartialEq, Eq)]
pub enum Command {
    Reset,
    Start,
    Stop,
    Hold,
    Unhold,
    Pause,
    Resume,
    Abort,
    Restart,
    Complete,
}

impl Command {
    /// The command whose code this is, as `CommandOp` carries it; None exactly where no command has this code.
    pub fn of_code(code: u32) -> Option<Command>
        ensures { result ≡ command_of code command_codes }
    {
        match code {
            2 => Some(Command::Reset),
            4 => Some(Command::Start),
            8 => Some(Command::Stop),
            16 => Some(Command::Hold),
            32 => Some(Command::Unhold),
            64 => Some(Command::Pause),
            128 => Some(Command::Resume),
            256 => Some(Command::Abort),
            512 => Some(Command::Restart),
            1024 => Some(Command::Complete),
            _ => None,
        }
    }

    /// The code of the command: a power of two from 2 to 1,024, which is also its bit in `CommandEn`.
    pub fn code(self) -> u32
        ensures number { result ≡ command_number self }
        ensures table { command_of result command_codes ≡ Some self }
    {
        match self {
            Command::Reset => 2,
            Command::Start => 4,
            Command::Stop => 8,
            Command::Hold => 16,
            Command::Unhold => 32,
            Command::Pause => 64,
            Command::Resume => 128,
            Command::Abort => 256,
            Command::Restart => 512,
            Command::Complete => 1024,
        }
    }
}
