//! Whether a command may go to a service.
ghost use Rattle.std.specs.Prelude.{◌≡◌, ◌↔◌, IsOk};
ghost use Rattle.mtp_codes.specs.Faults.{done_unless};
ghost use Rattle.mtp_modes.specs.Permission.{speaks, forbidden_by, IsPermitted};

use super::view::ServiceView;
use mtp_codes::{Command, Forbid, Mode, Origin, Speaker};
use mtp_machine::by_command;

/// Whether the speaker may command: the operator in mode Operator, whatever the source; a recipe in Automatic with the
/// source External; the module itself in Automatic with Internal.
pub fn speaks(mode: Mode, origin: Origin, speaker: Speaker) -> bool
    ensures { result ≡ speaks mode origin speaker }
{
    match (mode, origin, speaker) {
        (Mode::Operator, _, Speaker::Operator) => true,
        (Mode::Automatic, Origin::External, Speaker::Recipe) => true,
        (Mode::Automatic, Origin::Internal, Speaker::Inner) => true,
        _ => false,
    }
}

/// Whether the command may go to the service; else the first of these faults.
///
/// `ModeForbids` where the mode and its source don't let the speaker command, `SelfCompletes` for Complete to a
/// procedure that completes by itself, `StateForbids` where the command doesn't leave the state, `NotEnabled` where
/// its bit is not in the mask. Other bits of the mask mean nothing.
pub fn permitted(view: &ServiceView, speaker: Speaker, command: Command) -> Result<(), Forbid>
    ensures answer { result ≡ done_unless (forbidden_by view.now speaker command) }
    ensures permitted { IsOk result ↔ IsPermitted view.now speaker command }
{
    let control = view.control;
    if !speaks(control.mode, control.origin, speaker) {
        return Err(Forbid::ModeForbids);
    }
    if command == Command::Complete && view.self_completes {
        return Err(Forbid::SelfCompletes);
    }
    if by_command(control.state, command).is_none() {
        return Err(Forbid::StateForbids);
    }
    if control.mask & command.code() == 0 {
        return Err(Forbid::NotEnabled);
    }
    Ok(())
}
