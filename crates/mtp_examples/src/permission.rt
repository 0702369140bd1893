//! Whether a command may go to a service.
use mtp_assembly::ServiceControl;
use mtp_codes::{Command, Forbid, Mode, Origin, Speaker, State};
use mtp_modes::{ServiceView, permitted};

// A service in Automatic from outside, with this state and mask.
fn external(state: State, mask: u32, self_completes: bool) -> ServiceView {
    ServiceView {
        control: ServiceControl {
            state,
            mask,
            mode: Mode::Automatic,
            origin: Origin::External,
            procedure: 1,
        },
        self_completes,
    }
}

#[test]
fn the_first_fault_is_answered(rt: HostRuntime) {
    let (operator, recipe) = (Speaker::Operator, Speaker::Recipe);
    let (start, complete) = (Command::Start, Command::Complete);
    let cases = [
        (external(State::Idle, 4, false), recipe, start, Ok(())),
        (
            external(State::Idle, 4, false),
            operator,
            start,
            Err(Forbid::ModeForbids),
        ),
        (
            external(State::Idle, 0, true),
            recipe,
            complete,
            Err(Forbid::SelfCompletes),
        ),
        (
            external(State::Execute, 4, false),
            recipe,
            start,
            Err(Forbid::StateForbids),
        ),
        (
            external(State::Idle, 8, false),
            recipe,
            start,
            Err(Forbid::NotEnabled),
        ),
        (
            external(State::Execute, 1025, false),
            recipe,
            complete,
            Ok(()),
        ),
    ];
    for (view, speaker, command, answer) in cases {
        assert_eq!(rt; permitted(&view, speaker, command), answer);
    }
}
