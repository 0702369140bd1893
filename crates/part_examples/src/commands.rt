//! Commands of the operator's to a worked service.
use chart_core::LogEntry;
use given::named;
use mtp_assembly::ServiceControl;
use mtp_codes::{Command, Mode, Origin, State};
use mtp_modes::ServiceView;
use pol_desk::desk;
use pol_events::Rule;
use std::test::*;

// What is seen of a service whose one procedure completes by itself.
fn seen(state: State, mask: u32, mode: Mode, origin: Origin, procedure: u16) -> ServiceView {
    ServiceView {
        control: ServiceControl {
            state,
            mask,
            mode,
            origin,
            procedure,
        },
        self_completes: procedure == 1,
    }
}

#[test]
fn the_operator_needs_his_mode_an_enabled_bit_and_a_state_that_the_command_leaves(
    rt: HostRuntime,
) -> Result<(), Fail> {
    let (tag, service) = (named("M")?, named("dose")?);
    let (start, complete) = (Command::Start, Command::Complete);
    let (operator, inside) = (Mode::Operator, Origin::Internal);
    let asked = LogEntry::Asked {
        tag,
        service,
        command: start,
    };
    let rows = [
        (
            seen(State::Idle, 4, Mode::Automatic, Origin::External, 0),
            start,
            Err(Rule::ModeForbids),
        ),
        (
            seen(State::Idle, 0, operator, inside, 0),
            start,
            Err(Rule::NotEnabled),
        ),
        (
            seen(State::Stopped, 4, operator, inside, 0),
            start,
            Err(Rule::StateForbids),
        ),
        (
            seen(State::Execute, 1024, operator, inside, 1),
            complete,
            Err(Rule::SelfCompletes),
        ),
        (seen(State::Idle, 4, operator, inside, 0), start, Ok(asked)),
    ];
    for (view, command, answer) in rows {
        assert_eq!(rt; desk(tag, service, &view, command), answer);
    }
    Ok(())
}
