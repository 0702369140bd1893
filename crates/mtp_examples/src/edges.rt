//! Changes of state.
use mtp_codes::State;
use mtp_machine::edge;
use std::test::*;

#[test]
fn a_service_starts_through_starting_and_restarts_only_from_execute(rt: HostRuntime) {
    let cases = [
        (State::Idle, State::Starting, true),
        (State::Starting, State::Execute, true),
        (State::Idle, State::Execute, false),
        (State::Execute, State::Starting, true),
        (State::Held, State::Starting, false),
        (State::Idle, State::Idle, false),
    ];
    for (from, to, is_edge) in cases {
        assert_eq!(rt; edge(from, to), is_edge, "from {from:?} to {to:?}");
    }
}
