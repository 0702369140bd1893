//! Laws of commands: where a history follows its site and each change in it has its command, a command is only ever
//! sent to a service that is still and whose earlier commands were all answered by a report. So a simulated module
//! takes each command that it looks at, and its site allows what it reports. The laws over plain data are in specs/,
//! each proved by a lemma of that type in proofs/; those below are stated as functions too, each with an empty body.
//!
//! It knows nothing of threads or of who takes turns. The law itself is in `specs/Law.antt`; how far a service is with
//! its commands is in `specs/Phases.antt` and `specs/Served.antt`.
//!
//! Laws alone: no test tries them.
#![tactic(auto)]

ghost use Rattle.pol_stillness.specs.Exchanges.{OpenIsAway};
ghost use Rattle.pol_stillness.specs.Law.{CommandsFindServicesStill, UnansweredAreOwed};
ghost use Rattle.pol_stillness.specs.Planned.{DockedArePlanned};
ghost use Rattle.pol_stillness.specs.Resting.{RestsAreSettled};

/// A service with an unanswered command is owed a report by an open batch.
pub fn unanswered_are_owed()
    ensures { UnansweredAreOwed }
{}

/// A command is only ever sent to a service that is still and whose earlier commands were all answered.
pub fn commands_find_services_still()
    ensures { CommandsFindServicesStill }
{}

/// Where the simulator of a docked module keeps up, no command is left to look at and it is at rest, the module is
/// settled.
pub fn rests_are_settled()
    ensures { RestsAreSettled }
{}

/// In a history that follows its site a module is away exactly under the ticket of the exchange that is open.
pub fn open_is_away()
    ensures { OpenIsAway }
{}

/// In a history that follows its site a docked module has a plan: the site says how it is simulated.
#[tactic(auto, using(crate::proofs::Planned::docked_planned))]
pub fn docked_are_planned()
    ensures { DockedArePlanned }
{}
