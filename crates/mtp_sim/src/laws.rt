//! Laws of simulated modules: each is the contract of a function with an empty body.
ghost use Rattle.mtp_sim.specs.Told.{CommandsFollowEdges, FirstModulesFollowEdges, TicksFollowEdges};

/// At first each service is Idle, which it may report.
pub fn first_modules_follow_edges()
    ensures { FirstModulesFollowEdges }
{}

/// What a tick reports of a service is Idle at first, and then a state to which an edge leads from the one that it
/// reported last; no service leaves a state that it hasn't reported yet.
pub fn ticks_follow_edges()
    ensures { TicksFollowEdges }
{}

/// A command leads along an edge, where nothing is pending.
pub fn commands_follow_edges()
    ensures { CommandsFollowEdges }
{}
