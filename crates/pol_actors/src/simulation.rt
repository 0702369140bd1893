//! A simulated module that is docked, and what it does in a turn.
ghost use Rattle.std.specs.Prelude.{◌≡◌, ◌≤◌, drop, length, map};
ghost use Rattle.pol_events.specs.Events.{plain_entry};
ghost use Rattle.pol_core.specs.Commands.{next_sent};
ghost use Rattle.pol_actors.specs.Turning.{decision_by, made_after, made_decides, made_ticked};
ghost use Rattle.mtp_sim.specs.Ticks.{tick_report};

use mtp_codes::Name;
use mtp_sim::{Sim, SimReport};
use pol_core::Plant;

/// What a module does in a turn.
#[derive(Clone, Copy, Debug, PartialEq, Eq)]
pub enum Decision {
    /// It reports this.
    Reports(SimReport),
    /// It took a command, or a tick that reports nothing.
    Looks,
    /// It has nothing to do.
    Rests,
}

/// A simulated module that is docked, and the place of the history from which on it looks for commands.
#[derive(Drop)]
pub struct Simulation {
    /// The simulation.
    pub sim: Sim,
    /// The place from which on it looks for commands.
    pub place: u32,
}

// What a report, if there is one, leads to.
fn decision_by(report: Option<SimReport>) -> Decision
    ensures { result ≡ decision_by report }
{
    match report {
        Some(report) => Decision::Reports(report),
        None => Decision::Looks,
    }
}

impl Simulation {
    // A tick.
    fn tick(&mut self) -> Decision
        ensures decides { result ≡ decision_by (tick_report self.old.sim) }
        ensures after { self.new ≡ made_ticked self.old }
    {
        decision_by(self.sim.tick())
    }

    /// One turn: where nothing is pending it takes the next command that was sent to it; else it ticks, unless it is at
    /// rest.
    pub fn turn(&mut self, tag: Name, plant: &Plant) -> Decision
        requires place { self.old.place ≤ length plant.now.entries }
        ensures decides { result ≡ made_decides
            (next_sent tag self.old.place (map plain_entry (drop self.old.place plant.now.entries))) self.old }
        ensures after { self.new ≡ made_after
            (next_sent tag self.old.place (map plain_entry (drop self.old.place plant.now.entries))) self.old }
    {
        if self.sim.pending() {
            return self.tick();
        }
        let (sent, after) = plant.next_command(tag, self.place);
        self.place = after;
        match sent {
            Some(sent) => {
                self.sim.take(sent.service, sent.command, sent.procedure);
                Decision::Looks
            },
            None if self.sim.at_rest() => Decision::Rests,
            None => self.tick(),
        }
    }
}
