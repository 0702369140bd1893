//! A service of a simulated module.
ghost use Rattle.std.specs.Prelude.{◌≡◌};
ghost use Rattle.mtp_desc.specs.PlainDescription.{plain_description};
ghost use Rattle.mtp_machine.specs.States.{is_execute};
ghost use Rattle.mtp_sim.specs.Commands.{asked_procedure, procedure_after, service_took};
ghost use Rattle.mtp_sim.specs.Sims.{first_service};
ghost use Rattle.mtp_sim.specs.Ticks.{changes, changes_in, control_now, enabled_of, is_reported, is_untold, report_of};
ghost use Rattle.mtp_sim.specs.Ticks.{service_ticked, ticks_of};

use super::report::SimReport;
use mtp_assembly::ServiceControl;
use mtp_codes::{Command, Mode, Name, Origin, State};
use mtp_desc::Description;
use mtp_machine::{by_command, by_itself, enabled_from};

/// The state of a service of a simulated module.
#[derive(Clone, Copy)]
pub struct SimService {
    /// The service's name.
    pub name: Name,
    /// Its state (VDI/VDE/NAMUR 2658 part 4).
    pub state: State,
    /// The state that it reported last; None before the first.
    pub last: Option<State>,
    /// How many ticks it has been in its state.
    pub count: u16,
    /// The procedure that runs, 0 before the first start.
    pub procedure: u16,
}

// The commands that leave a state as a mask, without Complete where the procedure completes by itself.
#[tactic(auto, using(crate::proofs::Masks::enabled_is))]
fn enabled_of(completes: bool, state: State) -> u32
    ensures { result ≡ enabled_of completes state }
{
    let mask = enabled_from(state);
    if completes && state == State::Execute {
        mask & !Command::Complete.code()
    } else {
        mask
    }
}

fn changes_in(completes: bool, state: State) -> bool
    ensures { result ≡ changes_in completes state }
{
    by_itself(state).is_some() && (completes || !is_execute(state))
}

fn is_execute(state: State) -> bool
    ensures { result ≡ is_execute state }
{
    matches!(state, State::Execute)
}

// The procedure that a start asks for, if the module has it; 0 asks for the default one.
fn asked_procedure(description: &Description, name: Name, procedure: u16) -> Option<u16>
    ensures { result ≡ asked_procedure name procedure (plain_description description.now) }
{
    let service = description.service(name)?;
    if procedure == 0 {
        return Some(service.default_procedure().number);
    }
    if service.procedure(procedure).is_some() {
        Some(procedure)
    } else {
        None
    }
}

impl SimService {
    /// A service at first: idle, nothing reported.
    pub fn first(name: Name) -> SimService
        ensures { result ≡ first_service name }
    {
        SimService {
            name,
            state: State::Idle,
            last: None,
            count: 0,
            procedure: 0,
        }
    }

    // What it reports of itself.
    fn control(&self, description: &Description) -> ServiceControl
        ensures { result ≡ control_now (plain_description description.now) self.now }
    {
        ServiceControl {
            state: self.state,
            mask: enabled_of(
                description.self_completes(self.name, self.procedure),
                self.state,
            ),
            mode: Mode::Automatic,
            origin: Origin::External,
            procedure: self.procedure,
        }
    }

    /// The report of the service.
    pub fn report(&self, description: &Description) -> SimReport
        ensures { result ≡ report_of (plain_description description.now) self.now }
    {
        SimReport::Service {
            name: self.name,
            control: self.control(description),
        }
    }

    /// Whether it executes.
    pub fn executes(&self) -> bool
        ensures { result ≡ is_execute self.now.state }
    {
        is_execute(self.state)
    }

    /// Whether its state is still to be reported.
    pub fn is_untold(&self) -> bool
        ensures { result ≡ is_untold self.now }
    {
        match self.last {
            None => true,
            Some(last) => last.code() != self.state.code(),
        }
    }

    /// Whether it changes by itself: not from Execute where its procedure waits to be completed.
    pub fn changes(&self, description: &Description) -> bool
        ensures { result ≡ changes (plain_description description.now) self.now }
    {
        changes_in(
            description.self_completes(self.name, self.procedure),
            self.state,
        )
    }

    // How many ticks its next change takes.
    fn limit(&self, ticks: u16, run: u16) -> u16
        ensures { result ≡ ticks_of ticks run self.now.state }
    {
        if self.executes() { run } else { ticks }
    }

    /// A tick that looks at it: whether it reports now.
    pub fn tick(&mut self, description: &Description, ticks: u16, run: u16) -> bool
        ensures report { result
            ≡ is_reported (plain_description description.now) (ticks_of ticks run self.old.state) self.old }
        ensures after { self.new
            ≡ service_ticked (plain_description description.now) (ticks_of ticks run self.old.state) self.old }
    {
        if self.is_untold() {
            self.last = Some(self.state);
            return true;
        }
        if !self.changes(description) {
            return false;
        }
        let limit = self.limit(ticks, run);
        let count = self.count.saturating_add(1);
        if count < limit {
            self.count = count;
            return false;
        }
        match by_itself(self.state) {
            Some(state) => {
                self.state = state;
                self.last = Some(state);
                self.count = 0;
            },
            None => unreachable!(),
        }
        true
    }

    // The procedure that runs after the command.
    fn procedure_after(
        &self,
        description: &Description,
        command: Command,
        procedure: u16,
    ) -> Option<u16>
        ensures { result ≡ procedure_after (plain_description description.now) self.now command procedure }
    {
        if command == Command::Start {
            asked_procedure(description, self.name, procedure)
        } else {
            Some(self.procedure)
        }
    }

    /// The service after it took the command, which it does at once; None where it doesn't take it.
    pub fn taken(
        &self,
        description: &Description,
        command: Command,
        procedure: u16,
    ) -> Option<SimService>
        ensures { result ≡ service_took (plain_description description.now) self.now command procedure }
    {
        if command == Command::Complete && description.self_completes(self.name, self.procedure) {
            return None;
        }
        let state = by_command(self.state, command)?;
        let procedure = self.procedure_after(description, command, procedure)?;
        Some(SimService {
            name: self.name,
            state,
            last: self.last,
            count: 0,
            procedure,
        })
    }
}
