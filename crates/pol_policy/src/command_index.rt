//! For each command the places of some rules.
ghost use Rattle.std.specs.Prelude.{◌≡◌, ◌≤◌, length};
ghost use Rattle.std.specs.List.{list_any};
ghost use Rattle.mtp_codes.specs.declared.command.Command.{Command as command_type};
ghost use Rattle.pol_policy.specs.Allowing.{lists, same_command};
ghost use Rattle.pol_policy.specs.Places.{IsPlacesOf};
ghost use Rattle.pol_policy.specs.Policies.{plain_rule};
ghost use Rattle.pol_policy.specs.Tables.{places_of_command};
ghost use Rattle.pol_policy.specs.declared.limits.TheConstants.{MOST_PLACES};

use crate::parts::PolicyRule;
use crate::place_set::PlaceSet;
use crate::places::{Test, places_where};
use mtp_codes::Command;

/// For each command the places of the rules that list it.
#[derive(Clone, Copy)]
pub(crate) struct CommandIndex {
    reset: PlaceSet,
    start: PlaceSet,
    stop: PlaceSet,
    hold: PlaceSet,
    unhold: PlaceSet,
    pause: PlaceSet,
    resume: PlaceSet,
    abort: PlaceSet,
    restart: PlaceSet,
    complete: PlaceSet,
}

fn has_command(commands: &[Command], command: Command) -> bool
    ensures { result ≡ list_any (λ each. same_command each command) commands.now }
{
    commands.iter().any(|each| each.code() == command.code())
}

// A rule lists this command.
#[derive(Clone, Copy)]
struct Lists {
    command: Command,
}

impl Test for Lists {
    type Item = PolicyRule;

    ghost test = { λ asked rule. lists same_command (plain_rule rule).commands asked.command };

    fn passes(&self, item: &PolicyRule) -> bool {
        match &item.commands {
            Some(commands) => has_command(commands, self.command),
            None => true,
        }
    }
}

// The places of the rules that list a command.
fn places_of(rules: &[PolicyRule], command: Command) -> PlaceSet
    requires { length rules.now ≤ MOST_PLACES }
    ensures { IsPlacesOf (λ rule. lists same_command (plain_rule rule).commands command) rules.now result }
{
    places_where(&Lists { command }, rules)
}

impl CommandIndex {
    /// The index of the commands that these rules list.
    pub fn new(rules: &[PolicyRule]) -> CommandIndex
        requires { length rules.now ≤ MOST_PLACES }
        ensures { (command : command_type) → IsPlacesOf (λ rule. lists same_command (plain_rule rule).commands command)
            rules.now (places_of_command result command) }
    {
        CommandIndex {
            reset: places_of(rules, Command::Reset),
            start: places_of(rules, Command::Start),
            stop: places_of(rules, Command::Stop),
            hold: places_of(rules, Command::Hold),
            unhold: places_of(rules, Command::Unhold),
            pause: places_of(rules, Command::Pause),
            resume: places_of(rules, Command::Resume),
            abort: places_of(rules, Command::Abort),
            restart: places_of(rules, Command::Restart),
            complete: places_of(rules, Command::Complete),
        }
    }

    /// The places of a command.
    pub fn places_of(&self, command: Command) -> PlaceSet
        ensures { result ≡ places_of_command self.now command }
    {
        match command {
            Command::Reset => self.reset,
            Command::Start => self.start,
            Command::Stop => self.stop,
            Command::Hold => self.hold,
            Command::Unhold => self.unhold,
            Command::Pause => self.pause,
            Command::Resume => self.resume,
            Command::Abort => self.abort,
            Command::Restart => self.restart,
            Command::Complete => self.complete,
        }
    }
}
