//! The commands that were sent to a module.
ghost use Rattle.std.specs.Prelude.{◌≡◌, ◌≤◌, ◌<◌, drop, length, map};
ghost use Rattle.mtp_codes.specs.declared.limits.TheConstants.{LONGEST_HISTORY};
ghost use Rattle.pol_events.specs.Events.{plain_entry, plain_event};
ghost use Rattle.pol_core.specs.Commands.{batch_in, by_operator, by_recipe, entry_command, for_tag, next_sent, sent_to};

use chart_core::LogEntry;
use mtp_codes::{Command, Name, Speaker};
use pol_events::{Answer, Entry, Event};

/// A command that was sent to a service of a module.
#[derive(Clone, Copy, Debug, PartialEq, Eq)]
pub struct Sent {
    /// Who sent it: the operator, or a recipe.
    pub speaker: Speaker,
    /// The batch, of a recipe's command.
    pub batch: Option<Name>,
    /// The step, of a recipe's command.
    pub step: Option<Name>,
    /// The service that it goes to.
    pub service: Name,
    /// The command.
    pub command: Command,
    /// The procedure that is to run, from 1, of a recipe's Start; 0 of every other command.
    pub procedure: u16,
}

// A recipe's command.
fn by_recipe(
    batch: Option<Name>,
    step: Name,
    service: Name,
    command: Command,
    procedure: u16,
) -> Sent
    ensures { result ≡ by_recipe batch step service command procedure }
{
    Sent {
        speaker: Speaker::Recipe,
        batch,
        step: Some(step),
        service,
        command,
        procedure,
    }
}

// An operator's command.
fn by_operator(batch: Option<Name>, service: Name, command: Command) -> Sent
    ensures { result ≡ by_operator batch service command }
{
    Sent {
        speaker: Speaker::Operator,
        batch,
        step: None,
        service,
        command,
        procedure: 0,
    }
}

// The command of an entry of a log, with the tag of the module that it goes to; None of an entry that sends none.
fn entry_command(batch: Option<Name>, entry: &LogEntry) -> Option<(Name, Sent)>
    ensures { result ≡ entry_command batch entry.now }
{
    match *entry {
        LogEntry::Start {
            step,
            tag,
            service,
            procedure,
        } => {
            let sent = by_recipe(batch, step, service, Command::Start, procedure);
            Some((tag, sent))
        }
        LogEntry::Finish { step, tag, service } => {
            Some((tag, by_recipe(batch, step, service, Command::Complete, 0)))
        }
        LogEntry::Reset { step, tag, service } => {
            Some((tag, by_recipe(batch, step, service, Command::Reset, 0)))
        }
        LogEntry::Stop { step, tag, service } => {
            Some((tag, by_recipe(batch, step, service, Command::Stop, 0)))
        }
        LogEntry::Hold { step, tag, service } => {
            Some((tag, by_recipe(batch, step, service, Command::Hold, 0)))
        }
        LogEntry::Unhold { step, tag, service } => {
            Some((tag, by_recipe(batch, step, service, Command::Unhold, 0)))
        }
        LogEntry::Asked {
            tag,
            service,
            command,
        } => Some((tag, by_operator(batch, service, command))),
        _ => None,
    }
}

// The batch that an event advances.
fn batch_in(event: &Event) -> Option<Name>
    ensures { result ≡ batch_in (plain_event event.now) }
{
    match event {
        Event::Advance { batch, .. } => Some(*batch),
        _ => None,
    }
}

// A command, where it goes to this module.
fn for_tag(tag: Name, sent: Option<(Name, Sent)>) -> Option<Sent>
    ensures { result ≡ for_tag tag sent }
{
    let (to, sent) = sent?;
    if to == tag { Some(sent) } else { None }
}

// The command that an entry of a history sends to the module.
fn sent_to(tag: Name, entry: &Entry) -> Option<Sent>
    ensures { result ≡ sent_to tag (plain_entry entry.now) }
{
    match &entry.answer {
        Answer::Did(done) => for_tag(tag, entry_command(batch_in(&entry.event), done)),
        _ => None,
    }
}

/// The first command to the module among the entries from a place on, with the place after it; or None with the number
/// of the entries. Looks at no entry before the place.
pub fn next_command(history: &[Entry], tag: Name, place: u32) -> (Option<Sent>, u32)
    requires place { place ≤ length history.now }
    requires few { length history.now ≤ LONGEST_HISTORY }
    ensures { result ≡ next_sent tag place (map plain_entry (drop place history.now)) }
{
    for index in place as usize..history.len() {
        if let Some(sent) = sent_to(tag, &history[index]) {
            return (Some(sent), index as u32 + 1);
        }
    }
    (None, history.len() as u32)
}
