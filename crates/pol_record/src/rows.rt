//! The tables of log entries and of obstacles: the name and the fields of each.
ghost use Rattle.std.specs.Prelude.{◌≡◌, ◌<◌, ◌≤◌, length, true};
ghost use Rattle.event_json.specs.FieldRanges.{are_in_range};
ghost use Rattle.event_json.specs.Fields.{fields_of};
ghost use Rattle.event_json.specs.declared.fields.TheConstants.{MOST_FIELDS};
ghost use Rattle.pol_record.specs.Ranges.{is_start_in_range};
ghost use Rattle.pol_record.specs.Rows.{command_row, entry_row, forbid_name, named_fields, obstacle_row, row};
ghost use Rattle.pol_record.specs.Rows.{plain_row};

use chart_core::{LogEntry, Why};
use event_json::Fields;
use mtp_codes::{Forbid, Name};

/// The name and the fields of a log entry or an obstacle.
#[derive(Drop)]
pub struct Row<'a> {
    /// Its name.
    pub name: &'static str,
    /// Its fields.
    pub fields: Fields<'a>,
}

impl<'a> Row<'a> {
    /// The fields, and the name under this key.
    pub fn named_fields(self, key: &'static str) -> Fields<'a>
        requires { length (plain_row self).fields < MOST_FIELDS }
        ensures { fields_of result ≡ named_fields key.now (plain_row self.entry) }
    {
        self.fields.text(key, self.name)
    }
}

fn named<'a>(name: &'static str, fields: Fields<'a>) -> Row<'a>
    ensures { plain_row result ≡ row name.now (fields_of fields.entry) }
{
    Row { name, fields }
}

fn command_row<'a>(name: &'static str, step: &'a Name, tag: &'a Name, service: &'a Name) -> Row<'a>
    ensures row { plain_row result ≡ command_row name.now step.now tag.now service.now }
    ensures held { are_in_range (command_row name.now step.now tag.now service.now).fields ≡ true }
{
    let fields = Fields::none()
        .name("step", step)
        .name("tag", tag)
        .name("service", service);
    named(name, fields)
}

/// The row of a log entry.
pub fn entry_row(entry: &LogEntry) -> Row<'_>
    ensures row { plain_row result ≡ entry_row entry.now }
    ensures few { length (entry_row entry.now).fields ≤ 4 }
    ensures held { are_in_range (entry_row entry.now).fields ≡ true }
    ensures start { is_start_in_range entry.now ≡ true }
{
    let none = Fields::none();
    match entry {
        LogEntry::Start {
            step,
            tag,
            service,
            procedure,
        } => {
            let fields = none
                .name("step", step)
                .name("tag", tag)
                .name("service", service);
            named("start", fields.number("procedure", *procedure as u32))
        }
        LogEntry::Finish { step, tag, service } => command_row("finish", step, tag, service),
        LogEntry::Reset { step, tag, service } => command_row("reset", step, tag, service),
        LogEntry::End { step } => named("end", none.name("step", step)),
        LogEntry::Chose { node, arm, values } => {
            let fields = none.number("node", *node).number("arm", *arm);
            named("chose", fields.readings("values", values.as_list()))
        }
        LogEntry::Turn { node, values } => {
            let fields = none.number("node", *node);
            named("turn", fields.readings("values", values.as_list()))
        }
        LogEntry::Leave { node, values } => {
            let fields = none.number("node", *node);
            named("leave", fields.readings("values", values.as_list()))
        }
        LogEntry::Stop { step, tag, service } => command_row("stop", step, tag, service),
        LogEntry::Broke { step, state } => {
            named("broke", none.name("step", step).state("state", *state))
        }
        LogEntry::Left { step, state } => {
            named("left", none.name("step", step).state("state", *state))
        }
        LogEntry::StopAsked => named("stop_asked", none),
        LogEntry::Hold { step, tag, service } => command_row("hold", step, tag, service),
        LogEntry::Unhold { step, tag, service } => command_row("unhold", step, tag, service),
        LogEntry::Asked {
            tag,
            service,
            command,
        } => {
            let fields = none.name("tag", tag).name("service", service);
            named("asked", fields.number("command", command.code()))
        }
    }
}

/// The name of why a command is forbidden.
pub fn forbid_name(forbid: Forbid) -> &'static str
    ensures { result.now ≡ forbid_name forbid }
{
    match forbid {
        Forbid::ModeForbids => "ModeForbids",
        Forbid::SelfCompletes => "SelfCompletes",
        Forbid::StateForbids => "StateForbids",
        Forbid::NotEnabled => "NotEnabled",
    }
}

/// The row of an obstacle that a batch waits for.
pub fn obstacle_row(obstacle: &Why) -> Row<'_>
    ensures row { plain_row result ≡ obstacle_row obstacle.now }
    ensures few { length (obstacle_row obstacle.now).fields ≤ 4 }
    ensures held { are_in_range (obstacle_row obstacle.now).fields ≡ true }
{
    let none = Fields::none();
    match obstacle {
        Why::Frozen => named("Frozen", none),
        Why::Away { tag } => named("Away", none.name("tag", tag)),
        Why::NotReported { tag, name } => {
            named("NotReported", none.name("tag", tag).name("name", name))
        }
        Why::InState { step, state } => {
            named("InState", none.name("step", step).state("state", *state))
        }
        Why::Forbidden { step, by } => {
            named(
                "Forbidden",
                none.name("step", step).text("by", forbid_name(*by)),
            )
        }
        Why::Unmet { step } => named("Unmet", none.name("step", step)),
        Why::NoArm { node } => named("NoArm", none.number("node", *node)),
    }
}
