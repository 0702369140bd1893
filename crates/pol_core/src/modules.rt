//! What events of a module are answered, and what they change in the table of modules.
ghost use Rattle.std.specs.Prelude.{◌≡◌, ◌≢◌, ℕ, Some, IfOk, IfNone, IfSome, OnErr, length, slice_get};
ghost use Rattle.mtp_desc.specs.PlainDescription.{plain_description};
ghost use Rattle.pol_events.specs.Events.{plug, unplug, report, variable, desk};
ghost use Rattle.pol_history.specs.Batches.{holder_of, watchers_of};
ghost use Rattle.pol_history.specs.Looking.{History, past};
ghost use Rattle.pol_history.specs.Modules.{absent, description_of, docking_of, next_ticket, present_tags, value_by};
ghost use Rattle.pol_history.specs.Modules.{view_of};
ghost use Rattle.pol_core.specs.Calls.{module_sight, module_value, plain_docking};
ghost use Rattle.pol_core.specs.Exchanges.{HaveBegunFew, IsDockedAt};
ghost use Rattle.pol_core.specs.Seats.{IsCounted, ModuleAnswers, SeatsMirror, asked_answer, done_or_refused};
ghost use Rattle.pol_core.specs.Seats.{slot_asked};
ghost use Rattle.pol_table.specs.ByteOrder.{in_byte_order};

use crate::docking::Docking;
use chart_core::LogEntry;
use chart_cursor::Sight;
use mtp_assembly::ServiceControl;
use mtp_codes::{Command, MOST_MODULES, Name, Value};
use mtp_desc::Description;
use pol_events::{Answer, Rule};
use pol_slots::Slot;
use pol_table::{DockFault, Table};
use std::alloc::{AllocError, Global};
use std::sync::Arc;

/// An event that is done, unless a rule refuses it.
pub fn done_or_refused(refused: Result<(), Rule>) -> Answer
    ensures { result ≡ done_or_refused refused }
{
    match refused {
        Ok(()) => Answer::Done,
        Err(rule) => Answer::Refused(rule),
    }
}

/// A module is plugged. AllocError where there is no memory; then the table is as it was.
pub fn plug(
    alloc: Global,
    modules: &mut Table<Slot>,
    tag: Name,
    description: &Arc<Description>,
) -> Result<Answer, AllocError>
    ensures answered { IfOk result (λ answer.
        ModuleAnswers (λ at. plug at tag (plain_description description.now.value)) modules.old answer modules.new) }
    ensures unchanged { OnErr result (modules.new ≡ modules.old) }
{
    if modules.get(tag).is_some() {
        return Ok(Answer::Refused(Rule::TagTaken));
    }
    if modules.len() as usize >= MOST_MODULES {
        return Ok(Answer::Refused(Rule::PlantFull));
    }
    let slot = Slot::new(alloc, description.clone()?, tag)?;
    match modules.dock(tag, slot) {
        Ok(()) => Ok(Answer::Done),
        Err((_slot, DockFault::Memory)) => Err(AllocError),
        // The tag and the room were asked before.
        Err((_slot, DockFault::TagTaken)) => unreachable!(),
        Err((_slot, DockFault::PlantFull)) => unreachable!(),
    }
}

/// A module leaves, where no batch holds or watches it.
pub fn unplug(modules: &mut Table<Slot>, tag: Name) -> Answer
    ensures answered { ModuleAnswers (λ at. unplug at tag) modules.old result modules.new }
{
    let Some(slot) = modules.get(tag) else {
        return Answer::Refused(Rule::NoModule { tag });
    };
    if let Some(ticket) = slot.ticket() {
        return Answer::Refused(Rule::InExchange { tag, ticket });
    }
    if let Some(batch) = modules.holder(tag) {
        return Answer::Refused(Rule::Held { batch });
    }
    if let Some(batch) = modules.watcher(tag, 0) {
        return Answer::Refused(Rule::Watched { batch });
    }
    if modules.leave(tag).is_err() {
        unreachable!();
    }
    Answer::Done
}

/// A service reports.
#[inline(always)]
pub fn report(
    modules: &mut Table<Slot>,
    tag: Name,
    service: Name,
    control: ServiceControl,
) -> Answer
    ensures answered { ModuleAnswers (λ at. report at tag service control) modules.old result modules.new }
{
    match modules.get_mut(tag) {
        None => Answer::Refused(Rule::NoModule { tag }),
        Some(slot) => done_or_refused(slot.report(service, control)),
    }
}

/// A variable is reported.
#[inline(always)]
pub fn variable(modules: &mut Table<Slot>, tag: Name, name: Name, value: &Value) -> Answer
    ensures answered { ModuleAnswers (λ at. variable at tag name value.now) modules.old result modules.new }
{
    match modules.get_mut(tag) {
        None => Answer::Refused(Rule::NoModule { tag }),
        Some(slot) => done_or_refused(slot.variable(name, *value)),
    }
}

// The operator's command to a service of this slot.
fn ask(slot: &Slot, tag: Name, service: Name, command: Command) -> Result<LogEntry, Rule>
    ensures { result ≡ slot_asked slot.now tag service command }
{
    let view = slot.reported(service)?;
    pol_desk::desk(tag, service, &view, command)
}

/// The operator commands a service of a module.
pub fn desk(modules: &Table<Slot>, tag: Name, service: Name, command: Command) -> Answer
    ensures answered { ModuleAnswers (λ at. desk at tag service command) modules.now result modules.now }
{
    let Some(slot) = modules.get(tag) else {
        return Answer::Refused(Rule::NoModule { tag });
    };
    match ask(slot, tag, service, command) {
        Ok(entry) => Answer::Did(entry),
        Err(rule) => Answer::Refused(rule),
    }
}

/// Whether a tag is docked.
pub fn docking(modules: &Table<Slot>, tag: Name) -> Docking
    requires { HaveBegunFew modules.now }
    ensures { (history : History) → SeatsMirror modules.now history → plain_docking result ≡ docking_of history tag }
{
    let Some(slot) = modules.get(tag) else {
        return Docking::Absent;
    };
    match slot.ticket() {
        Some(ticket) => Docking::Away(ticket),
        None => Docking::Docked(slot.begins() + 1),
    }
}

/// The tag at this place, from 0, among those that are docked or away, in byte order.
pub fn tag_at(modules: &Table<Slot>, place: u32) -> Option<Name>
    ensures { (history : History) → IsCounted modules.now history
        → result ≡ slice_get (in_byte_order (present_tags history)) place }
{
    modules.tag_at(place)
}

/// The description of the module, docked or away; None exactly where no module has the tag.
pub fn description(modules: &Table<Slot>, tag: Name) -> Option<&Arc<Description>>
    ensures known { IfSome result (λ description. (history : History) → SeatsMirror modules.now history
        → description_of history tag ≡ Some (plain_description description.now.value)) }
    ensures there { IfSome result (λ _. (history : History) → SeatsMirror modules.now history
        → docking_of history tag ≢ absent) }
    ensures none { IfNone result ((history : History) → SeatsMirror modules.now history
        → docking_of history tag ≡ absent) }
{
    match modules.get(tag) {
        None => None,
        Some(slot) => Some(slot.description()),
    }
}

/// What is seen of a service of the module: Away where the tag isn't docked.
pub fn view(modules: &Table<Slot>, tag: Name, service: Name) -> Sight
    ensures { (history : History) → SeatsMirror modules.now history
        → result ≡ module_sight (docking_of history tag) (view_of history tag service) }
{
    match modules.get(tag) {
        None => Sight::Away,
        Some(slot) => slot.view(service),
    }
}

/// The batch that holds the module.
pub fn holder(modules: &Table<Slot>, tag: Name) -> Option<Name>
    ensures { (history : History) → SeatsMirror modules.now history → result ≡ holder_of history tag }
{
    modules.holder(tag)
}

/// The batch that watches the module, at this place, from 0, in the order in which they began to watch.
pub fn watcher(modules: &Table<Slot>, tag: Name, place: u32) -> Option<Name>
    ensures { (history : History) → SeatsMirror modules.now history
        → result ≡ slice_get (watchers_of history tag) place }
{
    modules.watcher(tag, place)
}

/// How many modules are docked or away.
pub fn module_count(modules: &Table<Slot>) -> u32
    ensures { (history : History) → IsCounted modules.now history → result ≡ length (present_tags history) }
{
    modules.len()
}

/// The tags that are docked or away, in byte order.
pub fn tags(alloc: Global, modules: &Table<Slot>) -> Result<Vec<Name>, AllocError>
    ensures { IfOk result (λ tags. (history : History) → IsCounted modules.now history
        → tags.items ≡ in_byte_order (present_tags history)) }
{
    modules.tags(alloc)
}

/// The value that the variable was reported with last since its module was docked.
pub fn value(modules: &Table<Slot>, tag: Name, variable: Name) -> Option<Value>
    ensures { (history : History) → SeatsMirror modules.now history
        → result ≡ module_value (docking_of history tag) (value_by variable (past tag history)) }
{
    let slot = modules.get(tag)?;
    slot.value(variable)
}

/// The ticket of the next exchange of a module that is docked.
pub fn next_ticket(modules: &Table<Slot>, tag: Name) -> u32
    requires docked { IsDockedAt tag modules.now }
    requires few { HaveBegunFew modules.now }
    ensures { (history : History) → SeatsMirror modules.now history → result ≡ next_ticket (past tag history) }
{
    match modules.get(tag) {
        Some(slot) => slot.begins() + 1,
        None => unreachable!(),
    }
}
