//! What an event of a module would be answered.
ghost use Rattle.std.specs.Prelude.{◌≡◌, ◌≢◌, ℕ, [], ◌∷◌, Some, option_and_then};
ghost use Rattle.mtp_codes.specs.Faults.{first_of};
ghost use Rattle.mtp_desc.specs.Plain.{PlainDescription};
ghost use Rattle.mtp_desc.specs.PlainDescription.{plain_description};
ghost use Rattle.pol_events.specs.Events.{desk, plug, report, unplug, variable};
ghost use Rattle.pol_events.specs.Refusals.{in_exchange, no_service, no_variable, not_an_edge, value_misfit};
ghost use Rattle.pol_events.specs.declared.answer.Answer.TheVariants as answers;
ghost use Rattle.pol_events.specs.declared.answer.Rule.TheVariants.{Held};
ghost use Rattle.pol_history.specs.Answers.{first_rule, rules};
ghost use Rattle.pol_history.specs.Batches.{holder_of};
ghost use Rattle.pol_history.specs.Modules.{absent, description_of, docking_of, ticket_of};
ghost use Rattle.pol_history.specs.Rules.{no_module, plant_full, watched};
ghost use Rattle.pol_core.specs.Plants.{plant_history};
ghost use Rattle.pol_foresight.specs.Foreseen.{IsForeseenAt, control_in, sight_asked};

use chart_core::LogEntry;
use chart_cursor::Sight;
use mtp_assembly::{ServiceControl, check_view};
use mtp_codes::{Command, MOST_MODULES, Name, State, Value};
use mtp_desc::Description;
use mtp_machine::edge;
use pol_core::{Docking, Plant};
use pol_events::{Answer, Rule};

/// An event that would be done, unless a rule refuses it.
pub fn done_unless(rule: Option<Rule>) -> Answer
    ensures { result ≡ first_rule (rule ∷ []) answers.Done }
{
    match rule {
        Some(rule) => Answer::Refused(rule),
        None => Answer::Done,
    }
}

// The rule against a plant that has no room for a module.
fn plant_full(plant: &Plant) -> Option<Rule>
    ensures { result ≡ plant_full (plant_history plant.now) }
{
    if plant.module_count() as usize >= MOST_MODULES {
        Some(Rule::PlantFull)
    } else {
        None
    }
}

// The rule that a plug would be refused by.
fn plug_rule(plant: &Plant, tag: Name) -> Option<Rule>
    ensures { (at : ℕ) (description : PlainDescription)
        → result ≡ first_of (rules (plant_history plant.now) (plug at tag description)) }
{
    match plant.docking(tag) {
        Docking::Docked(_) | Docking::Away(_) => Some(Rule::TagTaken),
        Docking::Absent => plant_full(plant),
    }
}

/// A module would be plugged.
pub fn plug(plant: &Plant, tag: Name) -> Answer
    ensures { (description : PlainDescription) → IsForeseenAt plant.now (λ at. plug at tag description) result }
{
    done_unless(plug_rule(plant, tag))
}

// The rule against a tag without a docked module.
fn not_docked(plant: &Plant, tag: Name) -> Option<Rule>
    ensures { result ≡ first_of (no_module tag (docking_of (plant_history plant.now) tag)
        ∷ in_exchange tag (ticket_of (docking_of (plant_history plant.now) tag)) ∷ []) }
{
    match plant.docking(tag) {
        Docking::Absent => Some(Rule::NoModule { tag }),
        Docking::Away(ticket) => Some(Rule::InExchange { tag, ticket }),
        Docking::Docked(_) => None,
    }
}

// The rule against a module that a batch holds, or else watches.
fn used(plant: &Plant, tag: Name) -> Option<Rule>
    ensures { result
        ≡ first_of (option_and_then (λ batch. Some (Held batch)) (holder_of (plant_history plant.now) tag)
        ∷ watched (plant_history plant.now) tag ∷ []) }
{
    if let Some(batch) = plant.holder(tag) {
        return Some(Rule::Held { batch });
    }
    let batch = plant.watcher(tag, 0)?;
    Some(Rule::Watched { batch })
}

// The rule that an unplug would be refused by.
fn unplug_rule(plant: &Plant, tag: Name) -> Option<Rule>
    ensures { (at : ℕ) → result ≡ first_of (rules (plant_history plant.now) (unplug at tag)) }
{
    match not_docked(plant, tag) {
        Some(rule) => Some(rule),
        None => used(plant, tag),
    }
}

/// A module would leave.
pub fn unplug(plant: &Plant, tag: Name) -> Answer
    ensures { IsForeseenAt plant.now (λ at. unplug at tag) result }
{
    done_unless(unplug_rule(plant, tag))
}

// The rule against a service that the description of the tag's module lacks.
fn lacks_service(plant: &Plant, tag: Name, service: Name) -> Option<Rule>
    requires there { docking_of (plant_history plant.now) tag ≢ absent }
    ensures { result ≡ option_and_then (no_service service) (description_of (plant_history plant.now) tag) }
{
    let description = plant.description(tag)?;
    match description.service(service) {
        Some(_) => None,
        None => Some(Rule::NoService),
    }
}

// The rule against a state that may not follow the one that is seen.
fn not_an_edge(sight: &Sight, state: State) -> Option<Rule>
    ensures { result ≡ not_an_edge state (control_in sight.now) }
{
    match sight {
        Sight::Away | Sight::Unreported => None,
        Sight::Is(view) => {
            let from = view.control.state;
            if from == state || edge(from, state) {
                None
            } else {
                Some(Rule::NotAnEdge { from, to: state })
            }
        }
    }
}

// The rule that a report would be refused by.
fn report_rule(plant: &Plant, tag: Name, service: Name, control: ServiceControl) -> Option<Rule>
    ensures { (at : ℕ) → result ≡ first_of (rules (plant_history plant.now) (report at tag service control)) }
{
    if let Some(rule) = not_docked(plant, tag) {
        return Some(rule);
    }
    match lacks_service(plant, tag, service) {
        Some(rule) => Some(rule),
        None => not_an_edge(&plant.view(tag, service), control.state),
    }
}

/// A service would report.
pub fn report(plant: &Plant, tag: Name, service: Name, control: ServiceControl) -> Answer
    ensures { IsForeseenAt plant.now (λ at. report at tag service control) result }
{
    done_unless(report_rule(plant, tag, service, control))
}

// The rule against a value of a variable of a module with this description.
fn misfit(description: &Description, name: Name, value: &Value) -> Option<Rule>
    ensures { result ≡ first_of (no_variable name (plain_description description.now)
        ∷ value_misfit name value.now (plain_description description.now) ∷ []) }
{
    let Some(variable) = description.variable(name) else {
        return Some(Rule::NoVariable);
    };
    match check_view(variable, value) {
        Ok(()) => None,
        Err(fault) => Some(fault.into()),
    }
}

// The rule that a variable's value would be refused by.
fn variable_rule(plant: &Plant, tag: Name, name: Name, value: &Value) -> Option<Rule>
    ensures { (at : ℕ) → result ≡ first_of (rules (plant_history plant.now) (variable at tag name value.now)) }
{
    if let Some(rule) = not_docked(plant, tag) {
        return Some(rule);
    }
    let description = plant.description(tag)?;
    misfit(description, name, value)
}

/// A variable would be reported.
pub fn variable(plant: &Plant, tag: Name, name: Name, value: &Value) -> Answer
    ensures { IsForeseenAt plant.now (λ at. variable at tag name value.now) result }
{
    done_unless(variable_rule(plant, tag, name, value))
}

// The operator's command to a service that is seen so, whose module is docked and has it.
fn ask(sight: &Sight, tag: Name, service: Name, command: Command) -> Result<LogEntry, Rule>
    ensures { result ≡ sight_asked tag service command sight.now }
{
    match sight {
        Sight::Is(view) => pol_desk::desk(tag, service, view, command),
        Sight::Away | Sight::Unreported => Err(Rule::NotReported { tag, name: service }),
    }
}

/// The operator would command a service of a module.
pub fn desk(plant: &Plant, tag: Name, service: Name, command: Command) -> Answer
    ensures { IsForeseenAt plant.now (λ at. desk at tag service command) result }
{
    if let Some(rule) = not_docked(plant, tag) {
        return Answer::Refused(rule);
    }
    if let Some(rule) = lacks_service(plant, tag, service) {
        return Answer::Refused(rule);
    }
    match ask(&plant.view(tag, service), tag, service, command) {
        Ok(entry) => Answer::Did(entry),
        Err(rule) => Answer::Refused(rule),
    }
}
