//! What an object may say, by the name or the number in it, with what is under its keys.
ghost use Rattle.std.specs.Prelude.{◌≡◌, codes};
ghost use Rattle.serde_json.specs.View.{view};
ghost use Rattle.pol_entries.specs.Found.{lookup_in, name_at};
ghost use Rattle.pol_entries.specs.Candidates.{entry_named, obstacle_named, outcome_named, rule_numbered};

use crate::found::{command_at, forbid_at, half_at, name_at, number_at, readings_at, state_at};
use chart_core::{LogEntry, Outcome, Why};
use mtp_codes::Name;
use pol_events::Rule;
use serde_json::Value;

fn tag_in(value: &Value) -> Name
    ensures { result ≡ name_at (codes "tag") (view value.now) }
{
    name_at(value, "tag")
}

fn service_in(value: &Value) -> Name
    ensures { result ≡ name_at (codes "service") (view value.now) }
{
    name_at(value, "service")
}

fn step_in(value: &Value) -> Name
    ensures { result ≡ name_at (codes "step") (view value.now) }
{
    name_at(value, "step")
}

fn batch_in(value: &Value) -> Name
    ensures { result ≡ name_at (codes "batch") (view value.now) }
{
    name_at(value, "batch")
}

fn role_in(value: &Value) -> Name
    ensures { result ≡ name_at (codes "role") (view value.now) }
{
    name_at(value, "role")
}

fn missing_in(value: &Value) -> Name
    ensures { result ≡ name_at (codes "missing") (view value.now) }
{
    name_at(value, "missing")
}

fn variable_in(value: &Value) -> Name
    ensures { result ≡ name_at (codes "name") (view value.now) }
{
    name_at(value, "name")
}

/// The rule of this number.
pub fn rule_numbered(number: u32, value: &Value) -> Option<Rule>
    ensures { result ≡ rule_numbered number (lookup_in (view value.now)) }
{
    Some(match number {
        1 => Rule::TagTaken,
        2 => Rule::NoModule { tag: tag_in(value) },
        3 => Rule::PlantFull,
        4 => Rule::Held {
            batch: batch_in(value),
        },
        5 => Rule::InExchange {
            tag: tag_in(value),
            ticket: number_at(value, "ticket"),
        },
        6 => Rule::NotInExchange,
        7 => Rule::WrongTicket {
            kept: number_at(value, "kept"),
            given: number_at(value, "given"),
        },
        8 => Rule::NoService,
        9 => Rule::NotAnEdge {
            from: state_at(value, "from"),
            to: state_at(value, "to"),
        },
        10 => Rule::NoVariable,
        11 => Rule::WrongKind,
        12 => Rule::RecipeKnown,
        13 => Rule::NoRecipe,
        14 => Rule::BatchKnown,
        15 => Rule::NoBatch,
        16 => Rule::BatchClosed,
        17 => Rule::RoleUnbound {
            role: role_in(value),
        },
        18 => Rule::RoleUnknown {
            role: role_in(value),
        },
        19 => Rule::OneModuleTwice { tag: tag_in(value) },
        20 => Rule::WrongType {
            role: role_in(value),
        },
        21 => Rule::WrongVersion {
            role: role_in(value),
        },
        22 => Rule::NotCovered {
            missing: missing_in(value),
        },
        23 => Rule::NotReported {
            tag: tag_in(value),
            name: variable_in(value),
        },
        24 => Rule::NotIdle {
            tag: tag_in(value),
            service: service_in(value),
            state: state_at(value, "state"),
        },
        25 => Rule::Busy {
            tag: tag_in(value),
            batch: batch_in(value),
        },
        26 => Rule::BatchesFull,
        27 => Rule::NotAtRest {
            service: service_in(value),
            state: state_at(value, "state"),
        },
        28 => Rule::ActiveStep {
            batch: batch_in(value),
            step: step_in(value),
        },
        29 => Rule::HeldBack {
            batch: batch_in(value),
            missing: missing_in(value),
        },
        30 => Rule::ModeForbids,
        31 => Rule::StateForbids,
        32 => Rule::NotEnabled,
        33 => Rule::OutOfRange,
        34 => Rule::NotFrozen,
        35 => Rule::AlreadyFrozen,
        36 => Rule::SelfCompletes,
        37 => Rule::RecipesFull,
        38 => Rule::HistoryFull,
        39 => Rule::Watched {
            batch: batch_in(value),
        },
        40 => Rule::WatchedStep {
            role: role_in(value),
        },
        _ => return None,
    })
}

/// The entry of a log of this name.
pub fn entry_named(name: &str, value: &Value) -> Option<LogEntry>
    ensures { result ≡ entry_named name.now (lookup_in (view value.now)) }
{
    Some(match name {
        "start" => LogEntry::Start {
            step: step_in(value),
            tag: tag_in(value),
            service: service_in(value),
            procedure: half_at(value, "procedure"),
        },
        "finish" => LogEntry::Finish {
            step: step_in(value),
            tag: tag_in(value),
            service: service_in(value),
        },
        "reset" => LogEntry::Reset {
            step: step_in(value),
            tag: tag_in(value),
            service: service_in(value),
        },
        "end" => LogEntry::End {
            step: step_in(value),
        },
        "chose" => LogEntry::Chose {
            node: number_at(value, "node"),
            arm: number_at(value, "arm"),
            values: readings_at(value, "values"),
        },
        "turn" => LogEntry::Turn {
            node: number_at(value, "node"),
            values: readings_at(value, "values"),
        },
        "leave" => LogEntry::Leave {
            node: number_at(value, "node"),
            values: readings_at(value, "values"),
        },
        "stop" => LogEntry::Stop {
            step: step_in(value),
            tag: tag_in(value),
            service: service_in(value),
        },
        "broke" => LogEntry::Broke {
            step: step_in(value),
            state: state_at(value, "state"),
        },
        "left" => LogEntry::Left {
            step: step_in(value),
            state: state_at(value, "state"),
        },
        "stop_asked" => LogEntry::StopAsked,
        "hold" => LogEntry::Hold {
            step: step_in(value),
            tag: tag_in(value),
            service: service_in(value),
        },
        "unhold" => LogEntry::Unhold {
            step: step_in(value),
            tag: tag_in(value),
            service: service_in(value),
        },
        "asked" => LogEntry::Asked {
            tag: tag_in(value),
            service: service_in(value),
            command: command_at(value, "command"),
        },
        _ => return None,
    })
}

/// The obstacle of this name.
pub fn obstacle_named(name: &str, value: &Value) -> Option<Why>
    ensures { result ≡ obstacle_named name.now (lookup_in (view value.now)) }
{
    Some(match name {
        "Frozen" => Why::Frozen,
        "Away" => Why::Away { tag: tag_in(value) },
        "NotReported" => Why::NotReported {
            tag: tag_in(value),
            name: variable_in(value),
        },
        "InState" => Why::InState {
            step: step_in(value),
            state: state_at(value, "state"),
        },
        "Forbidden" => Why::Forbidden {
            step: step_in(value),
            by: forbid_at(value, "by"),
        },
        "Unmet" => Why::Unmet {
            step: step_in(value),
        },
        "NoArm" => Why::NoArm {
            node: number_at(value, "node"),
        },
        _ => return None,
    })
}

/// The outcome of this name.
pub fn outcome_named(name: &str) -> Option<Outcome>
    ensures { result ≡ outcome_named name.now }
{
    match name {
        "Completed" => Some(Outcome::Completed),
        "Broken" => Some(Outcome::Broken),
        "Stopped" => Some(Outcome::Stopped),
        "Abandoned" => Some(Outcome::Abandoned),
        _ => None,
    }
}
