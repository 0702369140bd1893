//! Reading the policies of plants.
ghost use Rattle.std.specs.Prelude.{◌≡◌, ◌≤◌, codes, map, length, IfOk, IfSome, IsTrue, Ok};
ghost use Rattle.std.specs.Option.{ForSome, option_map};
ghost use Rattle.serde_json.specs.View.{members_view, view};
ghost use Rattle.mtp_codes.specs.Names.{is_name};
ghost use Rattle.mtp_json.specs.declared.fault.FaultKind.TheVariants.{Repeated};
ghost use Rattle.mtp_json.specs.Form.{list_if_there, refused_if};
ghost use Rattle.mtp_json.specs.ReadResult.{under};
ghost use Rattle.mtp_json.specs.ReadsAs.{ReadsAs};
ghost use Rattle.named_lines.specs.Without.{without, without_member};
ghost use Rattle.pol_policy.specs.PlainPolicy.{plain_policy};
ghost use Rattle.pol_policy.specs.declared.limits.TheConstants.{MOST_RULES};
ghost use Rattle.pol_rights.specs.Form.{kind_of, line_rule_of, lines_in, plant_policy_in, plant_policy_on, repeats_a_rule, same_line_rule};
ghost use Rattle.pol_rights.specs.PlainPlantPolicy.{plain_plant_policy};
ghost use Rattle.pol_rights.specs.Rules.{PlainLineRule, plain_line_rule};

use crate::kinds::KindJson;
use crate::limits::MOST_KINDS;
use crate::line_rule::LineRule;
use crate::line_rules::LineRules;
use crate::line_table::LineTable;
use crate::plant_policy::PlantPolicy;
use event_json::EventKind;
use mtp_json::{
    Alike, FromJson, JsonRefusal, list_if_there, name_at, nothing_but, object_here, parse,
    truth_at, unlike_under,
};
use pol_policy::{MOST_LISTED, MOST_RULES, Policy, names_if, policy_from};
use serde_json::{Map, Value};
use std::alloc::Global;

// ---- rules of lines

#[tactic(auto, using(pol_policy::proofs::Views::items_if_seen))]
fn kinds_if(
    alloc: Global,
    object: &Value,
    key: &str,
    low: usize,
    high: usize,
) -> Result<Option<Vec<EventKind>>, JsonRefusal>
    requires { IsTrue (is_name key.now) }
    ensures { ReadsAs (option_map (λ found. found.items)) result
        (list_if_there key.now low high kind_of (view object.now)) }
{
    list_if_there::<KindJson>(alloc, object, key, low, high)
}

#[tactic(auto, unfolding(crate::specs::Form::line_rule_of))]
fn read_rule(alloc: Global, value: &Value) -> Result<LineRule, JsonRefusal>
    ensures { ReadsAs plain_line_rule result (line_rule_of (view value.now)) }
{
    object_here(alloc, value)?;
    let name = name_at(alloc, value, "name")?;
    let allow = truth_at(alloc, value, "allow")?;
    let who = names_if(alloc, value, "who", 1, MOST_LISTED)?;
    let kinds = kinds_if(alloc, value, "kinds", 1, MOST_KINDS)?;
    nothing_but(alloc, value, "name allow who kinds")?;
    Ok(LineRule {
        name,
        allow,
        who,
        kinds,
    })
}

// The form of a rule of lines.
struct LineRuleJson;

impl FromJson for LineRuleJson {
    type Item = LineRule;

    ghost Form = { PlainLineRule };

    ghost plain = { plain_line_rule };

    ghost form = { line_rule_of };

    fn read(alloc: Global, value: &Value) -> Result<LineRule, JsonRefusal> {
        read_rule(alloc, value)
    }
}

impl Alike for LineRuleJson {
    type Item = LineRule;

    ghost Form = { PlainLineRule };

    ghost plain = { plain_line_rule };

    ghost same = { same_line_rule };

    fn is_like(item: &LineRule, other: &LineRule) -> bool {
        item.name == other.name
    }
}

// ---- all of them

// Asks that no two rules, if there are any, are of one name.
fn unlike_if_there(alloc: Global, rules: &Option<Vec<LineRule>>) -> Result<(), JsonRefusal>
    ensures { ReadsAs (λ unit. unit) result
        (under (codes "lines") (refused_if (repeats_a_rule (option_map (λ found. map plain_line_rule found.items)
        rules.now)) Repeated)) }
{
    match rules {
        Some(rules) => unlike_under::<LineRuleJson>(alloc, "lines", rules),
        None => Ok(()),
    }
}

#[tactic(auto, unfolding(crate::specs::Form::lines_in))]
fn read_lines(alloc: Global, value: &Value) -> Result<Option<Vec<LineRule>>, JsonRefusal>
    ensures gives { ReadsAs (option_map (λ found. map plain_line_rule found.items)) result (lines_in (view value.now)) }
    ensures size { IfOk result (λ there. IfSome there (λ found. length found.items ≤ MOST_RULES)) }
{
    let rules = list_if_there::<LineRuleJson>(alloc, value, "lines", 0, MOST_RULES)?;
    unlike_if_there(alloc, &rules)?;
    Ok(rules)
}

// ---- policies

fn take_out(members: &mut Map<String, Value>, key: &str)
    ensures { members_view members.new.entries ≡ without_member key.now (members_view members.old.entries) }
{
    members.remove(key);
}

// The value without the member at `lines`.
fn without_lines(value: Value) -> Value
    ensures { view result ≡ without (codes "lines") (view value) }
{
    match value {
        Value::Object(members) => {
            let mut members = members;
            take_out(&mut members, "lines");
            Value::Object(members)
        }
        other => other,
    }
}

// The policy of what it says to commands and of its rules of lines, with their table.
fn tabled(
    alloc: Global,
    commands: Policy,
    rules: Option<Vec<LineRule>>,
) -> Result<PlantPolicy, JsonRefusal>
    requires { ForSome rules (λ found. length found.items ≤ MOST_RULES) }
    ensures { ReadsAs plain_plant_policy result (Ok (record {
      commands = plain_policy commands;
      lines = option_map (λ found. map plain_line_rule found.items) rules;
    })) }
{
    let lines = match rules {
        Some(rules) => {
            let table = LineTable::new(alloc, &commands.groups, &rules)?;
            Some(LineRules { rules, table })
        }
        None => None,
    };
    Ok(PlantPolicy { commands, lines })
}

#[tactic(auto, unfolding(crate::specs::Form::plant_policy_in))]
fn read_value(alloc: Global, value: Value) -> Result<PlantPolicy, JsonRefusal>
    ensures { ReadsAs plain_plant_policy result (plant_policy_in (view value)) }
{
    let lines = read_lines(alloc, &value);
    let commands = policy_from(alloc, &without_lines(value))?;
    tabled(alloc, commands, lines?)
}

/// The policy of a plant that a line says, one JSON object (RFC 8259) without its line feed; else the line's first
/// fault in reading order, with its path: those of a policy of the job guard that the line without its key `lines` has,
/// then those of `lines`, and last that two rules of lines are of one name.
#[tactic(auto, unfolding(crate::specs::Form::plant_policy_on))]
pub fn read_plant_policy(alloc: Global, line: &[u8]) -> Result<PlantPolicy, JsonRefusal>
    ensures { ReadsAs plain_plant_policy result (plant_policy_on line.now) }
{
    let value = parse(alloc, line)?;
    read_value(alloc, value)
}
