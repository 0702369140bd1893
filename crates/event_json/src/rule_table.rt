//! The table of the rules: the number, the name and the fields of each.
ghost use Rattle.std.specs.Prelude.{◌≡◌, ◌≤◌, length, true};
ghost use Rattle.event_json.specs.FieldRanges.{are_in_range};
ghost use Rattle.event_json.specs.Fields.{fields_of};
ghost use Rattle.event_json.specs.RuleTable.{row, plain_row, rule_row};

use crate::fields::Fields;
use pol_events::Rule;

/// What an answer says of a refusal by a rule.
#[derive(Drop)]
pub struct RuleRow<'a> {
    /// The rule's number, from 1 to 40.
    pub number: u32,
    /// The rule's name.
    pub name: &'static str,
    /// The rule's fields.
    pub fields: Fields<'a>,
}

fn row<'a>(number: u32, name: &'static str, fields: Fields<'a>) -> RuleRow<'a>
    ensures { plain_row result ≡ row number name.now (fields_of fields.entry) }
{
    RuleRow {
        number,
        name,
        fields,
    }
}

/// The rule's row in the table.
pub fn rule_row(rule: &Rule) -> RuleRow<'_>
    ensures row { plain_row result ≡ rule_row rule.now }
    ensures few { length (rule_row rule.now).fields ≤ 3 }
    ensures held { are_in_range (rule_row rule.now).fields ≡ true }
{
    let none = Fields::none();
    match rule {
        Rule::TagTaken => row(1, "TagTaken", none),
        Rule::NoModule { tag } => row(2, "NoModule", none.name("tag", tag)),
        Rule::PlantFull => row(3, "PlantFull", none),
        Rule::Held { batch } => row(4, "Held", none.name("batch", batch)),
        Rule::InExchange { tag, ticket } => row(
            5,
            "InExchange",
            none.name("tag", tag).number("ticket", *ticket),
        ),
        Rule::NotInExchange => row(6, "NotInExchange", none),
        Rule::WrongTicket { kept, given } => row(
            7,
            "WrongTicket",
            none.number("kept", *kept).number("given", *given),
        ),
        Rule::NoService => row(8, "NoService", none),
        Rule::NotAnEdge { from, to } => {
            row(9, "NotAnEdge", none.state("from", *from).state("to", *to))
        }
        Rule::NoVariable => row(10, "NoVariable", none),
        Rule::WrongKind => row(11, "WrongKind", none),
        Rule::RecipeKnown => row(12, "RecipeKnown", none),
        Rule::NoRecipe => row(13, "NoRecipe", none),
        Rule::BatchKnown => row(14, "BatchKnown", none),
        Rule::NoBatch => row(15, "NoBatch", none),
        Rule::BatchClosed => row(16, "BatchClosed", none),
        Rule::RoleUnbound { role } => row(17, "RoleUnbound", none.name("role", role)),
        Rule::RoleUnknown { role } => row(18, "RoleUnknown", none.name("role", role)),
        Rule::OneModuleTwice { tag } => row(19, "OneModuleTwice", none.name("tag", tag)),
        Rule::WrongType { role } => row(20, "WrongType", none.name("role", role)),
        Rule::WrongVersion { role } => row(21, "WrongVersion", none.name("role", role)),
        Rule::NotCovered { missing } => row(22, "NotCovered", none.name("missing", missing)),
        Rule::NotReported { tag, name } => {
            row(23, "NotReported", none.name("tag", tag).name("name", name))
        }
        Rule::NotIdle {
            tag,
            service,
            state,
        } => row(
            24,
            "NotIdle",
            none.name("tag", tag)
                .name("service", service)
                .state("state", *state),
        ),
        Rule::Busy { tag, batch } => row(25, "Busy", none.name("tag", tag).name("batch", batch)),
        Rule::BatchesFull => row(26, "BatchesFull", none),
        Rule::NotAtRest { service, state } => row(
            27,
            "NotAtRest",
            none.name("service", service).state("state", *state),
        ),
        Rule::ActiveStep { batch, step } => {
            row(
                28,
                "ActiveStep",
                none.name("batch", batch).name("step", step),
            )
        }
        Rule::HeldBack { batch, missing } => row(
            29,
            "HeldBack",
            none.name("batch", batch).name("missing", missing),
        ),
        Rule::ModeForbids => row(30, "ModeForbids", none),
        Rule::StateForbids => row(31, "StateForbids", none),
        Rule::NotEnabled => row(32, "NotEnabled", none),
        Rule::OutOfRange => row(33, "OutOfRange", none),
        Rule::NotFrozen => row(34, "NotFrozen", none),
        Rule::AlreadyFrozen => row(35, "AlreadyFrozen", none),
        Rule::SelfCompletes => row(36, "SelfCompletes", none),
        Rule::RecipesFull => row(37, "RecipesFull", none),
        Rule::HistoryFull => row(38, "HistoryFull", none),
        Rule::Watched { batch } => row(39, "Watched", none.name("batch", batch)),
        Rule::WatchedStep { role } => row(40, "WatchedStep", none.name("role", role)),
    }
}
