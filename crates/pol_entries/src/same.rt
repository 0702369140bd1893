//! Whether two answers are the same.
ghost use Rattle.std.specs.Prelude.{◌≡◌, map};
ghost use Rattle.std.specs.Bool.{Decides};
ghost use Rattle.event_json.specs.Fields.{plain_field, fields_of, plain_field_value};
ghost use Rattle.pol_entries.specs.Same.{same_answer, same_field, same_fields, same_reading, same_readings, same_value};

use event_json::{Field, FieldValue, Fields};
use mtp_codes::Reading;
use pol_events::Answer;
use pol_record::{entry_fields, obstacle_fields, outcome_name, refusal_fields};

fn same_reading(reading: Reading, other: Reading) -> bool
    ensures { result ≡ same_reading reading other }
{
    match (reading, other) {
        (Reading::Whole(number), Reading::Whole(other)) => number == other,
        (Reading::Bit(bit), Reading::Bit(other)) => bit == other,
        _ => false,
    }
}

fn same_readings(told: &[Reading], others: &[Reading]) -> bool
    ensures { result ≡ same_readings told.now others.now }
{
    let mut rest = others.iter();
    for reading in told {
        let Some(other) = rest.next() else {
            return false;
        };
        if !same_reading(*reading, *other) {
            return false;
        }
    }
    rest.next().is_none()
}

fn same_value(told: &FieldValue<'_>, other: &FieldValue<'_>) -> bool
    ensures { result ≡ same_value (plain_field_value told.now) (plain_field_value other.now) }
{
    match (told, other) {
        (FieldValue::Text(told), FieldValue::Text(other)) => *told == *other,
        (FieldValue::Number(told), FieldValue::Number(other)) => *told == *other,
        (FieldValue::Readings(told), FieldValue::Readings(other)) => same_readings(told, other),
        _ => false,
    }
}

fn same_field(field: &Field<'_>, other: &Field<'_>) -> bool
    ensures { result ≡ same_field (plain_field field.now) (plain_field other.now) }
{
    field.key == other.key && same_value(&field.value, &other.value)
}

fn same_lists(told: &[Field<'_>], others: &[Field<'_>]) -> bool
    ensures { result ≡ same_fields (map plain_field told.now) (map plain_field others.now) }
{
    let mut rest = others.iter();
    for field in told {
        let Some(other) = rest.next() else {
            return false;
        };
        if !same_field(field, other) {
            return false;
        }
    }
    rest.next().is_none()
}

fn same_fields(told: &Fields<'_>, others: &Fields<'_>) -> bool
    ensures { result ≡ same_fields (fields_of told.now) (fields_of others.now) }
{
    same_lists(told.as_slice(), others.as_slice())
}

fn same(answer: &Answer, other: &Answer) -> bool
    ensures { result ≡ same_answer answer.now other.now }
{
    match (answer, other) {
        (Answer::Done, Answer::Done) => true,
        (Answer::Ticket(ticket), Answer::Ticket(other)) => *ticket == *other,
        (Answer::Did(entry), Answer::Did(other)) => {
            same_fields(&entry_fields(entry), &entry_fields(other))
        }
        (Answer::Waiting(obstacle), Answer::Waiting(other)) => {
            same_fields(&obstacle_fields(obstacle), &obstacle_fields(other))
        }
        (Answer::Closed(outcome), Answer::Closed(other)) => {
            outcome_name(*outcome) == outcome_name(*other)
        }
        (Answer::Refused(rule), Answer::Refused(other)) => {
            same_fields(&refusal_fields(rule), &refusal_fields(other))
        }
        _ => false,
    }
}

/// Whether the two answers are the same.
#[tactic(auto, using(crate::proofs::Sameness::decides_by))]
pub fn same_answer(answer: &Answer, other: &Answer) -> bool
    ensures value { result ≡ same_answer answer.now other.now }
    ensures decides { Decides result (answer.now ≡ other.now) }
{
    same(answer, other)
}
