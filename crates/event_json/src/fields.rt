//! Fields: keys and values of which the text of a rule, a log entry or an obstacle is made.
ghost use Rattle.std.specs.Prelude.{◌≡◌, ◌+◌, ◌<◌, ◌≤◌, ◌++◌, ◌∷◌, [], length, map, true};
ghost use Rattle.std.specs.List.{list_all, position, position_or_len};
ghost use Rattle.mtp_codes.specs.Codes.{state_number};
ghost use Rattle.mtp_codes.specs.Names.{is_name};
ghost use Rattle.event_json.specs.FieldRanges.{is_reading_in_range};
ghost use Rattle.event_json.specs.declared.fields.TheConstants.{MOST_FIELDS};
ghost use Rattle.event_json.specs.Fields.{plain_field, fields_of, in_order, placed, stands_before, number_field};
ghost use Rattle.event_json.specs.Fields.{readings_field, text_field};

use arrayvec::ArrayVec;
use mtp_codes::{Name, Reading, State};

/// The most fields that a rule, a log entry or an obstacle has.
pub const MOST_FIELDS: usize = 5;

/// The value of a field.
#[derive(Clone, Copy)]
pub enum FieldValue<'a> {
    /// A name, or a word of the format.
    Text(&'a str),
    /// A whole number, or the code of a state or a command.
    Number(u32),
    /// The readings by which a node decided.
    Readings(&'a [Reading]),
}

/// A value under its key.
#[derive(Clone, Copy)]
pub struct Field<'a> {
    pub key: &'static str,
    pub value: FieldValue<'a>,
}

impl Default for Field<'_> {
    // What is in a place that holds no field yet.
    fn default() -> Self {
        Field {
            key: "",
            value: FieldValue::Number(0),
        }
    }
}

/// A few fields, at most as many as `MOST_FIELDS`.
#[derive(Drop)]
pub struct Fields<'a> {
    items: ArrayVec<Field<'a>, MOST_FIELDS>,
}

// The place of the first field whose key is greater.
fn first_greater(fields: &[Field<'_>], key: &str) -> Option<usize>
    ensures { result ≡ position (λ other. stands_before key.now (plain_field other)) fields.now }
{
    fields.iter().position(|other| key < other.key)
}

// The place of a key among fields in byte order of their keys: before the first whose key is greater.
#[tactic(auto, using(crate::proofs::Places::seen_place, crate::proofs::Places::place_within))]
fn place_of(fields: &[Field<'_>], key: &str) -> usize
    ensures place { result ≡ position_or_len (stands_before key.now) (map plain_field fields.now) }
    ensures within { result ≤ length fields.now }
{
    first_greater(fields, key).unwrap_or(fields.len())
}

fn read_one(reading: Reading)
    ensures { is_reading_in_range reading ≡ true }
{
    match reading {
        Reading::Whole(_) | Reading::Bit(_) => {}
    }
}

// A whole number has 64 bits once it was read.
fn read_each(readings: &[Reading])
    ensures { list_all is_reading_in_range readings.now ≡ true }
{
    for reading in readings {
        read_one(*reading);
    }
}

impl<'a> Fields<'a> {
    /// No field.
    pub fn none() -> Fields<'a>
        ensures fields { fields_of result ≡ [] }
        ensures count { length (fields_of result) ≡ 0 }
    {
        Fields {
            items: ArrayVec::new(),
        }
    }

    fn with(self, key: &'static str, value: FieldValue<'a>) -> Fields<'a>
        requires { length (fields_of self) < MOST_FIELDS }
        ensures fields { fields_of result ≡ fields_of self.entry
            ++ plain_field (record { key = key.entry; value = value.entry }) ∷ [] }
        ensures count { length (fields_of result) ≡ length (fields_of self.entry) + 1 }
    {
        let mut items = self.items;
        items.push(Field { key, value });
        Fields { items }
    }

    /// These fields with a text behind them.
    pub fn text(self, key: &'static str, text: &'a str) -> Fields<'a>
        requires { length (fields_of self) < MOST_FIELDS }
        ensures fields { fields_of result ≡ fields_of self.entry ++ text_field key.now text.now ∷ [] }
        ensures count { length (fields_of result) ≡ length (fields_of self.entry) + 1 }
    {
        self.with(key, FieldValue::Text(text))
    }

    /// These fields with a name behind them.
    pub fn name(self, key: &'static str, name: &'a Name) -> Fields<'a>
        requires { length (fields_of self) < MOST_FIELDS }
        ensures fields { fields_of result ≡ fields_of self.entry ++ text_field key.now name.now ∷ [] }
        ensures count { length (fields_of result) ≡ length (fields_of self.entry) + 1 }
        ensures named { is_name name.now ≡ true }
    {
        self.text(key, name.as_str())
    }

    /// These fields with a whole number behind them.
    pub fn number(self, key: &'static str, number: u32) -> Fields<'a>
        requires { length (fields_of self) < MOST_FIELDS }
        ensures fields { fields_of result ≡ fields_of self.entry ++ number_field key.now number ∷ [] }
        ensures count { length (fields_of result) ≡ length (fields_of self.entry) + 1 }
    {
        self.with(key, FieldValue::Number(number))
    }

    /// These fields with the code of a state behind them.
    pub fn state(self, key: &'static str, state: State) -> Fields<'a>
        requires { length (fields_of self) < MOST_FIELDS }
        ensures fields { fields_of result ≡ fields_of self.entry ++ number_field key.now (state_number state) ∷ [] }
        ensures count { length (fields_of result) ≡ length (fields_of self.entry) + 1 }
    {
        self.number(key, state.code())
    }

    /// These fields with readings behind them. Each is looked at, so that its width is known.
    pub fn readings(self, key: &'static str, readings: &'a [Reading]) -> Fields<'a>
        requires { length (fields_of self) < MOST_FIELDS }
        ensures fields { fields_of result ≡ fields_of self.entry ++ readings_field key.now readings.now ∷ [] }
        ensures count { length (fields_of result) ≡ length (fields_of self.entry) + 1 }
        ensures held { list_all is_reading_in_range readings.now ≡ true }
    {
        read_each(readings);
        self.with(key, FieldValue::Readings(readings))
    }

    #[tactic(auto, using(crate::proofs::Places::map_insert))]
    fn place(&mut self, field: Field<'a>)
        requires { length (fields_of self.old) < MOST_FIELDS }
        ensures fields { fields_of self.new ≡ placed (fields_of self.old) (plain_field field.entry) }
        ensures count { length (fields_of self.new) ≡ length (fields_of self.old) + 1 }
    {
        let place = place_of(self.items.as_slice(), field.key);
        self.items.insert(place, field);
    }

    /// The fields in byte order of their keys.
    pub fn in_order(&self) -> Fields<'a>
        ensures { fields_of result ≡ in_order (fields_of self.now) }
    {
        let mut sorted = Fields::none();
        for field in self.items.as_slice() {
            sorted.place(*field);
        }
        sorted
    }

    /// The fields.
    pub fn as_slice(&self) -> &[Field<'a>]
        ensures { map plain_field result.now ≡ fields_of self.now }
    {
        self.items.as_slice()
    }
}
