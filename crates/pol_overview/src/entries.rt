//! The entries of a history, as a line.
ghost use Rattle.std.specs.Prelude.{◌≡◌, ◌<◌, ◌≤◌, ◌+◌, ◌++◌, ℕ, List, drop, length, map, take, IsTrue, OnOk};
ghost use Rattle.std.specs.Option.{unwrap_or};
ghost use Rattle.serde_json.specs.Data.{string};
ghost use Rattle.serde_json.specs.Written.{comma_if, compact_text};
ghost use Rattle.pol_events.specs.Events.{plain_entry, plain_event, plain_history};
ghost use Rattle.pol_events.specs.Orderly.{is_orderly};
ghost use Rattle.pol_history.specs.Runs.{IsOrderly};
ghost use Rattle.pol_record.specs.Texts.{answer_data};
ghost use Rattle.pol_overview.specs.Entries.{NamedEntry, all_named, cut_of, entries_text, entry_data, person_text};
ghost use Rattle.pol_overview.specs.Entries.{text_between};

use json::Writer;
use mtp_codes::Name;
use pol_core::Plant;
use pol_events::{Answer, Entry};
use pol_record::{event_text, put_answer_line};
use std::alloc::{AllocError, Global};
use std::mem;

/// How many entries are shown at most where no number is given.
pub const MOST_TOLD: usize = 1_000;

// The fixed texts around the entries and between their parts.
const OPEN: &[u8] = b"{\"entries\":[";

const CLOSE: &[u8] = b"}\n";

const ANSWER: &[u8] = b"{\"answer\":";

const BY: &[u8] = b",\"by\":";

const EVENT: &[u8] = b",\"event\":";

// Puts the text of an answer behind what a buffer holds: its line without the line feed.
#[tactic(auto, using(crate::proofs::Texts::unended))]
fn put_answer(alloc: Global, out: &mut Vec<u8>, answer: &Answer) -> Result<(), AllocError>
    ensures { OnOk result (out.new.items ≡ out.old.items ++ compact_text (answer_data answer.now)) }
{
    put_answer_line(alloc, out, answer)?;
    out.pop();
    Ok(())
}

// Puts the text of a name behind what a buffer holds.
#[tactic(auto, using(crate::proofs::Texts::name_printed))]
fn put_name(alloc: Global, out: &mut Vec<u8>, name: Name) -> Result<(), AllocError>
    ensures { OnOk result (out.new.items ≡ out.old.items ++ compact_text (string name)) }
{
    let mut writer = Writer::new(mem::replace(out, Vec::new(alloc)));
    writer.string(name.as_str())?;
    *out = writer.into_inner();
    Ok(())
}

// Puts who asked behind what a buffer holds, where somebody was named.
#[tactic(auto, using(crate::proofs::Texts::person_pieces, crate::proofs::Texts::no_person))]
fn put_person(alloc: Global, out: &mut Vec<u8>, person: Option<Name>) -> Result<(), AllocError>
    ensures { OnOk result (out.new.items ≡ out.old.items ++ person_text person) }
{
    let Some(name) = person else {
        return Ok(());
    };
    out.extend_from_slice(BY)?;
    put_name(alloc, out, name)
}

// Puts the text of an entry, with who asked for its event, behind what a buffer holds.
#[tactic(auto, using(crate::proofs::Texts::told_pieces))]
fn put_told(
    alloc: Global,
    out: &mut Vec<u8>,
    entry: &Entry,
    person: Option<Name>,
) -> Result<(), AllocError>
    requires { IsTrue (is_orderly (plain_event entry.now.event)) }
    ensures { OnOk result (out.new.items
        ≡ out.old.items ++ compact_text (entry_data (record { entry = plain_entry entry.now; person = person }))) }
{
    let event = event_text(alloc, &entry.event)?;
    out.extend_from_slice(ANSWER)?;
    put_answer(alloc, out, &entry.answer)?;
    put_person(alloc, out, person)?;
    out.extend_from_slice(EVENT)?;
    out.extend_from_slice(&event)?;
    out.push(b'}')?;
    Ok(())
}

// Puts a comma behind what a buffer holds, where something comes before.
#[tactic(auto, using(crate::proofs::Texts::no_comma))]
fn put_comma(out: &mut Vec<u8>, later: bool) -> Result<(), AllocError>
    ensures { OnOk result (out.new.items ≡ out.old.items ++ comma_if later) }
{
    if later {
        out.push(b',')?;
    }
    Ok(())
}

// Puts the text of the entry at a place behind what a buffer holds, and a comma in front of it where it isn't the
// first.
fn put_at(
    alloc: Global,
    out: &mut Vec<u8>,
    entries: &[Entry],
    persons: &[Option<Name>],
    first: usize,
    place: usize,
) -> Result<(), AllocError>
    requires within { place < length entries.now }
    requires same { length persons.now ≡ length entries.now }
    requires orderly { IsOrderly (plain_history entries.now) }
    requires behind { first ≤ place }
    ensures { OnOk result ((end : ℕ) → place < end → out.new.items
        ++ text_between first (place + 1) end (all_named persons.now (map plain_entry entries.now))
        ≡ out.old.items ++ text_between first place end (all_named persons.now (map plain_entry entries.now))) }
{
    put_comma(out, first < place)?;
    put_told(alloc, out, &entries[place], persons[place])
}

// Puts the texts of the entries from a place up to another behind what a buffer holds, and the bracket that ends them.
fn put_between(
    alloc: Global,
    out: &mut Vec<u8>,
    entries: &[Entry],
    persons: &[Option<Name>],
    first: usize,
    end: usize,
) -> Result<(), AllocError>
    requires within { end ≤ length entries.now }
    requires same { length persons.now ≡ length entries.now }
    requires orderly { IsOrderly (plain_history entries.now) }
    requires behind { first ≤ end }
    ensures { OnOk result (out.new.items
        ≡ out.old.items ++ text_between first first end (all_named persons.now (map plain_entry entries.now))) }
{
    for place in first..end {
        put_at(alloc, out, entries, persons, first, place)?;
    }
    out.push(b']')?;
    Ok(())
}

// The place from which on entries are shown, of so many.
#[tactic(auto, using(crate::proofs::Cuts::dropped))]
fn first_of(count: usize, from: usize) -> usize
    ensures low { result ≤ count }
    ensures same { (entries : List NamedEntry) → length entries ≡ count → drop result entries ≡ drop from entries }
{
    if from < count { from } else { count }
}

// How many entries are shown, of so many.
#[tactic(auto, using(crate::proofs::Cuts::taken))]
fn few_of(count: usize, most: usize) -> usize
    ensures low { result ≤ count }
    ensures same { (entries : List NamedEntry) → length entries ≡ count → take result entries ≡ take most entries }
{
    if most < count { most } else { count }
}

fn most_of(most: Option<u32>) -> usize
    ensures { result ≡ unwrap_or most MOST_TOLD }
{
    match most {
        Some(most) => most as usize,
        None => MOST_TOLD,
    }
}

/// Puts the line of the entries of a plant from a place on, at most so many, behind what a buffer holds: each with its
/// answer, who asked for its event where somebody was named, and the event. Where no number is given they are at most
/// [`MOST_TOLD`]. The persons are those who asked for the events of the plant, in order. Where there is no memory, what
/// the buffer held is lost.
pub fn put_entries_line(
    alloc: Global,
    out: &mut Vec<u8>,
    plant: &Plant,
    persons: &[Option<Name>],
    from: u32,
    most: Option<u32>,
) -> Result<(), AllocError>
    requires { length persons.now ≡ length plant.now.entries }
    ensures { OnOk result (out.new.items ≡ out.old.items
        ++ entries_text (cut_of from most (all_named persons.now (map plain_entry plant.now.entries)))) }
{
    let entries = plant.history();
    let first = first_of(entries.len(), from as usize);
    let end = first + few_of(entries.len() - first, most_of(most));
    out.extend_from_slice(OPEN)?;
    put_between(alloc, out, entries, persons, first, end)?;
    out.extend_from_slice(CLOSE)?;
    Ok(())
}
