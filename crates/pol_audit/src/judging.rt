//! Judging a history: each of its answers against the one that the entries before it give.
ghost use Rattle.std.specs.Prelude.{◌≡◌, ◌≤◌, [], IfOk, Some, None, length, map, if◌then◌else◌};
ghost use Rattle.pol_events.specs.Events.{plain_entry, plain_event, plain_history};
ghost use Rattle.pol_history.specs.Answers.{answer_of};
ghost use Rattle.pol_history.specs.Runs.{IsOrderly};
ghost use Rattle.pol_entries.specs.Same.{same_answer};
ghost use Rattle.pol_audit.specs.Judging.{Judges, judged};
ghost use Rattle.pol_audit.specs.Placed.{IsPlaced};
ghost use Rattle.pol_audit.specs.declared.judging.TheConstants.{MOST_JUDGED};

use crate::answers::answered_by;
use crate::places::Places;
use pol_entries::same_answer;
use pol_events::{Answer, Entry};
use std::alloc::{AllocError, Global};

/// How many entries are judged at most.
pub const MOST_JUDGED: usize = 20_000;

/// What is found of a history.
#[derive(Clone, Copy, Debug, PartialEq, Eq)]
pub enum Judged {
    /// Each answer is the one that the entries before it give.
    Good,
    /// The answer of the entry at this place, counted from 0, isn't; it should be this one.
    Wrong { place: u32, says: Answer },
}

// The right answer to an entry behind these earlier ones, of which there is an index; None where its own is right.
fn wrong_answer<'a>(
    alloc: Global,
    earlier: &'a [Entry],
    places: &Places<'a>,
    entry: &Entry,
) -> Result<Option<Answer>, AllocError>
    requires { IsPlaced places.now (plain_history earlier.now) }
    ensures { IfOk result (λ wrong. wrong
        ≡ (if same_answer entry.now.answer
        (answer_of (plain_history earlier.now) (plain_event entry.now.event)) then None
        else Some (answer_of (plain_history earlier.now) (plain_event entry.now.event)))) }
{
    let says = answered_by(alloc, earlier, places, &entry.event)?;
    if same_answer(&entry.answer, &says) {
        Ok(None)
    } else {
        Ok(Some(says))
    }
}

// The first wrong answer of a history, by an index of no entry, which takes those that are right.
fn judge_each<'a>(
    alloc: Global,
    history: &'a [Entry],
    places: &mut Places<'a>,
) -> Result<Judged, AllocError>
    requires few { length history.now ≤ MOST_JUDGED }
    requires orderly { IsOrderly (plain_history history.now) }
    requires empty { IsPlaced places.old [] }
    ensures { IfOk result (λ found. found ≡ judged (map plain_entry history.now)) }
{
    for (place, entry) in history.iter().enumerate() {
        if let Some(says) = wrong_answer(alloc, &history[..place], places, entry)? {
            return Ok(Judged::Wrong {
                place: place as u32,
                says,
            });
        }
        places.add(alloc, entry)?;
    }
    Ok(Judged::Good)
}

fn first_wrong(alloc: Global, history: &[Entry]) -> Result<Judged, AllocError>
    requires few { length history.now ≤ MOST_JUDGED }
    requires orderly { IsOrderly (plain_history history.now) }
    ensures { IfOk result (λ found. found ≡ judged (map plain_entry history.now)) }
{
    let mut places = Box::new(alloc, Places::new(alloc))?;
    judge_each(alloc, history, &mut places)
}

/// Judges a history, the oldest entry first: it is good exactly where each answer is the one that the entries before it
/// give; else the first wrong answer is given by its place, with the right one.
///
/// The history has at most 20,000 entries; the charts of its events are valid, and the binds of each start are at most
/// 64 and rise by role, as those of every line do.
///
/// # Errors
///
/// AllocError where there is no memory.
#[tactic(auto, using(crate::proofs::Found::judges))]
pub fn judge(alloc: Global, history: &[Entry]) -> Result<Judged, AllocError>
    requires few { length history.now ≤ MOST_JUDGED }
    requires orderly { IsOrderly (plain_history history.now) }
    ensures value { IfOk result (λ found. found ≡ judged (map plain_entry history.now)) }
    ensures judges { IfOk result (λ found. Judges (map plain_entry history.now) found) }
{
    first_wrong(alloc, history)
}
