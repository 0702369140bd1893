//! How far each batch has come in its chart: a cursor goes along with each.
ghost use Rattle.std.specs.Prelude.{◌≡◌, ◌∷◌, ◌++◌, [], ℕ, List, IfOk, IfSome, OnOk, IsFalse, IsSome, None};
ghost use Rattle.std.specs.Prelude.{if◌then◌else◌};
ghost use Rattle.std.specs.List.{cons_option};
ghost use Rattle.std.specs.Map.{lookup};
ghost use Rattle.std.specs.Str.{bytes_eq};
ghost use Rattle.chart_core.specs.Charts.{plain_chart};
ghost use Rattle.chart_core.specs.Standing.{AreAfter};
ghost use Rattle.chart_core.specs.Valid.{IsValid};
ghost use Rattle.chart_core.specs.declared.entry.LogEntry.{LogEntry};
ghost use Rattle.chart_cursor.specs.Logs.{chart_entries};
ghost use Rattle.pol_events.specs.Events.{plain_entry, plain_event};
ghost use Rattle.pol_events.specs.Subjects.{accepted_batch};
ghost use Rattle.pol_history.specs.Batches.{charted, chart_named, taken};
ghost use Rattle.pol_history.specs.Looking.{History, is_accepted_recipe};
ghost use Rattle.pol_audit.specs.Followed.{AreFollowed, GoesAlong};
ghost use Rattle.pol_audit.specs.Listed.{is_this, items_under, listed};

use crate::batches::closing;
use crate::entries::is_of_recipe;
use crate::lists::Lists;
use crate::recipes::Recipes;
use chart_core::{Chart, LogEntry};
use chart_cursor::Cursor;
use indexmap::IndexMap;
use mtp_codes::Name;
use pol_events::{Answer, Entry, Event};
use std::alloc::{AllocError, Global};
use std::sync::Arc;

/// A cursor of the chart that went along these entries.
pub fn cursor_along(
    alloc: Global,
    chart: &Arc<Chart>,
    run: &[LogEntry],
) -> Result<Cursor, AllocError>
    requires { IsValid (plain_chart chart.now.value) }
    ensures chart { IfOk result (λ cursor. cursor.chart ≡ chart.now.value) }
    ensures along { IfOk result (λ cursor. AreAfter (plain_chart cursor.chart) cursor.marks run.now) }
{
    let mut cursor = Cursor::new(alloc, chart.clone()?)?;
    for entry in run {
        cursor.go_along(entry);
    }
    Ok(cursor)
}

// Whether the event brings a recipe of a name that is known.
fn is_known(event: &Event, recipes: &Recipes<'_>) -> bool
    ensures { IsFalse result → (name : List ℕ) → IsSome (charted name (plain_event event.now))
        → chart_named name (listed recipes.now.entries.items) ≡ None }
{
    match event {
        Event::Recipe { recipe, .. } => recipes.chart(*recipe).is_some(),
        _ => false,
    }
}

// The entry of the run of a chart that the answer says was taken.
fn run_entry(answer: &Answer) -> Option<LogEntry>
    ensures { cons_option result [] ≡ chart_entries (cons_option (taken answer.now) []) }
{
    match answer {
        Answer::Did(did) if did.is_of_chart() => Some(*did),
        _ => None,
    }
}

/// A batch that is followed: the name of its recipe, and the cursor that goes along its run.
#[derive(Drop)]
pub struct Followed {
    pub recipe: Name,
    pub cursor: Cursor,
}

/// The batches that are followed: each from its start until it is closed.
#[derive(Drop)]
pub struct Cursors {
    pub followed: IndexMap<Name, Followed>,
}

impl Cursors {
    /// No batch is followed.
    pub fn new(alloc: Global) -> Cursors
        ensures { (batch : List ℕ) → lookup (bytes_eq batch) result.followed.entries ≡ None }
    {
        Cursors {
            followed: IndexMap::new(alloc),
        }
    }

    /// The cursor of the batch, where it is followed by this recipe.
    pub fn of(&self, batch: Name, recipe: Name) -> Option<&Cursor>
        ensures { (recipes : History) (runs : List ℕ → List LogEntry)
            → AreFollowed self.now.followed.entries recipes runs
            → IfSome result (λ cursor. GoesAlong recipes recipe (runs batch) cursor.now) }
    {
        match self.followed.get(&batch) {
            Some(followed) if followed.recipe == recipe => Some(&followed.cursor),
            _ => None,
        }
    }

    fn put(&mut self, batch: Name, followed: Followed) -> Result<(), AllocError>
        ensures { OnOk result ((recipes : History) (runs : List ℕ → List LogEntry)
            → AreFollowed self.old.followed.entries recipes runs
            → GoesAlong recipes followed.recipe (runs batch) followed.cursor
            → AreFollowed self.new.followed.entries recipes runs) }
    {
        self.followed.insert(batch, followed)?;
        Ok(())
    }

    // The batch is no longer followed.
    fn leave(&mut self, batch: Name)
        ensures { (recipes : History) (runs : List ℕ → List LogEntry)
            → AreFollowed self.old.followed.entries recipes runs
            → AreFollowed self.new.followed.entries recipes runs }
    {
        let _left = self.followed.swap_remove(&batch);
    }

    // The batch's run goes on.
    fn go_along(&mut self, batch: Name, did: &LogEntry)
        ensures { (recipes : History) (before after : List ℕ → List LogEntry)
            → AreFollowed self.old.followed.entries recipes before
            → ((other : List ℕ) → after other ≡ before other ++ (if bytes_eq batch other then did.now ∷ [] else []))
            → AreFollowed self.new.followed.entries recipes after }
    {
        if let Some(followed) = self.followed.get_mut(&batch) {
            followed.cursor.go_along(did);
        }
    }

    // Follows the batch from now on, whose run so far is this one.
    fn follow(
        &mut self,
        alloc: Global,
        batch: Name,
        recipe: Name,
        run: &[LogEntry],
        recipes: &Recipes<'_>,
    ) -> Result<(), AllocError>
        ensures { OnOk result ((runs : List ℕ → List LogEntry) → runs batch ≡ run.now
            → AreFollowed self.old.followed.entries (listed recipes.now.entries.items) runs
            → AreFollowed self.new.followed.entries (listed recipes.now.entries.items) runs) }
    {
        let Some(chart) = recipes.chart(recipe) else {
            return Ok(());
        };
        let cursor = cursor_along(alloc, chart, run)?;
        self.put(batch, Followed { recipe, cursor })
    }

    /// Takes one more entry of the history behind these recipes. Where it is an accepted recipe of a known name, that
    /// name has another chart from now on, and no batch is followed any more.
    pub fn learn(&mut self, entry: &Entry, recipes: &Recipes<'_>)
        ensures { (runs : List ℕ → List LogEntry)
            → AreFollowed self.old.followed.entries (listed recipes.now.entries.items) runs
            → AreFollowed self.new.followed.entries
            (if is_accepted_recipe (plain_entry entry.now) then plain_entry entry.now ∷ listed recipes.now.entries.items
            else listed recipes.now.entries.items) runs }
    {
        if is_of_recipe(entry) && is_known(&entry.event, recipes) {
            self.followed.clear();
        }
    }

    /// Takes one more entry of the history, by which the run of its batch may go on.
    pub fn go_on(&mut self, entry: &Entry)
        ensures { (recipes : History) (before after : List ℕ → List LogEntry)
            → AreFollowed self.old.followed.entries recipes before
            → ((batch : List ℕ) → after batch ≡ before batch
            ++ (if is_this batch (accepted_batch (plain_entry entry.now))
            then chart_entries (cons_option (taken entry.now.answer) []) else []))
            → AreFollowed self.new.followed.entries recipes after }
    {
        if let Some(batch) = entry.accepted_batch() {
            if let Some(did) = run_entry(&entry.answer) {
                self.go_along(batch, &did);
            }
        }
    }

    /// Takes the newest entry of the history: where it closes a batch, that is no longer followed.
    pub fn end(&mut self, entry: &Entry)
        ensures { (recipes : History) (runs : List ℕ → List LogEntry)
            → AreFollowed self.old.followed.entries recipes runs
            → AreFollowed self.new.followed.entries recipes runs }
    {
        match (entry.accepted_batch(), closing(&entry.answer)) {
            (Some(batch), Some(_)) => self.leave(batch),
            _ => {}
        }
    }

    /// Takes the newest entry of the history with these runs and recipes: where it starts a batch, that is followed.
    pub fn begin(
        &mut self,
        alloc: Global,
        entry: &Entry,
        runs: &Lists<LogEntry>,
        recipes: &Recipes<'_>,
    ) -> Result<(), AllocError>
        ensures { OnOk result (AreFollowed self.old.followed.entries (listed recipes.now.entries.items)
            (items_under runs.now.named.entries)
            → AreFollowed self.new.followed.entries (listed recipes.now.entries.items)
            (items_under runs.now.named.entries)) }
    {
        match &entry.event {
            Event::Start { batch, recipe, .. } if entry.answer.is_accepted() => {
                self.follow(alloc, *batch, *recipe, runs.of(*batch), recipes)
            }
            _ => Ok(()),
        }
    }
}
