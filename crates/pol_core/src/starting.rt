//! A batch that is started: its modules are held, and its run is kept.
ghost use Rattle.std.specs.Prelude.{◌≡◌, ℕ, ◌+◌, length, List, None, Some, Ok, true, false, IfOk, IsSome, OnOk, OnErr};
ghost use Rattle.std.specs.Prelude.{◌<◌, ◌++◌, ◌∷◌, [], if◌then◌else◌};
ghost use Rattle.std.specs.List.{IsDistinct};
ghost use Rattle.std.specs.Map.{keys_of, lookup};
ghost use Rattle.std.specs.Str.{bytes_eq};
ghost use Rattle.mtp_codes.specs.Faults.{first_of};
ghost use Rattle.mtp_codes.specs.Names.{is_among};
ghost use Rattle.chart_core.specs.Charts.{plain_chart};
ghost use Rattle.chart_core.specs.Valid.{IsValid};
ghost use Rattle.pol_events.specs.Bound.{ArePaired, given, plain_allocation, tags_of};
ghost use Rattle.pol_events.specs.Events.{start};
ghost use Rattle.pol_events.specs.Orderly.{is_allocation};
ghost use Rattle.pol_history.specs.Answers.{is_full, rules};
ghost use Rattle.pol_history.specs.Looking.{History};
ghost use Rattle.indexmap.specs.IndexMap.{spare};
ghost use Rattle.pol_table.specs.Answers.{hold_answer};
ghost use Rattle.pol_table.specs.Rows.{look};
ghost use Rattle.pol_core.specs.Judging.{chart_rule};
ghost use Rattle.pol_core.specs.Mirrors.{Mirrors, Answers};
ghost use Rattle.pol_core.specs.Recipes.{AreValid};
ghost use Rattle.pol_core.specs.Starting.{Begins, Holds, IsNew, Watches};

use crate::binding::bind_rule;
use chart_core::Chart;
use indexmap::IndexMap;
use mtp_codes::{MOST_BATCHES, Name};
use pol_events::{Allocation, Answer, Bind, Rule};
use pol_runs::Run;
use pol_slots::Slot;
use pol_table::Table;
use std::alloc::{AllocError, Global};
use std::sync::Arc;

// The tags of the binds.
fn tags_of(alloc: Global, binds: &[Bind]) -> Result<Vec<Name>, AllocError>
    ensures { IfOk result (λ tags. tags.items ≡ tags_of binds.now) }
{
    let mut tags = Vec::new(alloc);
    for bind in binds {
        tags.push(bind.tag)?;
    }
    Ok(tags)
}

// The binds once more.
fn copied(alloc: Global, binds: &[Bind]) -> Result<Vec<Bind>, AllocError>
    ensures { IfOk result (λ all. all.items ≡ binds.now) }
{
    let mut all = Vec::new(alloc);
    for bind in binds {
        all.push(*bind)?;
    }
    Ok(all)
}

// All binds once more, those of the modules that are held before the others.
fn all_binds(alloc: Global, binds: Allocation<'_>) -> Result<Vec<Bind>, AllocError>
    ensures { IfOk result (λ all. all.items ≡ given (plain_allocation binds.entry)) }
{
    let mut all = copied(alloc, binds.held)?;
    for bind in binds.watched {
        all.push(*bind)?;
    }
    Ok(all)
}

// A run that has just begun.
fn prepare(
    alloc: Global,
    batch: Name,
    recipe: Name,
    chart: &Arc<Chart>,
    binds: Allocation<'_>,
) -> Result<Run, AllocError>
    requires valid { IsValid (plain_chart chart.now.value) }
    requires paired { ArePaired (given (plain_allocation binds)) }
    ensures { IfOk result (IsNew batch recipe (plain_chart chart.now.value) (plain_allocation binds.entry)) }
{
    let chart = chart.clone()?;
    let held = binds.held.len();
    let all = all_binds(alloc, binds)?;
    Run::of_recipe(alloc, batch, recipe, chart, all, held)
}

// Keeps the run of a batch, where the map has room for it.
fn enter(runs: &mut IndexMap<Name, Run>, batch: Name, run: Run)
    requires room { 0 < spare runs.old }
    requires new { lookup (bytes_eq batch) runs.old.entries ≡ None }
    ensures looks { (other : List ℕ) → lookup (bytes_eq other) runs.new.entries
        ≡ (if bytes_eq batch other then Some run else lookup (bytes_eq other) runs.old.entries) }
    ensures count { length runs.new.entries ≡ length runs.old.entries + 1 }
    ensures order { keys_of runs.new.entries ≡ keys_of runs.old.entries ++ batch ∷ [] }
{
    if runs.insert(batch, run).is_err() {
        unreachable!();
    }
}

// Lets the batch watch all of these tags, which are there and distinct. AllocError where there is no memory; then none.
fn watch(modules: &mut Table<Slot>, tags: &[Name], batch: Name) -> Result<(), AllocError>
    requires there { (tag : List ℕ) → is_among tags.now tag ≡ true → IsSome (look tag modules.old) }
    requires distinct { IsDistinct bytes_eq tags.now }
    ensures watches { OnOk result (Watches tags.now batch modules.old modules.new) }
    ensures count { length modules.new ≡ length modules.old }
    ensures unchanged { OnErr result (modules.new ≡ modules.old) }
    ensures holding { (held : List (List ℕ)) → hold_answer held modules.new ≡ hold_answer held modules.old }
{
    modules.watch_all(tags, batch)
}

// Lets the batch hold all of these tags, which are there and free.
fn hold(modules: &mut Table<Slot>, tags: &[Name], batch: Name)
    requires { hold_answer tags.now modules.old ≡ Ok tt }
    ensures holds { Holds tags.now batch modules.old modules.new }
    ensures count { length modules.new ≡ length modules.old }
{
    if modules.hold_all(tags, batch).is_err() {
        unreachable!();
    }
}

/// Starts a batch of this chart on these modules, which are there and free.
/// AllocError where there is no memory; then all is as it was.
fn begin(
    alloc: Global,
    modules: &mut Table<Slot>,
    runs: &mut IndexMap<Name, Run>,
    batch: Name,
    recipe: Name,
    chart: &Arc<Chart>,
    binds: Allocation<'_>,
) -> Result<(), AllocError>
    requires valid { IsValid (plain_chart chart.now.value) }
    requires paired { ArePaired (given (plain_allocation binds)) }
    requires there { (tag : List ℕ) → is_among (tags_of binds.watched.now) tag ≡ true → IsSome (look tag modules.old) }
    requires distinct { IsDistinct bytes_eq (tags_of binds.watched.now) }
    requires free { hold_answer (tags_of binds.held.now) modules.old ≡ Ok tt }
    requires new { lookup (bytes_eq batch) runs.old.entries ≡ None }
    ensures begun { OnOk result (Begins batch recipe (plain_chart chart.now.value) (plain_allocation binds.entry)
        modules.old modules.new runs.old.entries runs.new.entries) }
    ensures count { length modules.new ≡ length modules.old }
    ensures modules { OnErr result (modules.new ≡ modules.old) }
    ensures runs { OnErr result (runs.new.entries ≡ runs.old.entries) }
{
    let held = tags_of(alloc, binds.held)?;
    let watched = tags_of(alloc, binds.watched)?;
    let run = prepare(alloc, batch, recipe, chart, binds)?;
    runs.reserve(1)?;
    watch(modules, &watched, batch)?;
    hold(modules, &held, batch);
    enter(runs, batch, run);
    Ok(())
}

/// What the tables say against a start of a recipe with this chart. Takes no memory.
fn chart_rule(
    modules: &Table<Slot>,
    runs: &IndexMap<Name, Run>,
    batch: Name,
    chart: &Chart,
    binds: Allocation<'_>,
) -> Option<Rule>
    ensures { result ≡ chart_rule modules.now runs.now.entries batch (plain_allocation binds.entry)
        (plain_chart chart.now) }
{
    if runs.contains_key(&batch) {
        return Some(Rule::BatchKnown);
    }
    if let Some(rule) = bind_rule(modules, chart, binds) {
        return Some(rule);
    }
    if runs.len() >= MOST_BATCHES {
        return Some(Rule::BatchesFull);
    }
    None
}

/// The rule that a start would be refused by, while the history has room. Takes no memory.
pub fn start_rule(
    modules: &Table<Slot>,
    runs: &IndexMap<Name, Run>,
    recipes: &IndexMap<Name, Arc<Chart>>,
    batch: Name,
    name: Name,
    binds: Allocation<'_>,
) -> Option<Rule>
    ensures { (history : History) (at : ℕ) → Mirrors modules.now runs.now.entries recipes.now.entries history
        → result ≡ first_of (rules history (start at batch name (plain_allocation binds.entry))) }
{
    match recipes.get(&name) {
        None => Some(Rule::NoRecipe),
        Some(chart) => chart_rule(modules, runs, batch, chart, binds),
    }
}

/// A batch of a recipe is started. AllocError where there is no memory; then all is as it was.
pub fn start(
    alloc: Global,
    modules: &mut Table<Slot>,
    runs: &mut IndexMap<Name, Run>,
    recipes: &IndexMap<Name, Arc<Chart>>,
    batch: Name,
    name: Name,
    binds: Allocation<'_>,
) -> Result<Answer, AllocError>
    requires valid { AreValid recipes.now.entries }
    requires orderly { is_allocation (plain_allocation binds) ≡ true }
    ensures answered { IfOk result (λ answer. (history : History) (at : ℕ)
        → Mirrors modules.old runs.old.entries recipes.now.entries history → is_full history ≡ false
        → Answers history (start at batch name (plain_allocation binds.entry)) answer
        modules.new runs.new.entries recipes.now.entries) }
    ensures modules { OnErr result (modules.new ≡ modules.old) }
    ensures runs { OnErr result (runs.new.entries ≡ runs.old.entries) }
{
    let Some(chart) = recipes.get(&name) else {
        return Ok(Answer::Refused(Rule::NoRecipe));
    };
    if let Some(rule) = chart_rule(modules, runs, batch, chart, binds) {
        return Ok(Answer::Refused(rule));
    }
    begin(alloc, modules, runs, batch, name, chart, binds)?;
    Ok(Answer::Done)
}
