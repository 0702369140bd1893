//! The plant, seen as its entries and the room for more.
ghost use Rattle.std.specs.Prelude.{◌≡◌, ◌≢◌, ℕ, ◌<◌, ◌≤◌, ◌+◌, ◌++◌, ◌∷◌, [], drop, filter, length, map, option_copied};
ghost use Rattle.std.specs.Prelude.{slice_get, Some, IfNone, IfSome, IfOk, IfErr, IsOk, IsTrue, OnOk, OnErr, vec_len};
ghost use Rattle.std.specs.Prelude.{is_some, option_map, vec_capacity};
ghost use Rattle.mtp_desc.specs.PlainDescription.{plain_description};
ghost use Rattle.pol_events.specs.Events.{plain_entry, plain_event, plain_history, exchange_begin, exchange_end};
ghost use Rattle.pol_events.specs.Events.{start};
ghost use Rattle.pol_events.specs.Orderly.{is_orderly};
ghost use Rattle.pol_history.specs.Answers.{answer_of};
ghost use Rattle.pol_history.specs.Batches.{batches, chart_named, holder_of, is_start, start_of, watchers_of};
ghost use Rattle.pol_history.specs.Looking.{past, recipes};
ghost use Rattle.pol_history.specs.Modules.{absent, description_of, docking_of, present_tags, value_by, view_of};
ghost use Rattle.pol_history.specs.Runs.{entry_of, recorded, IsLegal, IsOrderly};
ghost use Rattle.pol_core.specs.Calls.{module_sight, module_value, open_next, plain_docking, plain_started, refusal};
ghost use Rattle.pol_core.specs.Calls.{refused_first, settings_of, standing_of, ticket_answer};
ghost use Rattle.pol_core.specs.Commands.{next_sent};
ghost use Rattle.pol_core.specs.Plants.{is_spared, plant_history};
ghost use Rattle.pol_core.specs.Recipes.{names_in};
ghost use Rattle.pol_core.specs.Steps.{active_of, waits_of};
ghost use Rattle.pol_table.specs.ByteOrder.{in_byte_order};

use crate::answering::answer_event;
use crate::commands::{self, Sent};
use crate::docking::Docking;
use crate::exchanges::{begin_rule, begin_ticket, end_rule};
use crate::recipes::{knows_recipe, recipe_at, recipe_count};
use crate::standing::{Standing, batch_standing};
use crate::started::{Started, batch_at, batch_count, batch_start};
use crate::starting::start_rule;
use crate::steps::{ActiveStep, active_steps, waiting_nodes};
use crate::{batches, modules};
use chart_core::{Chart, Next};
use chart_cursor::{Sight, WaitingNode};
use indexmap::IndexMap;
use mtp_codes::{LONGEST_HISTORY, Name, Setting, Value};
use mtp_desc::Description;
use pol_events::{Allocation, Answer, Bind, Entry, Event, Rule};
use pol_runs::Run;
use pol_slots::Slot;
use pol_table::Table;
use std::alloc::{AllocError, Global};
use std::marker::Model;
use std::sync::Arc;

/// A plant: the history of all events with their answers, and tables of the state that they lead to.
#[derive(Drop)]
pub struct Plant {
    alloc: Global,
    history: Vec<Entry>,
    modules: Table<Slot>,
    runs: IndexMap<Name, Run>,
    recipes: IndexMap<Name, Arc<Chart>>,
}

impl Model for Plant {
    ghost use Rattle.std.specs.Prelude.{◌-◌, vec_len, vec_capacity};
    ghost use Rattle.std.specs.Coded.{codes};
    ghost use Rattle.pol_events.specs.Events.{plain_history};
    ghost use Rattle.pol_events.specs.contracts.event.Entry as entry_type;
    ghost use Rattle.pol_core.specs.Histories.{IsPlantHistory};
    ghost use Rattle.pol_core.specs.Mirrors.{Mirrors};
    ghost use Rattle.pol_core.specs.Plants.{PlainPlant};

    ghost Value = { PlainPlant };

    ghost coded = { Prim.hlevel (codes, entry_type.the_row.coded) };

    ghost view = { λ plant. record {
      entries = plant.history.items;
      spare = vec_capacity plant.history - vec_len plant.history;
    } };

    ghost invariant = { λ plant. IsPlantHistory (plain_history plant.history.items)
        × Mirrors plant.modules plant.runs.entries plant.recipes.entries (plain_history plant.history.items) };
}

// Puts an entry at the end of a history that has room for it.
#[inline(always)]
fn append(history: &mut Vec<Entry>, event: Event, answer: &Answer)
    requires { vec_len history.old < vec_capacity history.old }
    ensures items { history.new.items ≡ history.old.items ++ record { event = event; answer = answer.now } ∷ [] }
    ensures room { vec_capacity history.old ≤ vec_capacity history.new }
{
    history.push_reserved(Entry {
        event,
        answer: *answer,
    });
}

// Ok, unless a rule refuses, or the history is full.
fn unless_refused(history: &[Entry], rule: Option<Rule>) -> Result<(), Rule>
    ensures { result ≡ refused_first (length history.now) rule }
{
    if history.len() >= LONGEST_HISTORY {
        return Err(Rule::HistoryFull);
    }
    match rule {
        Some(rule) => Err(rule),
        None => Ok(()),
    }
}

impl Plant {
    /// A plant in which nothing happened yet. Takes no memory.
    pub fn new(alloc: Global) -> Plant
        ensures { result.entries ≡ [] }
    {
        Plant {
            alloc,
            history: Vec::new(alloc),
            modules: Table::new(alloc),
            runs: IndexMap::new(alloc),
            recipes: IndexMap::new(alloc),
        }
    }

    /// Makes room for that many more entries: `spare` is at least that number afterwards.
    ///
    /// # Errors
    ///
    /// AllocError where there is no memory; then `spare` isn't lower than before.
    pub fn reserve(&mut self, more: u32) -> Result<(), AllocError>
        ensures entries { self.new.entries ≡ self.old.entries }
        ensures ok { OnOk result (more ≤ self.new.spare) }
        ensures err { OnErr result (self.old.spare ≤ self.new.spare) }
    {
        self.history.reserve(more as usize)
    }

    /// Answers an event as `pol_history` defines it, and appends the event with its answer to the history. HistoryFull,
    /// where the history has 200,000 entries, is the one answer that isn't appended.
    ///
    /// The chart of a recipe is valid, and the binds of a start and its watches are at most 64 each, rise by role, and
    /// name no role twice, as those of every line do.
    /// Where `spare` is above 0, all kinds of events but Plug, Recipe, Start and ExchangeEnd take no memory, and lower
    /// `spare` by at most 1.
    ///
    /// # Errors
    ///
    /// Where there is no memory the event is handed back with AllocError, the plant is as it was, and `spare` isn't
    /// lower.
    pub fn apply(&mut self, event: Event) -> Result<Answer, (Event, AllocError)>
        requires orderly { IsTrue (is_orderly (plain_event event)) }
        ensures answer { IfOk result (λ answer. answer ≡ answer_of (plant_history self.old) (plain_event event)) }
        ensures history { OnOk result (plant_history self.new
            ≡ recorded (entry_of (plant_history self.old) (plain_event event)) (plant_history self.old)) }
        ensures unchanged { IfErr result (λ back. (self.new.entries ≡ self.old.entries) × (back.0 ≡ event)) }
        ensures room { OnErr result (self.old.spare ≤ self.new.spare) }
        ensures spared { IsTrue (is_spared (plain_event event)) → 0 < self.old.spare → IsOk result }
        ensures spends { IsTrue (is_spared (plain_event event)) → self.old.spare ≤ self.new.spare + 1 }
    {
        if self.history.len() >= LONGEST_HISTORY {
            return Ok(Answer::Refused(Rule::HistoryFull));
        }
        if let Err(error) = self.history.reserve(1) {
            return Err((event, error));
        }
        let answer = match answer_event(
            self.alloc,
            &mut self.modules,
            &mut self.runs,
            &mut self.recipes,
            &event,
        ) {
            Ok(answer) => answer,
            Err(error) => return Err((event, error)),
        };
        append(&mut self.history, event, &answer);
        Ok(answer)
    }

    /// What an advance of the batch would answer while the history isn't full; None exactly where the batch isn't
    /// started or is closed. Takes no memory.
    pub fn would(&self, batch: Name) -> Option<Next>
        ensures { result ≡ open_next (plant_history self.now) batch }
    {
        batches::would(&self.modules, &self.runs, batch)
    }

    /// The rule that a start would be refused by. Takes no memory.
    pub fn would_start(
        &self,
        batch: Name,
        recipe: Name,
        binds: &[Bind],
        watches: &[Bind],
    ) -> Result<(), Rule>
        ensures { (at : ℕ) → result ≡ refusal (answer_of (plant_history self.now)
            (start at batch recipe (record { held = binds.now; watched = watches.now }))) }
    {
        let rule = start_rule(
            &self.modules,
            &self.runs,
            &self.recipes,
            batch,
            recipe,
            Allocation {
                held: binds,
                watched: watches,
            },
        );
        unless_refused(&self.history, rule)
    }

    /// The rule that the begin of an exchange would be refused by. Takes no memory.
    pub fn would_begin(&self, tag: Name) -> Result<(), Rule>
        ensures { (at : ℕ) → result ≡ refusal (answer_of (plant_history self.now) (exchange_begin at tag)) }
    {
        unless_refused(&self.history, begin_rule(&self.modules, &self.runs, tag))
    }

    /// The ticket that the begin of an exchange would be answered with.
    ///
    /// # Errors
    ///
    /// The rule that it would be refused by.
    pub fn would_get_ticket(&self, tag: Name) -> Result<u32, Rule>
        ensures { (at : ℕ) → ticket_answer result ≡ answer_of (plant_history self.now) (exchange_begin at tag) }
    {
        if self.history.len() >= LONGEST_HISTORY {
            return Err(Rule::HistoryFull);
        }
        begin_ticket(&self.modules, &self.runs, tag)
    }

    /// The rule that the end of an exchange would be refused by. Takes no memory.
    pub fn would_end(&self, tag: Name, ticket: u32, desc: &Description) -> Result<(), Rule>
        ensures { (at : ℕ) → result ≡ refusal (answer_of (plant_history self.now)
            (exchange_end at tag ticket (plain_description desc.now))) }
    {
        let rule = end_rule(&self.modules, &self.runs, tag, ticket, desc);
        unless_refused(&self.history, rule)
    }

    /// The first command to the module in the history from a place on, with the place after it; or None with the
    /// history's length. Places are counted from 0. Looks at no entry before the place, and takes no memory.
    pub fn next_command(&self, tag: Name, place: u32) -> (Option<Sent>, u32)
        requires { place ≤ length self.now.entries }
        ensures { result ≡ next_sent tag place (map plain_entry (drop place self.now.entries)) }
    {
        commands::next_command(&self.history, tag, place)
    }

    /// The settings of a step of the batch; None exactly where the batch isn't started or its chart lacks the step.
    pub fn settings(&self, batch: Name, step: Name) -> Option<&[Setting]>
        ensures { option_copied result ≡ settings_of (plant_history self.now) batch step }
    {
        batches::settings(&self.runs, batch, step)
    }

    /// The tag at this place, from 0, among those that are docked or away, in byte order; None from their number on.
    /// Takes no memory; compares each tag with each.
    pub fn tag_at(&self, place: u32) -> Option<Name>
        ensures { result ≡ slice_get (in_byte_order (present_tags (plant_history self.now))) place }
    {
        modules::tag_at(&self.modules, place)
    }

    /// How many modules are docked or away: at most 64.
    pub fn module_count(&self) -> u32
        ensures { result ≡ length (present_tags (plant_history self.now)) }
    {
        modules::module_count(&self.modules)
    }

    /// The tags that are docked or away, in byte order, at once.
    ///
    /// # Errors
    ///
    /// AllocError where there is no memory for them.
    pub fn tags(&self, alloc: Global) -> Result<Vec<Name>, AllocError>
        ensures { IfOk result (λ tags. tags.items ≡ in_byte_order (present_tags (plant_history self.now))) }
    {
        modules::tags(alloc, &self.modules)
    }

    /// Whether the tag is docked: if so, how often it was since the last plug, that plug included; or away, with its
    /// ticket.
    pub fn docking(&self, tag: Name) -> Docking
        ensures { plain_docking result ≡ docking_of (plant_history self.now) tag }
    {
        modules::docking(&self.modules, tag)
    }

    /// The description of the module, docked or away; None exactly where no module has the tag.
    pub fn description(&self, tag: Name) -> Option<&Arc<Description>>
        ensures known { IfSome result (λ description.
            description_of (plant_history self.now) tag ≡ Some (plain_description description.now.value)) }
        ensures there { IfSome result (λ _. docking_of (plant_history self.now) tag ≢ absent) }
        ensures none { IfNone result (docking_of (plant_history self.now) tag ≡ absent) }
    {
        modules::description(&self.modules, tag)
    }

    /// What is seen of a service of the module: Away where the tag isn't docked.
    pub fn view(&self, tag: Name, service: Name) -> Sight
        ensures { result ≡ module_sight (docking_of (plant_history self.now) tag)
            (view_of (plant_history self.now) tag service) }
    {
        modules::view(&self.modules, tag, service)
    }

    /// The batch that holds the module: that of the last accepted start that binds it, where that batch isn't closed.
    pub fn holder(&self, tag: Name) -> Option<Name>
        ensures { result ≡ holder_of (plant_history self.now) tag }
    {
        modules::holder(&self.modules, tag)
    }

    /// The batch that watches the module, at this place, from 0, in the order in which they began to watch; None from
    /// their number on.
    pub fn watcher(&self, tag: Name, place: u32) -> Option<Name>
        ensures { result ≡ slice_get (watchers_of (plant_history self.now) tag) place }
    {
        modules::watcher(&self.modules, tag, place)
    }

    /// The value that the variable was reported with last since its module was docked; None where it wasn't.
    pub fn value(&self, tag: Name, variable: Name) -> Option<Value>
        ensures { result ≡ module_value (docking_of (plant_history self.now) tag)
            (value_by variable (past tag (plant_history self.now))) }
    {
        modules::value(&self.modules, tag, variable)
    }

    /// Whether a recipe of this name is known.
    pub fn knows_recipe(&self, recipe: Name) -> bool
        ensures { result ≡ is_some (chart_named recipe (recipes (plant_history self.now))) }
    {
        knows_recipe(&self.recipes, recipe)
    }

    /// How many recipes are known: at most 64.
    pub fn recipe_count(&self) -> usize
        ensures { result ≡ length (recipes (plant_history self.now)) }
    {
        recipe_count(&self.recipes)
    }

    /// The name of the recipe at this place, from 0, in the order in which they were made known; None from their number
    /// on.
    pub fn recipe_at(&self, place: u32) -> Option<Name>
        ensures { result ≡ slice_get (names_in (recipes (plant_history self.now))) place }
    {
        recipe_at(&self.recipes, place)
    }

    /// The batch at this place, from 0, in the order of their starts; None from their number on.
    pub fn batch_at(&self, place: u32) -> Option<Name>
        ensures { result ≡ slice_get (batches (plant_history self.now)) place }
    {
        batch_at(&self.runs, place)
    }

    /// How many batches were started: at most 128.
    pub fn batch_count(&self) -> usize
        ensures { result ≡ length (filter is_start (plant_history self.now)) }
    {
        batch_count(&self.runs)
    }

    /// The active steps of a batch in chart order; none where it wasn't started.
    ///
    /// # Errors
    ///
    /// AllocError where there is no memory for them.
    pub fn active_steps(&self, alloc: Global, batch: Name) -> Result<Vec<ActiveStep>, AllocError>
        ensures { IfOk result (λ steps. steps.items ≡ active_of (plant_history self.now) batch) }
    {
        active_steps(alloc, &self.runs, batch)
    }

    /// The awaited nodes of a batch that aren't ready, each with what stands in its way, in chart order; none where the
    /// batch wasn't started, broke, or is to be stopped.
    ///
    /// # Errors
    ///
    /// AllocError where there is no memory for them.
    pub fn waiting_nodes(&self, alloc: Global, batch: Name) -> Result<Vec<WaitingNode>, AllocError>
        ensures { IfOk result (λ nodes. nodes.items ≡ waits_of (plant_history self.now) batch) }
    {
        waiting_nodes(alloc, &self.modules, &self.runs, batch)
    }

    /// How a batch stands; None exactly where it wasn't started.
    pub fn standing(&self, batch: Name) -> Option<Standing>
        ensures { result ≡ standing_of (plant_history self.now) batch }
    {
        batch_standing(&self.runs, batch)
    }

    /// What a batch was started with; None exactly where it wasn't started.
    pub fn started(&self, batch: Name) -> Option<Started<'_>>
        ensures { option_map plain_started result ≡ start_of (plant_history self.now) batch }
    {
        batch_start(&self.runs, batch)
    }

    /// The entries of the history, the oldest first.
    pub fn history(&self) -> &[Entry]
        ensures entries { result.now ≡ self.now.entries }
        ensures legal { IsLegal (plant_history self.now) }
        ensures orderly { IsOrderly (plant_history self.now) }
    {
        &self.history
    }

    /// The entries of the history, the oldest first, once the plant is done with.
    pub fn into_history(self) -> Vec<Entry>
        ensures entries { result.items ≡ self.entries }
        ensures legal { IsLegal (plant_history self) }
        ensures orderly { IsOrderly (plant_history self) }
    {
        self.history
    }
}
