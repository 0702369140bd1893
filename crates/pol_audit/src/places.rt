//! An index of the entries of a history by what they concern, in which looking back is short.
ghost use Rattle.std.specs.Prelude.{◌≡◌, ◌∷◌, ◌++◌, ◌||◌, [], IfOk, OnOk, filter, is_some, true, if◌then◌else◌};
ghost use Rattle.std.specs.List.{cons_option};
ghost use Rattle.pol_events.specs.Events.{plain_entry, plain_event, plain_history};
ghost use Rattle.pol_events.specs.Subjects.{accepted_batch, accepted_tag};
ghost use Rattle.pol_events.specs.Orderly.{is_orderly};
ghost use Rattle.pol_history.specs.Looking.{History, is_accepted, is_accepted_recipe};
ghost use Rattle.pol_history.specs.Modules.{is_moving, present_after};
ghost use Rattle.pol_history.specs.Batches.{closing, freezing, held_step, is_freeze, is_start, starting, taken};
ghost use Rattle.pol_history.specs.Runs.{IsOrderly};
ghost use Rattle.chart_core.specs.Entries.{chart_entry};
ghost use Rattle.chart_cursor.specs.Logs.{chart_entries};
ghost use Rattle.pol_audit.specs.Halts.{is_halt};
ghost use Rattle.pol_audit.specs.Listed.{Grows};
ghost use Rattle.pol_audit.specs.Placed.{IsPlaced};
ghost use Rattle.pol_audit.specs.Told.{Tells, told_control, told_value};

use crate::batches::taken;
use crate::cursors::Cursors;
use crate::lists::Lists;
use crate::modules::{is_moving, tags_after};
use crate::recipes::Recipes;
use crate::standings::Standings;
use crate::told::Told;
use chart_core::LogEntry;
use mtp_assembly::ServiceControl;
use mtp_codes::{Name, Value};
use pol_events::{Answer, Entry, Event};
use std::alloc::{AllocError, Global};

// ---- what an entry is

fn told_control(event: &Event) -> Option<(Name, ServiceControl)>
    ensures { result ≡ told_control (plain_event event.now) }
{
    match event {
        Event::Report {
            service,
            control,
            ..
        } => Some((*service, *control)),
        _ => None,
    }
}

fn told_value(event: &Event) -> Option<(Name, Value)>
    ensures { result ≡ told_value (plain_event event.now) }
{
    match event {
        Event::Variable { name, value, .. } => Some((*name, *value)),
        _ => None,
    }
}

fn is_starting(event: &Event) -> bool
    ensures { result ≡ is_some (starting (plain_event event.now)) }
{
    matches!(event, Event::Start { .. })
}

fn is_closing(answer: &Answer) -> bool
    ensures { result ≡ is_some (closing answer.now) }
{
    matches!(answer, Answer::Closed(_))
}

fn is_freezing(event: &Event) -> bool
    ensures { result ≡ is_some (freezing (plain_event event.now)) }
{
    matches!(
        event,
        Event::Freeze { .. } | Event::Thaw { .. } | Event::StopBatch { .. }
    )
}

fn is_asking(entry: &Entry) -> bool
    ensures { result ≡ (is_freeze (plain_event entry.now.event) || is_some (held_step entry.now.answer)) }
{
    matches!(entry.event, Event::Freeze { .. })
        || matches!(entry.answer, Answer::Did(LogEntry::Hold { .. }))
}

fn is_start(entry: &Entry) -> bool
    ensures { result ≡ is_start (plain_entry entry.now) }
{
    is_starting(&entry.event) && entry.answer.is_accepted()
}

fn push_if<'a>(entries: &mut Vec<&'a Entry>, kept: bool, entry: &'a Entry) -> Result<(), AllocError>
    ensures { OnOk result (entries.new.items ≡ entries.old.items ++ (if kept then entry.entry ∷ [] else [])) }
{
    if kept {
        entries.push(entry)?;
    }
    Ok(())
}

fn is_halt(entry: &LogEntry) -> bool
    ensures { result ≡ is_halt entry.now }
{
    matches!(entry, LogEntry::Broke { .. } | LogEntry::StopAsked)
}

// ---- modules

/// The accepted entries that move each module, and what each service and each variable of it reported last since.
#[derive(Drop)]
pub struct ModulePlaces<'a> {
    pub moves: Lists<&'a Entry>,
    pub controls: Told<ServiceControl>,
    pub values: Told<Value>,
}

impl<'a> ModulePlaces<'a> {
    fn add_module(&mut self, alloc: Global, entry: &'a Entry) -> Result<(), AllocError>
        ensures moves { OnOk result (Grows self.old.moves.named.entries self.new.moves.named.entries
            (accepted_tag (plain_entry entry.now)) (is_moving (plain_event entry.now.event)) entry.entry) }
        ensures controls { OnOk result (Tells self.old.controls.tagged.entries self.new.controls.tagged.entries
            (accepted_tag (plain_entry entry.now)) (is_moving (plain_event entry.now.event))
            (told_control (plain_event entry.now.event))) }
        ensures values { OnOk result (Tells self.old.values.tagged.entries self.new.values.tagged.entries
            (accepted_tag (plain_entry entry.now)) (is_moving (plain_event entry.now.event))
            (told_value (plain_event entry.now.event))) }
    {
        let tag = entry.accepted_tag();
        let moves = is_moving(&entry.event);
        self.moves.add_if(alloc, &tag, moves, entry)?;
        self.controls
            .tell(alloc, &tag, moves, told_control(&entry.event))?;
        self.values
            .tell(alloc, &tag, moves, told_value(&entry.event))
    }
}

// ---- batches

/// The accepted entries of each batch: its starts, those that close it, its freezes, thaws and stops, and those that
/// freeze it or ask a step to hold.
#[derive(Drop)]
pub struct BatchPlaces<'a> {
    pub starts: Lists<&'a Entry>,
    pub closings: Lists<&'a Entry>,
    pub freezings: Lists<&'a Entry>,
    pub askings: Lists<&'a Entry>,
}

impl<'a> BatchPlaces<'a> {
    fn add_batch(&mut self, alloc: Global, entry: &'a Entry) -> Result<(), AllocError>
        ensures starts { OnOk result (Grows self.old.starts.named.entries self.new.starts.named.entries
            (accepted_batch (plain_entry entry.now)) (is_some (starting (plain_event entry.now.event))) entry.entry) }
        ensures closings { OnOk result (Grows self.old.closings.named.entries self.new.closings.named.entries
            (accepted_batch (plain_entry entry.now)) (is_some (closing entry.now.answer)) entry.entry) }
        ensures freezings { OnOk result (Grows self.old.freezings.named.entries self.new.freezings.named.entries
            (accepted_batch (plain_entry entry.now)) (is_some (freezing (plain_event entry.now.event))) entry.entry) }
        ensures askings { OnOk result (Grows self.old.askings.named.entries self.new.askings.named.entries
            (accepted_batch (plain_entry entry.now))
            (is_freeze (plain_event entry.now.event) || is_some (held_step entry.now.answer)) entry.entry) }
    {
        let batch = entry.accepted_batch();
        let starts = is_starting(&entry.event);
        let closes = is_closing(&entry.answer);
        let freezes = is_freezing(&entry.event);
        let asks = is_asking(entry);
        self.starts.add_if(alloc, &batch, starts, entry)?;
        self.closings.add_if(alloc, &batch, closes, entry)?;
        self.freezings.add_if(alloc, &batch, freezes, entry)?;
        self.askings.add_if(alloc, &batch, asks, entry)
    }
}

/// The log of each batch, those of its entries that are of the run of its chart, and those that have it stopped.
#[derive(Drop)]
pub struct Logs {
    pub logs: Lists<LogEntry>,
    pub runs: Lists<LogEntry>,
    pub halts: Lists<LogEntry>,
}

impl Logs {
    ghost use Rattle.std.specs.Prelude.{ℕ, List};
    ghost use Rattle.pol_audit.specs.Listed.{is_this, items_under};

    fn add_log(&mut self, alloc: Global, entry: &Entry) -> Result<(), AllocError>
        ensures logs { OnOk result ((batch : List ℕ) → items_under self.new.logs.named.entries batch
            ≡ items_under self.old.logs.named.entries batch
            ++ (if is_this batch (accepted_batch (plain_entry entry.now))
            then cons_option (taken entry.now.answer) [] else [])) }
        ensures runs { OnOk result ((batch : List ℕ) → items_under self.new.runs.named.entries batch
            ≡ items_under self.old.runs.named.entries batch
            ++ (if is_this batch (accepted_batch (plain_entry entry.now))
            then chart_entries (cons_option (taken entry.now.answer) []) else [])) }
        ensures halts { OnOk result ((batch : List ℕ) → items_under self.new.halts.named.entries batch
            ≡ items_under self.old.halts.named.entries batch
            ++ (if is_this batch (accepted_batch (plain_entry entry.now))
            then filter is_halt (cons_option (taken entry.now.answer) []) else [])) }
    {
        match taken(&entry.answer) {
            Some(did) => self.add_did(alloc, &entry.accepted_batch(), &did),
            None => Ok(()),
        }
    }

    fn add_did(
        &mut self,
        alloc: Global,
        batch: &Option<Name>,
        did: &LogEntry,
    ) -> Result<(), AllocError>
        ensures logs { OnOk result (Grows self.old.logs.named.entries self.new.logs.named.entries batch.now
            true did.now) }
        ensures runs { OnOk result (Grows self.old.runs.named.entries self.new.runs.named.entries batch.now
            (is_some (chart_entry did.now)) did.now) }
        ensures halts { OnOk result (Grows self.old.halts.named.entries self.new.halts.named.entries batch.now
            (is_halt did.now) did.now) }
    {
        let runs = did.is_of_chart();
        let halts = is_halt(did);
        self.logs.add_if(alloc, batch, true, *did)?;
        self.runs.add_if(alloc, batch, runs, *did)?;
        self.halts.add_if(alloc, batch, halts, *did)
    }
}

// ---- all

/// The accepted recipes, the accepted starts, and the tags that are docked or away, each once.
#[derive(Drop)]
pub struct KnownPlaces<'a> {
    pub recipes: Recipes<'a>,
    pub starts: Vec<&'a Entry>,
    pub present: Vec<Name>,
}

impl<'a> KnownPlaces<'a> {
    fn add_known(&mut self, alloc: Global, entry: &'a Entry) -> Result<(), AllocError>
        requires { is_orderly (plain_event entry.now.event) ≡ true }
        ensures recipes { OnOk result (self.new.recipes.entries.items ≡ self.old.recipes.entries.items
            ++ (if is_accepted_recipe (plain_entry entry.now) then entry.entry ∷ [] else [])) }
        ensures starts { OnOk result (self.new.starts.items ≡ self.old.starts.items
            ++ (if is_start (plain_entry entry.now) then entry.entry ∷ [] else [])) }
        ensures present { OnOk result (self.new.present.items
            ≡ present_after (plain_event entry.now.event) (is_accepted entry.now.answer) self.old.present.items) }
    {
        self.recipes.add(entry)?;
        push_if(&mut self.starts, is_start(entry), entry)?;
        tags_after(alloc, &mut self.present, entry)
    }
}

/// An index of the entries of a history, and a cursor for each open batch. An owner keeps it in a box, so that the drop
/// of its parts is proved once.
#[derive(Drop)]
pub struct Places<'a> {
    pub modules: ModulePlaces<'a>,
    pub batches: BatchPlaces<'a>,
    pub logs: Logs,
    pub standings: Standings,
    pub cursors: Cursors,
    pub known: KnownPlaces<'a>,
}

impl<'a> Places<'a> {
    /// The index of no entry.
    #[tactic(auto, using(crate::proofs::Placing::nothing_placed))]
    pub fn new(alloc: Global) -> Places<'a>
        ensures { IsPlaced result [] }
    {
        Places {
            modules: ModulePlaces {
                moves: Lists::new(alloc),
                controls: Told::new(alloc),
                values: Told::new(alloc),
            },
            batches: BatchPlaces {
                starts: Lists::new(alloc),
                closings: Lists::new(alloc),
                freezings: Lists::new(alloc),
                askings: Lists::new(alloc),
            },
            logs: Logs {
                logs: Lists::new(alloc),
                runs: Lists::new(alloc),
                halts: Lists::new(alloc),
            },
            standings: Standings {
                running: Lists::new(alloc),
                held: Lists::new(alloc),
            },
            cursors: Cursors::new(alloc),
            known: KnownPlaces {
                recipes: Recipes::new(alloc),
                starts: Vec::new(alloc),
                present: Vec::new(alloc),
            },
        }
    }

    /// Adds one more entry of the history.
    pub fn add(&mut self, alloc: Global, entry: &'a Entry) -> Result<(), AllocError>
        requires { is_orderly (plain_event entry.now.event) ≡ true }
        ensures { OnOk result ((history : History) → IsPlaced self.old history
            → IsPlaced self.new (plain_entry entry.now ∷ history)) }
    {
        self.modules.add_module(alloc, entry)?;
        self.batches.add_batch(alloc, entry)?;
        self.logs.add_log(alloc, entry)?;
        self.standings.add_standing(alloc, entry)?;
        self.cursors.learn(entry, &self.known.recipes);
        self.known.add_known(alloc, entry)?;
        self.cursors.go_on(entry);
        self.cursors.end(entry);
        self.cursors
            .begin(alloc, entry, &self.logs.runs, &self.known.recipes)?;
        Ok(())
    }
}

// Adds the entries of a history to an index of none.
fn place_all<'a>(
    alloc: Global,
    history: &'a [Entry],
    places: &mut Places<'a>,
) -> Result<(), AllocError>
    requires orderly { IsOrderly (plain_history history.now) }
    requires empty { IsPlaced places.old [] }
    ensures { OnOk result (IsPlaced places.new (plain_history history.now)) }
{
    for entry in history {
        places.add(alloc, entry)?;
    }
    Ok(())
}

/// The index of a history.
pub fn placed(alloc: Global, history: &[Entry]) -> Result<Box<Places<'_>>, AllocError>
    requires { IsOrderly (plain_history history.now) }
    ensures { IfOk result (λ places. IsPlaced places.value (plain_history history.now)) }
{
    let mut places = Box::new(alloc, Places::new(alloc))?;
    place_all(alloc, history, &mut places)?;
    Ok(places)
}
