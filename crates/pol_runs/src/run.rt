//! One batch, from its start on until it is closed.
ghost use Rattle.std.specs.Prelude.{◌≡◌, ◌&&◌, ◌||◌, ◌++◌, ◌∷◌, [], not, ℕ, List, Some, None, IfOk, OnErr, OnOk};
ghost use Rattle.std.specs.Prelude.{drop, option_map, take, if◌then◌else◌};
ghost use Rattle.std.specs.Option.{option_or};
ghost use Rattle.mtp_codes.specs.Faults.{when, done_unless};
ghost use Rattle.chart_core.specs.Active.{active_steps};
ghost use Rattle.chart_core.specs.Charts.{plain_chart};
ghost use Rattle.chart_core.specs.Valid.{IsValid};
ghost use Rattle.chart_core.specs.declared.entry.LogEntry.{LogEntry};
ghost use Rattle.chart_core.specs.declared.entry.LogEntry.TheVariants.{StopAsked};
ghost use Rattle.chart_core.specs.declared.next.Next.TheVariants.{Did};
ghost use Rattle.chart_core.specs.declared.next.Outcome.TheVariants.{Abandoned};
ghost use Rattle.chart_cursor.specs.Listing.{told_running};
ghost use Rattle.chart_cursor.specs.Logs.{active, has_broken, was_stopped};
ghost use Rattle.chart_cursor.specs.NextEntry.{next_by};
ghost use Rattle.chart_cursor.specs.Running.{first_placed, is_wanted, name_of};
ghost use Rattle.chart_cursor.specs.Sights.{Sights};
ghost use Rattle.pol_events.specs.Bound.{ArePaired, step_on};
ghost use Rattle.pol_runs.specs.Freezes.{is_frozen, is_holding, frozen_as, freezing};
ghost use Rattle.pol_runs.specs.Logs.{Asks, Follows, asked_after, closing_in, log_after};
ghost use Rattle.pol_runs.specs.Runs.{SameBatch};
ghost use Rattle.pol_runs.specs.Waits.{waits_by};
ghost use Rattle.pol_runs.specs.declared.freeze.Freeze.TheVariants.{Thawed};

use super::course::Course;
use super::freeze::Freeze;
use super::holds::{Holds, is_hold};
use super::next::{behind, go_on, hold_on, stop_found};
use chart_core::{Chart, LogEntry, Next, Outcome, Why};
use chart_cursor::{Cursor, RunningStep, Seen, WaitingNode};
use mtp_codes::Name;
use pol_events::{Bind, Rule, bound_role};
use std::alloc::{AllocError, Global};
use std::marker::Model;
use std::sync::Arc;

/// A batch that was started.
#[derive(Drop)]
pub struct Run {
    batch: Name,
    recipe: Name,
    binds: Vec<Bind>,
    held: usize,
    cursor: Cursor,
    holds: Holds,
    freeze: Freeze,
    course: Course,
    outcome: Option<Outcome>,
}

impl Model for Run {
    ghost use Rattle.std.specs.Coded.{codes};
    ghost use Rattle.chart_core.specs.contracts.chart.Chart as chart_type;
    ghost use Rattle.chart_core.specs.contracts.next.Outcome as outcome_type;
    ghost use Rattle.chart_core.specs.contracts.progress.Progress as progress_type;
    ghost use Rattle.pol_events.specs.contracts.event.Bind as bind_type;
    ghost use Rattle.pol_runs.specs.contracts.course.Course as course_type;
    ghost use Rattle.pol_runs.specs.contracts.freeze.Freeze as freeze_type;
    ghost use Rattle.pol_runs.specs.Logs.{IsSoundRun};
    ghost use Rattle.pol_runs.specs.Runs.{PlainRun};

    ghost Value = { PlainRun };

    ghost coded = { Prim.hlevel (
      codes,
      chart_type.the_row.coded,
      progress_type.the_row.coded,
      bind_type.the_row.coded,
      outcome_type.the_row.coded,
      course_type.the_row.coded,
      freeze_type.the_row.coded,
    ) };

    ghost view = { λ run. record {
      batch = run.batch;
      recipe = run.recipe;
      chart = run.cursor.chart;
      binds = run.binds.items;
      held = run.held;
      marks = run.cursor.marks;
      holds = run.holds;
      freeze = run.freeze;
      course = run.course;
      outcome = run.outcome;
    } };

    ghost invariant = { λ run. IsSoundRun (record {
      batch = run.batch;
      recipe = run.recipe;
      chart = run.cursor.chart;
      binds = run.binds.items;
      held = run.held;
      marks = run.cursor.marks;
      holds = run.holds;
      freeze = run.freeze;
      course = run.course;
      outcome = run.outcome;
    }) };
}

impl Run {
    /// A batch of a valid chart that was just started on these modules, all of which it holds: it stands for the empty
    /// log. Its recipe has the name of the batch. No role is bound twice, and no tag.
    ///
    /// # Errors
    ///
    /// AllocError where there is no memory for one mark, one size and two flags for each node.
    pub fn new(
        alloc: Global,
        batch: Name,
        chart: Arc<Chart>,
        binds: Vec<Bind>,
    ) -> Result<Run, AllocError>
        requires valid { IsValid (plain_chart chart.value) }
        requires paired { ArePaired binds.items }
        ensures batch { IfOk result (λ run. run.batch ≡ batch) }
        ensures chart { IfOk result (λ run. run.chart ≡ chart.value) }
        ensures binds { IfOk result (λ run. run.binds ≡ binds.items) }
        ensures thawed { IfOk result (λ run. run.freeze ≡ Thawed) }
        ensures open { IfOk result (λ run. run.outcome ≡ None) }
        ensures empty { IfOk result (λ run. Follows run []) }
        ensures unasked { IfOk result (λ run. Asks run []) }
    {
        let held = binds.len();
        Run::of_recipe(alloc, batch, batch, chart, binds, held)
    }

    /// A batch of a recipe with this valid chart that was just started on these modules, of which it holds the first
    /// ones, `held` many, and watches the others: it stands for the empty log. No role is bound twice, and no tag.
    ///
    /// # Errors
    ///
    /// AllocError where there is no memory for one mark, one size and two flags for each node.
    pub fn of_recipe(
        alloc: Global,
        batch: Name,
        recipe: Name,
        chart: Arc<Chart>,
        binds: Vec<Bind>,
        held: usize,
    ) -> Result<Run, AllocError>
        requires valid { IsValid (plain_chart chart.value) }
        requires paired { ArePaired binds.items }
        ensures batch { IfOk result (λ run. run.batch ≡ batch) }
        ensures recipe { IfOk result (λ run. run.recipe ≡ recipe) }
        ensures chart { IfOk result (λ run. run.chart ≡ chart.value) }
        ensures binds { IfOk result (λ run. run.binds ≡ binds.items) }
        ensures held { IfOk result (λ run. run.held ≡ held) }
        ensures thawed { IfOk result (λ run. run.freeze ≡ Thawed) }
        ensures open { IfOk result (λ run. run.outcome ≡ None) }
        ensures empty { IfOk result (λ run. Follows run []) }
        ensures unasked { IfOk result (λ run. Asks run []) }
    {
        let holds = Holds::new(alloc, &chart)?;
        let cursor = Cursor::new(alloc, chart)?;
        Ok(Run {
            batch,
            recipe,
            binds,
            held,
            cursor,
            holds,
            freeze: Freeze::Thawed,
            course: Course::Running,
            outcome: None,
        })
    }

    /// What the batch does next, while it is open. Walks the chart's nodes at most twice, and takes no memory.
    pub fn would<S: Seen>(&self, seen: &S) -> Next
        ensures { (log : List LogEntry) (asked : List (List ℕ)) → Follows self.now log → Asks self.now asked
            → result
            ≡ next_by (plain_chart self.now.chart) (freezing self.now.freeze asked) log (S.sights seen.now) }
    {
        let from = self.course.first_number();
        match self.freeze {
            Freeze::Waiting => Next::Waiting(Why::Frozen),
            Freeze::Holding => hold_on(&self.cursor, seen, from, self.holds.asked()),
            Freeze::Thawed => match self.course {
                Course::Running => go_on(&self.cursor, seen, self.holds.held()),
                Course::Breaking { .. } => stop_found(
                    self.cursor.next_step(from, None),
                    seen,
                    true,
                ),
                Course::Stopping { .. } => {
                    stop_found(self.cursor.next_step(from, None), seen, false)
                }
            },
        }
    }

    // Takes an entry into the log that was said to come next.
    fn did(&mut self, entry: LogEntry)
        requires { (seen : Sights) × ((log : List LogEntry) (asked : List (List ℕ)) → Follows self.old log
            → Asks self.old asked
            → Did entry ≡ next_by (plain_chart self.old.chart) (freezing self.old.freeze asked) log seen) }
        ensures log { (log : List LogEntry) → Follows self.old log → Follows self.new (log ++ entry ∷ []) }
        ensures asked { (asked : List (List ℕ)) → Asks self.old asked
            → Asks self.new (asked_after (Did entry) asked) }
        ensures same_batch { SameBatch self.old self.new }
        ensures freeze { self.new.freeze ≡ self.old.freeze }
        ensures outcome { self.new.outcome ≡ self.old.outcome }
    {
        self.holds.take(self.cursor.chart(), &entry);
        if is_hold(&entry) {
            return;
        }
        match self.course {
            Course::Running => match entry {
                LogEntry::Broke { .. } => self.course = Course::Breaking { from: 0 },
                _ => self.cursor.take(entry),
            },
            Course::Breaking { from } => {
                self.course = Course::Breaking {
                    from: behind(&self.cursor, from),
                }
            }
            Course::Stopping { from } => {
                self.course = Course::Stopping {
                    from: behind(&self.cursor, from),
                }
            }
        }
    }

    /// Does what `would` said comes next: takes an entry into the log, waits, or closes the batch. For a caller whose
    /// `Seen` borrows the run, so that it can't `advance` it. Walks the chart's nodes at most once, and takes no
    /// memory.
    pub fn settle(&mut self, next: &Next)
        requires { (seen : Sights) × ((log : List LogEntry) (asked : List (List ℕ)) → Follows self.old log
            → Asks self.old asked
            → next.now ≡ next_by (plain_chart self.old.chart) (freezing self.old.freeze asked) log seen) }
        ensures log { (log : List LogEntry) → Follows self.old log → Follows self.new (log_after next.now log) }
        ensures asked { (asked : List (List ℕ)) → Asks self.old asked → Asks self.new (asked_after next.now asked) }
        ensures same_batch { SameBatch self.old self.new }
        ensures freeze { self.new.freeze ≡ self.old.freeze }
        ensures outcome { self.new.outcome ≡ option_or (closing_in next.now) self.old.outcome }
    {
        match next {
            Next::Did(entry) => self.did(*entry),
            Next::Waiting(_) => {}
            Next::Closed(outcome) => self.outcome = Some(*outcome),
        }
    }

    /// Does what the open batch does next: takes an entry into the log, waits, or closes the batch. Walks the chart's
    /// nodes at most three times, and takes no memory.
    pub fn advance<S: Seen>(&mut self, seen: &S) -> Next
        requires open { self.old.outcome ≡ None }
        ensures next { (log : List LogEntry) (asked : List (List ℕ)) → Follows self.old log → Asks self.old asked
            → result
            ≡ next_by (plain_chart self.old.chart) (freezing self.old.freeze asked) log (S.sights seen.now) }
        ensures log { (log : List LogEntry) → Follows self.old log → Follows self.new (log_after result log) }
        ensures asked { (asked : List (List ℕ)) → Asks self.old asked → Asks self.new (asked_after result asked) }
        ensures same_batch { SameBatch self.old self.new }
        ensures freeze { self.new.freeze ≡ self.old.freeze }
        ensures outcome { self.new.outcome ≡ closing_in result }
    {
        let next = self.would(seen);
        self.settle(&next);
        next
    }

    /// Freezes the open batch until it is thawed, and where `hold` is true lets it hold the services of its active
    /// steps. `AlreadyFrozen` exactly where it is frozen and, beside that, either `hold` is false or its services are
    /// held already; then nothing changes. So a batch that only waits can be frozen anew, so that its services are
    /// held.
    pub fn freeze(&mut self, hold: bool) -> Result<(), Rule>
        ensures answer { result
            ≡ done_unless (when (is_frozen self.old.freeze && (not hold || is_holding self.old.freeze))
            Rule.AlreadyFrozen) }
        ensures log { (log : List LogEntry) → Follows self.old log → Follows self.new log }
        ensures freeze { OnOk result (self.new.freeze ≡ frozen_as hold) }
        ensures asked { OnOk result (Asks self.new []) }
        ensures same_batch { SameBatch self.old self.new }
        ensures outcome { self.new.outcome ≡ self.old.outcome }
        ensures unchanged { OnErr result (self.new ≡ self.old) }
    {
        if self.freeze.is_frozen() && (!hold || self.freeze.is_holding()) {
            return Err(Rule::AlreadyFrozen);
        }
        self.freeze = Freeze::new(hold);
        self.holds.begin();
        Ok(())
    }

    /// Lets the frozen batch go on. `NotFrozen` exactly where it isn't frozen; then nothing changes.
    pub fn thaw(&mut self) -> Result<(), Rule>
        ensures answer { result ≡ done_unless (when (not (is_frozen self.old.freeze)) Rule.NotFrozen) }
        ensures freeze { self.new ≡ record self.old { freeze = Thawed } }
    {
        if !self.freeze.is_frozen() {
            return Err(Rule::NotFrozen);
        }
        self.freeze = Freeze::Thawed;
        Ok(())
    }

    /// Lets the open batch be stopped step by step, and ends its freeze whatever it answers. True where stopping is
    /// new: the batch neither broke nor was to be stopped before.
    pub fn stop(&mut self) -> bool
        ensures new { (log : List LogEntry) → Follows self.old log → result ≡ not (has_broken log || was_stopped log) }
        ensures log { (log : List LogEntry) → Follows self.old log
            → Follows self.new (if result then log ++ StopAsked ∷ [] else log) }
        ensures asked { (asked : List (List ℕ)) → Asks self.old asked → Asks self.new asked }
        ensures same_batch { SameBatch self.old self.new }
        ensures freeze { self.new.freeze ≡ Thawed }
        ensures outcome { self.new.outcome ≡ self.old.outcome }
    {
        self.freeze = Freeze::Thawed;
        match self.course {
            Course::Running => {
                self.course = Course::Stopping { from: 0 };
                true
            }
            Course::Breaking { .. } | Course::Stopping { .. } => false,
        }
    }

    /// Gives the batch up as it is.
    pub fn abandon(&mut self)
        ensures { self.new ≡ record self.old { outcome = Some Abandoned } }
    {
        self.outcome = Some(Outcome::Abandoned);
    }

    /// How the batch was closed; None exactly while it is open.
    pub fn closed(&self) -> Option<Outcome>
        ensures { result ≡ self.now.outcome }
    {
        self.outcome
    }

    /// Whether the batch is frozen.
    pub fn is_frozen(&self) -> bool
        ensures { result ≡ is_frozen self.now.freeze }
    {
        self.freeze.is_frozen()
    }

    /// Whether the batch is frozen and the services of its active steps are held.
    pub fn is_holding(&self) -> bool
        ensures { result ≡ is_holding self.now.freeze }
    {
        self.freeze.is_holding()
    }

    /// Whether the batch broke, or is to be stopped step by step.
    pub fn is_stopping(&self) -> bool
        ensures { (log : List LogEntry) → Follows self.now log → result ≡ has_broken log || was_stopped log }
    {
        match self.course {
            Course::Running => false,
            Course::Breaking { .. } | Course::Stopping { .. } => true,
        }
    }

    /// The name of the batch's recipe.
    pub fn recipe(&self) -> Name
        ensures { result ≡ self.now.recipe }
    {
        self.recipe
    }

    /// The chart of the batch's recipe.
    pub fn chart(&self) -> &Arc<Chart>
        ensures chart { result.now.value ≡ self.now.chart }
        ensures valid { IsValid (plain_chart self.now.chart) }
    {
        self.cursor.chart()
    }

    /// Which modules play the batch's roles.
    pub fn binds(&self) -> &[Bind]
        ensures binds { result.now ≡ self.now.binds }
        ensures paired { ArePaired self.now.binds }
    {
        &self.binds
    }

    /// Which modules that the batch holds play its roles.
    pub fn held(&self) -> &[Bind]
        ensures { result.now ≡ take self.now.held self.now.binds }
    {
        &self.binds[..self.held.min(self.binds.len())]
    }

    /// Which modules that the batch only watches play its roles.
    pub fn watched(&self) -> &[Bind]
        ensures { result.now ≡ drop self.now.held self.now.binds }
    {
        &self.binds[self.held.min(self.binds.len())..]
    }

    /// The active steps in chart order. Walks the chart's nodes once for each of them, and once more.
    ///
    /// # Errors
    ///
    /// AllocError where there is no memory for them.
    pub fn active_steps(&self, alloc: Global) -> Result<Vec<RunningStep>, AllocError>
        ensures { (log : List LogEntry) → Follows self.now log → IfOk result (λ steps. steps.items
            ≡ told_running (active_steps (plain_chart self.now.chart) log)) }
    {
        self.cursor.active_steps(alloc, self.course.first_number())
    }

    /// The awaited nodes that aren't ready, by what is seen of the modules, each with what stands in its way, in chart
    /// order; none where the batch broke or is to be stopped. Walks the chart's nodes once for each of them, and once
    /// more.
    ///
    /// # Errors
    ///
    /// AllocError where there is no memory for them.
    pub fn waiting_nodes<S: Seen>(
        &self,
        alloc: Global,
        seen: &S,
    ) -> Result<Vec<WaitingNode>, AllocError>
        ensures { (log : List LogEntry) → Follows self.now log → IfOk result (λ nodes. nodes.items
            ≡ waits_by (plain_chart self.now.chart) log (S.sights seen.now)) }
    {
        match self.course {
            Course::Running => self.cursor.waiting_nodes(alloc, seen),
            Course::Breaking { .. } | Course::Stopping { .. } => Ok(Vec::new(alloc)),
        }
    }

    /// The first active step of the role in chart order; None where there is none. Walks the chart's nodes once, and
    /// takes no memory.
    pub fn active_of(&self, role: Name) -> Option<Name>
        ensures { (log : List LogEntry) → Follows self.now log
            → result ≡ name_of (first_placed (is_wanted 0 (Some role))
            (active_steps (plain_chart self.now.chart) log)) }
    {
        match self
            .cursor
            .next_step(self.course.first_number(), Some(role))
        {
            Some(step) => Some(step.name),
            None => None,
        }
    }

    /// The first active step in chart order of a role with this tag; None where there is none. Walks the chart's nodes
    /// once, and takes no memory.
    pub fn active_on(&self, tag: Name) -> Option<Name>
        ensures { (log : List LogEntry) → Follows self.now log
            → result ≡ option_map (λ step. step.name)
            (step_on self.now.binds tag (active (plain_chart self.now.chart) log)) }
    {
        match bound_role(&self.binds, tag) {
            Some(role) => self.active_of(role),
            None => None,
        }
    }
}
