//! A cursor over a chart.
ghost use Rattle.std.specs.Prelude.{◌≡◌, ◌++◌, ◌∷◌, [], List, map, nat_le, IfOk, Some, None};
ghost use Rattle.chart_core.specs.Active.{active_steps};
ghost use Rattle.chart_core.specs.Charts.{plain_chart};
ghost use Rattle.chart_core.specs.Valid.{IsValid};
ghost use Rattle.chart_core.specs.Runs.{IsPartial, IsComplete};
ghost use Rattle.chart_core.specs.Progress.{marks_of};
ghost use Rattle.chart_core.specs.Standing.{StandsFor, AreAfter};
ghost use Rattle.chart_core.specs.declared.entry.LogEntry.{LogEntry};
ghost use Rattle.chart_cursor.specs.declared.next.CursorNext.TheVariants.{Whole};
ghost use Rattle.chart_core.specs.Trees.{plain_node};
ghost use Rattle.chart_cursor.specs.OpenNodes.{open_nodes};
ghost use Rattle.chart_cursor.specs.Next.{IsNext, ready_after, next_after};
ghost use Rattle.chart_cursor.specs.Logs.{active};
ghost use Rattle.chart_cursor.specs.Holding.{flag_at, is_unasked, numbered, under_way};
ghost use Rattle.chart_cursor.specs.NextEntry.{first_broken, first_hold, first_unhold};
ghost use Rattle.chart_cursor.specs.Listing.{told_running, waits_after};
ghost use Rattle.chart_cursor.specs.Running.{is_wanted, first_placed, name_of, placed_of};

use super::going::broken_and_next;
use super::holding::{first_hold, first_unhold};
use super::listing::{WaitingNode, running_steps, waiting_nodes};
use super::next::CursorNext;
use super::running::{RunningStep, first_running, name_alone, placed_alone};
use super::scanning::scan;
use super::sight::Seen;
use chart_core::{Chart, LogEntry, Progress, node_sizes, take_entry, untouched};
use mtp_codes::Name;
use std::alloc::{AllocError, Global};
use std::marker::Model;
use std::sync::Arc;

/// How far a run of a valid chart has come: for each node, by its number. A cursor doesn't keep the entries that it
/// took; the relation `StandsFor` says which words of entries it stands for.
#[derive(Drop)]
pub struct Cursor {
    chart: Arc<Chart>,
    marks: Vec<Progress>,
    // How many nodes each node has, by its number, so that a walk steps over them.
    sizes: Vec<u32>,
}

impl Model for Cursor {
    ghost use Rattle.chart_cursor.specs.Kept.{Kept, IsMarked};
    ghost use Rattle.chart_core.specs.contracts.chart.Chart as chart_type;
    ghost use Rattle.chart_core.specs.contracts.progress.Progress as progress_type;
    ghost use Rattle.std.specs.Coded.{codes};

    ghost Value = { Kept };

    ghost coded = { Prim.hlevel (codes, chart_type.the_row.coded, progress_type.the_row.coded) };

    ghost view = { λ cursor. record { chart = cursor.chart.value; marks = cursor.marks.items } };

    ghost invariant = { λ cursor. IsMarked (record { chart = cursor.chart.value; marks = cursor.marks.items })
        cursor.sizes.items };
}

impl Cursor {
    /// A cursor at the start of the valid chart: it stands for the empty word, and is after the empty log.
    ///
    /// # Errors
    ///
    /// AllocError where there is no memory for one mark and one number for each node.
    #[tactic(auto, using(crate::proofs::Passing::after_none))]
    pub fn new(alloc: Global, chart: Arc<Chart>) -> Result<Cursor, AllocError>
        requires { IsValid (plain_chart chart.value) }
        ensures chart { IfOk result (λ cursor. cursor.chart ≡ chart.value) }
        ensures empty { IfOk result (λ cursor. StandsFor (plain_chart cursor.chart) cursor.marks []) }
        ensures fresh { IfOk result (λ cursor. AreAfter (plain_chart cursor.chart) cursor.marks []) }
    {
        let marks = untouched(alloc, &chart)?;
        let sizes = node_sizes(alloc, &chart)?;
        Ok(Cursor {
            chart,
            marks,
            sizes,
        })
    }

    /// The chart that the cursor goes through.
    pub fn chart(&self) -> &Arc<Chart>
        ensures { result.now.value ≡ self.now.chart }
    {
        &self.chart
    }

    /// Takes the entry, which goes on a word that the cursor stands for: afterwards the cursor stands for each such
    /// word with the entry at its end. Walks the chart's nodes up to the one that it changes, and takes no memory.
    pub fn take(&mut self, entry: LogEntry)
        requires { (word : List LogEntry) × StandsFor (plain_chart self.old.chart) self.old.marks word
            × IsPartial (plain_chart self.old.chart) (word ++ (entry ∷ [])) }
        ensures chart { self.new.chart ≡ self.old.chart }
        ensures word { (word : List LogEntry) → StandsFor (plain_chart self.old.chart) self.old.marks word
            → StandsFor (plain_chart self.new.chart) self.new.marks (word ++ (entry ∷ [])) }
    {
        let _ = take_entry(&self.chart, &mut self.marks, &entry);
    }

    /// Goes along a log, which needn't be a run of the chart: takes the entry where it may come next, and passes over
    /// it where it may not. Walks the chart's nodes up to the one that it changes, and takes no memory.
    #[tactic(auto, using(crate::proofs::Passing::after_one))]
    pub fn go_along(&mut self, entry: &LogEntry)
        ensures chart { self.new.chart ≡ self.old.chart }
        ensures log { (log : List LogEntry) → AreAfter (plain_chart self.old.chart) self.old.marks log
            → AreAfter (plain_chart self.new.chart) self.new.marks (log ++ (entry.now ∷ [])) }
    {
        let _ = take_entry(&self.chart, &mut self.marks, entry);
    }

    /// What comes next after any log that the cursor went along, by what is seen of the modules; for a partial run it
    /// is what `first_ready` says. Walks the chart's nodes once, and takes no memory.
    pub fn next_of_log<S: Seen>(&self, seen: &S) -> CursorNext
        ensures { (log : List LogEntry) → AreAfter (plain_chart self.now.chart) self.now.marks log
            → result ≡ next_after (plain_chart self.now.chart) log (S.sights seen.now) }
    {
        scan(&self.chart.root, 0, &self.marks, &self.sizes, seen)
    }

    /// What comes next, by what is seen of the modules: the entry of the first awaited node in chart order that is
    /// ready; where none is, the first obstacle of the first awaited node; Whole exactly where the word is a complete
    /// run. Walks the chart's nodes once, and takes no memory.
    pub fn first_ready<S: Seen>(&self, seen: &S) -> CursorNext
        ensures next { (word : List LogEntry) → StandsFor (plain_chart self.now.chart) self.now.marks word
            → IsNext (plain_chart self.now.chart) word
            (ready_after (plain_chart self.now.chart) word (S.sights seen.now)) result }
        ensures same { (word : List LogEntry) → StandsFor (plain_chart self.now.chart) self.now.marks word
            → result ≡ next_after (plain_chart self.now.chart) word (S.sights seen.now) }
        ensures whole { (word : List LogEntry) → StandsFor (plain_chart self.now.chart) self.now.marks word
            → IsComplete (plain_chart self.now.chart) word → result ≡ Whole }
    {
        scan(&self.chart.root, 0, &self.marks, &self.sizes, seen)
    }

    /// The first active step whose node is at least `from`, and of the role where one is given; None where there is no
    /// such active step. Walks the chart's nodes once, and takes no memory.
    pub fn next_step(&self, from: u32, role: Option<Name>) -> Option<RunningStep>
        ensures { (word : List LogEntry) → StandsFor (plain_chart self.now.chart) self.now.marks word
            → result ≡ first_placed (is_wanted from role) (active_steps (plain_chart self.now.chart) word) }
    {
        first_running(&self.chart.root, 0, &self.marks, &self.sizes, from, role)
    }

    /// The entry Broke of the first active step whose service is seen stopped or aborted, None where there is none; and
    /// what comes next, as `first_ready` says. Walks the chart's nodes once, and takes no memory.
    pub fn broken_and_next<S: Seen>(&self, seen: &S) -> (Option<LogEntry>, CursorNext)
        ensures broken { (word : List LogEntry) → StandsFor (plain_chart self.now.chart) self.now.marks word
            → result.0 ≡ first_broken (S.sights seen.now) (active (plain_chart self.now.chart) word) }
        ensures next { (word : List LogEntry) → StandsFor (plain_chart self.now.chart) self.now.marks word
            → result.1 ≡ next_after (plain_chart self.now.chart) word (S.sights seen.now) }
    {
        broken_and_next(&self.chart.root, 0, &self.marks, &self.sizes, seen)
    }

    /// The entry Hold of the first active step that a recipe may send Hold, whose node is at least `from` and has no
    /// flag in `asked`; None where there is none. Walks the chart's nodes once, and takes no memory.
    pub fn first_hold<S: Seen>(&self, seen: &S, from: u32, asked: &[bool]) -> Option<LogEntry>
        ensures { (word : List LogEntry) → StandsFor (plain_chart self.now.chart) self.now.marks word
            → result ≡ first_hold (S.sights seen.now) (map (λ placed. placed.step)
            (numbered (is_unasked from asked.now) (active_steps (plain_chart self.now.chart) word))) }
    {
        first_hold(
            &self.chart.root,
            0,
            &self.marks,
            &self.sizes,
            seen,
            from,
            asked,
        )
    }

    /// What comes next of the active steps whose nodes have a flag in `held`, and whose services aren't over: the entry
    /// Unhold of the first that may be unheld; where none may, the obstacle of the first; Whole where there is no such
    /// step. Walks the chart's nodes once, where a flag is set at all, and takes no memory.
    pub fn first_unhold<S: Seen>(&self, seen: &S, held: &[bool]) -> CursorNext
        ensures { (word : List LogEntry) → StandsFor (plain_chart self.now.chart) self.now.marks word
            → result ≡ first_unhold (S.sights seen.now) (under_way (S.sights seen.now) (map (λ placed. placed.step)
            (numbered (flag_at held.now) (active_steps (plain_chart self.now.chart) word)))) }
    {
        first_unhold(&self.chart.root, 0, &self.marks, &self.sizes, seen, held)
    }

    /// The active steps whose nodes are at least `from`, in chart order. Walks the chart's nodes once for each of them,
    /// and once more.
    ///
    /// # Errors
    ///
    /// AllocError where there is no memory for them.
    pub fn active_steps(&self, alloc: Global, from: u32) -> Result<Vec<RunningStep>, AllocError>
        ensures { (word : List LogEntry) → StandsFor (plain_chart self.now.chart) self.now.marks word
            → IfOk result (λ steps. steps.items
            ≡ told_running (numbered (nat_le from) (active_steps (plain_chart self.now.chart) word))) }
    {
        running_steps(alloc, &self.chart.root, 0, &self.marks, &self.sizes, from)
    }

    /// The awaited nodes that aren't ready, by what is seen of the modules, each with what stands in its way, in chart
    /// order. Walks the chart's nodes once for each of them, and once more.
    ///
    /// # Errors
    ///
    /// AllocError where there is no memory for them.
    pub fn waiting_nodes<S: Seen>(
        &self,
        alloc: Global,
        seen: &S,
    ) -> Result<Vec<WaitingNode>, AllocError>
        ensures { (word : List LogEntry) → StandsFor (plain_chart self.now.chart) self.now.marks word
            → IfOk result (λ nodes. nodes.items
            ≡ waits_after (plain_chart self.now.chart) word (S.sights seen.now)) }
    {
        waiting_nodes(alloc, &self.chart.root, 0, &self.marks, &self.sizes, seen)
    }

    /// The first active step whose node is at least `from`, with the node's number; None where there is no such active
    /// step. Walks the chart's nodes once, and takes no memory.
    pub fn next_active(&self, from: u32) -> Option<(u32, Name)>
        ensures { (word : List LogEntry) → StandsFor (plain_chart self.now.chart) self.now.marks word
            → result ≡ placed_of (first_placed (is_wanted from None) (active_steps (plain_chart self.now.chart) word)) }
    {
        placed_alone(self.next_step(from, None))
    }

    /// The first active step of the role; None where there is none. Walks the chart's nodes once, and takes no memory.
    pub fn active_on(&self, role: Name) -> Option<Name>
        ensures { (word : List LogEntry) → StandsFor (plain_chart self.now.chart) self.now.marks word
            → result ≡ name_of (first_placed (is_wanted 0 (Some role))
            (active_steps (plain_chart self.now.chart) word)) }
    {
        name_alone(self.next_step(0, Some(role)))
    }
}
