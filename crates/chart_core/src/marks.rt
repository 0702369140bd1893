//! The marks of a chart: one for each node, which says how far it has come.
ghost use Rattle.std.specs.Prelude.{◌≡◌, ◌≤◌, ◌<◌, ◌^◌, ◌++◌, ◌∷◌, [], ℕ, List, length, IsTrue, IsFalse, IfOk};
ghost use Rattle.chart_core.specs.Trees.{plain_node, size};
ghost use Rattle.chart_core.specs.Charts.{plain_chart};
ghost use Rattle.chart_core.specs.Valid.{IsValid};
ghost use Rattle.chart_core.specs.Runs.{with_condition, course_of, IsPartial, IsComplete};
ghost use Rattle.chart_core.specs.Progress.{marks_of};
ghost use Rattle.chart_core.specs.Changes.{change_by, changed, moved, FitsIn};
ghost use Rattle.chart_core.specs.Standing.{StandsFor};
ghost use Rattle.chart_core.specs.declared.entry.LogEntry.{LogEntry};
ghost use Rattle.chart_core.specs.declared.progress.Progress.TheVariants.{Untouched};
ghost use Rattle.chart_core.specs.declared.limits.TheConstants.{MOST_NODES};

use super::chart::Chart;
use super::entry::LogEntry;
use super::following::follow;
use super::progress::{Change, Progress};
use super::size::node_count;
use std::alloc::{AllocError, Global};

fn make(marks: &mut [Progress], change: Change)
    requires { FitsIn (length marks.old) change }
    ensures { (i : ℕ) → marks_of marks.new i ≡ changed change (marks_of marks.old) i }
{
    match change {
        Change::Put { place, to } => marks[place as usize] = to,
        Change::Clear { above, below } => {
            for i in above as usize + 1..below as usize {
                marks[i] = Progress::Untouched;
            }
        }
    }
}

/// How many nodes a valid chart has: at most 4,096.
pub fn chart_size(chart: &Chart) -> u32
    requires { IsValid (plain_chart chart.now) }
    ensures size { result ≡ size (plain_node chart.now.root) }
    ensures small { result ≤ MOST_NODES }
{
    node_count(&chart.root)
}

/// The marks of a valid chart of which nothing was done: they stand for the empty log.
pub fn untouched(alloc: Global, chart: &Chart) -> Result<Vec<Progress>, AllocError>
    requires { IsValid (plain_chart chart.now) }
    ensures room { IfOk result (λ marks. length marks.items ≡ size (plain_node chart.now.root)) }
    ensures fresh { IfOk result (λ marks. (i : ℕ) → marks_of marks.items i ≡ Untouched) }
    ensures empty { IfOk result (λ marks. StandsFor (plain_chart chart.now) marks.items []) }
{
    let mut marks = Vec::new(alloc);
    for _ in 0..chart_size(chart) {
        marks.push(Progress::Untouched)?;
    }
    Ok(marks)
}

/// Takes the entry, where it may come next in a run of the valid chart: for each log that the marks stand for, they
/// stand for it with the entry at its end afterwards. False where it may not come next; the marks are then unchanged.
/// Whatever log they stand for, if any, the marks move as the definition `change_by` says.
/// Walks the chart's nodes up to the one that it changes, and takes no memory.
pub fn take_entry(chart: &Chart, marks: &mut [Progress], entry: &LogEntry) -> bool
    requires valid { IsValid (plain_chart chart.now) }
    requires room { length marks.old ≡ size (plain_node chart.now.root) }
    ensures taken { IsTrue result → (log : List LogEntry) → StandsFor (plain_chart chart.now) marks.old log
        → StandsFor (plain_chart chart.now) marks.new (log ++ (entry.now ∷ [])) }
    ensures refused { IsFalse result → (log back : List LogEntry) → StandsFor (plain_chart chart.now) marks.old log
        → IsPartial (plain_chart chart.now) (log ++ (entry.now ∷ back)) → ⊥ }
    ensures unchanged { IsFalse result → marks.new ≡ marks.old }
    ensures moves { (i : ℕ) → marks_of marks.new i
        ≡ moved (marks_of marks.old)
        (change_by (course_of (plain_chart chart.now)) (marks_of marks.old) (with_condition entry.now)) i }
{
    match follow(&chart.root, 0, marks, entry).change() {
        Some(change) => {
            make(marks, change);
            true
        }
        None => false,
    }
}

/// Whether the valid chart is done: exactly where each log that the marks stand for is a complete run.
pub fn is_done(chart: &Chart, marks: &[Progress]) -> bool
    requires valid { IsValid (plain_chart chart.now) }
    requires room { length marks.now ≡ size (plain_node chart.now.root) }
    ensures done { IsTrue result → (log : List LogEntry) → StandsFor (plain_chart chart.now) marks.now log
        → IsComplete (plain_chart chart.now) log }
    ensures complete { (log : List LogEntry) → StandsFor (plain_chart chart.now) marks.now log
        → IsComplete (plain_chart chart.now) log → IsTrue result }
{
    // Asked with an entry that is of no node.
    follow(&chart.root, 0, marks, &LogEntry::StopAsked).is_done()
}
