//! Whether a list of log entries is a partial or a complete run of a chart (after IEC 61512-2, procedure function
//! charts).
//!
//! It knows nothing of modules, batches or the way in which an entry came to be. Each call answers exactly what the
//! definition by cutting words says: `IsPartial` and `IsComplete` of `chart_core`. An entry of a kind that no run has,
//! such as Stop or Hold, is in no run, so a list with one is neither.
//!
//! Tried in `chart_examples`.
#![tactic(auto)]

ghost use Rattle.std.specs.Prelude.{◌≡◌, ◌↔◌, [], length, IsTrue, IfOk};
ghost use Rattle.chart_core.specs.Trees.{plain_node, size};
ghost use Rattle.chart_core.specs.Charts.{plain_chart};
ghost use Rattle.chart_core.specs.Valid.{IsValid};
ghost use Rattle.chart_core.specs.Runs.{IsPartial, IsComplete};
ghost use Rattle.chart_core.specs.Standing.{StandsFor};

use chart_core::{Chart, LogEntry, Progress, is_done, take_entry, untouched};
use std::alloc::{AllocError, Global};

// Takes the entries as far as each may come, and says whether all did.
fn take_all(chart: &Chart, marks: &mut [Progress], log: &[LogEntry]) -> bool
    requires valid { IsValid (plain_chart chart.now) }
    requires room { length marks.old ≡ size (plain_node chart.now.root) }
    requires empty { StandsFor (plain_chart chart.now) marks.old [] }
    ensures taken { IsTrue result → StandsFor (plain_chart chart.now) marks.new log.now }
    ensures partial { IsPartial (plain_chart chart.now) log.now → IsTrue result }
{
    for entry in log {
        if !take_entry(chart, marks, entry) {
            return false;
        }
    }
    true
}

/// Whether the log is a partial run of the valid chart. Walks the chart's nodes once for each entry.
///
/// # Errors
///
/// AllocError where there is no memory for one mark for each node.
pub fn is_part(alloc: Global, chart: &Chart, log: &[LogEntry]) -> Result<bool, AllocError>
    requires { IsValid (plain_chart chart.now) }
    ensures { IfOk result (λ answer. IsTrue answer ↔ IsPartial (plain_chart chart.now) log.now) }
{
    let mut marks = untouched(alloc, chart)?;
    Ok(take_all(chart, &mut marks, log))
}

// Takes the log, and says whether the chart is then done.
fn ends(chart: &Chart, marks: &mut [Progress], log: &[LogEntry]) -> bool
    requires valid { IsValid (plain_chart chart.now) }
    requires room { length marks.old ≡ size (plain_node chart.now.root) }
    requires empty { StandsFor (plain_chart chart.now) marks.old [] }
    ensures { IsTrue result ↔ IsComplete (plain_chart chart.now) log.now }
{
    if take_all(chart, marks, log) {
        is_done(chart, marks)
    } else {
        false
    }
}

/// Whether the log is a complete run of the valid chart. Walks the chart's nodes once for each entry and once more.
///
/// # Errors
///
/// AllocError where there is no memory for one mark for each node.
pub fn is_whole(alloc: Global, chart: &Chart, log: &[LogEntry]) -> Result<bool, AllocError>
    requires { IsValid (plain_chart chart.now) }
    ensures { IfOk result (λ answer. IsTrue answer ↔ IsComplete (plain_chart chart.now) log.now) }
{
    let mut marks = untouched(alloc, chart)?;
    Ok(ends(chart, &mut marks, log))
}
