//! The active steps of a batch, and what its nodes wait for.
ghost use Rattle.std.specs.Prelude.{◌≡◌, map, IfOk};
ghost use Rattle.pol_history.specs.Looking.{History};
ghost use Rattle.pol_core.specs.Batches.{RunsMirror};
ghost use Rattle.pol_core.specs.Seats.{SeatsMirror};
ghost use Rattle.pol_core.specs.Steps.{active_of, bound_step, waits_of};

use crate::seen::TableSights;
use chart_cursor::{RunningStep, WaitingNode};
use indexmap::IndexMap;
use mtp_codes::Name;
use pol_events::{Bind, bound_tag};
use pol_runs::Run;
use pol_slots::Slot;
use pol_table::Table;
use std::alloc::{AllocError, Global};

/// An active step of a batch.
#[derive(Clone, Copy, Debug, PartialEq, Eq)]
pub struct ActiveStep {
    /// Its name.
    pub step: Name,
    /// The tag of the module that runs it.
    pub tag: Name,
    /// The service of that module that it commands.
    pub service: Name,
}

// A step that runs, by the binds of its batch.
fn bound_step(binds: &[Bind], running: &RunningStep) -> ActiveStep
    ensures { result ≡ bound_step binds.now running.now }
{
    let tag = match bound_tag(binds, running.role) {
        Some(tag) => tag,
        None => running.role,
    };
    ActiveStep {
        step: running.name,
        tag,
        service: running.service,
    }
}

// Steps that run, by the binds of their batch.
fn bound_steps(
    alloc: Global,
    binds: &[Bind],
    running: &[RunningStep],
) -> Result<Vec<ActiveStep>, AllocError>
    ensures { IfOk result (λ steps. steps.items ≡ map (bound_step binds.now) running.now) }
{
    let mut steps = Vec::new(alloc);
    for one in running {
        steps.push(bound_step(binds, one))?;
    }
    Ok(steps)
}

/// The active steps of a batch in chart order; none where it wasn't started.
pub fn active_steps(
    alloc: Global,
    runs: &IndexMap<Name, Run>,
    batch: Name,
) -> Result<Vec<ActiveStep>, AllocError>
    ensures { IfOk result (λ steps. (history : History) → RunsMirror runs.now.entries history
        → steps.items ≡ active_of history batch) }
{
    let Some(run) = runs.get(&batch) else {
        return Ok(Vec::new(alloc));
    };
    let running = run.active_steps(alloc)?;
    bound_steps(alloc, run.binds(), &running)
}

/// The awaited nodes of a batch that aren't ready, each with what stands in its way, in chart order; none where the
/// batch wasn't started, broke, or is to be stopped.
pub fn waiting_nodes(
    alloc: Global,
    modules: &Table<Slot>,
    runs: &IndexMap<Name, Run>,
    batch: Name,
) -> Result<Vec<WaitingNode>, AllocError>
    ensures { IfOk result (λ nodes. (history : History) → SeatsMirror modules.now history
        → RunsMirror runs.now.entries history → nodes.items ≡ waits_of history batch) }
{
    let Some(run) = runs.get(&batch) else {
        return Ok(Vec::new(alloc));
    };
    let seen = TableSights {
        modules,
        binds: run.binds(),
    };
    run.waiting_nodes(alloc, &seen)
}
