//! What a batch was started with.
ghost use Rattle.std.specs.Prelude.{◌≡◌, length, option_map, slice_get};
ghost use Rattle.std.specs.Map.{keys_of};
ghost use Rattle.pol_history.specs.Batches.{start_of};
ghost use Rattle.pol_history.specs.Looking.{History};
ghost use Rattle.pol_core.specs.Batches.{RunsMirror};
ghost use Rattle.pol_core.specs.Calls.{plain_started};

use indexmap::IndexMap;
use mtp_codes::Name;
use pol_events::Bind;
use pol_runs::Run;

/// What a batch was started with.
#[derive(Clone, Copy, Debug)]
pub struct Started<'a> {
    /// The name of its recipe.
    pub recipe: Name,
    /// The modules that it holds, with their roles.
    pub held: &'a [Bind],
    /// The modules that it only watches, with their roles.
    pub watched: &'a [Bind],
}

/// What a batch was started with; None exactly where it wasn't started.
pub fn batch_start(runs: &IndexMap<Name, Run>, batch: Name) -> Option<Started<'_>>
    ensures { (history : History) → RunsMirror runs.now.entries history
        → option_map plain_started result ≡ start_of history batch }
{
    let run = runs.get(&batch)?;
    Some(Started {
        recipe: run.recipe(),
        held: run.held(),
        watched: run.watched(),
    })
}

/// The batch at this place, from 0, in the order of their starts.
pub fn batch_at(runs: &IndexMap<Name, Run>, place: u32) -> Option<Name>
    ensures { result ≡ slice_get (keys_of runs.now.entries) place }
{
    let (batch, _) = runs.get_index(place as usize)?;
    Some(*batch)
}

/// How many batches were started.
pub fn batch_count(runs: &IndexMap<Name, Run>) -> usize
    ensures { result ≡ length runs.now.entries }
{
    runs.len()
}
