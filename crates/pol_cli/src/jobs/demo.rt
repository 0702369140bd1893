//! The demo: a journal that is made from a seed.
ghost use Rattle.pol_jobs.specs.Ends.{Ends, edge};
ghost use Rattle.pol_keep.specs.Exported.{no_input};
ghost use Rattle.pol_cli.specs.Tasks.{demonstrated};

use pol_demo::demo_line;
use pol_io::Sink;
use pol_jobs::{JobFault, close_with};
use std::alloc::Global;
use std::convert::Infallible;

/// Answers the demo journal of a seed, and writes its summary line.
pub fn demonstrate<K: Sink>(
    alloc: Global,
    seed: u32,
    sink: &mut K,
) -> Result<(), JobFault<Infallible, Infallible>>
    ensures { Ends (demonstrated seed) no_input no_input
        (edge (K.held sink.old) (K.faults sink.old)) (edge (K.held sink.new) (K.faults sink.new)) result }
{
    close_with(sink, demo_line(alloc, seed))?;
    Ok(())
}
