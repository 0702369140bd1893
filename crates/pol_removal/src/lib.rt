//! The laws of taking modules out of a journal: the lines of some modules, of the batches that hold or watch them, and
//! the lines that were refused for another's sake. `specs/Removal.antt` defines what is taken out, and that this takes
//! out just the output lines of these lines is the contract of functions with an empty body. Another law says the same
//! of the events of any batches.
//!
//! It knows nothing of how an answer is found.
//!
//! Laws alone: no test tries them.
#![tactic(auto)]

ghost use Rattle.pol_removal.specs.Removal.{RemovalOfBatches, RemovalOfEvents, RemovalOfLines};

/// The run of the events that don't concern some modules is the run of all events without the concerned entries, where
/// the events are orderly, as those that lines say are.
pub fn removal_of_events()
    ensures { RemovalOfEvents }
{}

/// The run of the events that are of none of some batches, open or closed, is the run of all events without the entries
/// of these batches and without those that were refused for another's sake, where the events are orderly.
pub fn removal_of_batches()
    ensures { RemovalOfBatches }
{}

/// Taking out the lines that concern some modules takes out just their output lines.
pub fn removal_of_lines()
    ensures { RemovalOfLines }
{}
