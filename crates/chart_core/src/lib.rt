//! Recipe charts: what a batch runs, as steps in sequence, in parallel, by choice and in loops (after the procedure
//! function charts of ISA-88, IEC 61512-2); with the entries of a batch's log, what a batch does next and how it is
//! closed, and which words of entries are runs of a chart.
//!
//! It knows nothing of modules, plants or any text form. `Chart::valid` answers exactly the first fault of a chart.
//! Complete and partial runs (`specs/Runs.antt`) and how far each node has come are defined here, for the crates that
//! judge a whole word and for those that follow one entry by entry; the laws of valid charts are here too.
//!
//! Tried in `chart_examples`.
#![tactic(auto)]

mod chart;
mod condition;
mod entry;
mod fault;
mod finding;
mod following;
mod laws;
mod limits;
mod marks;
mod next;
mod node;
mod numbers;
mod order;
mod progress;
mod readings;
mod reads;
mod role;
mod size;
mod steps;
mod truth;
mod valid;
mod why;

pub use chart::Chart;
pub use condition::{Condition, Op};
pub use entry::LogEntry;
pub use fault::ChartFault;
pub use finding::{StepTest, find_step, has_passing};
pub use laws::{names_are_distinct, nothing_is_partial, steps_have_roles};
pub use limits::{
    DEEPEST_CONDITION, DEEPEST_NODE, LONGEST_WANTED, MOST_ARMS, MOST_JOINED, MOST_NODES,
    MOST_READS, MOST_ROLES, MOST_SETTINGS, MOST_STEPS, MOST_TESTS,
};
pub use marks::{chart_size, is_done, take_entry, untouched};
pub use next::{Next, Outcome};
pub use node::{Arm, Node, Step};
pub use numbers::step_number;
pub use order::{is_active, steps_in_order};
pub use progress::{Change, Progress};
pub use readings::Readings;
pub use reads::{Read, Reads, place_among, reads_of_arms, reads_of_condition};
pub use role::Role;
pub use size::{arms_count, node_count, node_sizes};
pub use truth::{is_true, passes};
pub use why::Why;
