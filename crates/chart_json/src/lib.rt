//! Reading and writing recipe charts in JSON: roles, nodes and conditions.
//!
//! The forms are `roles_of`, `tree_of` and `chart_of` in `specs/Form.antt`, the written forms are in
//! `specs/Written.antt`. `read_chart` gives what the form gives, the chart or the first fault in reading order with its
//! path, and a chart that is read is always formed; by its form, what `write_chart` writes is the chart again. Whether
//! a chart is valid is not asked here. The crate knows nothing of modules, plants or event lines.
//!
//! Tried in `chart_examples`.
#![tactic(auto)]

mod charts;
mod conditions;
mod lists;
mod nodes;
mod roles;
mod settings;
mod sizes;
mod steps;
mod words;
mod writing;
mod written_conditions;
mod written_nodes;
mod written_steps;

pub use charts::{make_chart, node_at, read_chart, roles_at};
pub use nodes::read_node;
pub use roles::read_roles;
pub use writing::write_chart;
