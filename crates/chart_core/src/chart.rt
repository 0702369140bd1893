//! Charts with their roles.
ghost use Rattle.std.specs.Prelude.{IsTrue};
ghost use Rattle.chart_core.specs.Roles.{has_form};

use super::node::Node;
use super::role::Role;

/// A chart: its roles, and its nodes under one root.
///
/// It has 1 to 64 distinct roles, each list of nodes, arms, settings and conditions is as long as its kind allows, and
/// procedures are from 1 (`specs/Form.antt`). Whether the chart is valid is a separate question: `Chart::valid`.
#[derive(Drop)]
pub struct Chart {
    /// 1 to 64, no two of one name.
    pub roles: Vec<Role>,
    /// The node that is run; the other nodes are under it.
    pub root: Node,
    pub ghost form: { IsTrue (has_form roles.items root) },
}
