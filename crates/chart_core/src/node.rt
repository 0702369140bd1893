//! The nodes of a chart.
use super::condition::Condition;
use mtp_codes::{Name, Setting};

/// A step: one procedure of one service of the module that plays `role`, with the parameters that it sets. `finish` is
/// the condition on which the step is completed by command; a step without one waits until the service completes.
#[derive(Drop)]
pub struct Step {
    /// The name by which logs and answers identify the step.
    pub name: Name,
    /// The role whose module has the service.
    pub role: Name,
    /// A service of that module.
    pub service: Name,
    /// The number of the procedure, from 1 to 65535.
    pub procedure: u16,
    /// The parameters that are set before the start; the others keep the values that the module has.
    pub settings: Vec<Setting>,
    /// Where it is given, the step completes its service as soon as this holds.
    pub finish: Option<Condition>,
}

/// A node of a chart: a step, its children in sequence, in parallel, a selection of one arm, or a loop that runs its
/// body until the condition holds after it.
///
/// Nodes are numbered from 0, a node before its children, children from first to last: this is chart order.
#[derive(Drop)]
#[cycle(node)]
pub enum Node {
    Step(Step),
    Seq(Vec<Node>),
    Par(Vec<Node>),
    Sel(Vec<Arm>),
    Loop(Box<Node>, Condition),
}

/// An arm of a selection, taken where its condition holds and those of the arms before it don't.
#[derive(Drop)]
#[cycle(node)]
pub struct Arm {
    /// The condition on which the arm is taken.
    pub when: Condition,
    /// What is run where it is taken.
    pub body: Node,
}
