//! Which steps a chart has: by name, by role and service, and in which branch.
//!
//! Nodes are counted down from a number that is asked for, so that a chart of any size can be asked.
ghost use Rattle.std.specs.Prelude.{ℕ, ◌≡◌, ◌-◌, ◌≤◌, not};
ghost use Rattle.mtp_codes.specs.Faults.{when};
ghost use Rattle.chart_core.specs.Finding.{is_of_service};
ghost use Rattle.chart_core.specs.Seeking.{sought};
ghost use Rattle.chart_core.specs.Trees.{plain_node, trees, arms, size, sizes, arm_sizes};
ghost use Rattle.chart_core.specs.Valid.{has_name, some_has_name, arm_has_name, uses, some_uses, clashes, clashes_in_turn, clashes_at_once, clashes_in_arms};

use super::finding::{StepTest, has_passing};
use super::node::{Arm, Node, Step};
use mtp_codes::Name;

// How many of `count` nodes are left behind this tree; None where one of the first `count` is a step with this name.
#[cycle(named)]
fn left_unnamed(node: &Node, count: u32, name: Name) -> Option<u32>
    ensures { result ≡ when (not (has_name (plain_node node.now) count name)) (count - size (plain_node node.now)) }
{
    if count == 0 {
        return Some(0);
    }
    match node {
        Node::Step(step) => {
            if step.name == name {
                None
            } else {
                Some(count - 1)
            }
        }
        Node::Seq(kids) => all_left_unnamed(kids, count - 1, name),
        Node::Par(kids) => all_left_unnamed(kids, count - 1, name),
        Node::Sel(each) => arms_left_unnamed(each, count - 1, name),
        Node::Loop(body, _) => left_unnamed(body, count - 1, name),
    }
}

#[cycle(named)]
fn all_left_unnamed(kids: &[Node], count: u32, name: Name) -> Option<u32>
    ensures { result ≡ when (not (some_has_name (trees kids.now) count name)) (count - sizes (trees kids.now)) }
{
    let mut left = count;
    for kid in kids {
        left = left_unnamed(kid, left, name)?;
    }
    Some(left)
}

#[cycle(named)]
fn arms_left_unnamed(each: &[Arm], count: u32, name: Name) -> Option<u32>
    ensures { result ≡ when (not (arm_has_name (arms each.now) count name)) (count - arm_sizes (arms each.now)) }
{
    let mut left = count;
    for arm in each {
        left = left_unnamed(&arm.body, left, name)?;
    }
    Some(left)
}

/// Whether one of the first `count` nodes of the tree is a step with this name. Visits each node at most once, and of a
/// tree behind them its first node alone.
pub fn is_named(node: &Node, count: u32, name: Name) -> bool
    ensures { result ≡ has_name (plain_node node.now) count name }
{
    left_unnamed(node, count, name).is_none()
}

// The steps of a service of a role.
#[derive(Clone, Copy)]
struct OfService {
    role: Name,
    service: Name,
}

impl StepTest for OfService {
    ghost test = { λ wanted step. is_of_service wanted.role wanted.service step };

    fn passes(&self, step: &Step) -> bool {
        step.role == self.role && step.service == self.service
    }
}

// Whether some step of the tree has this role and this service.
#[tactic(auto, using(crate::proofs::Passing::uses_is))]
fn is_used(node: &Node, role: Name, service: Name) -> bool
    ensures { result ≡ uses (plain_node node.now) role service }
{
    let wanted = OfService { role, service };
    has_passing(node, &wanted)
}

// Whether some step of these trees has this role and this service.
fn is_used_among(kids: &[Node], role: Name, service: Name) -> bool
    ensures { result ≡ some_uses (trees kids.now) role service }
{
    for kid in kids {
        if is_used(kid, role, service) {
            return true;
        }
    }
    false
}

// Where a place is that was sought in a tree.
#[derive(Clone, Copy)]
enum Sought {
    // In the tree; and whether it clashes there.
    Within { clash: bool },
    // Behind the tree, with so many nodes left between them.
    Beyond { left: u32 },
}

// Where the place is, and whether a branch before it has a step of this role and service.
#[cycle(clash)]
fn seek_clash(node: &Node, place: u32, role: Name, service: Name) -> Sought
    ensures { result ≡ sought place (size (plain_node node.now)) (clashes (plain_node node.now) place role service) }
{
    if place == 0 {
        return Sought::Within { clash: false };
    }
    match node {
        Node::Step(_) => Sought::Beyond { left: place - 1 },
        Node::Seq(kids) => seek_clash_in_turn(kids, place - 1, role, service),
        Node::Par(kids) => seek_clash_at_once(kids, place - 1, role, service),
        Node::Sel(each) => seek_clash_in_arms(each, place - 1, role, service),
        Node::Loop(body, _) => seek_clash(body, place - 1, role, service),
    }
}

#[cycle(clash)]
fn seek_clash_in_turn(kids: &[Node], place: u32, role: Name, service: Name) -> Sought
    ensures { result ≡ sought place (sizes (trees kids.now)) (clashes_in_turn (trees kids.now) place role service) }
{
    let mut left = place;
    for kid in kids {
        match seek_clash(kid, left, role, service) {
            Sought::Within { clash } => return Sought::Within { clash },
            Sought::Beyond { left: behind } => left = behind,
        }
    }
    Sought::Beyond { left }
}

// Asks about the branches before the place only once it is found, and does not clash already.
#[cycle(clash)]
fn seek_clash_at_once(kids: &[Node], place: u32, role: Name, service: Name) -> Sought
    ensures { result ≡ sought place (sizes (trees kids.now)) (clashes_at_once (trees kids.now) place role service) }
{
    let mut left = place;
    for (i, kid) in kids.iter().enumerate() {
        match seek_clash(kid, left, role, service) {
            Sought::Within { clash } => {
                return Sought::Within {
                    clash: clash || is_used_among(&kids[..i], role, service),
                };
            }
            Sought::Beyond { left: behind } => left = behind,
        }
    }
    Sought::Beyond { left }
}

#[cycle(clash)]
fn seek_clash_in_arms(each: &[Arm], place: u32, role: Name, service: Name) -> Sought
    ensures { result ≡ sought place (arm_sizes (arms each.now)) (clashes_in_arms (arms each.now) place role service) }
{
    let mut left = place;
    for arm in each {
        match seek_clash(&arm.body, left, role, service) {
            Sought::Within { clash } => return Sought::Within { clash },
            Sought::Beyond { left: behind } => left = behind,
        }
    }
    Sought::Beyond { left }
}

// What `has_clash` answers of a place behind the tree: before it are all branches of a parallel that is the whole tree,
// or the body of a loop that is.
fn has_clash_behind(node: &Node, role: Name, service: Name) -> bool
    ensures { (place : ℕ) → size (plain_node node.now) ≤ place
        → result ≡ clashes (plain_node node.now) place role service }
{
    match node {
        Node::Step(_) => false,
        Node::Seq(_) => false,
        Node::Par(kids) => is_used_among(kids, role, service),
        Node::Sel(_) => false,
        Node::Loop(body, _) => has_clash_behind(body, role, service),
    }
}

/// Whether the step at this place of the tree clashes: a branch before its own, in a parallel above it, has a step of
/// this role and service. Visits each node at most twice: to find the place, and as one of a branch before it.
pub fn has_clash(node: &Node, place: u32, role: Name, service: Name) -> bool
    ensures { result ≡ clashes (plain_node node.now) place role service }
{
    match seek_clash(node, place, role, service) {
        Sought::Within { clash } => clash,
        Sought::Beyond { .. } => has_clash_behind(node, role, service),
    }
}
