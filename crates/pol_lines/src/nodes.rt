//! Nodes at the front of a text.
ghost use Rattle.std.specs.Prelude.{◌≡◌, ◌≤◌, ◌+◌, ◌*◌, [], IfSome, length, map};
ghost use Rattle.chart_core.specs.Formulas.{plain_condition};
ghost use Rattle.chart_core.specs.Trees.{Tree, arms, choice, leaf, loop, par, plain_arm, plain_node, plain_step, seq};
ghost use Rattle.chart_core.specs.Trees.{trees};
ghost use Rattle.chart_core.specs.declared.limits.TheConstants.{MOST_ARMS};
ghost use Rattle.chart_json.specs.Form.{arm_of, condition_of, tree_of};
ghost use Rattle.pol_lines.specs.Begins.{Closes, Reads, ReadsList, last_of};

use crate::conditions::read_condition;
use crate::lists::Front;
use crate::pieces::{eat, last};
use crate::steps::read_step;
use chart_core::{Arm, Condition, DEEPEST_NODE, MOST_ARMS, MOST_STEPS, Node, Step};
use std::alloc::Global;

fn in_sequence(nodes: Vec<Node>) -> Node
    ensures { plain_node result ≡ seq (trees nodes.items) }
{
    let mut nodes = nodes;
    nodes.shrink_to_fit();
    Node::Seq(nodes)
}

fn in_parallel(nodes: Vec<Node>) -> Node
    ensures { plain_node result ≡ par (trees nodes.items) }
{
    let mut nodes = nodes;
    nodes.shrink_to_fit();
    Node::Par(nodes)
}

fn by_choice(each: Vec<Arm>) -> Node
    ensures { plain_node result ≡ choice (arms each.items) }
{
    let mut each = each;
    each.shrink_to_fit();
    Node::Sel(each)
}

fn in_loop(alloc: Global, body: Node, until: Condition) -> Option<Node>
    ensures { IfSome result (λ node. plain_node node ≡ loop (plain_node body) (plain_condition until)) }
{
    match Box::new(alloc, body) {
        Ok(body) => Some(Node::Loop(body, until)),
        Err(_) => None,
    }
}

fn of_step(step: Step) -> Node
    ensures { plain_node result ≡ leaf (plain_step step) }
{
    Node::Step(step)
}

fn of_arm(when: Condition, body: Node) -> Arm
    ensures { plain_arm result ≡ record { when = plain_condition when; body = plain_node body } }
{
    Arm { when, body }
}

/// The condition behind a key that closes an object, with how many bytes follow the object.
fn read_closing(alloc: Global, text: &[u8], key: &[u8]) -> Option<(Condition, usize)>
    ensures { IfSome result
        (λ read. Closes condition_of 15 key.now text.now (plain_condition read.0) read.1) }
{
    let inner = eat(text, key)?;
    let (condition, left) = read_condition(alloc, inner)?;
    let rest = eat(last(inner, left), b"}")?;
    Some((condition, rest.len()))
}

/// Reads at most 256 nodes into an empty list; it answers what follows them.
#[cycle(node)]
fn read_inner<'a>(
    alloc: Global,
    text: &'a [u8],
    levels: u32,
    nodes: &mut Vec<Node>,
) -> Option<&'a [u8]>
    requires { nodes.old.items ≡ [] }
    ensures { IfSome result
        (λ rest. ReadsList tree_of (3 * levels + 17) text.now (map plain_node nodes.new.items) rest.now) }
{
    let mut rest = eat(text, b"[")?;
    for _ in 0..MOST_STEPS {
        let (node, left) = read_node(alloc, rest, levels)?;
        let Ok(()) = nodes.push(node) else {
            return None;
        };
        match last(rest, left) {
            [b',', more @ ..] => rest = more,
            [b']', more @ ..] => return Some(more),
            _ => return None,
        }
    }
    None
}

/// The nodes in sequence at the front of a text, with how many bytes follow them.
#[cycle(node)]
fn read_seq(alloc: Global, text: &[u8], levels: u32) -> Option<(Node, usize)>
    ensures { IfSome result
        (λ read. Reads tree_of (3 * levels + 19) text.now (plain_node read.0) (last_of read.1 text.now)) }
{
    let inner = eat(text, b"{\"seq\":")?;
    let mut nodes = Vec::new(alloc);
    let rest = read_inner(alloc, inner, levels, &mut nodes)?;
    let rest = eat(rest, b"}")?;
    if nodes.is_empty() {
        return None;
    }
    Some((in_sequence(nodes), rest.len()))
}

/// The nodes in parallel at the front of a text, with how many bytes follow them.
#[cycle(node)]
fn read_par(alloc: Global, text: &[u8], levels: u32) -> Option<(Node, usize)>
    ensures { IfSome result
        (λ read. Reads tree_of (3 * levels + 19) text.now (plain_node read.0) (last_of read.1 text.now)) }
{
    let inner = eat(text, b"{\"par\":")?;
    let mut nodes = Vec::new(alloc);
    let rest = read_inner(alloc, inner, levels, &mut nodes)?;
    let rest = eat(rest, b"}")?;
    if nodes.len() < 2 {
        return None;
    }
    Some((in_parallel(nodes), rest.len()))
}

/// The arm at the front of a text, whose node comes behind its condition, with how many bytes follow it.
#[cycle(node)]
fn read_when_first(alloc: Global, text: &[u8], levels: u32) -> Option<(Arm, usize)>
    ensures { IfSome result
        (λ read. Reads (arm_of tree_of) (3 * levels + 17) text.now (plain_arm read.0) (last_of read.1 text.now)) }
{
    let inner = eat(text, b"{\"when\":")?;
    let (when, left) = read_condition(alloc, inner)?;
    let then = eat(last(inner, left), b",\"then\":")?;
    let (body, left) = read_node(alloc, then, levels)?;
    let rest = eat(last(then, left), b"}")?;
    Some((of_arm(when, body), rest.len()))
}

/// The arm at the front of a text, whose condition comes behind its node, with how many bytes follow it.
#[cycle(node)]
fn read_then_first(alloc: Global, text: &[u8], levels: u32) -> Option<(Arm, usize)>
    ensures { IfSome result
        (λ read. Reads (arm_of tree_of) (3 * levels + 17) text.now (plain_arm read.0) (last_of read.1 text.now)) }
{
    let inner = eat(text, b"{\"then\":")?;
    let (body, left) = read_node(alloc, inner, levels)?;
    let (when, left) = read_closing(alloc, last(inner, left), b",\"when\":")?;
    Some((of_arm(when, body), left))
}

/// The arm at the front of a text, with how many bytes follow it.
#[cycle(node)]
fn read_arm(alloc: Global, text: &[u8], levels: u32) -> Option<(Arm, usize)>
    ensures { IfSome result
        (λ read. Reads (arm_of tree_of) (3 * levels + 17) text.now (plain_arm read.0) (last_of read.1 text.now)) }
{
    // The first letter of the key, behind the brace and the quote.
    match text {
        [_, _, b'w', ..] => read_when_first(alloc, text, levels),
        _ => read_then_first(alloc, text, levels),
    }
}

/// Reads at most 16 arms into an empty list; it answers what follows them.
#[cycle(node)]
fn read_arms<'a>(
    alloc: Global,
    text: &'a [u8],
    levels: u32,
    each: &mut Vec<Arm>,
) -> Option<&'a [u8]>
    requires { each.old.items ≡ [] }
    ensures list { IfSome result
        (λ rest. ReadsList (arm_of tree_of) (3 * levels + 18) text.now (map plain_arm each.new.items) rest.now) }
    ensures some { IfSome result (λ _. 1 ≤ length each.new.items) }
    ensures few { IfSome result (λ _. length each.new.items ≤ MOST_ARMS) }
{
    let mut rest = eat(text, b"[")?;
    while each.len() < MOST_ARMS {
        let (arm, left) = read_arm(alloc, rest, levels)?;
        let Ok(()) = each.push(arm) else {
            return None;
        };
        match last(rest, left) {
            [b',', more @ ..] => rest = more,
            [b']', more @ ..] => return Some(more),
            _ => return None,
        }
    }
    None
}

/// The selection at the front of a text, with how many bytes follow it.
#[cycle(node)]
fn read_sel(alloc: Global, text: &[u8], levels: u32) -> Option<(Node, usize)>
    ensures { IfSome result
        (λ read. Reads tree_of (3 * levels + 19) text.now (plain_node read.0) (last_of read.1 text.now)) }
{
    let inner = eat(text, b"{\"sel\":")?;
    let mut each = Vec::new(alloc);
    let rest = read_arms(alloc, inner, levels, &mut each)?;
    let rest = eat(rest, b"}")?;
    Some((by_choice(each), rest.len()))
}

/// The loop at the front of a text, with how many bytes follow it.
#[cycle(node)]
fn read_loop(alloc: Global, text: &[u8], levels: u32) -> Option<(Node, usize)>
    ensures { IfSome result
        (λ read. Reads tree_of (3 * levels + 19) text.now (plain_node read.0) (last_of read.1 text.now)) }
{
    let inner = eat(text, b"{\"loop\":")?;
    let (body, left) = read_node(alloc, inner, levels)?;
    let (until, left) = read_closing(alloc, last(inner, left), b",\"until\":")?;
    let node = in_loop(alloc, body, until)?;
    Some((node, left))
}

/// The step at the front of a text as a node, with how many bytes follow it.
fn read_step_node(alloc: Global, text: &[u8]) -> Option<(Node, usize)>
    ensures { IfSome result
        (λ read. Reads tree_of 16 text.now (plain_node read.0) (last_of read.1 text.now)) }
{
    let (step, left) = read_step(alloc, text)?;
    Some((of_step(step), left))
}

/// The node at the front of a text, with how many bytes follow it: none of its steps lies in more than `levels` other
/// nodes.
#[cycle(node)]
fn read_node(alloc: Global, text: &[u8], levels: u32) -> Option<(Node, usize)>
    ensures { IfSome result
        (λ read. Reads tree_of (3 * levels + 16) text.now (plain_node read.0) (last_of read.1 text.now)) }
{
    // The first letters of the key, behind the brace and the quote, tell which it may be.
    match text {
        [_, _, b's', b'e', b'q', ..] if levels > 0 => read_seq(alloc, text, levels - 1),
        [_, _, b's', b'e', b'l', ..] if levels > 0 => read_sel(alloc, text, levels - 1),
        [_, _, b'p', b'a', ..] if levels > 0 => read_par(alloc, text, levels - 1),
        [_, _, b'l', ..] if levels > 0 => read_loop(alloc, text, levels - 1),
        _ => read_step_node(alloc, text),
    }
}

/// The form of a node at the front of a text: none of its steps lies in more than 16 other nodes.
pub struct NodeFronts;

impl Front for NodeFronts {
    type Item = Node;

    ghost Form = { Tree };

    ghost plain = { plain_node };

    ghost form = { tree_of };

    ghost deep = { 64 };

    fn read(alloc: Global, text: &[u8]) -> Option<(Node, usize)> {
        read_node(alloc, text, DEEPEST_NODE)
    }
}
