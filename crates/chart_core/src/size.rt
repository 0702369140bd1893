//! How many nodes a tree has, the arms of a selection have, and each node of a chart has.
ghost use Rattle.std.specs.Prelude.{◌≡◌, ◌<◌, ◌^◌, ◌++◌, length, IfOk, OnOk};
ghost use Rattle.chart_core.specs.Charts.{plain_chart};
ghost use Rattle.chart_core.specs.Sizes.{HasSizes, all_sizes_in, arm_sizes_in, sizes_in, sizes_of};
ghost use Rattle.chart_core.specs.Trees.{plain_node, trees, arms, size, sizes, arm_sizes};
ghost use Rattle.chart_core.specs.Valid.{IsValid};

use super::chart::Chart;
use super::node::{Arm, Node};
use std::alloc::{AllocError, Global};

/// How many nodes the tree has, itself among them. Walks them once.
#[cycle(count)]
pub fn node_count(node: &Node) -> u32
    requires { size (plain_node node.now) < 2 ^ 32 }
    ensures { result ≡ size (plain_node node.now) }
{
    match node {
        Node::Step(_) => 1,
        Node::Seq(kids) => 1 + kids_count(kids),
        Node::Par(kids) => 1 + kids_count(kids),
        Node::Sel(each) => 1 + arms_count(each),
        Node::Loop(body, _) => 1 + node_count(body),
    }
}

#[cycle(count)]
fn kids_count(kids: &[Node]) -> u32
    requires { sizes (trees kids.now) < 2 ^ 32 }
    ensures { result ≡ sizes (trees kids.now) }
{
    let mut total = 0;
    for kid in kids {
        total += node_count(kid);
    }
    total
}

/// How many nodes the arms of a selection have. Walks them once.
#[cycle(count)]
pub fn arms_count(each: &[Arm]) -> u32
    requires { arm_sizes (arms each.now) < 2 ^ 32 }
    ensures { result ≡ arm_sizes (arms each.now) }
{
    let mut total = 0;
    for arm in each {
        total += node_count(&arm.body);
    }
    total
}

// Puts the sizes of a tree's nodes behind those that are there, in chart order.
#[cycle(sized)]
fn put_sizes(node: &Node, found: &mut Vec<u32>) -> Result<(), AllocError>
    requires { size (plain_node node.now) < 2 ^ 32 }
    ensures { OnOk result (found.new.items ≡ found.old.items ++ sizes_in (plain_node node.now)) }
{
    found.push(node_count(node))?;
    match node {
        Node::Step(_) => Ok(()),
        Node::Seq(kids) => put_all_sizes(kids, found),
        Node::Par(kids) => put_all_sizes(kids, found),
        Node::Sel(each) => put_arm_sizes(each, found),
        Node::Loop(body, _) => put_sizes(body, found),
    }
}

#[cycle(sized)]
fn put_all_sizes(kids: &[Node], found: &mut Vec<u32>) -> Result<(), AllocError>
    requires { sizes (trees kids.now) < 2 ^ 32 }
    ensures { OnOk result (found.new.items ≡ found.old.items ++ all_sizes_in (trees kids.now)) }
{
    for kid in kids {
        put_sizes(kid, found)?;
    }
    Ok(())
}

#[cycle(sized)]
fn put_arm_sizes(each: &[Arm], found: &mut Vec<u32>) -> Result<(), AllocError>
    requires { arm_sizes (arms each.now) < 2 ^ 32 }
    ensures { OnOk result (found.new.items ≡ found.old.items ++ arm_sizes_in (arms each.now)) }
{
    for arm in each {
        put_sizes(&arm.body, found)?;
    }
    Ok(())
}

/// How many nodes each node of the valid chart has, itself among them, by its number. Walks a node at most once for
/// each level that it lies at.
///
/// # Errors
///
/// AllocError where there is no memory for one number for each node.
pub fn node_sizes(alloc: Global, chart: &Chart) -> Result<Vec<u32>, AllocError>
    requires { IsValid (plain_chart chart.now) }
    ensures room { IfOk result (λ found. length found.items ≡ size (plain_node chart.now.root)) }
    ensures sizes { IfOk result (λ found. HasSizes (plain_node chart.now.root) 0 (sizes_of found.items)) }
{
    let mut found = Vec::new(alloc);
    put_sizes(&chart.root, &mut found)?;
    Ok(found)
}
