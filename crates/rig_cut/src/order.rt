//! An order of evaluation: each node after the sources of its kept links.
ghost use Rattle.std.specs.Prelude.{◌≡◌, ℕ, ◌+◌, ◌<◌, ◌≤◌, ◌^◌, List as ListOf, [], length, replicate, slice_index, nat_eq, IfOk};
ghost use Rattle.std.specs.List.{All, count_by, range_with_len};
ghost use Rattle.rig_cycles.specs.Cut.{Arrow};
ghost use Rattle.rig_cycles.specs.Walk.{IsAcyclic};
ghost use Rattle.rig_cycles.specs.Order.{IsTopologicalOrder};
ghost use Rattle.rig_cut.specs.NodeSets.{Begins};
ghost use Rattle.rig_cut.specs.Graphs.{IsListing};
ghost use Rattle.rig_cut.specs.Release.{is_kept_into, pending_after, AreReady, IsReleased};

use crate::graph::Graph;
use crate::nodes::NodeSet;
use rig_io::{List, NoMemory};
use std::alloc::{AllocError, Global};

fn zeros(alloc: Global, count: usize) -> Result<Vec<u32>, AllocError>
    ensures { IfOk result (λ v. v.items ≡ replicate count 0) }
{
    vec![in alloc; 0; count]
}

/// For each node the number of links into it that aren't cut.
fn pending_counts(alloc: Global, graph: &Graph, cuts: &[bool]) -> Result<Vec<u32>, AllocError>
    requires { length cuts.now ≡ length graph.now.sources }
    ensures len { IfOk result (λ v. length v.items ≡ graph.now.nodes) }
    ensures counts { IfOk result (λ v. (n : ℕ) → n < graph.now.nodes →
        slice_index v.items n ≡ pending_after graph.now cuts.now [] n) }
{
    let mut pending = zeros(alloc, graph.nodes() as usize)?;
    let readers = graph.readers();
    for link in 0..readers.len() {
        if !cuts[link] {
            pending[readers[link] as usize] += 1;
        }
    }
    Ok(pending)
}

/// Adds the nodes for which nothing is pending.
fn add_ready(order: &mut NodeSet, pending: &[u32])
    requires empty { order.old.members ≡ [] }
    requires all_nodes { length pending.now ≡ order.old.count }
    requires few { order.old.count < 2 ^ 32 }
    ensures count { order.new.count ≡ order.old.count }
    ensures ready { AreReady order.old.count pending.now order.new.members }
{
    for node in 0..pending.len() {
        if pending[node] == 0 {
            order.add(node as u32);
        }
    }
}

/// Takes those of these links that aren't cut from what is pending, and adds the nodes for which nothing else is.
fn release(order: &mut NodeSet, pending: &mut [u32], graph: &Graph, cuts: &[bool], links: &[u32])
    requires same_nodes { order.old.count ≡ graph.now.nodes }
    requires all_nodes { length pending.old ≡ graph.now.nodes }
    requires all_links { length cuts.now ≡ length graph.now.sources }
    requires in_range { All (λ j. j < length graph.now.sources) links.now }
    requires pending { (n : ℕ) → n < graph.now.nodes →
        count_by (is_kept_into graph.now cuts.now n) links.now ≤ slice_index pending.old n }
    requires ready { AreReady graph.now.nodes pending.old order.old.members }
    ensures count { order.new.count ≡ order.old.count }
    ensures pending { (n : ℕ) → n < graph.now.nodes →
        slice_index pending.new n + count_by (is_kept_into graph.now cuts.now n) links.now ≡ slice_index pending.old n }
    ensures ready { AreReady graph.now.nodes pending.new order.new.members }
    ensures first { Begins order.old.members order.new.members }
{
    let readers = graph.readers();
    for link in links {
        if !cuts[*link as usize] {
            let reader = readers[*link as usize];
            pending[reader as usize] -= 1;
            if pending[reader as usize] == 0 {
                order.add(reader);
            }
        }
    }
}

/// Goes through the nodes in order, and adds each node for which nothing is pending any more.
fn release_all(order: &mut NodeSet, pending: &mut [u32], graph: &Graph, cuts: &[bool])
    requires same_nodes { order.old.count ≡ graph.now.nodes }
    requires all_nodes { length pending.old ≡ graph.now.nodes }
    requires all_links { length cuts.now ≡ length graph.now.sources }
    requires begun { IsReleased graph.now cuts.now pending.old order.old.members 0 }
    ensures count { order.new.count ≡ order.old.count }
    ensures released { IsReleased graph.now cuts.now pending.new order.new.members (length order.new.members) }
{
    let mut next = 0;
    while next < order.len() {
        let node = order.get(next);
        release(order, pending, graph, cuts, graph.out_links(node));
        next += 1;
    }
}

/// The nodes in an order in which the sources of the links that aren't cut stand before their readers.
///
/// # Errors
///
/// [`NoMemory`] where memory is refused.
pub fn topological_order(alloc: Global, graph: &Graph, cuts: &[bool]) -> Result<List<u32>, NoMemory>
    requires all_links { length cuts.now ≡ length graph.now.sources }
    ensures { IfOk result (λ order. (reads : ListOf (Arrow ℕ)) → IsListing graph.now cuts.now reads → IsAcyclic reads →
        IsTopologicalOrder (range_with_len 0 graph.now.nodes) reads order) }
{
    let mut pending = pending_counts(alloc, graph, cuts)?;
    let mut order = NodeSet::new(alloc, graph.nodes())?;
    add_ready(&mut order, &pending);
    release_all(&mut order, pending.as_mut_slice(), graph, cuts);
    Ok(order.into_list())
}
