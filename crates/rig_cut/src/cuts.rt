//! Which links are cut.
ghost use Rattle.std.specs.Prelude.{◌≡◌, ◌<◌, ◌^◌, map, length, IfOk};
ghost use Rattle.std.specs.List.{All, range_with_len};
ghost use Rattle.rig_cycles.specs.Walk.{IsAcyclic};
ghost use Rattle.rig_cycles.specs.Order.{IsTopologicalOrder};
ghost use Rattle.rig_cut.specs.Links.{is_cut, inner_of, kept_of};
ghost use Rattle.rig_cut.specs.Graphs.{ends_of_links};

use crate::graph::Graph;
use crate::links::{Cut, Link};
use crate::nodes::NodeSet;
use crate::order::topological_order;
use crate::walk::is_led;
use rig_io::{List, NoMemory};
use std::alloc::{AllocError, Global};

/// Which links are references.
fn references(alloc: Global, links: &[Link]) -> Result<Vec<bool>, AllocError>
    ensures { IfOk result (λ v. v.items ≡ map (λ l. l.reference) links.now) }
{
    links.iter().map(|l| l.reference).collect(alloc)
}

/// Goes through the references in order, and keeps those that close no cycle with what is kept.
fn mark_cuts(cuts: &mut [bool], found: &mut NodeSet, graph: &Graph, links: &[Link])
    requires same_links { graph.now ≡ ends_of_links graph.now.nodes links.now }
    requires in_range { All (λ l. (l.source < graph.now.nodes) × (l.reader < graph.now.nodes)) links.now }
    requires same_nodes { found.old.count ≡ graph.now.nodes }
    requires references { cuts.old ≡ map (λ l. l.reference) links.now }
    requires inner { IsAcyclic (inner_of links.now) }
    ensures { cuts.new ≡ map (is_cut links.now) links.now }
{
    for i in 0..links.len() {
        let link = links[i];
        if link.reference {
            cuts[i] = is_led(found, graph, cuts, link.source, link.reader);
        }
    }
}

/// For each link whether it is cut.
fn cut_marks(alloc: Global, graph: &Graph, links: &[Link]) -> Result<Vec<bool>, NoMemory>
    requires same_links { graph.now ≡ ends_of_links graph.now.nodes links.now }
    requires in_range { All (λ l. (l.source < graph.now.nodes) × (l.reader < graph.now.nodes)) links.now }
    requires inner { IsAcyclic (inner_of links.now) }
    ensures { IfOk result (λ v. v.items ≡ map (is_cut links.now) links.now) }
{
    let mut cuts = references(alloc, links)?;
    let mut found = NodeSet::new(alloc, graph.nodes())?;
    mark_cuts(cuts.as_mut_slice(), &mut found, graph, links);
    Ok(cuts)
}

/// Which of these links between so many nodes are cut, and an order of evaluation by the others.
///
/// The references are tested in the order in which they are given. One is cut where its source leads to its reader by the
/// inner links and by the references that were kept before it, or is its reader.
///
/// The caller guarantees that the inner links make no cycle.
///
/// # Errors
///
/// [`NoMemory`] where memory is refused.
///
/// # Examples
///
/// With 2 read by 1, 3 by 2, 1 by 3 and 3 by 1, all references, the third is cut, and the order is 0, 3, 2, 1.
pub fn cut(alloc: Global, nodes: u32, links: &[Link]) -> Result<Cut, NoMemory>
    requires in_range { All (λ l. (l.source < nodes) × (l.reader < nodes)) links.now }
    requires inner { IsAcyclic (inner_of links.now) }
    requires few { length links.now < 2 ^ 32 }
    ensures cuts { IfOk result (λ c. c.cuts ≡ map (is_cut links.now) links.now) }
    ensures order { IfOk result (λ c. IsTopologicalOrder (range_with_len 0 nodes) (kept_of links.now) c.order) }
{
    let graph = Graph::new(alloc, nodes, links)?;
    let cuts = cut_marks(alloc, &graph, links)?;
    let order = topological_order(alloc, &graph, &cuts)?;
    Ok(Cut {
        cuts: List::from(cuts),
        order,
    })
}
