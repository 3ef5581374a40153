//! Walks along kept links, each from its reader to its source.
ghost use Rattle.std.specs.Prelude.{◌≡◌, ℕ, ◌<◌, List, length, nat_eq, not};
ghost use Rattle.std.specs.List.{All, list_any};
ghost use Rattle.rig_cycles.specs.Cut.{Arrow, leads};
ghost use Rattle.rig_cut.specs.Graphs.{IsListing, flag};
ghost use Rattle.rig_cut.specs.Search.{with_sources};

use crate::graph::Graph;
use crate::nodes::NodeSet;

/// Adds the sources of those of these links that aren't cut.
fn add_sources(found: &mut NodeSet, graph: &Graph, cuts: &[bool], links: &[u32])
    requires same_nodes { found.old.count ≡ graph.now.nodes }
    requires all_links { length cuts.now ≡ length graph.now.sources }
    requires in_range { All (λ j. j < length graph.now.sources) links.now }
    ensures count { found.new.count ≡ found.old.count }
    ensures members { found.new.members ≡ with_sources graph.now cuts.now found.old.members links.now }
{
    let sources = graph.sources();
    for link in links {
        if !cuts[*link as usize] {
            found.add(sources[*link as usize]);
        }
    }
}

/// Whether one of these links isn't cut.
fn is_any_kept(cuts: &[bool], links: &[u32]) -> bool
    requires { All (λ j. j < length cuts.now) links.now }
    ensures { result ≡ list_any (λ j. not (flag cuts.now j)) links.now }
{
    for link in links {
        if !cuts[*link as usize] {
            return true;
        }
    }
    false
}

/// Whether a walk along links that aren't cut leads from one node to another. What was found before is cleared.
fn is_reached(found: &mut NodeSet, graph: &Graph, cuts: &[bool], start: u32, end: u32) -> bool
    requires same_nodes { found.old.count ≡ graph.now.nodes }
    requires all_links { length cuts.now ≡ length graph.now.sources }
    requires start { start < graph.now.nodes }
    requires end { end < graph.now.nodes }
    ensures count { found.new.count ≡ found.old.count }
    ensures leads { (reads : List (Arrow ℕ)) → IsListing graph.now cuts.now reads →
        result ≡ leads nat_eq reads start end }
{
    found.clear();
    found.add(start);
    let mut next = 0;
    while next < found.len() && !found.contains(end) {
        add_sources(found, graph, cuts, graph.in_links(found.get(next)));
        next += 1;
    }
    found.contains(end)
}

/// Whether links that aren't cut lead from one node to another. Where the other is the source of none of them, nothing else leads
/// to it, and no walk is made.
pub fn is_led(found: &mut NodeSet, graph: &Graph, cuts: &[bool], start: u32, end: u32) -> bool
    requires same_nodes { found.old.count ≡ graph.now.nodes }
    requires all_links { length cuts.now ≡ length graph.now.sources }
    requires start { start < graph.now.nodes }
    requires end { end < graph.now.nodes }
    ensures count { found.new.count ≡ found.old.count }
    ensures leads { (reads : List (Arrow ℕ)) → IsListing graph.now cuts.now reads →
        result ≡ leads nat_eq reads start end }
{
    if start == end || is_any_kept(cuts, graph.out_links(end)) {
        is_reached(found, graph, cuts, start, end)
    } else {
        false
    }
}
