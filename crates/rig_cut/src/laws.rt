//! What the marks of links mean: the rule that makes them.
ghost use Rattle.std.specs.Prelude.{◌≡◌, List, map, filter, nat_eq};
ghost use Rattle.rig_cycles.specs.Cut.{cuts_from};
ghost use Rattle.rig_cycles.specs.Walk.{IsAcyclic};
ghost use Rattle.rig_cut.specs.declared.links.Link.{Link};
ghost use Rattle.rig_cut.specs.Links.{arrow_of, inner_of, references_of, is_cut};

/// Where the inner links make no cycle, the links that are marked as cut are, in order, those that the rule cuts. The
/// rule goes through the references in order: one is cut where its source already leads to its reader by kept links, or
/// is its reader, and else it is kept and takes part in later tests.
pub fn the_marked_links_are_the_cuts()
    ensures { (links : List Link) → IsAcyclic (inner_of links) →
        map arrow_of (filter (is_cut links) links) ≡ cuts_from nat_eq (inner_of links) (references_of links) }
{}
