//! Links of a graph, and what a cut of them gives.
use rig_io::List;

/// A relation of a dependency graph, between numbered nodes: the reader is evaluated after the source.
#[derive(Clone, Copy, Debug, PartialEq, Eq)]
pub struct Link {
    /// The node that is read.
    pub source: u32,
    /// The node that reads it.
    pub reader: u32,
    /// Whether the link is cut where it closes a cycle. One that is no reference is always kept.
    pub reference: bool,
}

/// Which links are cut, and an order of evaluation.
#[derive(Debug, Drop)]
pub struct Cut {
    /// For each link, in the order in which they were given, whether it is cut.
    pub cuts: List<bool>,
    /// Each node once, behind the sources of its links that aren't cut.
    pub order: List<u32>,
}
