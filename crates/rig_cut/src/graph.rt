//! The ends of links, and the links into each node and out of it.
ghost use Rattle.std.specs.Prelude.{◌≡◌, ℕ, ◌<◌, ◌≤◌, ◌^◌, length, map, slice_index, IfOk};
ghost use Rattle.std.specs.List.{All};
ghost use Rattle.rig_rows.specs.Rows.{indices_of};
ghost use Rattle.rig_cut.specs.Graphs.{ends_of_links};

use crate::links::Link;
use rig_io::NoMemory;
use rig_rows::Rows;
use std::alloc::{AllocError, Global};
use std::marker::Model;

/// The ends of links, by the indices of the links, and for each node the links that it is the reader of and those that it is
/// the source of.
#[derive(Drop)]
pub struct Graph {
    sources: Vec<u32>,
    readers: Vec<u32>,
    in_links: Rows<u32>,
    out_links: Rows<u32>,
}

impl Model for Graph {
    ghost use Rattle.std.specs.Prelude.{length};
    ghost use Rattle.rig_cut.specs.Graphs.{GraphEnds, IsGraph};

    ghost Value = { GraphEnds };

    ghost view = { λ g. record { nodes = length g.in_links; sources = g.sources.items; readers = g.readers.items } };

    ghost invariant = { λ g. IsGraph g.sources.items g.readers.items g.in_links g.out_links };
}

fn sources(alloc: Global, links: &[Link]) -> Result<Vec<u32>, AllocError>
    ensures { IfOk result (λ v. v.items ≡ map (λ l. l.source) links.now) }
{
    links.iter().map(|l| l.source).collect(alloc)
}

fn readers(alloc: Global, links: &[Link]) -> Result<Vec<u32>, AllocError>
    ensures { IfOk result (λ v. v.items ≡ map (λ l. l.reader) links.now) }
{
    links.iter().map(|l| l.reader).collect(alloc)
}

impl Graph {
    /// The ends of links between so many nodes.
    ///
    /// # Errors
    ///
    /// [`NoMemory`] where memory is refused.
    pub fn new(alloc: Global, nodes: u32, links: &[Link]) -> Result<Graph, NoMemory>
        requires in_range { All (λ l. (l.source < nodes) × (l.reader < nodes)) links.now }
        requires few { length links.now < 2 ^ 32 }
        ensures { IfOk result (λ g. g ≡ ends_of_links nodes links.now) }
    {
        let sources = sources(alloc, links)?;
        let readers = readers(alloc, links)?;
        let in_links = Rows::grouped(alloc, nodes, &readers)?;
        let out_links = Rows::grouped(alloc, nodes, &sources)?;
        Ok(Graph {
            sources,
            readers,
            in_links,
            out_links,
        })
    }

    /// The number of nodes, which each source is below.
    pub fn nodes(&self) -> u32
        ensures nodes { result ≡ self.now.nodes }
        ensures sources { All (λ n. n < self.now.nodes) self.now.sources }
    {
        self.in_links.len() as u32
    }

    /// The source of each link.
    pub fn sources(&self) -> &[u32]
        ensures sources { result.now ≡ self.now.sources }
        ensures below { All (λ n. n < self.now.nodes) result.now }
        ensures few { length result.now < 2 ^ 32 }
    {
        self.sources.as_slice()
    }

    /// The reader of each link.
    pub fn readers(&self) -> &[u32]
        ensures readers { result.now ≡ self.now.readers }
        ensures below { All (λ n. n < self.now.nodes) result.now }
        ensures len { length result.now ≡ length self.now.sources }
        ensures few { length result.now < 2 ^ 32 }
    {
        self.readers.as_slice()
    }

    /// The links that a node is the reader of.
    pub fn in_links(&self, node: u32) -> &[u32]
        requires { node < self.now.nodes }
        ensures links { result.now ≡ indices_of node self.now.readers }
        ensures below { All (λ j. j < length self.now.sources) result.now }
        ensures len { length self.now.readers ≡ length self.now.sources }
    {
        self.in_links.get(node as usize)
    }

    /// The links that a node is the source of.
    pub fn out_links(&self, node: u32) -> &[u32]
        requires { node < self.now.nodes }
        ensures links { result.now ≡ indices_of node self.now.sources }
        ensures below { All (λ j. j < length self.now.sources) result.now }
    {
        self.out_links.get(node as usize)
    }
}
