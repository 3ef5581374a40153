//! Plans: which operations are run, and in which order.
ghost use Rattle.std.specs.Prelude.{◌≡◌, ◌<◌, ◌≤◌, ◌+◌, ◌^◌, ◌++◌, [], ◌∷◌, length, map, take, slice_get, option_map, Some, OnOk, OnErr};
ghost use Rattle.std.specs.List.{All};
ghost use Rattle.rig_cut.specs.declared.plan.TheConstants.{MAX_NODES};
ghost use Rattle.rig_cut.specs.Plan.{ends_of, link_count};

use rig_io::NoMemory;
use rig_rows::Rows;
use std::alloc::Global;
use std::marker::Model;

/// The most nodes of a [`Plan`].
pub const MAX_NODES: u32 = 65_536;

/// Operations to run, each after those it needs. Contracts see a plan as a list of nodes, each with the number of its
/// operation and, as positions in the plan, those it needs.
///
/// There are at most [`MAX_NODES`] nodes, and fewer than 2^32 in-links.
#[derive(Debug, Drop)]
pub struct Plan {
    ops: Vec<u32>,
    ins: Rows<u32>,
}

impl Model for Plan {
    ghost use Rattle.std.specs.Prelude.{List};
    ghost use Rattle.rig_cut.specs.Plan.{PlanNode};
    ghost use Rattle.rig_cut.specs.PlanRows.{nodes_of, ArePlanned};

    ghost Value = { List PlanNode };

    ghost view = { λ p. nodes_of p.ops.items p.ins };

    ghost invariant = { λ p. ArePlanned p.ops.items p.ins };
}

impl Plan {
    /// No nodes, with no allocation.
    pub fn new(alloc: Global) -> Plan
        ensures { result ≡ [] }
    {
        Plan {
            ops: Vec::new(alloc),
            ins: Rows::new(alloc),
        }
    }

    /// Adds an operation at the end, with the positions of those it needs, which come earlier.
    ///
    /// # Errors
    ///
    /// [`NoMemory`]: the plan is unchanged.
    pub fn push(&mut self, op: u32, ins: &[u32]) -> Result<(), NoMemory>
        requires room { length self.old < MAX_NODES }
        requires earlier { All (λ i. i < length self.old) ins.now }
        requires few { link_count self.old + length ins.now < 2 ^ 32 }
        ensures ok { OnOk result (self.new ≡ self.old ++ record { op = op; ins = ins.now } ∷ []) }
        ensures err { OnErr result (self.new ≡ self.old) }
    {
        self.ops.reserve(1)?;
        self.ins.push(ins)?;
        self.ops.push_reserved(op);
        Ok(())
    }

    /// The number of nodes.
    pub fn len(&self) -> u32
        ensures { result ≡ length self.now }
    {
        self.ops.len() as u32
    }

    /// The operation of a node.
    pub fn op(&self, i: u32) -> u32
        requires { i < length self.now }
        ensures { option_map (λ n. n.op) (slice_get self.now i) ≡ Some result }
    {
        self.ops[i as usize]
    }

    /// The positions of the nodes that a node needs.
    pub fn ins(&self, i: u32) -> &[u32]
        requires { i < length self.now }
        ensures ins { option_map (λ n. n.ins) (slice_get self.now i) ≡ Some result.now }
        ensures earlier { All (λ j. j < i) result.now }
    {
        self.ins.get(i as usize)
    }

    /// The sources of all in-links, node after node. The number of a link is an index in it.
    pub fn sources(&self) -> &[u32]
        ensures { result.now ≡ map (λ l. l.source) (ends_of self.now) }
    {
        self.ins.items()
    }

    /// The number of the first in-link of a node, and for the position behind the last node the number of all in-links.
    pub fn first_link(&self, i: u32) -> u32
        requires { i ≤ length self.now }
        ensures { result ≡ link_count (take i self.now) }
    {
        self.ins.start(i as usize)
    }
}
