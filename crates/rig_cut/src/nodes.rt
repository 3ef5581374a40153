//! A set of nodes, each once, in the order in which they were added.
ghost use Rattle.std.specs.Prelude.{◌≡◌, ℕ, ◌<◌, ◌≤◌, [], length, take, slice_index, slice_get, Some, nat_eq, false, IfOk};
ghost use Rattle.std.specs.List.{All, list_any, position, IsDistinct};
ghost use Rattle.rig_cut.specs.NodeSets.{with_node, Nodes};

use rig_io::{List, NoMemory};
use std::alloc::Global;
use std::marker::Model;

/// Some of the nodes below a number, in the order in which they were added.
///
/// The position of a node says where it stands if it is a member. Else it says nothing, so a set is cleared at once.
#[derive(Drop)]
pub struct NodeSet {
    members: Vec<u32>,
    positions: Vec<u32>,
}

impl Model for NodeSet {
    ghost use Rattle.std.specs.Prelude.{length, vec_capacity};
    ghost use Rattle.rig_cut.specs.NodeSets.{Nodes, IsNodeSet};

    ghost Value = { Nodes };

    ghost view = { λ s. record { count = length s.positions.items; members = s.members.items } };

    ghost invariant = { λ s. IsNodeSet s.members.items s.positions.items (vec_capacity s.members) };
}

impl NodeSet {
    /// No nodes of so many.
    ///
    /// # Errors
    ///
    /// [`NoMemory`] where memory is refused.
    pub fn new(alloc: Global, count: u32) -> Result<NodeSet, NoMemory>
        ensures { IfOk result (λ set. set ≡ record { count = count; members = [] }) }
    {
        Ok(NodeSet {
            members: Vec::with_capacity(alloc, count as usize)?,
            positions: Vec::from_elem(alloc, 0, count as usize)?,
        })
    }

    /// The number of members.
    pub fn len(&self) -> usize
        ensures len { result ≡ length self.now.members }
        ensures within { result ≤ self.now.count }
    {
        self.members.len()
    }

    /// The member at an index.
    pub fn get(&self, index: usize) -> u32
        requires { index < length self.now.members }
        ensures member { result ≡ slice_index self.now.members index }
        ensures below { result < self.now.count }
        ensures once { list_any (nat_eq result) (take index self.now.members) ≡ false }
    {
        self.members[index]
    }

    /// The members, each once.
    pub fn as_slice(&self) -> &[u32]
        ensures members { result.now ≡ self.now.members }
        ensures below { All (λ n. n < self.now.count) result.now }
        ensures once { IsDistinct nat_eq result.now }
    {
        self.members.as_slice()
    }

    /// Whether a node is a member.
    pub fn contains(&self, node: u32) -> bool
        requires { node < self.now.count }
        ensures { result ≡ list_any (nat_eq node) self.now.members }
    {
        let position = self.positions[node as usize] as usize;
        position < self.members.len() && self.members[position] == node
    }

    /// The index of a node among the members.
    pub fn position(&self, node: u32) -> Option<u32>
        requires { node < self.now.count }
        ensures { result ≡ position (nat_eq node) self.now.members }
    {
        if self.contains(node) {
            Some(self.positions[node as usize])
        } else {
            None
        }
    }

    /// Adds a node at the end, unless it is a member.
    pub fn add(&mut self, node: u32)
        requires { node < self.old.count }
        ensures count { self.new.count ≡ self.old.count }
        ensures members { self.new.members ≡ with_node self.old.members node }
    {
        if !self.contains(node) {
            self.positions[node as usize] = self.members.len() as u32;
            self.members.push_reserved(node);
        }
    }

    /// Takes all nodes out.
    pub fn clear(&mut self)
        ensures count { self.new.count ≡ self.old.count }
        ensures members { self.new.members ≡ [] }
    {
        self.members.clear();
    }

    /// The members as a list, with no allocation.
    pub fn into_list(self) -> List<u32>
        ensures members { result ≡ self.members }
        ensures within { length result ≤ self.count }
    {
        let NodeSet {
            members,
            positions: _,
        } = self;
        List::from(members)
    }
}
