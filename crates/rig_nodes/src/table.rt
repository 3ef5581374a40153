//! The operations of a scene, each with its number.
ghost use Rattle.std.specs.Prelude.{◌≡◌, ℕ, ◌<◌, [], length, slice_get, Some, IfSome, IfNone, IfOk};
ghost use Rattle.std.specs.List.{Contains};
ghost use Rattle.indexmap.specs.IndexSet.{insert_all};
ghost use Rattle.rig_scene.specs.Operations.{operations};
ghost use Rattle.rig_scene.specs.Pairs.{NoneTwice};

use crate::list::operation_list;
use indexmap::IndexSet;
use rig_io::NoMemory;
use rig_scene::{OpId, Scene};
use std::alloc::Global;
use std::hash::Hash;
use std::marker::Model;

/// The operations of a scene in order, each found by its id and by its number, which is its index. Contracts see them as
/// their list.
#[derive(Drop)]
pub struct NodeTable {
    ops: IndexSet<OpId>,
}

impl Model for NodeTable {
    ghost use Rattle.std.specs.Prelude.{ℕ, ◌<◌, ◌^◌, List, length};
    ghost use Rattle.rig_scene.specs.declared.operation.OpId.{OpId};

    ghost Value = { List OpId };

    ghost view = { λ table. table.ops.keys };

    ghost invariant = { λ table. length table.ops.keys < 2 ^ 32 };
}

impl NodeTable {
    /// The number of operations.
    pub fn len(&self) -> u32
        ensures { result ≡ length self.now }
    {
        self.ops.len() as u32
    }

    /// The operations in order, each once.
    pub fn ops(&self) -> &[OpId]
        ensures ops { result.now ≡ self.now }
        ensures once { NoneTwice result.now }
    {
        self.ops.as_slice()
    }

    /// The operation of a number.
    pub fn op(&self, n: u32) -> &OpId
        requires { n < length self.now }
        ensures { slice_get self.now n ≡ Some result.now }
    {
        &self.ops.as_slice()[n as usize]
    }

    /// The number of an operation: `None` exactly where the scene hasn't the operation.
    pub fn number(&self, op: &OpId) -> Option<u32>
        ensures some { IfSome result (λ n. slice_get self.now n ≡ Some op.now) }
        ensures first { IfSome result (λ n. (k : ℕ) → k < n → slice_get self.now k ≡ Some op.now → ⊥) }
        ensures none { IfNone result (Contains self.now op.now → ⊥) }
    {
        let index = self.ops.get_index_of(op)?;
        Some(index as u32)
    }
}

/// The table of a scene's operations. It takes time by their number and that of the drivers.
///
/// # Errors
///
/// [`NoMemory`] where memory is refused.
pub fn nodes(alloc: Global, scene: &Scene) -> Result<NodeTable, NoMemory>
    ensures { IfOk result (λ table. table ≡ operations scene.now) }
{
    let list = operation_list(alloc, scene)?;
    Ok(NodeTable {
        ops: index_set(alloc, list)?,
    })
}

// The set of values of which none stands twice, in their order.
fn index_set<T: Hash + Eq + Drop>(alloc: Global, values: Vec<T>) -> Result<IndexSet<T>, NoMemory>
    ensures { IfOk result (λ set. set.keys ≡ insert_all T.eq [] values.items) }
{
    Ok(values.into_iter().collect(alloc)?)
}
