//! The drivers of a scene, each found by its operation.
ghost use Rattle.std.specs.Prelude.{◌≡◌, [], Some, map, slice_get, IfSome, IfNone, IfOk, IsTrue};
ghost use Rattle.std.specs.List.{Contains};
ghost use Rattle.indexmap.specs.IndexSet.{insert_all};
ghost use Rattle.rig_scene.specs.WellFormed.{is_scene};
ghost use Rattle.rig_scene.specs.declared.operation.OpId.TheVariants.{Driver};

use indexmap::IndexSet;
use rig_io::NoMemory;
use rig_scene::{OpId, Scene};
use std::alloc::Global;
use std::hash::Hash;
use std::marker::Model;

/// The operations of a scene's drivers, in the order of the drivers. Contracts see it as their list.
#[derive(Drop)]
pub struct DriverIndex {
    ops: IndexSet<OpId>,
}

impl Model for DriverIndex {
    ghost use Rattle.std.specs.Prelude.{ℕ, ◌<◌, ◌^◌, List, length};
    ghost use Rattle.indexmap.specs.IndexSet.{insert_all};
    ghost use Rattle.rig_scene.specs.WellFormed.{is_scene};
    ghost use Rattle.rig_scene.specs.declared.operation.OpId.{OpId};

    ghost Value = { List OpId };

    ghost view = { λ index. index.ops.keys };

    ghost invariant = { λ index. length index.ops.keys < 2 ^ 32 };
}

impl DriverIndex {
    /// The operations of a scene's drivers.
    pub(crate) fn new(alloc: Global, scene: &Scene) -> Result<DriverIndex, NoMemory>
        ensures { IfOk result (λ index. index ≡ map (λ d. Driver d.id d.path) scene.now.drivers) }
    {
        let ops = driver_ops(alloc, scene)?;
        Ok(DriverIndex {
            ops: index_set(alloc, ops)?,
        })
    }

    /// The index of the driver of an operation.
    pub(crate) fn number(&self, op: &OpId) -> Option<u32>
        ensures some { IfSome result (λ i. slice_get self.now i ≡ Some op.now) }
        ensures none { IfNone result (Contains self.now op.now → ⊥) }
    {
        let index = self.ops.get_index_of(op)?;
        Some(index as u32)
    }
}

// The operation of each driver.
fn driver_ops(alloc: Global, scene: &Scene) -> Result<Vec<OpId>, NoMemory>
    ensures list { IfOk result (λ ops. ops.items ≡ map (λ d. Driver d.id d.path) scene.now.drivers) }
    ensures scene { IsTrue (is_scene scene.now) }
{
    let mut ops = Vec::with_capacity(alloc, scene.drivers.len())?;
    for driver in scene.drivers.as_slice() {
        ops.push(OpId::Driver(driver.id, driver.path.copy()?))?;
    }
    Ok(ops)
}

// The set of values of which none stands twice, in their order.
fn index_set<T: Hash + Eq + Drop>(alloc: Global, values: Vec<T>) -> Result<IndexSet<T>, NoMemory>
    ensures { IfOk result (λ set. set.keys ≡ insert_all T.eq [] values.items) }
{
    Ok(values.into_iter().collect(alloc)?)
}
