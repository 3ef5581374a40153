//! Lists by number, in which there may be nothing at a number.
ghost use Rattle.std.specs.Prelude.{◌≡◌, ◌+◌, ◌≤◌, ◌++◌, None, replicate, length, vec_len, vec_capacity, IfOk};

use rig_io::NoMemory;
use rig_kernel::Out;
use rig_nodes::NodeTable;
use rig_scene::OpId;
use std::alloc::Global;
use std::mem;

/// Adds numbers at which there is nothing, with no allocation.
pub(crate) fn push_nothing<T>(items: &mut Vec<Option<T>>, more: usize)
    requires { vec_len items.old + more ≤ vec_capacity items.old }
    ensures { items.new.items ≡ items.old.items ++ replicate more None }
{
    for _index in 0..more {
        items.push_reserved(None);
    }
}

/// The spares by the numbers of a new table.
pub(crate) fn moved_spares(
    alloc: Global,
    spares: &mut Vec<Option<Out>>,
    old: &NodeTable,
    new: &NodeTable,
) -> Result<Vec<Option<Out>>, NoMemory>
    ensures moved { IfOk result (λ moved. length moved.items ≡ length new.now) }
    ensures length { length spares.new.items ≡ length spares.old.items }
{
    let mut moved = Vec::with_capacity(alloc, new.len() as usize)?;
    for n in 0..new.len() {
        moved.push_reserved(spare_of(spares, old, new.op(n)));
    }
    Ok(moved)
}

// Takes the spare of an operation.
fn spare_of(spares: &mut Vec<Option<Out>>, table: &NodeTable, op: &OpId) -> Option<Out>
    ensures { length spares.new.items ≡ length spares.old.items }
{
    take_at(spares, table.number(op)? as usize)
}

/// Takes what stands at a number.
pub(crate) fn take_at(spares: &mut Vec<Option<Out>>, n: usize) -> Option<Out>
    ensures { length spares.new.items ≡ length spares.old.items }
{
    if n < spares.len() {
        return mem::replace(&mut spares[n], None);
    }
    None
}
