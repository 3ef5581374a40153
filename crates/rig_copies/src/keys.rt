//! The keys under which outputs are kept in a slab, by number.
ghost use Rattle.std.specs.Prelude.{◌≡◌, ◌≤◌, ℕ, None, slice_index_or, Some, IsSome, IsTrue, IfOk, map};
ghost use Rattle.std.specs.List.{Contains, position};
ghost use Rattle.slab.specs.Slab.{get, slab_len, with_value};
ghost use Rattle.rig_links.specs.Numbers.{same_operation};
ghost use Rattle.rig_scene.specs.declared.operation.OpId.{OpId as Operation};
ghost use Rattle.rig_scene.specs.Pairs.{NoneTwice};
ghost use Rattle.rig_copies.specs.Keys.{kept_under, key_for, NoKeyTwice};

use rig_io::NoMemory;
use rig_kernel::Out;
use rig_nodes::NodeTable;
use rig_scene::OpId;
use slab::Slab;
use std::alloc::Global;
use std::mem;

/// The key at a number, where there is one.
pub(crate) fn key_at(keys: &[Option<usize>], n: usize) -> Option<usize>
    ensures { result ≡ slice_index_or keys.now n None }
{
    if n < keys.len() { keys[n] } else { None }
}

/// Puts an output in the place of the one under a key.
pub(crate) fn replace(outs: &mut Slab<Out>, key: usize, out: Out) -> Out
    requires { IsSome (get outs.old key) }
    ensures replaced { get outs.old key ≡ Some result }
    ensures now { outs.new ≡ with_value outs.old key out }
{
    match outs.get_mut(key) {
        Some(place) => mem::replace(place, out),
        None => unreachable!(),
    }
}

/// The keys by the numbers of a new table.
pub(crate) fn moved_keys(
    alloc: Global,
    keys: &[Option<usize>],
    old: &NodeTable,
    new: &NodeTable,
) -> Result<Vec<Option<usize>>, NoMemory>
    ensures moved { IfOk result (λ moved. moved.items ≡ map (key_for old.now keys.now) new.now) }
    ensures once { NoneTwice new.now }
{
    let mut moved = Vec::with_capacity(alloc, new.ops().len())?;
    for n in 0..new.len() {
        moved.push_reserved(key_of(keys, old, new.op(n)));
    }
    Ok(moved)
}

fn key_of(keys: &[Option<usize>], table: &NodeTable, op: &OpId) -> Option<usize>
    ensures { result ≡ key_for table.now keys.now op.now }
{
    match table.number(op) {
        Some(n) => key_at(keys, n as usize),
        None => None,
    }
}

/// Removes the outputs of operations that a new table hasn't.
pub(crate) fn remove_gone(
    outs: &mut Slab<Out>,
    keys: &[Option<usize>],
    old: &NodeTable,
    new: &NodeTable,
)
    requires once { NoKeyTwice keys.now }
    ensures kept { (op : Operation) → Contains new.now op →
        kept_under outs.new (key_for old.now keys.now op) ≡ kept_under outs.old (key_for old.now keys.now op) }
    ensures len { slab_len outs.new ≤ slab_len outs.old }
    ensures capacity { outs.new.capacity ≡ outs.old.capacity }
{
    for n in 0..keys.len() {
        if is_gone(old, new, n) {
            remove(outs, keys[n]);
        }
    }
}

// Whether a number of the old table has no operation of the new one.
fn is_gone(old: &NodeTable, new: &NodeTable, n: usize) -> bool
    ensures { IsTrue result → (op : Operation) → Contains new.now op → position (same_operation op) old.now ≡ Some n → ⊥ }
{
    n >= old.len() as usize || new.number(old.op(n as u32)).is_none()
}

fn remove(outs: &mut Slab<Out>, key: Option<usize>)
    ensures others { (k : ℕ) → (key ≡ Some k → ⊥) → get outs.new k ≡ get outs.old k }
    ensures len { slab_len outs.new ≤ slab_len outs.old }
    ensures capacity { outs.new.capacity ≡ outs.old.capacity }
{
    if let Some(key) = key {
        outs.try_remove(key);
    }
}
