//! The operations that a frame shows of a scene, by number.
ghost use Rattle.std.specs.Prelude.{◌≡◌, ◌<◌, ◌^◌, ◌++◌, ◌∷◌, map, slice_get, Some, IfOk, OnOk};
ghost use Rattle.std.specs.List.{All, Contains, range_with_len};
ghost use Rattle.rig_scene.specs.declared.operation.OpId.TheVariants.{World, Bone};
ghost use Rattle.rig_scene.specs.Operations.{operations};
ghost use Rattle.rig_scene.specs.WellFormed.{pose_count};
ghost use Rattle.rig_flush.specs.Shown.{shown_of_kind, shown_operations};

use rig_io::NoMemory;
use rig_nodes::NodeTable;
use rig_scene::{Kind, Object, ObjectId, OpId, Scene};
use std::alloc::Global;

/// The numbers of the operations that a frame shows of the scene whose operations `nodes` numbers: for each object that of its
/// world transform, and those of its bones or that of its finished geometry.
///
/// # Errors
///
/// [`NoMemory`] where memory is refused.
pub fn shown_numbers(alloc: Global, scene: &Scene, nodes: &NodeTable) -> Result<Vec<u32>, NoMemory>
    requires { nodes.now ≡ operations scene.now }
    ensures { IfOk result (λ numbers. map (slice_get nodes.now) numbers.items ≡ map Some (shown_operations scene.now)) }
{
    let ops = shown_operations(alloc, scene)?;
    numbers_of(alloc, nodes, ops.as_slice())
}

fn numbers_of(alloc: Global, nodes: &NodeTable, ops: &[OpId]) -> Result<Vec<u32>, NoMemory>
    requires { All (Contains nodes.now) ops.now }
    ensures { IfOk result (λ numbers. map (slice_get nodes.now) numbers.items ≡ map Some ops.now) }
{
    let mut numbers = Vec::with_capacity(alloc, ops.len())?;
    for op in ops {
        numbers.push(number_of(nodes, op))?;
    }
    Ok(numbers)
}

// The number of an operation that the scene has.
fn number_of(nodes: &NodeTable, op: &OpId) -> u32
    requires { Contains nodes.now op.now }
    ensures { slice_get nodes.now result ≡ Some op.now }
{
    nodes.number(op).unwrap()
}

// The operations that a frame shows, object after object.
fn shown_operations(alloc: Global, scene: &Scene) -> Result<Vec<OpId>, NoMemory>
    ensures { IfOk result (λ ops. ops.items ≡ shown_operations scene.now) }
{
    let mut ops = Vec::new(alloc);
    for object in scene.objects.as_slice() {
        push_shown(&mut ops, object)?;
    }
    Ok(ops)
}

fn push_shown(ops: &mut Vec<OpId>, object: &Object) -> Result<(), NoMemory>
    requires { pose_count object.now.kind < 2 ^ 32 }
    ensures { OnOk result (ops.new.items ≡ ops.old.items ++ World object.now.id ∷ shown_of_kind object.now.id object.now.kind) }
{
    ops.push(OpId::World(object.id))?;
    push_shown_of_kind(ops, object.id, &object.kind)
}

fn push_shown_of_kind(ops: &mut Vec<OpId>, id: ObjectId, kind: &Kind) -> Result<(), NoMemory>
    requires { pose_count kind.now < 2 ^ 32 }
    ensures { OnOk result (ops.new.items ≡ ops.old.items ++ shown_of_kind id kind.now) }
{
    match kind {
        Kind::Empty => Ok(()),
        Kind::Armature { pose, .. } => push_bones(ops, id, pose.len() as u32),
        Kind::Pencil { .. } => Ok(ops.push(OpId::GeometryDone(id))?),
    }
}

fn push_bones(ops: &mut Vec<OpId>, id: ObjectId, bones: u32) -> Result<(), NoMemory>
    ensures { OnOk result (ops.new.items ≡ ops.old.items ++ map (Bone id) (range_with_len 0 bones)) }
{
    for bone in 0..bones {
        ops.push(OpId::Bone(id, bone))?;
    }
    Ok(())
}
