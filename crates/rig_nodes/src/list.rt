//! The operations of a scene, one after another.
ghost use Rattle.std.specs.Prelude.{◌≡◌, ◌<◌, ◌^◌, ◌++◌, [], ◌∷◌, length, map, slice_get, Some, IsTrue, IfOk, OnOk, if◌then◌else◌};
ghost use Rattle.std.specs.List.{All, flat_map, range_with_len, enumerate_from};
ghost use Rattle.rig_scene.specs.declared.id.AnimId.TheVariants as anim;
ghost use Rattle.rig_scene.specs.declared.operation.OpId.TheVariants.{Animation, Driver as DriverOp, Layer, PoseInit, Bone, PoseDone, Geometry, ModifierOp, GeometryDone};
ghost use Rattle.rig_scene.specs.Operations.{pencil_operations, kind_operations, object_operations, operations};
ghost use Rattle.rig_scene.specs.Quantities.{modifiers_of};
ghost use Rattle.rig_scene.specs.Scene.{object_of};
ghost use Rattle.rig_scene.specs.WellFormed.{is_scene, pose_count};
ghost use Rattle.rig_nodes.specs.Drivers.{driver_indices, driver_rows};
ghost use Rattle.rig_nodes.specs.DriverRows.{drivers_at};

use crate::drivers::drivers_by_owner;
use rig_io::NoMemory;
use rig_rows::Rows;
use rig_scene::{AnimId, Driver, Kind, Object, ObjectId, OpId, PencilData, Scene};
use std::alloc::Global;

/// The operations of a scene in order.
pub(crate) fn operation_list(alloc: Global, scene: &Scene) -> Result<Vec<OpId>, NoMemory>
    ensures list { IfOk result (λ ops. ops.items ≡ operations scene.now) }
    ensures scene { IsTrue (is_scene scene.now) }
{
    let at_least = 1 + scene.pencils.len() + 2 * scene.objects.len() + scene.drivers.len();
    let mut ops = Vec::with_capacity(alloc, at_least)?;
    let rows = drivers_by_owner(alloc, scene)?;
    ops.push(OpId::Time)?;
    push_pencils(&mut ops, scene, &rows)?;
    push_objects(&mut ops, scene, &rows)?;
    Ok(ops)
}

fn push_pencils(ops: &mut Vec<OpId>, scene: &Scene, rows: &Rows<u32>) -> Result<(), NoMemory>
    requires { rows.now ≡ driver_rows scene.now }
    ensures { OnOk result (ops.new.items ≡
        ops.old.items ++ flat_map (λ e. pencil_operations scene.now e.0 e.1) (enumerate_from 0 scene.now.pencils)) }
{
    for (p, pencil) in scene.pencils.as_slice().iter().enumerate() {
        push_pencil(ops, scene, p as u32, pencil, rows.get(p))?;
    }
    Ok(())
}

fn push_pencil(
    ops: &mut Vec<OpId>,
    scene: &Scene,
    p: u32,
    pencil: &PencilData,
    row: &[u32],
) -> Result<(), NoMemory>
    requires pencil { slice_get scene.now.pencils p ≡ Some pencil.now }
    requires row { row.now ≡ driver_indices scene.now (anim.Pencil p) }
    ensures { OnOk result (ops.new.items ≡ ops.old.items ++ pencil_operations scene.now p pencil.now) }
{
    push_animation(ops, AnimId::Pencil(p), pencil.action.is_some())?;
    push_drivers(ops, scene.drivers.as_slice(), row)?;
    push_layers(ops, p, pencil.layers.len() as u32)
}

fn push_objects(ops: &mut Vec<OpId>, scene: &Scene, rows: &Rows<u32>) -> Result<(), NoMemory>
    requires { rows.now ≡ driver_rows scene.now }
    ensures { OnOk result (ops.new.items ≡ ops.old.items ++ flat_map (object_operations scene.now) scene.now.objects) }
{
    let pencils = scene.pencils.len();
    for (index, object) in scene.objects.as_slice().iter().enumerate() {
        push_object(ops, scene, object, rows.get(pencils + index))?;
    }
    Ok(())
}

fn push_object(
    ops: &mut Vec<OpId>,
    scene: &Scene,
    object: &Object,
    row: &[u32],
) -> Result<(), NoMemory>
    requires object { object_of scene.now object.now.id ≡ Some object.now }
    requires row { row.now ≡ driver_indices scene.now (anim.Object object.now.id) }
    ensures { OnOk result (ops.new.items ≡ ops.old.items ++ object_operations scene.now object.now) }
{
    push_animation(ops, AnimId::Object(object.id), object.action.is_some())?;
    push_drivers(ops, scene.drivers.as_slice(), row)?;
    ops.push(OpId::Local(object.id))?;
    ops.push(OpId::World(object.id))?;
    push_kind(ops, object.id, &object.kind)
}

fn push_animation(ops: &mut Vec<OpId>, id: AnimId, has_action: bool) -> Result<(), NoMemory>
    ensures { OnOk result (ops.new.items ≡ ops.old.items ++ (if has_action then Animation id ∷ [] else [])) }
{
    if has_action {
        ops.push(OpId::Animation(id))?;
    }
    Ok(())
}

// The operations of the drivers at the indices of a row.
fn push_drivers(ops: &mut Vec<OpId>, drivers: &[Driver], row: &[u32]) -> Result<(), NoMemory>
    requires { All (λ i. i < length drivers.now) row.now }
    ensures { OnOk result (ops.new.items ≡ ops.old.items ++ map (λ d. DriverOp d.id d.path) (drivers_at drivers.now row.now)) }
{
    for index in row {
        let driver = &drivers[*index as usize];
        ops.push(OpId::Driver(driver.id, driver.path.copy()?))?;
    }
    Ok(())
}

fn push_layers(ops: &mut Vec<OpId>, p: u32, count: u32) -> Result<(), NoMemory>
    ensures { OnOk result (ops.new.items ≡ ops.old.items ++ map (Layer p) (range_with_len 0 count)) }
{
    for layer in 0..count {
        ops.push(OpId::Layer(p, layer))?;
    }
    Ok(())
}

fn push_kind(ops: &mut Vec<OpId>, id: ObjectId, kind: &Kind) -> Result<(), NoMemory>
    requires bones { pose_count kind.now < 2 ^ 32 }
    requires modifiers { length (modifiers_of kind.now) < 2 ^ 32 }
    ensures { OnOk result (ops.new.items ≡ ops.old.items ++ kind_operations id kind.now) }
{
    match kind {
        Kind::Empty => Ok(()),
        Kind::Armature { pose, .. } => push_pose(ops, id, pose.len() as u32),
        Kind::Pencil { modifiers, .. } => push_geometry(ops, id, modifiers.len() as u32),
    }
}

fn push_pose(ops: &mut Vec<OpId>, id: ObjectId, bones: u32) -> Result<(), NoMemory>
    ensures { OnOk result (ops.new.items ≡
        ops.old.items ++ PoseInit id ∷ (map (Bone id) (range_with_len 0 bones) ++ PoseDone id ∷ [])) }
{
    ops.push(OpId::PoseInit(id))?;
    for bone in 0..bones {
        ops.push(OpId::Bone(id, bone))?;
    }
    ops.push(OpId::PoseDone(id))?;
    Ok(())
}

fn push_geometry(ops: &mut Vec<OpId>, id: ObjectId, modifiers: u32) -> Result<(), NoMemory>
    ensures { OnOk result (ops.new.items ≡
        ops.old.items ++ Geometry id ∷ (map (ModifierOp id) (range_with_len 1 modifiers) ++ GeometryDone id ∷ [])) }
{
    ops.push(OpId::Geometry(id))?;
    for before in 0..modifiers {
        ops.push(OpId::ModifierOp(id, before + 1))?;
    }
    ops.push(OpId::GeometryDone(id))?;
    Ok(())
}
