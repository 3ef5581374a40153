//! The operations of an object that an edit of its parent, its drivers or its modifiers touches.
ghost use Rattle.std.specs.Prelude.{◌≡◌, ◌<◌, ◌≤◌, ◌+◌, ◌-◌, ◌^◌, ◌++◌, [], ◌∷◌, length, map, IfOk, OnOk};
ghost use Rattle.std.specs.List.{range_with_len};
ghost use Rattle.std.specs.Option.{option_map_or};
ghost use Rattle.rig_edits.specs.Named.{id_of, object_named, modifiers_of};
ghost use Rattle.rig_scene.specs.declared.operation.OpId.TheVariants as op;
ghost use Rattle.rig_touch.specs.Touch.{modifier_named, modifiers_from, modifier_place};

use crate::find::{id, modifier_place, object_named};
use rig_edits::IdName;
use rig_io::{List, NoMemory};
use rig_scene::{Kind, Name, Object, ObjectId, OpId, Path, Scene};
use std::alloc::Global;

/// The world transform of the object of a name.
pub(crate) fn world(alloc: Global, scene: &Scene, object: &Name) -> Result<List<OpId>, NoMemory>
    ensures { IfOk result (λ ops. ops ≡ option_map_or (λ o. op.World o.id ∷ []) (object_named scene.now object.now) []) }
{
    let mut ops = List::new(alloc);
    if let Some(object) = object_named(scene, object) {
        ops.push(OpId::World(object.id))?;
    }
    Ok(ops)
}

/// The driver of a channel.
pub(crate) fn driver(
    alloc: Global,
    scene: &Scene,
    name: &IdName,
    path: &Path,
) -> Result<List<OpId>, NoMemory>
    ensures { IfOk result (λ ops. ops ≡ option_map_or (λ a. op.Driver a path.now ∷ []) (id_of scene.now name.now) []) }
{
    let mut ops = List::new(alloc);
    if let Some(id) = id(scene, name) {
        ops.push(OpId::Driver(id, path.copy()?))?;
    }
    Ok(ops)
}

/// The modifier of a name of the object of a name.
pub(crate) fn modifier(
    alloc: Global,
    scene: &Scene,
    object: &Name,
    modifier: &Name,
) -> Result<List<OpId>, NoMemory>
    ensures { IfOk result (λ ops. ops ≡ modifier_named scene.now object.now modifier.now) }
{
    let mut ops = List::new(alloc);
    if let Some(object) = object_named(scene, object) {
        push_modifier(&mut ops, object, modifier)?;
    }
    Ok(ops)
}

fn push_modifier(ops: &mut List<OpId>, object: &Object, modifier: &Name) -> Result<(), NoMemory>
    requires { length (modifiers_of object.now.kind) < 2 ^ 32 }
    ensures { OnOk result (ops.new ≡ ops.old ++
        option_map_or (λ i. op.ModifierOp object.now.id (i + 1) ∷ []) (modifier_place object.now modifier.now) []) }
{
    if let Some(place) = modifier_place(object, modifier) {
        ops.push(OpId::ModifierOp(object.id, place + 1))?;
    }
    Ok(())
}

/// The modifier of a name of the object of a name, and all above it.
pub(crate) fn modifiers_from(
    alloc: Global,
    scene: &Scene,
    object: &Name,
    modifier: &Name,
) -> Result<List<OpId>, NoMemory>
    ensures { IfOk result (λ ops. ops ≡ modifiers_from scene.now object.now modifier.now) }
{
    let mut ops = List::new(alloc);
    if let Some(object) = object_named(scene, object) {
        push_from(&mut ops, object, modifier)?;
    }
    Ok(ops)
}

fn push_from(ops: &mut List<OpId>, object: &Object, modifier: &Name) -> Result<(), NoMemory>
    requires { length (modifiers_of object.now.kind) < 2 ^ 32 }
    ensures { OnOk result (ops.new ≡ ops.old ++ option_map_or
        (λ i. map (op.ModifierOp object.now.id) (range_with_len (i + 1) (length (modifiers_of object.now.kind) - i)))
        (modifier_place object.now modifier.now) []) }
{
    if let Some(place) = modifier_place(object, modifier) {
        push_above(ops, object.id, place + 1, modifier_count(object) - place)?;
    }
    Ok(())
}

fn modifier_count(object: &Object) -> u32
    requires { length (modifiers_of object.now.kind) < 2 ^ 32 }
    ensures { result ≡ length (modifiers_of object.now.kind) }
{
    match &object.kind {
        Kind::Pencil { modifiers, .. } => modifiers.len() as u32,
        Kind::Empty | Kind::Armature { .. } => 0,
    }
}

// So many modifiers of an object from one on.
fn push_above(ops: &mut List<OpId>, o: ObjectId, first: u32, count: u32) -> Result<(), NoMemory>
    requires { first + count ≤ 2 ^ 32 }
    ensures { OnOk result (ops.new ≡ ops.old ++ map (op.ModifierOp o) (range_with_len first count)) }
{
    for above in 0..count {
        ops.push(OpId::ModifierOp(o, first + above))?;
    }
    Ok(())
}
