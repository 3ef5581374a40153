//! The operations that an original number of a channel reaches first.
ghost use Rattle.std.specs.Prelude.{◌≡◌, ◌++◌, [], ◌∷◌, map, filter, IfOk, OnOk, option_and_then};
ghost use Rattle.std.specs.Option.{option_map_or};
ghost use Rattle.rig_edits.specs.Named.{id_of, bone_index};
ghost use Rattle.rig_scene.specs.Scene.{object_of};
ghost use Rattle.std.specs.List.{list_any};
ghost use Rattle.rig_scene.specs.declared.operation.OpId.TheVariants as op;
ghost use Rattle.rig_touch.specs.Touch.{channel_operations, layer_operations, property_readers, is_property};

use crate::find::{bone_index, id, layer_index, object};
use rig_edits::IdName;
use rig_io::{List, NoMemory};
use rig_scene::{AnimId, Driver, Name, ObjectId, OpId, Path, Scene, Variable};
use std::alloc::Global;

/// The operations that an edit of a channel's original number touches: the one that has it, and each driver that reads it.
pub(crate) fn of_value(
    alloc: Global,
    scene: &Scene,
    name: &IdName,
    path: &Path,
) -> Result<List<OpId>, NoMemory>
    ensures { IfOk result (λ ops. ops ≡
        option_map_or (λ a. channel_operations scene.now a path.now ++ property_readers scene.now a path.now) (id_of scene.now name.now) []) }
{
    let mut ops = List::new(alloc);
    if let Some(id) = id(scene, name) {
        push_channel(&mut ops, scene, id, path)?;
        push_readers(&mut ops, scene.drivers.as_slice(), id, path)?;
    }
    Ok(ops)
}

fn push_channel(
    ops: &mut List<OpId>,
    scene: &Scene,
    id: AnimId,
    path: &Path,
) -> Result<(), NoMemory>
    ensures { OnOk result (ops.new ≡ ops.old ++ channel_operations scene.now id path.now) }
{
    match (id, path) {
        (AnimId::Object(o), Path::Own(_)) => ops.push(OpId::Local(o)),
        (AnimId::Object(o), Path::Bone(bone, _)) => push_bone(ops, scene, o, bone),
        (AnimId::Pencil(p), Path::Layer(layer, _)) => push_layer(ops, scene, p, layer),
        (AnimId::Object(_), Path::Layer(_, _))
        | (AnimId::Pencil(_), Path::Own(_) | Path::Bone(_, _)) => Ok(()),
    }
}

fn push_bone(ops: &mut List<OpId>, scene: &Scene, o: ObjectId, bone: &Name) -> Result<(), NoMemory>
    ensures { OnOk result (ops.new ≡ ops.old ++
        option_map_or (λ b. op.Bone o b ∷ []) (option_and_then (λ object. bone_index scene.now object.kind bone.now) (object_of scene.now o)) []) }
{
    let Some(bone) = bone_of(scene, o, bone) else {
        return Ok(());
    };
    ops.push(OpId::Bone(o, bone))
}

fn bone_of(scene: &Scene, o: ObjectId, bone: &Name) -> Option<u32>
    ensures { result ≡ option_and_then (λ object. bone_index scene.now object.kind bone.now) (object_of scene.now o) }
{
    bone_index(scene, object(scene, o)?, bone)
}

/// Adds the layer of a name in the pencil of an index.
pub(crate) fn push_layer(
    ops: &mut List<OpId>,
    scene: &Scene,
    pencil: u32,
    layer: &Name,
) -> Result<(), NoMemory>
    ensures { OnOk result (ops.new ≡ ops.old ++ layer_operations scene.now pencil layer.now) }
{
    let Some(layer) = layer_index(scene, pencil, layer) else {
        return Ok(());
    };
    ops.push(OpId::Layer(pencil, layer))
}

// The drivers with a property variable that names the channel.
fn push_readers(
    ops: &mut List<OpId>,
    drivers: &[Driver],
    id: AnimId,
    path: &Path,
) -> Result<(), NoMemory>
    ensures { OnOk result (ops.new ≡ ops.old ++
        map (λ d. op.Driver d.id d.path) (filter (λ d. list_any (is_property id path.now) d.variables) drivers.now)) }
{
    for driver in drivers {
        if has_property(driver.variables.as_slice(), id, path) {
            ops.push(OpId::Driver(driver.id, driver.path.copy()?))?;
        }
    }
    Ok(())
}

fn has_property(variables: &[Variable], id: AnimId, path: &Path) -> bool
    ensures { result ≡ list_any (is_property id path.now) variables.now }
{
    variables
        .iter()
        .any(|variable| is_property(variable, id, path))
}

fn is_property(variable: &Variable, id: AnimId, path: &Path) -> bool
    ensures { result ≡ is_property id path.now variable.now }
{
    match variable {
        Variable::Property {
            id: other,
            path: named,
        } => *other == id && *named == *path,
        Variable::Transform { .. } => false,
    }
}
