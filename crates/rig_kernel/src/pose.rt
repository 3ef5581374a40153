//! The transform of a bone in the space of its armature.
ghost use Rattle.std.specs.Prelude.{◌≡◌, Some, ℕ, ℤ, drop, map, IsTrue, IsSome, option_map, option_and_then};
ghost use Rattle.std.specs.List.{Contains};
ghost use Rattle.std.specs.Option.{option_copied};
ghost use Rattle.rig_scene.specs.declared.channel.Channel.{Channel};
ghost use Rattle.rig_scene.specs.declared.modifier.Mode.{Mode};
ghost use Rattle.rig_scene.specs.declared.operation.OpId.TheVariants.{Bone};
ghost use Rattle.rig_scene.specs.declared.path.Path.TheVariants as paths;
ghost use Rattle.rig_scene.specs.Operations.{operations, ins};
ghost use Rattle.rig_scene.specs.Pose.{transform_of, bone_transform};
ghost use Rattle.rig_scene.specs.Value.{Transform};
ghost use Rattle.rig_kernel.specs.ChannelCurves.{channel_curve};
ghost use Rattle.rig_kernel.specs.Driven.{driver_count, curve_number, channels_from};
ghost use Rattle.rig_laws.specs.Kernel.{kernel};
ghost use Rattle.rig_laws.specs.Output.{link_of, numbers_at, transform_at};
ghost use Rattle.rig_kernel.specs.Tables.{AreTables, table_parts, curve_at, rest_at};

use crate::channel_curves::ChannelCurves;
use crate::channels::channels_from;
use crate::driven::driver_count;
use crate::inputs::{Inputs, numbers_at, transform_at};
use crate::records::object_of;
use crate::tables::SceneTables;
use rig_fixed::{Fx, Xform};
use rig_pose::{bone_of, local_of};
use rig_scene::{Channels, Kind, Name, ObjectId, RestBone, Scene};

/// The transform of a bone: the start of the pose, then its driven channels, then its parent bone.
pub(crate) fn bone<I: Inputs>(
    scene: &Scene,
    tables: &SceneTables,
    o: ObjectId,
    b: u32,
    inputs: &I,
) -> Xform
    requires op { Contains (operations scene.now) (Bone o b) }
    requires tables { AreTables tables.now (table_parts scene.now) }
    requires inputs { map link_of (I.list inputs.now) ≡ ins scene.now (Bone o b) }
    ensures { (mode : Mode) (frame : ℤ) → kernel scene.now mode frame (Bone o b) (I.list inputs.now) ≡ Some (Transform result) }
{
    let object = object_of(scene, o);
    match &object.kind {
        Kind::Armature { armature, pose } => {
            let data = scene.armatures.get(*armature as usize);
            let bone = data.bones.get(b as usize);
            let rest = tables.rest(*armature, b);
            let posed = pose_of(tables, object.action, bone, pose.get(b as usize), inputs);
            bone_of(parent_of(bone, inputs).as_ref(), &rest, &posed)
        }
        Kind::Empty | Kind::Pencil { .. } => Xform::identity(),
    }
}

// The transform of a pose: its curves, and then its driven channels.
fn pose_of<I: Inputs>(
    tables: &SceneTables,
    action: Option<u32>,
    bone: &RestBone,
    pose: &Channels,
    inputs: &I,
) -> Xform
    ensures { result ≡ transform_of (channels_from (λ channel. option_and_then (λ a. curve_at tables.now a (paths.Bone bone.now.name channel)) action)
        (numbers_at (I.list inputs.now) 0) (driver_count 8 (drop 1 (I.list inputs.now))) (drop 1 (I.list inputs.now)) pose.now) }
{
    let numbers = numbers_at(inputs, 0);
    let drivers = driver_count(inputs, 1, 8);
    let curves = bone_curves(tables, action, &bone.name, numbers);
    local_of(&channels_from(pose, curves, numbers, inputs, 1, drivers))
}

// The transform of the parent of a bone, where it has one: its input is behind the driven channels.
fn parent_of<I: Inputs>(bone: &RestBone, inputs: &I) -> Option<Xform>
    ensures { result ≡ option_map (λ b. transform_at (drop 1 (I.list inputs.now)) (driver_count 8 (drop 1 (I.list inputs.now)))) bone.now.parent }
{
    match bone.parent {
        Some(_) => Some(transform_at(inputs, 1 + driver_count(inputs, 1, 8))),
        None => None,
    }
}

// The curves of the channels of the bone of a name, where there are numbers of curves.
fn bone_curves<'a>(
    tables: &'a SceneTables,
    action: Option<u32>,
    bone: &Name,
    numbers: &[Option<Fx>],
) -> Option<&'a ChannelCurves>
    ensures { (channel : Channel) → curve_number numbers.now (option_and_then (λ c. channel_curve c channel) (option_copied result))
        ≡ curve_number numbers.now (option_and_then (λ a. curve_at tables.now a (paths.Bone bone.now channel)) action) }
{
    if numbers.is_empty() {
        return None;
    }
    match action {
        Some(action) => tables.bone_curves(action, bone),
        None => None,
    }
}
