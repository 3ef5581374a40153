//! Finds where the original number of a channel stands in a scene, and sets it there.
ghost use Rattle.std.specs.Prelude.{◌≡◌, ◌<◌, not, length, slice_get, is_none, Some};
ghost use Rattle.std.specs.Option.{option_or};
ghost use Rattle.rig_scene.specs.declared.object.Object.{Object};
ghost use Rattle.rig_scene.specs.Channel.{with_channel, with_coordinate};
ghost use Rattle.rig_edits.specs.declared.edit.IdName.TheVariants as named;
ghost use Rattle.rig_edits.specs.declared.cause.EditCause.TheVariants.{WrongKind};
ghost use Rattle.rig_edits.specs.Conditions.{is_armature_kind, when};
ghost use Rattle.rig_edits.specs.Named.{bone_index, update_at};
ghost use Rattle.rig_edits.specs.Slots.{channel_cause, pose_changed_at, HasPose, HasLayer, IsSlotOf};
ghost use Rattle.rig_edits.specs.Steps.{Finds};

use crate::cause::EditCause;
use crate::edit::IdName;
use crate::find::index_named;
use rig_fixed::Fx;
use rig_io::List;
use rig_scene::{Axis, Channel, Kind, Name, Object, Path, PencilData, Scene};

/// Where the original number of a channel stands, by indices.
#[derive(Clone, Copy, Debug)]
pub(crate) enum Slot {
    /// A channel of an object's own.
    Own {
        object: usize,
        channel: Channel,
    },
    /// A channel of the pose of a bone of an object.
    Pose {
        object: usize,
        bone: usize,
        channel: Channel,
    },
    /// An axis of the offset of a layer of a pencil.
    Layer {
        pencil: usize,
        layer: usize,
        axis: Axis,
    },
}

/// The slot of a channel, or the first of the causes against the channel.
pub(crate) fn slot_of(scene: &Scene, id: &IdName, path: &Path) -> Result<Slot, EditCause>
    ensures { Finds result (channel_cause scene.now id.now path.now) (IsSlotOf scene.now id.now path.now) }
{
    match id {
        IdName::Object(name) => object_slot(scene, name, path),
        IdName::Pencil(name) => pencil_slot(scene, name, path),
    }
}

fn object_slot(scene: &Scene, name: &Name, path: &Path) -> Result<Slot, EditCause>
    ensures { Finds result (channel_cause scene.now (named.Object name.now) path.now) (IsSlotOf scene.now (named.Object name.now) path.now) }
{
    let Some(object) = index_named(scene.objects.as_slice(), name) else {
        return Err(EditCause::UnknownId);
    };
    match path {
        Path::Own(channel) => Ok(Slot::Own {
            object,
            channel: *channel,
        }),
        Path::Bone(bone, channel) => {
            let bone = bone_of(scene, object, bone, EditCause::UnknownPath)?;
            Ok(Slot::Pose {
                object,
                bone,
                channel: *channel,
            })
        }
        Path::Layer(..) => Err(EditCause::WrongKind),
    }
}

fn pencil_slot(scene: &Scene, name: &Name, path: &Path) -> Result<Slot, EditCause>
    ensures { Finds result (channel_cause scene.now (named.Pencil name.now) path.now) (IsSlotOf scene.now (named.Pencil name.now) path.now) }
{
    let Some(pencil) = index_named(scene.pencils.as_slice(), name) else {
        return Err(EditCause::UnknownId);
    };
    let Path::Layer(layer, axis) = path else {
        return Err(EditCause::WrongKind);
    };
    let layers = &scene.pencils.get(pencil).layers;
    match index_named(layers.as_slice(), layer) {
        Some(layer) => Ok(Slot::Layer {
            pencil,
            layer,
            axis: *axis,
        }),
        None => Err(EditCause::UnknownPath),
    }
}

/// The index of the bone of a name of the object at an index: `WrongKind` where the object has no bones, and `absent` where none of
/// them has the name.
pub(crate) fn bone_of(
    scene: &Scene,
    object: usize,
    name: &Name,
    absent: EditCause,
) -> Result<usize, EditCause>
    requires { object < length scene.now.objects }
    ensures { (o : Object) → slice_get scene.now.objects object ≡ Some o → Finds result
        (option_or (when WrongKind (not (is_armature_kind o.kind))) (when absent (is_none (bone_index scene.now o.kind name.now))))
        (λ index. bone_index scene.now o.kind name.now ≡ Some index) }
{
    let Kind::Armature { armature, .. } = &scene.objects.get(object).kind else {
        return Err(EditCause::WrongKind);
    };
    let bones = &scene.armatures.get(*armature as usize).bones;
    match index_named(bones.as_slice(), name) {
        Some(bone) => Ok(bone),
        None => Err(absent),
    }
}

/// Sets a number of an object's own.
pub(crate) fn set_own(objects: &mut List<Object>, object: usize, channel: Channel, value: Fx)
    requires { object < length objects.old }
    ensures { objects.new ≡ update_at (λ o. record o { own = with_channel o.own channel value }) object objects.old }
{
    objects.get_mut(object).own.set(channel, value);
}

/// Sets a number of the pose of a bone of an object.
pub(crate) fn set_pose(
    objects: &mut List<Object>,
    object: usize,
    bone: usize,
    channel: Channel,
    value: Fx,
)
    requires { HasPose objects.old object bone }
    ensures { objects.new ≡
        update_at (λ o. record o { kind = pose_changed_at (λ c. with_channel c channel value) bone o.kind }) object objects.old }
{
    if let Kind::Armature { pose, .. } = &mut objects.get_mut(object).kind {
        pose.get_mut(bone).set(channel, value);
    }
}

/// Sets a number of the offset of a layer of a pencil.
pub(crate) fn set_offset(
    pencils: &mut List<PencilData>,
    pencil: usize,
    layer: usize,
    axis: Axis,
    value: Fx,
)
    requires { HasLayer pencils.old pencil layer }
    ensures { pencils.new ≡ update_at (λ p. record p {
      layers = update_at (λ l. record l { offset = with_coordinate l.offset axis value }) layer p.layers;
    }) pencil pencils.old }
{
    let layer = pencils.get_mut(pencil).layers.get_mut(layer);
    axis.set_coordinate(&mut layer.offset, value);
}
