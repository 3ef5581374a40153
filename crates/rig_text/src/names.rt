//! The names of what quantities speak of, found by id and by index. What isn't found has the empty name.
ghost use Rattle.std.specs.Prelude.{◌≡◌, ◌<◌, slice_get, nat_le};
ghost use Rattle.std.specs.List.{find, AllPairs};
ghost use Rattle.std.specs.Option.{option_copied};
ghost use Rattle.rig_scene.specs.Id.{same_object};
ghost use Rattle.rig_scene.specs.Scene.{object_of, armature_of};
ghost use Rattle.rig_text.specs.Quantity.{bone_of, layer_of, object_name, bone_name, pencil_name, layer_name};

use rig_scene::{ArmatureData, Kind, Layer, Object, ObjectId, PencilData, RestBone, Scene};

pub(crate) fn object_name(scene: &Scene, id: ObjectId) -> &[u8]
    ensures { result.now ≡ object_name scene.now id }
{
    match object_of(scene, id) {
        Some(object) => object.name.as_str().as_bytes(),
        None => b"",
    }
}

/// The name of a bone, by its index in the object's armature.
pub(crate) fn bone_name(scene: &Scene, id: ObjectId, index: u32) -> &[u8]
    ensures { result.now ≡ bone_name scene.now id index }
{
    match bone_of(scene, id, index) {
        Some(bone) => bone.name.as_str().as_bytes(),
        None => b"",
    }
}

pub(crate) fn pencil_name(scene: &Scene, pencil: u32) -> &[u8]
    ensures { result.now ≡ pencil_name scene.now pencil }
{
    match pencil_of(scene, pencil) {
        Some(pencil) => pencil.name.as_str().as_bytes(),
        None => b"",
    }
}

/// The name of a layer, by the indices of its pencil and its own.
pub(crate) fn layer_name(scene: &Scene, pencil: u32, index: u32) -> &[u8]
    ensures { result.now ≡ layer_name scene.now pencil index }
{
    match layer_of(scene, pencil, index) {
        Some(layer) => layer.name.as_str().as_bytes(),
        None => b"",
    }
}

fn bone_of(scene: &Scene, id: ObjectId, index: u32) -> Option<&RestBone>
    ensures { option_copied result ≡ bone_of scene.now id index }
{
    let object = object_of(scene, id)?;
    let armature = armature_of(scene, &object.kind)?;
    armature.bones.as_slice().get(index as usize)
}

fn armature_of<'a>(scene: &'a Scene, kind: &Kind) -> Option<&'a ArmatureData>
    ensures { option_copied result ≡ armature_of scene.now kind.now }
{
    match kind {
        Kind::Armature { armature, .. } => scene.armatures.as_slice().get(*armature as usize),
        Kind::Empty | Kind::Pencil { .. } => None,
    }
}

fn pencil_of(scene: &Scene, pencil: u32) -> Option<&PencilData>
    ensures { option_copied result ≡ slice_get scene.now.pencils pencil }
{
    scene.pencils.as_slice().get(pencil as usize)
}

fn layer_of(scene: &Scene, pencil: u32, index: u32) -> Option<&Layer>
    ensures { option_copied result ≡ layer_of scene.now pencil index }
{
    let pencil = pencil_of(scene, pencil)?;
    pencil.layers.as_slice().get(index as usize)
}

// The object of an id, by a binary search.
fn object_of(scene: &Scene, id: ObjectId) -> Option<&Object>
    ensures { option_copied result ≡ object_of scene.now id }
{
    object_among(scene.objects.as_slice(), id)
}

fn object_among(objects: &[Object], id: ObjectId) -> Option<&Object>
    requires { AllPairs (λ o p. o.id.0 < p.id.0) objects.now }
    ensures { option_copied result ≡ find (λ o. same_object o.id id) objects.now }
{
    let object = objects.get(first_from(objects, id))?;
    (object.id == id).then_some(object)
}

// The index of the first object whose id is no lower, or the number of objects where none is.
fn first_from(objects: &[Object], id: ObjectId) -> usize
    requires { AllPairs (λ o p. o.id.0 < p.id.0) objects.now }
    ensures { find (λ o. nat_le id.0 o.id.0) objects.now ≡ slice_get objects.now result }
{
    objects.partition_point(|object| object.id.0 < id.0)
}
