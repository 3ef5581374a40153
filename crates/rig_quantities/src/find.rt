//! How the records of a scene are found: an object by its id, a driver by its channel, a bone and a layer by their indices.
ghost use Rattle.std.specs.Prelude.{◌≡◌, ◌≤◌, ◌&&◌, length, slice_get, IfSome, option_and_then};
ghost use Rattle.std.specs.Option.{option_copied};
ghost use Rattle.rig_scene.specs.declared.limits.TheConstants.{MAX_LAYERS};
ghost use Rattle.rig_scene.specs.Drivers.{driver_of};
ghost use Rattle.rig_scene.specs.Id.{same_id};
ghost use Rattle.rig_scene.specs.Path.{same_path};
ghost use Rattle.rig_scene.specs.Scene.{object_of};
ghost use Rattle.rig_scene.specs.WellFormed.{bones_of};
ghost use Rattle.rig_quantities.specs.Find.{object_index, object_at};

use rig_scene::{AnimId, Driver, Kind, Layer, Object, ObjectId, Path, PencilData, RestBone, Scene};

/// The index of the object of an id, where there is one: ids rise, so a binary search finds it. The id itself is tried first,
/// as it is the index where no object was removed.
pub(crate) fn object_index(scene: &Scene, id: ObjectId) -> usize
    ensures { result ≡ object_index scene.now id }
{
    let objects = scene.objects.as_slice();
    let guess = id.0 as usize;
    if object_at(objects, guess, id).is_some() {
        guess
    } else {
        objects.partition_point(|object| object.id.0 < id.0)
    }
}

/// The object of an id.
pub(crate) fn object(scene: &Scene, id: ObjectId) -> Option<&Object>
    ensures { option_copied result ≡ object_of scene.now id }
{
    object_at(scene.objects.as_slice(), object_index(scene, id), id)
}

// The object of an index, if it has the id.
fn object_at(objects: &[Object], index: usize, id: ObjectId) -> Option<&Object>
    ensures { option_copied result ≡ object_at objects.now index id }
{
    match objects.get(index) {
        Some(object) if object.id == id => Some(object),
        _ => None,
    }
}

/// The driver of a channel, by a walk over all drivers.
pub(crate) fn driver<'a>(scene: &'a Scene, id: AnimId, path: &Path) -> Option<&'a Driver>
    ensures { option_copied result ≡ driver_of scene.now id path.now }
{
    scene
        .drivers
        .as_slice()
        .iter()
        .find(|driver| drives(driver, id, path))
}

fn drives(driver: &Driver, id: AnimId, path: &Path) -> bool
    ensures { result ≡ (same_id driver.now.id id && same_path driver.now.path path.now) }
{
    driver.id == id && driver.path == *path
}

/// The bone of an index of an armature object.
pub(crate) fn bone(scene: &Scene, id: ObjectId, index: u32) -> Option<&RestBone>
    ensures { option_copied result ≡ option_and_then (λ bones. slice_get bones index) (bones_of scene.now id) }
{
    match &object(scene, id)?.kind {
        Kind::Armature { armature, .. } => {
            let data = scene.armatures.as_slice().get(*armature as usize)?;
            data.bones.as_slice().get(index as usize)
        }
        Kind::Empty | Kind::Pencil { .. } => None,
    }
}

/// The pencil of an index.
pub(crate) fn pencil(scene: &Scene, index: u32) -> Option<&PencilData>
    ensures pencil { option_copied result ≡ slice_get scene.now.pencils index }
    ensures few_layers { IfSome result (λ p. length p.now.layers ≤ MAX_LAYERS) }
{
    scene.pencils.as_slice().get(index as usize)
}

/// The layer of an index of a pencil.
pub(crate) fn layer(scene: &Scene, of: u32, index: u32) -> Option<&Layer>
    ensures { option_copied result ≡ option_and_then (λ pencil. slice_get pencil.layers index) (slice_get scene.now.pencils of) }
{
    pencil(scene, of)?.layers.as_slice().get(index as usize)
}
