//! The records of a scene that an operation names.
ghost use Rattle.std.specs.Prelude.{◌≡◌, ◌<◌, slice_get, Some, IsSome, IsTrue};
ghost use Rattle.std.specs.List.{find, AllPairs};
ghost use Rattle.rig_scene.specs.Id.{same_object};
ghost use Rattle.rig_scene.specs.Scene.{object_of};
ghost use Rattle.rig_scene.specs.WellFormed.{is_scene};

use rig_scene::{Object, ObjectId, Scene};

/// The object of an id. The id itself is tried first, as it is the index where no object was removed.
pub(crate) fn object_of(scene: &Scene, id: ObjectId) -> &Object
    requires { IsTrue (is_scene scene.now) → IsSome (object_of scene.now id) }
    ensures object { object_of scene.now id ≡ Some result.now }
    ensures scene { IsTrue (is_scene scene.now) }
{
    object_with(scene.objects.as_slice(), id)
}

/// That a scene meets its conditions, for a proof of a function that reads none of its fields.
pub(crate) fn conditions(scene: &Scene)
    ensures { IsTrue (is_scene scene.now) }
{
    let _next = scene.next;
}

fn object_with(objects: &[Object], id: ObjectId) -> &Object
    requires rise { AllPairs (λ o p. o.id.0 < p.id.0) objects.now }
    requires there { IsSome (find (λ o. same_object o.id id) objects.now) }
    ensures { find (λ o. same_object o.id id) objects.now ≡ Some result.now }
{
    match objects.get(id.0 as usize) {
        Some(object) if object.id.0 == id.0 => object,
        _ => &objects[index_of(objects, id)],
    }
}

// Where the object of an id stands, by binary search.
fn index_of(objects: &[Object], id: ObjectId) -> usize
    requires rise { AllPairs (λ o p. o.id.0 < p.id.0) objects.now }
    requires there { IsSome (find (λ o. same_object o.id id) objects.now) }
    ensures { slice_get objects.now result ≡ find (λ o. same_object o.id id) objects.now }
{
    objects.partition_point(|object| object.id.0 < id.0)
}
