//! The drivers of a scene by what they drive, with no walk over all of them for each.
ghost use Rattle.std.specs.Prelude.{◌≡◌, ◌<◌, map, nat_lt, IfOk};
ghost use Rattle.std.specs.List.{prefix_len, AllPairs};
ghost use Rattle.rig_nodes.specs.Drivers.{driver_rows};
ghost use Rattle.rig_nodes.specs.Slots.{slot_of};

use rig_io::NoMemory;
use rig_rows::Rows;
use rig_scene::{AnimId, Object, ObjectId, Scene};
use std::alloc::Global;

/// The indices of a scene's drivers by what they drive: a row for each pencil in order, then one for each object in order.
/// The indices of a row rise. It takes time by the number of drivers, pencils and objects.
///
/// # Errors
///
/// [`NoMemory`] where memory is refused.
pub fn drivers_by_owner(alloc: Global, scene: &Scene) -> Result<Rows<u32>, NoMemory>
    ensures { IfOk result (λ rows. rows ≡ driver_rows scene.now) }
{
    let slots = driver_slots(alloc, scene)?;
    let count = scene.pencils.len() + scene.objects.len();
    Rows::grouped(alloc, count as u32, slots.as_slice())
}

// The row of each driver.
fn driver_slots(alloc: Global, scene: &Scene) -> Result<Vec<u32>, NoMemory>
    ensures { IfOk result (λ slots. slots.items ≡ map (λ d. slot_of scene.now d.id) scene.now.drivers) }
{
    let mut slots = Vec::with_capacity(alloc, scene.drivers.len())?;
    for driver in scene.drivers.as_slice() {
        slots.push(slot(scene, driver.id))?;
    }
    Ok(slots)
}

// The row of an id.
fn slot(scene: &Scene, id: AnimId) -> u32
    ensures { result ≡ slot_of scene.now id }
{
    match id {
        AnimId::Pencil(pencil) => pencil,
        AnimId::Object(object) => {
            (scene.pencils.len() + object_index(scene.objects.as_slice(), object)) as u32
        }
    }
}

// The index of the object of an id. In a scene that was just read an object's id is its index.
fn object_index(objects: &[Object], id: ObjectId) -> usize
    requires { AllPairs (λ o p. o.id.0 < p.id.0) objects.now }
    ensures { result ≡ prefix_len (λ o. nat_lt o.id.0 id.0) objects.now }
{
    let guess = id.0 as usize;
    if guess < objects.len() && objects[guess].id.0 == id.0 {
        return guess;
    }
    first_not_below(objects, id)
}

// The number of objects with lower ids, by halves.
fn first_not_below(objects: &[Object], id: ObjectId) -> usize
    requires { AllPairs (λ o p. o.id.0 < p.id.0) objects.now }
    ensures { result ≡ prefix_len (λ o. nat_lt o.id.0 id.0) objects.now }
{
    objects.partition_point(|object| object.id.0 < id.0)
}
