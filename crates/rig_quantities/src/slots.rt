//! The drivers of a scene by the id that they drive, so that nobody walks over all of them for each id.
ghost use Rattle.std.specs.Prelude.{◌≡◌, map, IfOk};
ghost use Rattle.rig_quantities.specs.Slots.{slot, driver_rows};

use crate::find::object_index;
use rig_io::NoMemory;
use rig_rows::Rows;
use rig_scene::{AnimId, Scene};
use std::alloc::{AllocError, Global};

/// The indices of the drivers of each pencil, and then of each object, by rising index.
pub(crate) fn driver_rows(alloc: Global, scene: &Scene) -> Result<Rows<u32>, NoMemory>
    ensures { IfOk result (λ rows. rows ≡ driver_rows scene.now) }
{
    let slots = driver_slots(alloc, scene)?;
    let count = (scene.pencils.len() + scene.objects.len()) as u32;
    Rows::grouped(alloc, count, slots.as_slice())
}

fn driver_slots(alloc: Global, scene: &Scene) -> Result<Vec<u32>, AllocError>
    ensures { IfOk result (λ slots. slots.items ≡ map (λ d. slot scene.now d.id) scene.now.drivers) }
{
    scene
        .drivers
        .as_slice()
        .iter()
        .map(|driver| slot(scene, driver.id))
        .collect(alloc)
}

fn slot(scene: &Scene, id: AnimId) -> u32
    ensures { result ≡ slot scene.now id }
{
    match id {
        AnimId::Object(object) => (scene.pencils.len() + object_index(scene, object)) as u32,
        AnimId::Pencil(pencil) => pencil,
    }
}
