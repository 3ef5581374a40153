//! The quantities of a scene, in order.
ghost use Rattle.std.specs.Prelude.{◌≡◌, ◌<◌, ◌≤◌, ◌++◌, length, map, slice_get, Some, IfOk, OnOk, IsTrue};
ghost use Rattle.std.specs.List.{All, flat_map, range_with_len, enumerate_from};
ghost use Rattle.rig_scene.specs.declared.id.AnimId.{AnimId};
ghost use Rattle.rig_scene.specs.declared.limits.TheConstants.{MAX_BONES, MAX_LAYERS, MAX_MODIFIERS};
ghost use Rattle.rig_scene.specs.declared.quantity.Quantity.TheVariants as quantity;
ghost use Rattle.rig_scene.specs.Quantities.{quantities, chans_of, pencil_quantities, object_quantities, kind_quantities, modifiers_of};
ghost use Rattle.rig_scene.specs.WellFormed.{pose_count};
ghost use Rattle.rig_quantities.specs.Slots.{slot, has_id, driver_rows, chans_at};

use crate::slots::driver_rows;
use rig_io::{List, NoMemory};
use rig_rows::Rows;
use rig_scene::{Driver, Kind, Object, ObjectId, PencilData, Quantity, Scene};
use std::alloc::Global;

/// The quantities of a scene: of each pencil in order its driven channels and its layers, and then of each object its driven
/// channels, its two transforms, and its bones or the geometry after 0, 1 and so on of its modifiers. Each stands once.
///
/// It takes time in proportion to the quantities.
///
/// # Errors
///
/// [`NoMemory`] where memory is refused.
pub fn quantities(alloc: Global, scene: &Scene) -> Result<List<Quantity>, NoMemory>
    ensures { IfOk result (λ list. list ≡ quantities scene.now) }
{
    let rows = driver_rows(alloc, scene)?;
    let mut items = Vec::with_capacity(alloc, quantity_count(scene))?;
    add_pencils(&mut items, scene, &rows)?;
    add_objects(&mut items, scene, &rows)?;
    Ok(List::from(items))
}

// ---- the number of quantities, so that the list takes its memory once

fn quantity_count(scene: &Scene) -> usize {
    scene
        .drivers
        .len()
        .saturating_add(layer_count(scene.pencils.as_slice()))
        .saturating_add(object_quantity_count(scene.objects.as_slice()))
}

fn layer_count(pencils: &[PencilData]) -> usize {
    let mut count: usize = 0;
    for pencil in pencils {
        count = count.saturating_add(pencil.layers.len());
    }
    count
}

// Those of objects, without their driven channels.
fn object_quantity_count(objects: &[Object]) -> usize {
    let mut count: usize = 0;
    for object in objects {
        count = count
            .saturating_add(2)
            .saturating_add(kind_count(&object.kind));
    }
    count
}

fn kind_count(kind: &Kind) -> usize {
    match kind {
        Kind::Empty => 0,
        Kind::Armature { pose, .. } => pose.len(),
        Kind::Pencil { modifiers, .. } => modifiers.len().saturating_add(1),
    }
}

// ---- pencils

fn add_pencils(items: &mut Vec<Quantity>, scene: &Scene, rows: &Rows<u32>) -> Result<(), NoMemory>
    requires { rows.now ≡ driver_rows scene.now }
    ensures { OnOk result (items.new.items
        ≡ items.old.items ++ flat_map (λ e. pencil_quantities scene.now e.0 e.1) (enumerate_from 0 scene.now.pencils)) }
{
    for (index, pencil) in scene.pencils.as_slice().iter().enumerate() {
        add_pencil(items, scene, rows, index as u32, pencil)?;
    }
    Ok(())
}

// Adds the quantities of the pencil of an index.
fn add_pencil(
    items: &mut Vec<Quantity>,
    scene: &Scene,
    rows: &Rows<u32>,
    index: u32,
    pencil: &PencilData,
) -> Result<(), NoMemory>
    requires rows { rows.now ≡ driver_rows scene.now }
    requires pencil { index < length scene.now.pencils }
    requires layers { length pencil.now.layers ≤ MAX_LAYERS }
    ensures { OnOk result (items.new.items ≡ items.old.items ++ pencil_quantities scene.now index pencil.now) }
{
    add_chans(items, scene, rows, index as usize)?;
    add_layers(items, index, pencil.layers.len() as u32)
}

fn add_layers(items: &mut Vec<Quantity>, pencil: u32, count: u32) -> Result<(), NoMemory>
    ensures { OnOk result (items.new.items ≡ items.old.items ++ map (quantity.Layer pencil) (range_with_len 0 count)) }
{
    items.extend((0..count).map(|layer| Quantity::Layer(pencil, layer)))?;
    Ok(())
}

// ---- objects

fn add_objects(items: &mut Vec<Quantity>, scene: &Scene, rows: &Rows<u32>) -> Result<(), NoMemory>
    requires { rows.now ≡ driver_rows scene.now }
    ensures { OnOk result (items.new.items ≡ items.old.items ++ flat_map (object_quantities scene.now) scene.now.objects) }
{
    for (index, object) in scene.objects.as_slice().iter().enumerate() {
        add_object(items, scene, rows, index, object)?;
    }
    Ok(())
}

// Adds the quantities of the object of an index.
fn add_object(
    items: &mut Vec<Quantity>,
    scene: &Scene,
    rows: &Rows<u32>,
    index: usize,
    object: &Object,
) -> Result<(), NoMemory>
    requires rows { rows.now ≡ driver_rows scene.now }
    requires object { slice_get scene.now.objects index ≡ Some object.now }
    ensures { OnOk result (items.new.items ≡ items.old.items ++ object_quantities scene.now object.now) }
{
    add_chans(items, scene, rows, scene.pencils.len() + index)?;
    items.push(Quantity::Local(object.id))?;
    items.push(Quantity::World(object.id))?;
    add_kind(items, object.id, &object.kind)
}

fn add_kind(items: &mut Vec<Quantity>, id: ObjectId, kind: &Kind) -> Result<(), NoMemory>
    requires pose { pose_count kind.now ≤ MAX_BONES }
    requires modifiers { length (modifiers_of kind.now) ≤ MAX_MODIFIERS }
    ensures { OnOk result (items.new.items ≡ items.old.items ++ kind_quantities id kind.now) }
{
    match kind {
        Kind::Empty => Ok(()),
        Kind::Armature { pose, .. } => add_bones(items, id, pose.len() as u32),
        Kind::Pencil { modifiers, .. } => add_geometry(items, id, modifiers.len() as u32 + 1),
    }
}

fn add_bones(items: &mut Vec<Quantity>, id: ObjectId, count: u32) -> Result<(), NoMemory>
    ensures { OnOk result (items.new.items ≡ items.old.items ++ map (quantity.Bone id) (range_with_len 0 count)) }
{
    items.extend((0..count).map(|bone| Quantity::Bone(id, bone)))?;
    Ok(())
}

fn add_geometry(items: &mut Vec<Quantity>, id: ObjectId, count: u32) -> Result<(), NoMemory>
    ensures { OnOk result (items.new.items ≡ items.old.items ++ map (quantity.Geom id) (range_with_len 0 count)) }
{
    items.extend((0..count).map(|index| Quantity::Geom(id, index)))?;
    Ok(())
}

// ---- driven channels

// Adds the driven channels of the id of a slot.
fn add_chans(
    items: &mut Vec<Quantity>,
    scene: &Scene,
    rows: &Rows<u32>,
    number: usize,
) -> Result<(), NoMemory>
    requires rows { rows.now ≡ driver_rows scene.now }
    requires slot { number < length rows.now }
    ensures { (id : AnimId) → IsTrue (has_id scene.now id) → slot scene.now id ≡ number
        → OnOk result (items.new.items ≡ items.old.items ++ chans_of scene.now id) }
{
    add_chans_at(items, scene.drivers.as_slice(), rows.get(number))
}

fn add_chans_at(
    items: &mut Vec<Quantity>,
    drivers: &[Driver],
    indices: &[u32],
) -> Result<(), NoMemory>
    requires { All (λ i. i < length drivers.now) indices.now }
    ensures { OnOk result (items.new.items ≡ items.old.items ++ chans_at drivers.now indices.now) }
{
    for index in indices {
        let driver = &drivers[*index as usize];
        items.push(Quantity::Chan(driver.id, driver.path.copy()?))?;
    }
    Ok(())
}
