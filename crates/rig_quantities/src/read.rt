//! What each quantity of a scene reads.
ghost use Rattle.std.specs.Prelude.{◌≡◌, ◌++◌, ◌∷◌, [], length, map, slice_get, IfOk, OnOk};
ghost use Rattle.std.specs.List.{flat_map, range_with_len};
ghost use Rattle.std.specs.Option.{option_map_or};
ghost use Rattle.rig_scene.specs.declared.quantity.Quantity.TheVariants as quantity;
ghost use Rattle.rig_scene.specs.Quantities.{reads, inner_read, reference_read, variable_reads, space_quantity, parent_reads, bone_reads, layer_reads, effect_reads, modifiers_of, geometry_reads};

use crate::driven::{axis_reads, channel_reads};
use crate::find::{bone, driver, layer, object, pencil};
use rig_io::{List, NoMemory};
use rig_scene::{
    AnimId, BoneRef, Effect, Kind, Layer, Modifier, Object, ObjectId, Parent, Path, Quantity, Read,
    RestBone, Scene, Space, Variable,
};
use std::alloc::{AllocError, Global};

/// The reads of a quantity, in order. What the scene doesn't have reads nothing.
///
/// One call walks over all drivers of the scene: once for a channel and once for each of its variables, once for a local
/// transform, a bone or a layer. A table of the reads of all quantities groups the drivers first.
///
/// # Errors
///
/// [`NoMemory`] where memory is refused.
pub fn reads(alloc: Global, scene: &Scene, q: &Quantity) -> Result<List<Read>, NoMemory>
    ensures { IfOk result (λ list. list ≡ reads scene.now q.now) }
{
    match q {
        Quantity::Chan(id, path) => driver_reads(alloc, scene, *id, path),
        Quantity::Local(object) => channel_reads(alloc, scene, *object, None),
        Quantity::World(object) => world_reads(alloc, scene, *object),
        Quantity::Bone(object, index) => bone_reads(alloc, scene, *object, *index),
        Quantity::Layer(pencil, index) => layer_reads(alloc, scene, *pencil, *index),
        Quantity::Geom(object, index) => geometry_reads(alloc, scene, *object, *index),
    }
}

fn inner_read(source: Quantity) -> Read
    ensures { result ≡ inner_read source }
{
    Read {
        source,
        reference: false,
    }
}

fn reference_read(source: Quantity) -> Read
    ensures { result ≡ reference_read source }
{
    Read {
        source,
        reference: true,
    }
}

// ---- a driven channel

fn driver_reads(
    alloc: Global,
    scene: &Scene,
    id: AnimId,
    path: &Path,
) -> Result<List<Read>, NoMemory>
    ensures { IfOk result (λ list. list ≡ reads scene.now (quantity.Chan id path.now)) }
{
    match driver(scene, id, path) {
        Some(driver) => variable_reads(alloc, scene, driver.variables.as_slice()),
        None => Ok(List::new(alloc)),
    }
}

fn variable_reads(
    alloc: Global,
    scene: &Scene,
    variables: &[Variable],
) -> Result<List<Read>, NoMemory>
    ensures { IfOk result (λ list. list ≡ flat_map (variable_reads scene.now) variables.now) }
{
    let mut list = List::new(alloc);
    for variable in variables {
        add_variable(&mut list, scene, variable)?;
    }
    Ok(list)
}

fn add_variable(list: &mut List<Read>, scene: &Scene, variable: &Variable) -> Result<(), NoMemory>
    ensures { OnOk result (list.new ≡ list.old ++ variable_reads scene.now variable.now) }
{
    match variable {
        Variable::Property { id, path } => {
            if driver(scene, *id, path).is_some() {
                list.push(reference_read(Quantity::Chan(*id, path.copy()?)))
            } else {
                Ok(())
            }
        }
        Variable::Transform { object, space, .. } => {
            list.push(reference_read(space_quantity(*object, *space)))
        }
    }
}

fn space_quantity(object: ObjectId, space: Space) -> Quantity
    ensures { result ≡ space_quantity object space }
{
    match space {
        Space::World => Quantity::World(object),
        Space::Local => Quantity::Local(object),
        Space::Pose(bone) => Quantity::Bone(object, bone),
    }
}

// ---- a transform in the world

fn world_reads(alloc: Global, scene: &Scene, id: ObjectId) -> Result<List<Read>, NoMemory>
    ensures { IfOk result (λ list. list ≡ reads scene.now (quantity.World id)) }
{
    let mut list = List::new(alloc);
    list.push(inner_read(Quantity::Local(id)))?;
    match object(scene, id) {
        Some(object) => with_parent(list, object.parent),
        None => Ok(list),
    }
}

// Adds what carries an object.
fn with_parent(mut list: List<Read>, parent: Option<Parent>) -> Result<List<Read>, NoMemory>
    ensures { IfOk result (λ new. new ≡ list ++ parent_reads parent) }
{
    let Some(parent) = parent else {
        return Ok(list);
    };
    list.push(reference_read(Quantity::World(parent.object)))?;
    if let Some(bone) = parent.bone {
        list.push(reference_read(Quantity::Bone(parent.object, bone)))?;
    }
    Ok(list)
}

// ---- a bone

fn bone_reads(
    alloc: Global,
    scene: &Scene,
    id: ObjectId,
    index: u32,
) -> Result<List<Read>, NoMemory>
    ensures { IfOk result (λ list. list ≡ reads scene.now (quantity.Bone id index)) }
{
    match bone(scene, id, index) {
        Some(bone) => reads_of_bone(alloc, scene, id, bone),
        None => Ok(List::new(alloc)),
    }
}

fn reads_of_bone(
    alloc: Global,
    scene: &Scene,
    id: ObjectId,
    bone: &RestBone,
) -> Result<List<Read>, NoMemory>
    ensures { IfOk result (λ list. list ≡ bone_reads scene.now id bone.now) }
{
    let mut list = channel_reads(alloc, scene, id, Some(&bone.name))?;
    if let Some(parent) = bone.parent {
        list.push(inner_read(Quantity::Bone(id, parent)))?;
    }
    Ok(list)
}

// ---- a layer

fn layer_reads(
    alloc: Global,
    scene: &Scene,
    pencil: u32,
    index: u32,
) -> Result<List<Read>, NoMemory>
    ensures { IfOk result (λ list. list ≡ reads scene.now (quantity.Layer pencil index)) }
{
    match layer(scene, pencil, index) {
        Some(layer) => reads_of_layer(alloc, scene, pencil, layer),
        None => Ok(List::new(alloc)),
    }
}

fn reads_of_layer(
    alloc: Global,
    scene: &Scene,
    pencil: u32,
    layer: &Layer,
) -> Result<List<Read>, NoMemory>
    ensures { IfOk result (λ list. list ≡ layer_reads scene.now pencil layer.now) }
{
    let mut list = axis_reads(alloc, scene, pencil, &layer.name)?;
    if let Some(BoneRef { object, bone }) = layer.bound {
        list.push(reference_read(Quantity::Bone(object, bone)))?;
    }
    Ok(list)
}

// ---- the geometry of a pencil object

fn geometry_reads(
    alloc: Global,
    scene: &Scene,
    id: ObjectId,
    index: u32,
) -> Result<List<Read>, NoMemory>
    ensures { IfOk result (λ list. list ≡ reads scene.now (quantity.Geom id index)) }
{
    match object(scene, id) {
        Some(object) if index == 0 => pencil_reads(alloc, scene, object),
        Some(object) => modifier_reads(alloc, object, index - 1),
        None => Ok(List::new(alloc)),
    }
}

// Each layer of the pencil.
fn pencil_reads(alloc: Global, scene: &Scene, object: &Object) -> Result<List<Read>, NoMemory>
    ensures { IfOk result (λ list. list ≡ geometry_reads scene.now object.now 0) }
{
    match &object.kind {
        Kind::Pencil { pencil, .. } => {
            let reads = layers(alloc, *pencil, layer_count(scene, *pencil))?;
            Ok(List::from(reads))
        }
        Kind::Empty | Kind::Armature { .. } => Ok(List::new(alloc)),
    }
}

fn layer_count(scene: &Scene, index: u32) -> u32
    ensures { result ≡ option_map_or (λ p. length p.layers) (slice_get scene.now.pencils index) 0 }
{
    match pencil(scene, index) {
        Some(pencil) => pencil.layers.len() as u32,
        None => 0,
    }
}

fn layers(alloc: Global, pencil: u32, count: u32) -> Result<Vec<Read>, AllocError>
    ensures { IfOk result (λ reads. reads.items ≡ map (λ l. inner_read (quantity.Layer pencil l)) (range_with_len 0 count)) }
{
    (0..count)
        .map(|layer| inner_read(Quantity::Layer(pencil, layer)))
        .collect(alloc)
}

// The geometry before a modifier, and what the modifier reads.
fn modifier_reads(alloc: Global, object: &Object, index: u32) -> Result<List<Read>, NoMemory>
    ensures { IfOk result (λ list. list ≡ inner_read (quantity.Geom object.now.id index)
        ∷ option_map_or (λ m. effect_reads object.now.id m.effect) (slice_get (modifiers_of object.now.kind) index) []) }
{
    let mut list = List::new(alloc);
    list.push(inner_read(Quantity::Geom(object.id, index)))?;
    match modifiers_of(&object.kind).get(index as usize) {
        Some(modifier) => with_effect(list, object.id, &modifier.effect),
        None => Ok(list),
    }
}

fn modifiers_of(kind: &Kind) -> &[Modifier]
    ensures { result.now ≡ modifiers_of kind.now }
{
    match kind {
        Kind::Pencil { modifiers, .. } => modifiers.as_slice(),
        Kind::Empty | Kind::Armature { .. } => &[],
    }
}

// Adds what a modifier reads beside the strokes.
fn with_effect(mut list: List<Read>, id: ObjectId, effect: &Effect) -> Result<List<Read>, NoMemory>
    ensures { IfOk result (λ new. new ≡ list ++ effect_reads id effect.now) }
{
    let Effect::Mirror(mirror) = effect else {
        return Ok(list);
    };
    if let Some(centre) = mirror.centre {
        list.push(inner_read(Quantity::World(id)))?;
        list.push(reference_read(Quantity::World(centre)))?;
    }
    Ok(list)
}
