//! Objects added and removed.
ghost use Rattle.std.specs.Prelude.{◌≡◌, ◌<◌, ◌≤◌, not, length, filter, replicate, sum_by, false, None, IfOk};
ghost use Rattle.std.specs.List.{list_any};
ghost use Rattle.std.specs.Option.{option_map_or};
ghost use Rattle.rig_scene.specs.declared.id.AnimId.TheVariants as anim;
ghost use Rattle.rig_scene.specs.declared.limits.TheConstants.{MAX_ARMATURES, MAX_BONES, MAX_PENCILS, MAX_POSE_BONES};
ghost use Rattle.rig_scene.specs.Id.{same_object, same_id};
ghost use Rattle.rig_scene.specs.Text.{same_text};
ghost use Rattle.rig_scene.specs.WellFormed.{is_pencil_kind, pose_count};
ghost use Rattle.rig_edits.specs.declared.cause.EditCause.TheVariants.{UnknownId};
ghost use Rattle.rig_edits.specs.declared.edit.Edit.TheVariants.{AddObject, RemoveObject};
ghost use Rattle.rig_edits.specs.declared.edit.NewKind.TheVariants as new;
ghost use Rattle.rig_edits.specs.declared.change.TheConstants.{MAX_NEXT};
ghost use Rattle.rig_edits.specs.Answers.{Applies};
ghost use Rattle.rig_edits.specs.Conditions.{first_cause, lacks_data, when};
ghost use Rattle.rig_edits.specs.Conditions.{is_centre_of, is_in_use, is_read_by, is_used_by_driver, is_used_by_object};
ghost use Rattle.rig_edits.specs.Edited.{at_rest};
ghost use Rattle.rig_edits.specs.Named.{modifiers_of};
ghost use Rattle.rig_edits.specs.NewData.{IsDataOf, bones_with, full_with, kind_with};
ghost use Rattle.rig_edits.specs.Steps.{Finds, FoundAt};

use crate::cause::{EditCause, EditStop};
use crate::edit::NewKind;
use crate::find::{index_named, object_index};
use crate::full::room_for;
use rig_fixed::{Fx, Raw, V3};
use rig_io::{List, NoMemory};
use rig_scene::limits::{MAX_OBJECTS, MAX_PENCIL_OBJECTS, MAX_POSE_BONES};
use rig_scene::{
    AnimId, Channels, Driver, Effect, Kind, Layer, Modifier, Name, Object, ObjectId, PencilData,
    Scene, Variable,
};
use std::alloc::Global;

/// Adds an object behind all others, at rest.
pub(crate) fn add_object(
    alloc: Global,
    scene: &mut Scene,
    name: &Name,
    kind: &NewKind,
) -> Result<(), EditStop>
    requires { scene.old.next < MAX_NEXT }
    ensures { Applies result scene.old scene.new (AddObject name.now kind.now) }
{
    let object_data = data_for(scene, name, kind)?;
    let object = new_object(alloc, ObjectId(scene.next), name, object_data)?;
    scene.objects.push(object)?;
    scene.next += 1;
    Ok(())
}

/// The data of a new object, by its index.
#[derive(Clone, Copy, Debug)]
enum Data {
    Nothing,
    /// An armature, and how many bones it has.
    Armature { armature: u32, bones: usize },
    Pencil { pencil: u32 },
}

/// The data of an object that can be added, or the first of the causes against it.
fn data_for(scene: &Scene, name: &Name, kind: &NewKind) -> Result<Data, EditCause>
    ensures { Finds result (first_cause scene.now (AddObject name.now kind.now)) (IsDataOf scene.now kind.now) }
{
    let object_data = data_of(scene, kind)?;
    if index_named(scene.objects.as_slice(), name).is_some() {
        return Err(EditCause::Duplicate);
    }
    room_for(scene.objects.len(), 1, MAX_OBJECTS)?;
    room_for_kind(scene, object_data)?;
    Ok(object_data)
}

fn data_of(scene: &Scene, kind: &NewKind) -> Result<Data, EditCause>
    ensures { Finds result (when UnknownId (lacks_data scene.now kind.now)) (IsDataOf scene.now kind.now) }
{
    match kind {
        NewKind::Empty => Ok(Data::Nothing),
        NewKind::Armature(name) => armature_named(scene, name),
        NewKind::Pencil(name) => pencil_named(scene, name),
    }
}

fn armature_named(scene: &Scene, name: &Name) -> Result<Data, EditCause>
    ensures { Finds result (when UnknownId (lacks_data scene.now (new.Armature name.now)))
        (IsDataOf scene.now (new.Armature name.now)) }
{
    let index = armature_index(scene, name)?;
    Ok(Data::Armature {
        armature: index as u32,
        bones: scene.armatures.get(index).bones.len(),
    })
}

fn armature_index(scene: &Scene, name: &Name) -> Result<usize, EditCause>
    ensures found { Finds result (when UnknownId (lacks_data scene.now (new.Armature name.now)))
        (FoundAt (λ a. same_text a.name name.now) scene.now.armatures) }
    ensures below { IfOk result (λ index. index < MAX_ARMATURES) }
{
    match index_named(scene.armatures.as_slice(), name) {
        Some(index) => Ok(index),
        None => Err(EditCause::UnknownId),
    }
}

fn pencil_named(scene: &Scene, name: &Name) -> Result<Data, EditCause>
    ensures { Finds result (when UnknownId (lacks_data scene.now (new.Pencil name.now)))
        (IsDataOf scene.now (new.Pencil name.now)) }
{
    let index = pencil_index(scene, name)?;
    Ok(Data::Pencil {
        pencil: index as u32,
    })
}

fn pencil_index(scene: &Scene, name: &Name) -> Result<usize, EditCause>
    ensures found { Finds result (when UnknownId (lacks_data scene.now (new.Pencil name.now)))
        (FoundAt (λ p. same_text p.name name.now) scene.now.pencils) }
    ensures below { IfOk result (λ index. index < MAX_PENCILS) }
{
    match index_named(scene.pencils.as_slice(), name) {
        Some(index) => Ok(index),
        None => Err(EditCause::UnknownId),
    }
}

fn room_for_kind(scene: &Scene, object_data: Data) -> Result<(), EditCause>
    requires { bones_with object_data ≤ MAX_BONES }
    ensures { Finds result (full_with scene.now object_data) (λ _. Unit {0}) }
{
    match object_data {
        Data::Nothing => Ok(()),
        Data::Armature { bones, .. } => room_for(
            pose_bone_count(&scene.objects),
            bones,
            MAX_POSE_BONES,
        ),
        Data::Pencil { .. } => room_for(pencil_object_count(&scene.objects), 1, MAX_PENCIL_OBJECTS),
    }
}

/// The number of bones of all armature objects.
fn pose_bone_count(objects: &List<Object>) -> usize
    requires { sum_by (λ o. pose_count o.kind) objects.now ≤ MAX_POSE_BONES }
    ensures { result ≡ sum_by (λ o. pose_count o.kind) objects.now }
{
    let mut count = 0;
    for object in objects.as_slice() {
        count += pose_count(&object.kind);
    }
    count
}

fn pose_count(kind: &Kind) -> usize
    ensures { result ≡ pose_count kind.now }
{
    match kind {
        Kind::Armature { pose, .. } => pose.len(),
        Kind::Empty | Kind::Pencil { .. } => 0,
    }
}

/// The number of pencil objects.
fn pencil_object_count(objects: &List<Object>) -> usize
    ensures { result ≡ length (filter (λ o. is_pencil_kind o.kind) objects.now) }
{
    objects
        .as_slice()
        .iter()
        .filter(|object| is_pencil_object(object))
        .count()
}

fn is_pencil_object(object: &Object) -> bool
    ensures { result ≡ is_pencil_kind object.now.kind }
{
    match object.kind {
        Kind::Pencil { .. } => true,
        Kind::Empty | Kind::Armature { .. } => false,
    }
}

/// An object of the data, at rest.
fn new_object(
    alloc: Global,
    id: ObjectId,
    name: &Name,
    object_data: Data,
) -> Result<Object, NoMemory>
    ensures { IfOk result (λ o. o ≡ record {
      id = id;
      name = name.now;
      own = at_rest;
      action = None;
      parent = None;
      kind = kind_with object_data;
    }) }
{
    Ok(Object {
        id,
        name: name.clone()?,
        own: at_rest(),
        action: None,
        parent: None,
        kind: kind_of(alloc, object_data)?,
    })
}

/// The kind of an object that has the data, at rest.
fn kind_of(alloc: Global, object_data: Data) -> Result<Kind, NoMemory>
    ensures { IfOk result (λ kind. kind ≡ kind_with object_data) }
{
    match object_data {
        Data::Nothing => Ok(Kind::Empty),
        Data::Armature { armature, bones } => Ok(Kind::Armature {
            armature,
            pose: pose_at_rest(alloc, bones)?,
        }),
        Data::Pencil { pencil } => Ok(Kind::Pencil {
            pencil,
            modifiers: List::new(alloc),
        }),
    }
}

fn pose_at_rest(alloc: Global, bones: usize) -> Result<List<Channels>, NoMemory>
    ensures { IfOk result (λ pose. pose ≡ replicate bones at_rest) }
{
    let pose = vec![in alloc; at_rest(); bones]?;
    Ok(List::from(pose))
}

/// No location, no rotation, and the scale of one unit.
fn at_rest() -> Channels
    ensures { result ≡ at_rest }
{
    Channels {
        loc: V3::ZERO,
        rot: Raw {
            w: Fx::ONE,
            x: Fx::ZERO,
            y: Fx::ZERO,
            z: Fx::ZERO,
        },
        scale: Fx::ONE,
    }
}

/// Takes an object out, with its own drivers.
pub(crate) fn remove_object(scene: &mut Scene, object: &Name) -> Result<(), EditStop>
    ensures { Applies result scene.old scene.new (RemoveObject object.now) }
{
    let index = unused_index(scene, object)?;
    let object = scene.objects.remove(index);
    drop_drivers(&mut scene.drivers, object.id);
    Ok(())
}

/// The index of an object that can be taken out, or the first of the causes against it.
fn unused_index(scene: &Scene, object: &Name) -> Result<usize, EditCause>
    ensures { Finds result (first_cause scene.now (RemoveObject object.now))
        (FoundAt (λ o. same_text o.name object.now) scene.now.objects) }
{
    let index = object_index(scene, object)?;
    if is_in_use(scene, scene.objects.get(index).id) {
        Err(EditCause::InUse)
    } else {
        Ok(index)
    }
}

fn drop_drivers(drivers: &mut List<Driver>, id: ObjectId)
    ensures { drivers.new ≡ filter (λ d. not (same_id d.id (anim.Object id))) drivers.old }
{
    drivers.retain(|driver| is_of_another(driver, id));
}

fn is_of_another(driver: &Driver, id: ObjectId) -> bool
    ensures { result ≡ not (same_id driver.now.id (anim.Object id)) }
{
    driver.id != AnimId::Object(id)
}

/// Whether something else needs the object.
fn is_in_use(scene: &Scene, id: ObjectId) -> bool
    ensures { result ≡ is_in_use scene.now id }
{
    is_used_by_objects(scene.objects.as_slice(), id)
        || is_bound(scene.pencils.as_slice(), id)
        || is_used_by_drivers(scene.drivers.as_slice(), id)
}

fn is_used_by_objects(objects: &[Object], id: ObjectId) -> bool
    ensures { result ≡ list_any (is_used_by_object id) objects.now }
{
    objects.iter().any(|object| is_used_by_object(id, object))
}

/// Whether another object has it as parent, or as the centre of a mirror.
fn is_used_by_object(id: ObjectId, object: &Object) -> bool
    ensures { result ≡ is_used_by_object id object.now }
{
    id != object.id && (is_carried_by(id, object) || has_mirror_about(id, &object.kind))
}

fn is_carried_by(id: ObjectId, object: &Object) -> bool
    ensures { result ≡ option_map_or (λ p. same_object id p.object) object.now.parent false }
{
    match object.parent {
        Some(parent) => id == parent.object,
        None => false,
    }
}

fn has_mirror_about(id: ObjectId, kind: &Kind) -> bool
    ensures { result ≡ list_any (λ m. is_centre_of id m.effect) (modifiers_of kind.now) }
{
    match kind {
        Kind::Pencil { modifiers, .. } => is_centre_for(modifiers.as_slice(), id),
        Kind::Empty | Kind::Armature { .. } => false,
    }
}

fn is_centre_for(modifiers: &[Modifier], id: ObjectId) -> bool
    ensures { result ≡ list_any (λ m. is_centre_of id m.effect) modifiers.now }
{
    modifiers
        .iter()
        .any(|modifier| is_centre_of(id, &modifier.effect))
}

fn is_centre_of(id: ObjectId, effect: &Effect) -> bool
    ensures { result ≡ is_centre_of id effect.now }
{
    match effect {
        Effect::Mirror(mirror) => match mirror.centre {
            Some(centre) => id == centre,
            None => false,
        },
        Effect::Offset { .. } | Effect::Array { .. } => false,
    }
}

/// Whether a layer is bound to a bone of the object.
fn is_bound(pencils: &[PencilData], id: ObjectId) -> bool
    ensures { result ≡
        list_any (λ p. list_any (λ l. option_map_or (λ b. same_object id b.object) l.bound false) p.layers) pencils.now }
{
    pencils
        .iter()
        .any(|pencil| has_layer_bound_to(pencil.layers.as_slice(), id))
}

fn has_layer_bound_to(layers: &[Layer], id: ObjectId) -> bool
    ensures { result ≡ list_any (λ l. option_map_or (λ b. same_object id b.object) l.bound false) layers.now }
{
    layers.iter().any(|layer| is_bound_to(layer, id))
}

fn is_bound_to(layer: &Layer, id: ObjectId) -> bool
    ensures { result ≡ option_map_or (λ b. same_object id b.object) layer.now.bound false }
{
    match layer.bound {
        Some(bone) => id == bone.object,
        None => false,
    }
}

fn is_used_by_drivers(drivers: &[Driver], id: ObjectId) -> bool
    ensures { result ≡ list_any (is_used_by_driver id) drivers.now }
{
    drivers.iter().any(|driver| is_used_by_driver(id, driver))
}

/// Whether a driver of another id reads it.
fn is_used_by_driver(id: ObjectId, driver: &Driver) -> bool
    ensures { result ≡ is_used_by_driver id driver.now }
{
    !is_of_object(id, driver.id) && reads(driver.variables.as_slice(), id)
}

fn reads(variables: &[Variable], id: ObjectId) -> bool
    ensures { result ≡ list_any (is_read_by id) variables.now }
{
    variables.iter().any(|variable| is_read_by(id, variable))
}

fn is_read_by(id: ObjectId, variable: &Variable) -> bool
    ensures { result ≡ is_read_by id variable.now }
{
    match variable {
        Variable::Property { id: read, .. } => is_of_object(id, *read),
        Variable::Transform { object, .. } => id == *object,
    }
}

fn is_of_object(object: ObjectId, id: AnimId) -> bool
    ensures { result ≡ same_id (anim.Object object) id }
{
    AnimId::Object(object) == id
}
