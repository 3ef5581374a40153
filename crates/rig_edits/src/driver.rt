//! Drivers set and cleared.
ghost use Rattle.std.specs.Prelude.{◌≡◌, ◌<◌, ◌≤◌, ◌&&◌, length, filter, not, Some, None, IfSome, MatchOption, MatchResult, OnOk, OnErr};
ghost use Rattle.std.specs.List.{position};
ghost use Rattle.rig_scene.specs.declared.channel.Channel.{Channel};
ghost use Rattle.rig_scene.specs.declared.driver.Variable.TheVariants as variable;
ghost use Rattle.rig_scene.specs.declared.limits.TheConstants.{MAX_VARIABLES};
ghost use Rattle.rig_scene.specs.Id.{same_id};
ghost use Rattle.rig_scene.specs.Path.{same_path};
ghost use Rattle.rig_edits.specs.declared.cause.EditCause.TheVariants.{UnknownId};
ghost use Rattle.rig_edits.specs.declared.cause.EditStop.TheVariants.{NoMemory as stopped_for_memory};
ghost use Rattle.rig_edits.specs.declared.edit.Edit.TheVariants.{SetDriver, ClearDriver};
ghost use Rattle.rig_edits.specs.declared.edit.NewVariable.TheVariants.{Transform};
ghost use Rattle.rig_edits.specs.Answers.{Applies};
ghost use Rattle.rig_edits.specs.Conditions.{first_cause, lacks_id, when};
ghost use Rattle.rig_edits.specs.DriverCauses.{earlier, channel_causes, variable_causes, variables_causes, Builds};
ghost use Rattle.rig_edits.specs.DriverPlaces.{IsDriverPlace, put_at};
ghost use Rattle.rig_edits.specs.Edited.{new_driver, variable_of, variables_of};
ghost use Rattle.rig_edits.specs.Named.{id_of};
ghost use Rattle.rig_edits.specs.Steps.{Finds, FoundAt, FoundNowhere};

use crate::cause::{EditCause, EditStop, rank};
use crate::edit::{IdName, NewDriver, NewVariable};
use crate::find::{index_named, object_index};
use crate::full::room_for;
use crate::slot::{bone_of, slot_of};
use rig_io::{List, NoMemory};
use rig_scene::limits::MAX_DRIVERS;
use rig_scene::{AnimId, Driver, Name, ObjectId, Path, Scene, Space, Variable};
use std::alloc::Global;

/// Replaces the driver of a channel in its place, or adds one behind all others.
pub(crate) fn set_driver(
    alloc: Global,
    scene: &mut Scene,
    id: &IdName,
    path: &Path,
    driver: &NewDriver,
) -> Result<(), EditStop>
    ensures { Applies result scene.old scene.new (SetDriver id.now path.now driver.now) }
{
    let place = new_place(scene, id, path, driver)?;
    let driver = new_driver(alloc, scene, place.id, path, driver)?;
    put_driver(&mut scene.drivers, place.index, driver)?;
    Ok(())
}

/// Takes the driver of a channel out.
pub(crate) fn clear_driver(scene: &mut Scene, id: &IdName, path: &Path) -> Result<(), EditStop>
    ensures { Applies result scene.old scene.new (ClearDriver id.now path.now) }
{
    let id = driven_id(scene, id, path)?;
    drop_driver(&mut scene.drivers, id, path);
    Ok(())
}

/// Where a driver stands, or is to be put: the id that it drives, and its index where there is one.
#[derive(Clone, Copy, Debug)]
struct DriverPlace {
    id: AnimId,
    index: Option<usize>,
}

/// Where a new driver is to be put, or the first of the causes against it.
fn new_place(
    scene: &Scene,
    id: &IdName,
    path: &Path,
    driver: &NewDriver,
) -> Result<DriverPlace, EditCause>
    ensures place { Finds result (first_cause scene.now (SetDriver id.now path.now driver.now)) (IsDriverPlace scene.now id.now path.now) }
    ensures few { (1 ≤ length driver.now.variables) × (length driver.now.variables ≤ MAX_VARIABLES) }
{
    if let Some(cause) = names_cause(scene, id, path, &driver.variables) {
        return Err(cause);
    }
    let id = id_of(scene, id)?;
    let index = driver_index(scene.drivers.as_slice(), id, path);
    if index.is_none() {
        room_for(scene.drivers.len(), 1, MAX_DRIVERS)?;
    }
    Ok(DriverPlace { id, index })
}

/// The id of a channel that has a driver, or the first of the causes against taking it out.
fn driven_id(scene: &Scene, id: &IdName, path: &Path) -> Result<AnimId, EditCause>
    ensures { Finds result (first_cause scene.now (ClearDriver id.now path.now)) (λ found. id_of scene.now id.now ≡ Some found) }
{
    slot_of(scene, id, path)?;
    let id = id_of(scene, id)?;
    match driver_index(scene.drivers.as_slice(), id, path) {
        Some(_) => Ok(id),
        None => Err(EditCause::Absent),
    }
}

/// A driver of a channel, by ids and indices.
fn new_driver(
    alloc: Global,
    scene: &Scene,
    id: AnimId,
    path: &Path,
    driver: &NewDriver,
) -> Result<Driver, EditStop>
    requires { variables_causes scene.now driver.now.variables ≡ None }
    ensures { MatchResult result (λ found. found ≡ new_driver scene.now id path.now driver.now) (λ stop. stop ≡ stopped_for_memory) }
{
    Ok(Driver {
        id,
        path: path.copy()?,
        kind: driver.kind,
        variables: variables_of(alloc, scene, &driver.variables)?,
    })
}

/// The first of the causes against the names of a driver: those of its channel and of its variables.
fn names_cause(
    scene: &Scene,
    id: &IdName,
    path: &Path,
    variables: &List<NewVariable>,
) -> Option<EditCause>
    ensures { result ≡ earlier (channel_causes scene.now id.now path.now) (variables_causes scene.now variables.now) }
{
    let mut found = slot_of(scene, id, path).err();
    for variable in variables.as_slice() {
        found = first_of(found, variable_cause(scene, variable));
    }
    found
}

/// The one of two causes that comes first in the order of their codes.
fn first_of(a: Option<EditCause>, b: Option<EditCause>) -> Option<EditCause>
    ensures { result ≡ earlier a b }
{
    match (a, b) {
        (Some(c), Some(d)) => Some(if rank(d) < rank(c) { d } else { c }),
        (Some(c), None) => Some(c),
        (None, d) => d,
    }
}

/// The first of the causes against what a variable names.
fn variable_cause(scene: &Scene, variable: &NewVariable) -> Option<EditCause>
    ensures { result ≡ variable_causes scene.now variable.now }
{
    match variable {
        NewVariable::Property { id, path } => slot_of(scene, id, path).err(),
        NewVariable::Transform {
            object,
            bone,
            world,
            ..
        } => transform_of(scene, object, bone, *world).err(),
    }
}

/// An object, and one of its transforms.
#[derive(Clone, Copy, Debug)]
struct Transformed {
    object: ObjectId,
    space: Space,
}

/// The object of a name, and which of its transforms is meant: that of a bone where one is named, else the world or the local one.
fn transform_of(
    scene: &Scene,
    object: &Name,
    bone: &Option<Name>,
    world: bool,
) -> Result<Transformed, EditCause>
    ensures { (channel : Channel) → Finds result (variable_causes scene.now (Transform object.now bone.now world channel))
        (λ found. variable_of scene.now (Transform object.now bone.now world channel)
        ≡ Some (variable.Transform found.object found.space channel)) }
{
    let index = object_index(scene, object)?;
    let object = scene.objects.get(index).id;
    let space = match bone {
        Some(bone) => Space::Pose(bone_of(scene, index, bone, EditCause::UnknownPart)? as u32),
        None if world => Space::World,
        None => Space::Local,
    };
    Ok(Transformed { object, space })
}

/// The id that a name means.
fn id_of(scene: &Scene, id: &IdName) -> Result<AnimId, EditCause>
    ensures { Finds result (when UnknownId (lacks_id scene.now id.now)) (λ found. id_of scene.now id.now ≡ Some found) }
{
    match id {
        IdName::Object(name) => {
            let object = object_index(scene, name)?;
            Ok(AnimId::Object(scene.objects.get(object).id))
        }
        IdName::Pencil(name) => match index_named(scene.pencils.as_slice(), name) {
            Some(pencil) => Ok(AnimId::Pencil(pencil as u32)),
            None => Err(EditCause::UnknownId),
        },
    }
}

/// The index of the driver of a channel.
fn driver_index(drivers: &[Driver], id: AnimId, path: &Path) -> Option<usize>
    ensures { MatchOption result (FoundNowhere (λ d. same_id d.id id && same_path d.path path.now) drivers.now)
        (FoundAt (λ d. same_id d.id id && same_path d.path path.now) drivers.now) }
{
    driver_position(drivers, id, path)
}

fn driver_position(drivers: &[Driver], id: AnimId, path: &Path) -> Option<usize>
    ensures { result ≡ position (λ d. same_id d.id id && same_path d.path path.now) drivers.now }
{
    drivers.iter().position(|driver| drives(driver, id, path))
}

/// Whether a driver is that of a channel.
fn drives(driver: &Driver, id: AnimId, path: &Path) -> bool
    ensures { result ≡ (same_id driver.now.id id && same_path driver.now.path path.now) }
{
    driver.id == id && driver.path == *path
}

/// Puts a driver in the place of the one at an index, or behind all others.
///
/// # Errors
///
/// [`NoMemory`]: the drivers are unchanged.
fn put_driver(
    drivers: &mut List<Driver>,
    index: Option<usize>,
    driver: Driver,
) -> Result<(), NoMemory>
    requires { IfSome index (λ i. i < length drivers.old) }
    ensures ok { OnOk result (drivers.new ≡ put_at index driver drivers.old) }
    ensures err { OnErr result (drivers.new ≡ drivers.old) }
{
    match index {
        Some(index) => {
            drivers.set(index, driver);
            Ok(())
        }
        None => drivers.push(driver),
    }
}

/// Takes the driver of a channel out.
fn drop_driver(drivers: &mut List<Driver>, id: AnimId, path: &Path)
    ensures { drivers.new ≡ filter (λ d. not (same_id d.id id && same_path d.path path.now)) drivers.old }
{
    drivers.retain(|driver| !drives(driver, id, path));
}

/// The variables of a driver, by ids and indices.
fn variables_of(
    alloc: Global,
    scene: &Scene,
    variables: &List<NewVariable>,
) -> Result<List<Variable>, EditStop>
    requires { variables_causes scene.now variables.now ≡ None }
    ensures { MatchResult result (λ found. found ≡ variables_of scene.now variables.now) (λ stop. stop ≡ stopped_for_memory) }
{
    let mut found = List::new(alloc);
    for variable in variables.as_slice() {
        found.push(variable_of(scene, variable)?)?;
    }
    Ok(found)
}

fn variable_of(scene: &Scene, variable: &NewVariable) -> Result<Variable, EditStop>
    ensures { Builds result (variable_causes scene.now variable.now) (variable_of scene.now variable.now) }
{
    match variable {
        NewVariable::Property { id, path } => Ok(Variable::Property {
            id: id_of(scene, id)?,
            path: path.copy()?,
        }),
        NewVariable::Transform {
            object,
            bone,
            world,
            channel,
        } => {
            let found = transform_of(scene, object, bone, *world)?;
            Ok(Variable::Transform {
                object: found.object,
                space: found.space,
                channel: *channel,
            })
        }
    }
}
