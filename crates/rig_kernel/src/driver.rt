//! The number of a driven channel.
ghost use Rattle.std.specs.Prelude.{◌≡◌, ◌≤◌, ◌<◌, ◌&&◌, Some, None, ℤ, pos, drop, map, slice_get, IsTrue, option_map, option_and_then, unwrap_or};
ghost use Rattle.std.specs.List.{Contains, find, flat_map};
ghost use Rattle.std.specs.Option.{option_copied};
ghost use Rattle.rig_scene.specs.declared.id.AnimId.{AnimId};
ghost use Rattle.rig_scene.specs.declared.id.AnimId.TheVariants as anim;
ghost use Rattle.rig_scene.specs.declared.modifier.Mode.{Mode};
ghost use Rattle.rig_scene.specs.declared.operation.OpId.TheVariants as opid;
ghost use Rattle.rig_scene.specs.declared.path.Path.{Path};
ghost use Rattle.rig_scene.specs.declared.quantity.Quantity.TheVariants as quantity;
ghost use Rattle.rig_scene.specs.ChannelNumber.{animated_number, original_number, pose_named, number_by};
ghost use Rattle.rig_scene.specs.Drivers.{action_index};
ghost use Rattle.rig_scene.specs.Facts.{DriverFacts};
ghost use Rattle.rig_scene.specs.Id.{same_id};
ghost use Rattle.rig_scene.specs.Operations.{operations, ins, variable_links};
ghost use Rattle.rig_scene.specs.Path.{same_path};
ghost use Rattle.rig_scene.specs.Text.{same_text};
ghost use Rattle.rig_scene.specs.Value.{Number};
ghost use Rattle.rig_scene.specs.WellFormed.{has_path, is_variable};
ghost use Rattle.rig_kernel.specs.Driven.{curve_number};
ghost use Rattle.rig_laws.specs.Kernel.{kernel, driver_number, variable_number};
ghost use Rattle.rig_kernel.specs.LayerBy.{animation_count};
ghost use Rattle.rig_laws.specs.Output.{link_of, numbers_at};
ghost use Rattle.rig_kernel.specs.Tables.{AreTables, table_parts, curve_at};
ghost use Rattle.rig_kernel.specs.VariableBy.{driven_at, TakesItsDriver, taken_by, object_number, pencil_number};

use crate::channels::{animation_count, curve_number};
use crate::driven::number_in;
use crate::inputs::{Inputs, numbers_at, transform_at};
use crate::records::object_of;
use crate::tables::SceneTables;
use rig_drivers::combine;
use rig_fixed::Fx;
use rig_io::List;
use rig_scene::{
    AnimId, Channels, Driver, Kind, Layer, Name, Object, OpId, Path, PencilData, Scene, Variable,
};

/// The number of the driver that an operation is.
pub(crate) fn driver<I: Inputs>(scene: &Scene, tables: &SceneTables, op: &OpId, inputs: &I) -> Fx
    requires op { Contains (operations scene.now) op.now }
    requires tables { AreTables tables.now (table_parts scene.now) }
    requires inputs { map link_of (I.list inputs.now) ≡ ins scene.now op.now }
    ensures { (mode : Mode) (frame : ℤ) (id : AnimId) (path : Path) → op.now ≡ opid.Driver id path →
        kernel scene.now mode frame op.now (I.list inputs.now) ≡ Some (Number result) }
{
    match tables.driver(op) {
        Some(index) => driver_number(scene, tables, scene.drivers.get(index as usize), inputs),
        None => Fx::ZERO,
    }
}

// The number that a driver makes of its variables.
fn driver_number<I: Inputs>(scene: &Scene, tables: &SceneTables, driver: &Driver, inputs: &I) -> Fx
    requires driver { DriverFacts scene.now driver.now }
    requires tables { AreTables tables.now (table_parts scene.now) }
    requires inputs { map link_of (I.list inputs.now)
        ≡ flat_map (variable_links scene.now (quantity.Chan driver.now.id driver.now.path)) driver.now.variables }
    ensures { result ≡ driver_number scene.now driver.now (I.list inputs.now) }
{
    let variables = driver.variables.as_slice();
    let mut numbers = [Fx::ZERO; 8];
    let mut next = 0;
    for (index, variable) in variables.iter().enumerate() {
        let taken = variable_number(scene, tables, variable, inputs, next);
        numbers[index] = taken.number;
        next += taken.count;
    }
    combine(driver.kind, &numbers[..variables.len()])
}

// The number of a variable, and how many inputs it takes.
#[derive(Drop)]
struct Taken {
    number: Fx,
    count: usize,
}

// The number of a variable whose input, where it takes one, is that of an index.
fn variable_number<I: Inputs>(
    scene: &Scene,
    tables: &SceneTables,
    variable: &Variable,
    inputs: &I,
    index: usize,
) -> Taken
    requires variable { IsTrue (is_variable scene.now variable.now) }
    requires tables { AreTables tables.now (table_parts scene.now) }
    requires driver { TakesItsDriver scene.now variable.now (I.list inputs.now) index }
    ensures number { result.number ≡ variable_number scene.now variable.now (drop index (I.list inputs.now)) }
    ensures count { result.count ≡ taken_by scene.now variable.now }
    ensures few { result.count ≤ 1 }
{
    match variable {
        Variable::Property { id, path } => match driven_at(inputs, index, *id, path) {
            Some(number) => Taken { number, count: 1 },
            None => undriven(scene, tables, *id, path, inputs, index),
        },
        Variable::Transform { channel, .. } => Taken {
            number: channel.number_of(&transform_at(inputs, index)),
            count: 1,
        },
    }
}

// The number of the driver of a channel, if it is the input of an index.
fn driven_at<I: Inputs>(inputs: &I, index: usize, id: AnimId, path: &Path) -> Option<Fx>
    ensures { result ≡ driven_at (I.list inputs.now) index id path.now }
{
    let out = inputs.get(index)?;
    match out.op() {
        OpId::Driver(i, p) if is_channel(*i, p, id, path) => Some(number_in(out.value())),
        _ => None,
    }
}

fn is_channel(id: AnimId, path: &Path, other: AnimId, other_path: &Path) -> bool
    ensures { result ≡ (same_id id other && same_path path.now other_path.now) }
{
    id == other && *path == *other_path
}

// The number of a channel without a driver.
fn undriven<I: Inputs>(
    scene: &Scene,
    tables: &SceneTables,
    id: AnimId,
    path: &Path,
    inputs: &I,
    index: usize,
) -> Taken
    requires path { IsTrue (has_path scene.now id path.now) }
    requires tables { AreTables tables.now (table_parts scene.now) }
    ensures number { result.number ≡ number_by None (animated_number scene.now (λ other. numbers_at (I.list inputs.now) index) id path.now)
        (unwrap_or (original_number scene.now id path.now) (pos 0)) }
    ensures count { result.count ≡ animation_count (action_index scene.now id) }
    ensures few { result.count ≤ 1 }
{
    match id {
        AnimId::Object(o) => {
            let object = object_of(scene, o);
            Taken {
                number: of_object(scene, tables, object, path, inputs, index),
                count: animation_count(object.action),
            }
        }
        AnimId::Pencil(p) => {
            let pencil = scene.pencils.get(p as usize);
            Taken {
                number: of_pencil(tables, pencil, path, inputs, index),
                count: animation_count(pencil.action),
            }
        }
    }
}

fn of_object<I: Inputs>(
    scene: &Scene,
    tables: &SceneTables,
    object: &Object,
    path: &Path,
    inputs: &I,
    index: usize,
) -> Fx
    requires tables { AreTables tables.now (table_parts scene.now) }
    ensures { result ≡ number_by None (curve_number (numbers_at (I.list inputs.now) index) (option_and_then (λ a. curve_at tables.now a path.now) object.now.action))
        (unwrap_or (object_number scene.now object.now path.now) (pos 0)) }
{
    match animated(tables, object.action, path, inputs, index) {
        Some(number) => number,
        None => object_number(scene, tables, object, path).unwrap_or(Fx::ZERO),
    }
}

fn of_pencil<I: Inputs>(
    tables: &SceneTables,
    pencil: &PencilData,
    path: &Path,
    inputs: &I,
    index: usize,
) -> Fx
    ensures { result ≡ number_by None (curve_number (numbers_at (I.list inputs.now) index) (option_and_then (λ a. curve_at tables.now a path.now) pencil.now.action))
        (unwrap_or (pencil_number pencil.now path.now) (pos 0)) }
{
    match animated(tables, pencil.action, path, inputs, index) {
        Some(number) => number,
        None => pencil_number(pencil, path).unwrap_or(Fx::ZERO),
    }
}

// What the curve of a path in an action gives.
fn animated<I: Inputs>(
    tables: &SceneTables,
    action: Option<u32>,
    path: &Path,
    inputs: &I,
    index: usize,
) -> Option<Fx>
    ensures { result ≡ curve_number (numbers_at (I.list inputs.now) index) (option_and_then (λ a. curve_at tables.now a path.now) action) }
{
    match action {
        Some(action) => curve_number(numbers_at(inputs, index), curve_of(tables, action, path)),
        None => None,
    }
}

// The index of the curve of a path in an action.
fn curve_of(tables: &SceneTables, action: u32, path: &Path) -> Option<u32>
    ensures { result ≡ curve_at tables.now action path.now }
{
    match path {
        Path::Own(channel) => tables.own_curve(action, *channel),
        Path::Bone(name, channel) => tables.bone_curves(action, name)?.get(*channel),
        Path::Layer(name, axis) => tables.layer_curves(action, name)?.get(*axis),
    }
}

// The original number of a path of an object.
fn object_number(scene: &Scene, tables: &SceneTables, object: &Object, path: &Path) -> Option<Fx>
    requires tables { AreTables tables.now (table_parts scene.now) }
    ensures { result ≡ object_number scene.now object.now path.now }
{
    match path {
        Path::Own(channel) => Some(object.own.get(*channel)),
        Path::Bone(name, channel) => {
            Some(pose_named(scene, tables, &object.kind, name)?.get(*channel))
        }
        Path::Layer(_, _) => None,
    }
}

// The pose of the bone of a name.
fn pose_named<'a>(
    scene: &Scene,
    tables: &SceneTables,
    kind: &'a Kind,
    name: &Name,
) -> Option<&'a Channels>
    requires tables { AreTables tables.now (table_parts scene.now) }
    ensures { option_copied result ≡ pose_named scene.now kind.now name.now }
{
    match kind {
        Kind::Armature { armature, pose } => pose_at(pose, tables.bone_number(*armature, name)),
        Kind::Empty | Kind::Pencil { .. } => None,
    }
}

// The pose of the bone of an index.
fn pose_at(pose: &List<Channels>, bone: Option<u32>) -> Option<&Channels>
    ensures { option_copied result ≡ option_and_then (slice_get pose.now) bone }
{
    match bone {
        Some(bone) => pose.as_slice().get(bone as usize),
        None => None,
    }
}

// The original number of a path of a pencil.
fn pencil_number(pencil: &PencilData, path: &Path) -> Option<Fx>
    ensures { result ≡ pencil_number pencil.now path.now }
{
    match path {
        Path::Layer(name, axis) => match layer_named(pencil.layers.as_slice(), name) {
            Some(layer) => Some(axis.coordinate_of(&layer.offset)),
            None => None,
        },
        Path::Own(_) | Path::Bone(_, _) => None,
    }
}

fn layer_named<'a>(layers: &'a [Layer], name: &Name) -> Option<&'a Layer>
    ensures { option_copied result ≡ find (λ l. same_text l.name name.now) layers.now }
{
    layers.iter().find(|layer| layer.name == *name)
}
