//! The transforms of objects: relative to what carries them, and in the world.
ghost use Rattle.std.specs.Prelude.{◌≡◌, Some, ℤ, drop, map, IsTrue};
ghost use Rattle.std.specs.List.{Contains};
ghost use Rattle.std.specs.Option.{option_copied};
ghost use Rattle.rig_scene.specs.declared.modifier.Mode.{Mode};
ghost use Rattle.rig_scene.specs.declared.operation.OpId.TheVariants.{Local, World};
ghost use Rattle.rig_scene.specs.Operations.{operations, ins};
ghost use Rattle.rig_scene.specs.Value.{Transform};
ghost use Rattle.rig_laws.specs.Kernel.{kernel, world_transform, parent_transform};
ghost use Rattle.rig_laws.specs.Output.{link_of};
ghost use Rattle.rig_kernel.specs.Tables.{AreTables, table_parts};

use crate::channels::{animation_count, animation_numbers, channels_from, own_curves};
use crate::driven::driver_count;
use crate::inputs::{Inputs, transform_at};
use crate::records::object_of;
use crate::tables::SceneTables;
use rig_fixed::{Xform, compose};
use rig_pose::local_of;
use rig_scene::{Object, ObjectId, Parent, Scene};

/// The transform of an object relative to what carries it: its own channels, with the animation and then the driven ones.
pub(crate) fn local<I: Inputs>(
    scene: &Scene,
    tables: &SceneTables,
    o: ObjectId,
    inputs: &I,
) -> Xform
    requires op { Contains (operations scene.now) (Local o) }
    requires tables { AreTables tables.now (table_parts scene.now) }
    requires inputs { map link_of (I.list inputs.now) ≡ ins scene.now (Local o) }
    ensures { (mode : Mode) (frame : ℤ) → kernel scene.now mode frame (Local o) (I.list inputs.now) ≡ Some (Transform result) }
{
    let object = object_of(scene, o);
    let numbers = animation_numbers(inputs, 0, object.action);
    let from = animation_count(object.action);
    let drivers = driver_count(inputs, from, 8);
    let curves = own_curves(tables, object.action);
    local_of(&channels_from(&object.own, curves, numbers, inputs, from, drivers))
}

/// The transform of an object in the world: its local one, carried by its parent where it has one.
pub(crate) fn world<I: Inputs>(scene: &Scene, o: ObjectId, inputs: &I) -> Xform
    requires op { Contains (operations scene.now) (World o) }
    ensures { (mode : Mode) (frame : ℤ) → kernel scene.now mode frame (World o) (I.list inputs.now) ≡ Some (Transform result) }
{
    world_transform(object_of(scene, o), inputs)
}

fn world_transform<I: Inputs>(object: &Object, inputs: &I) -> Xform
    ensures { result ≡ world_transform object.now (I.list inputs.now) }
{
    let local = transform_at(inputs, 0);
    match object.parent {
        Some(parent) => compose(&parent_transform(&parent, inputs), &local),
        None => local,
    }
}

// What a parent carries an object by: its world transform, then its bone.
fn parent_transform<I: Inputs>(parent: &Parent, inputs: &I) -> Xform
    ensures { result ≡ parent_transform parent.now (drop 1 (I.list inputs.now)) }
{
    let world = transform_at(inputs, 1);
    match parent.bone {
        Some(_) => compose(&world, &transform_at(inputs, 2)),
        None => world,
    }
}
