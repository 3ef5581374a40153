//! The first pass: tests a scene but for what its names refer to, and collects its names.
#![tactic(auto, using(crate::proofs::First::first_append))]

ghost use Rattle.std.specs.Prelude.{◌++◌};
ghost use Rattle.serde_json.specs.View.{view};
ghost use Rattle.rig_scenejson.specs.Tests.{Tests, Reads, first};
ghost use Rattle.rig_scenejson.specs.PassOne.{after_any, version_faults, actions_faults, after_actions, armatures_faults};
ghost use Rattle.rig_scenejson.specs.PassOne.{after_armatures, pencils_faults, after_pencils};
ghost use Rattle.rig_scenejson.specs.PassOne.{objects_faults, objects_after, drivers_faults, pass_one, catalog_of};

mod actions;
mod armatures;
mod drivers;
mod integers;
mod members;
mod objects;
mod pencils;
pub(crate) mod records;

use crate::before::{ActionsBefore, ArmaturesBefore, Catalog, ObjectsBefore, PencilsBefore};
use crate::fault::{Cause, SceneStop, stop_for};
use crate::member::Member;
use crate::test::{Test, is_record, required};
use actions::{ActionTest, no_actions};
use armatures::{ArmatureTest, no_armatures};
use drivers::DriverTest;
use integers::integer;
use members::test_list;
use objects::{ObjectTest, no_objects};
use pencils::{PencilTest, no_pencils};
use rig_names::{Distinct, Names};
use rig_scene::limits::{MAX_ACTIONS, MAX_ARMATURES, MAX_DRIVERS, MAX_OBJECTS, MAX_PENCILS};
use serde_json::Value;
use std::alloc::Global;

/// Tests a scene, and gives its names.
#[tactic(auto, using(crate::proofs::First::first_append), unfolding(crate::specs::PassOne::pass_one, crate::specs::PassOne::catalog_of))]
pub(crate) fn test_scene(alloc: Global, value: &Value) -> Result<Catalog, SceneStop>
    ensures { Reads result (catalog_of (view value.now)) (first (pass_one (view value.now))) }
{
    is_record(alloc, value)?;
    required(alloc, value, Member::Version, &Version, &mut ())?;
    let actions = test_actions(alloc, value)?;
    let armatures = test_armatures(alloc, value)?;
    let pencils = test_pencils(alloc, value)?;
    let objects = test_objects_and_drivers(alloc, value, &armatures.names)?;
    Ok(Catalog {
        actions: actions.names,
        armatures: armatures.names,
        bones: armatures.bones,
        pencils: pencils.names,
        layers: pencils.layers,
        objects: objects.names,
        rigs: objects.rigs,
    })
}

/// The version of the format, which is 1.
#[derive(Clone, Copy, Drop)]
struct Version;

impl Test for Version {
    type Before = ();

    ghost faults = { λ _ _. version_faults };

    ghost next = { λ _. after_any };

    fn test(&self, alloc: Global, _: &mut (), value: &Value) -> Result<(), SceneStop> {
        match integer(value) {
            Ok(1) => Ok(()),
            Ok(_) => Err(stop_for(alloc, Cause::Version)),
            Err(cause) => Err(stop_for(alloc, cause)),
        }
    }
}

fn test_actions(alloc: Global, value: &Value) -> Result<ActionsBefore, SceneStop>
    ensures { Reads result (after_actions (view value.now)) (first (actions_faults (view value.now))) }
{
    let mut before = no_actions(alloc);
    test_list(
        alloc,
        value,
        Member::Actions,
        MAX_ACTIONS,
        ActionTest,
        &mut before,
    )?;
    Ok(before)
}

fn test_armatures(alloc: Global, value: &Value) -> Result<ArmaturesBefore, SceneStop>
    ensures { Reads result (after_armatures (view value.now)) (first (armatures_faults (view value.now))) }
{
    let mut before = no_armatures(alloc);
    test_list(
        alloc,
        value,
        Member::Armatures,
        MAX_ARMATURES,
        ArmatureTest,
        &mut before,
    )?;
    Ok(before)
}

fn test_pencils(alloc: Global, value: &Value) -> Result<PencilsBefore, SceneStop>
    ensures { Reads result (after_pencils (view value.now)) (first (pencils_faults (view value.now))) }
{
    let mut before = no_pencils(alloc);
    test_list(
        alloc,
        value,
        Member::Pencils,
        MAX_PENCILS,
        PencilTest,
        &mut before,
    )?;
    Ok(before)
}

// The objects, and the drivers, which come last.
fn test_objects_and_drivers(
    alloc: Global,
    value: &Value,
    armatures: &Names,
) -> Result<ObjectsBefore, SceneStop>
    ensures { Reads result (objects_after armatures.now (view value.now))
        (first (objects_faults armatures.now (view value.now) ++ drivers_faults (view value.now))) }
{
    let objects = test_objects(alloc, value, armatures)?;
    test_drivers(alloc, value)?;
    Ok(objects)
}

fn test_objects(alloc: Global, value: &Value, armatures: &Names) -> Result<ObjectsBefore, SceneStop>
    ensures { Reads result (objects_after armatures.now (view value.now))
        (first (objects_faults armatures.now (view value.now))) }
{
    let each = ObjectTest { armatures };
    let mut before = no_objects(alloc);
    test_list(
        alloc,
        value,
        Member::Objects,
        MAX_OBJECTS,
        each,
        &mut before,
    )?;
    Ok(before)
}

fn test_drivers(alloc: Global, value: &Value) -> Result<(), SceneStop>
    ensures { Tests result (first (drivers_faults (view value.now))) }
{
    let mut before = Distinct::new(alloc);
    test_list(
        alloc,
        value,
        Member::Drivers,
        MAX_DRIVERS,
        DriverTest,
        &mut before,
    )
}
