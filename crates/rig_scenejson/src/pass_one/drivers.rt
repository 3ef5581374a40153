//! Tests drivers: their variables.
#![tactic(auto, using(crate::proofs::First::first_append))]

ghost use Rattle.std.specs.Prelude.{◌≡◌, ◌++◌, ◌∷◌, [], codes, IfOk, OnOk};
ghost use Rattle.rig_names.specs.Sets.{Adds};
ghost use Rattle.serde_json.specs.View.{view};
ghost use Rattle.rig_scenejson.specs.Tests.{Tests, Reads, first};
ghost use Rattle.rig_scenejson.specs.PassOne.{where_true, after_any, target_faults, space_faults, transform_variable_faults};
ghost use Rattle.rig_scenejson.specs.PassOne.{variable_faults};
ghost use Rattle.rig_scenejson.specs.PassOne.{same_target, new_target_faults, driver_faults, after_driver};
ghost use Rattle.rig_scenejson.specs.Given.{is_kind, target_given};

use crate::before::Target;
use crate::fault::{Cause, Hop, SceneStop, moved, stop_for};
use crate::leaves::{AnyName, ChannelWord, WordOf};
use crate::member::Member;
use crate::pass_one::records::{id_of, is_kind, path_of};
use crate::test::{ListOf, Test, is_record, optional, required};
use crate::value::field;
use rig_io::NoMemory;
use rig_names::Distinct;
use rig_scene::limits::MAX_VARIABLES;
use serde_json::Value;
use std::alloc::Global;

/// A variable of a driver.
#[derive(Clone, Copy, Drop)]
struct VariableTest;

impl Test for VariableTest {
    type Before = ();

    ghost faults = { λ _. variable_faults };

    ghost next = { λ _. after_any };

    fn test(&self, alloc: Global, _: &mut (), value: &Value) -> Result<(), SceneStop> {
        is_record(alloc, value)?;
        let kinds = WordOf {
            words: &["property", "transform"],
        };
        required(alloc, value, Member::Kind, &kinds, &mut ())?;
        test_property(alloc, value)?;
        test_transform_variable(alloc, value)
    }
}

fn test_property(alloc: Global, value: &Value) -> Result<(), SceneStop>
    ensures { Tests result (first (where_true (is_kind (codes "property") (view value.now)) (target_faults (view value.now)))) }
{
    if is_kind("property", value) {
        target_of(alloc, value)?;
    }
    Ok(())
}

fn test_transform_variable(alloc: Global, value: &Value) -> Result<(), SceneStop>
    ensures { Tests result
        (first (where_true (is_kind (codes "transform") (view value.now)) (transform_variable_faults (view value.now)))) }
{
    if !is_kind("transform", value) {
        return Ok(());
    }
    required(alloc, value, Member::Object, &AnyName, &mut ())?;
    optional(alloc, value, Member::Bone, &AnyName, &mut ())?;
    required(alloc, value, Member::Channel, &ChannelWord, &mut ())?;
    test_space(alloc, value)
}

fn test_space(alloc: Global, value: &Value) -> Result<(), SceneStop>
    ensures { Tests result (first (space_faults (view value.now))) }
{
    if field(value, Member::Bone).is_some() {
        return Ok(());
    }
    let spaces = WordOf {
        words: &["world", "local"],
    };
    optional(alloc, value, Member::Space, &spaces, &mut ())
}

const VARIABLES: ListOf<VariableTest> = ListOf {
    least: 1,
    most: MAX_VARIABLES,
    each: VariableTest,
};

/// A driver, after the channels that those before it drive.
#[derive(Clone, Copy, Drop)]
pub(crate) struct DriverTest;

impl Test for DriverTest {
    type Before = Distinct<Target>;

    ghost faults = { λ _. driver_faults };

    ghost next = { λ _. after_driver };

    fn test(
        &self,
        alloc: Global,
        before: &mut Distinct<Target>,
        value: &Value,
    ) -> Result<(), SceneStop> {
        is_record(alloc, value)?;
        test_target(alloc, value, before)?;
        let kinds = WordOf {
            words: &["average", "sum", "min", "max"],
        };
        required(alloc, value, Member::Kind, &kinds, &mut ())?;
        required(alloc, value, Member::Variables, &VARIABLES, &mut ())
    }
}

// Tests the channel that a driver drives, and adds it to those before it.
fn test_target(alloc: Global, value: &Value, before: &mut Distinct<Target>) -> Result<(), SceneStop>
    ensures first { Tests result (first (new_target_faults before.old (view value.now))) }
    ensures next { OnOk result (before.new ≡ before.old ++ target_given (view value.now) ∷ []) }
{
    let target = target_of(alloc, value)?;
    if !add_target(before, target)? {
        let stop = stop_for(alloc, Cause::Duplicate);
        return Err(moved(alloc, Hop::Member(Member::Channel), stop));
    }
    Ok(())
}

// Adds a target, unless it is there, and returns whether it was new.
fn add_target(targets: &mut Distinct<Target>, target: Target) -> Result<bool, NoMemory>
    ensures { IfOk result (Adds same_target target targets.old targets.new) }
{
    targets.add(target)
}

// The id and the path of a record.
fn target_of(alloc: Global, value: &Value) -> Result<Target, SceneStop>
    ensures { Reads result (target_given (view value.now)) (first (target_faults (view value.now))) }
{
    let (is_pencil, id) = id_of(alloc, value)?;
    let path = path_of(alloc, value)?;
    Ok(Target {
        is_pencil,
        id,
        path,
    })
}
