//! Tests objects: their poses and modifiers.
#![tactic(auto, using(crate::proofs::First::first_append))]

ghost use Rattle.std.specs.Prelude.{◌≡◌, ◌-◌, codes, if◌then◌else◌};
ghost use Rattle.serde_json.specs.View.{view};
ghost use Rattle.rig_scenejson.specs.Tests.{Tests, first};
ghost use Rattle.rig_scenejson.specs.Given.{is_kind};
ghost use Rattle.rig_scenejson.specs.PassOne.{after_any, after_named, pose_faults, after_pose, offset_faults, mirror_faults};
ghost use Rattle.rig_scenejson.specs.PassOne.{array_faults, effect_faults, modifier_faults};
ghost use Rattle.rig_scenejson.specs.PassOne.{object_kind_faults, data_faults, parent_faults, relation_faults, pose_list_faults};
ghost use Rattle.rig_scenejson.specs.PassOne.{modifier_list_faults, stack_faults};
ghost use Rattle.rig_scenejson.specs.PassOne.{object_faults, after_object, rig_of, no_objects};

use crate::before::{ObjectsBefore, Rig};
use crate::fault::{Cause, SceneStop, stop_for};
use crate::leaves::{AnyName, NUMBER, Truth, VECTOR, Whole, WordOf};
use crate::member::Member;
use crate::pass_one::members::{test_list, test_name};
use crate::pass_one::records::{is_kind, test_transform, text_at, text_of};
use crate::test::{MAX_INDEX, Test, is_record, optional, required};
use crate::value::field;
use rig_io::List;
use rig_names::Names;
use rig_scene::limits::{MAX_ARRAY_COUNT, MAX_MODIFIERS, MAX_PENCIL_OBJECTS};
use serde_json::Value;
use std::alloc::Global;

/// The channels of a bone, after the names of the bones of those of the pose before it.
#[derive(Clone, Copy, Drop)]
struct PoseTest;

impl Test for PoseTest {
    type Before = Names;

    ghost faults = { λ _. pose_faults };

    ghost next = { λ _. after_pose };

    fn test(&self, alloc: Global, before: &mut Names, value: &Value) -> Result<(), SceneStop> {
        is_record(alloc, value)?;
        test_name(alloc, value, Member::Bone, before)?;
        test_transform(alloc, value)
    }
}

/// A modifier, after the names of those of its stack before it.
#[derive(Clone, Copy, Drop)]
struct ModifierTest;

impl Test for ModifierTest {
    type Before = Names;

    ghost faults = { λ _. modifier_faults };

    ghost next = { λ _. after_named };

    fn test(&self, alloc: Global, before: &mut Names, value: &Value) -> Result<(), SceneStop> {
        is_record(alloc, value)?;
        test_name(alloc, value, Member::Name, before)?;
        let kinds = WordOf {
            words: &["offset", "mirror", "array"],
        };
        required(alloc, value, Member::Kind, &kinds, &mut ())?;
        optional(alloc, value, Member::Viewport, &Truth, &mut ())?;
        optional(alloc, value, Member::Render, &Truth, &mut ())?;
        test_effect(alloc, value)
    }
}

// The members that the kind of a modifier has.
fn test_effect(alloc: Global, value: &Value) -> Result<(), SceneStop>
    ensures { Tests result (first (effect_faults (view value.now))) }
{
    test_offset(alloc, value)?;
    test_mirror(alloc, value)?;
    test_array(alloc, value)
}

fn test_offset(alloc: Global, value: &Value) -> Result<(), SceneStop>
    ensures { Tests result (first (offset_faults (view value.now))) }
{
    if !is_kind("offset", value) {
        return Ok(());
    }
    optional(alloc, value, Member::Loc, &VECTOR, &mut ())?;
    optional(alloc, value, Member::Scale, &NUMBER, &mut ())
}

fn test_mirror(alloc: Global, value: &Value) -> Result<(), SceneStop>
    ensures { Tests result (first (mirror_faults (view value.now))) }
{
    if !is_kind("mirror", value) {
        return Ok(());
    }
    optional(alloc, value, Member::X, &Truth, &mut ())?;
    optional(alloc, value, Member::Y, &Truth, &mut ())?;
    optional(alloc, value, Member::Z, &Truth, &mut ())?;
    optional(alloc, value, Member::Object, &AnyName, &mut ())
}

fn test_array(alloc: Global, value: &Value) -> Result<(), SceneStop>
    ensures { Tests result (first (array_faults (view value.now))) }
{
    if !is_kind("array", value) {
        return Ok(());
    }
    required(alloc, value, Member::Count, &ARRAY_COUNT, &mut ())?;
    optional(alloc, value, Member::Offset, &VECTOR, &mut ())
}

/// How many copies an array makes.
const ARRAY_COUNT: Whole = Whole {
    least: 1,
    most: MAX_ARRAY_COUNT as i64,
};

/// The kind of an object, where the scene may have so many more pencil objects.
#[derive(Clone, Copy, Drop)]
struct ObjectKind {
    pencils_left: usize,
}

impl Test for ObjectKind {
    type Before = ();

    ghost faults = { λ kind _. object_kind_faults kind.pencils_left };

    ghost next = { λ _. after_any };

    fn test(&self, alloc: Global, _: &mut (), value: &Value) -> Result<(), SceneStop> {
        let kinds = WordOf {
            words: &["empty", "armature", "pencil"],
        };
        kinds.test(alloc, &mut (), value)?;
        if self.pencils_left == 0 && text_of(value) == "pencil" {
            return Err(stop_for(alloc, Cause::Count));
        }
        Ok(())
    }
}

/// An object, after those before it, in a scene with armatures of these names.
#[derive(Drop)]
pub(crate) struct ObjectTest<'a> {
    pub(crate) armatures: &'a Names,
}

impl Test for ObjectTest<'_> {
    type Before = ObjectsBefore;

    ghost faults = { λ _. object_faults };

    ghost next = { λ object. after_object object.armatures.now };

    fn test(
        &self,
        alloc: Global,
        before: &mut ObjectsBefore,
        value: &Value,
    ) -> Result<(), SceneStop> {
        is_record(alloc, value)?;
        test_name(alloc, value, Member::Name, &mut before.names)?;
        let kind = ObjectKind {
            pencils_left: before.pencils_left,
        };
        required(alloc, value, Member::Kind, &kind, &mut ())?;
        test_relations(alloc, value)?;
        test_transform(alloc, value)?;
        optional(alloc, value, Member::Action, &AnyName, &mut ())?;
        test_stack(alloc, value)?;
        before.pencils_left = pencils_after(before.pencils_left, value);
        before.rigs.push(rig_of(self.armatures, value))?;
        Ok(())
    }
}

// The data and the parent.
fn test_relations(alloc: Global, value: &Value) -> Result<(), SceneStop>
    ensures { Tests result (first (relation_faults (view value.now))) }
{
    test_data(alloc, value)?;
    test_parent(alloc, value)
}

fn test_data(alloc: Global, value: &Value) -> Result<(), SceneStop>
    ensures { Tests result (first (data_faults (view value.now))) }
{
    if is_kind("armature", value) || is_kind("pencil", value) {
        required(alloc, value, Member::Data, &AnyName, &mut ())?;
    }
    Ok(())
}

fn test_parent(alloc: Global, value: &Value) -> Result<(), SceneStop>
    ensures { Tests result (first (parent_faults (view value.now))) }
{
    optional(alloc, value, Member::Parent, &AnyName, &mut ())?;
    if field(value, Member::Parent).is_some() {
        optional(alloc, value, Member::ParentBone, &AnyName, &mut ())?;
    }
    Ok(())
}

// The pose of an armature object, the modifiers of a pencil object.
fn test_stack(alloc: Global, value: &Value) -> Result<(), SceneStop>
    ensures { Tests result (first (stack_faults (view value.now))) }
{
    test_pose(alloc, value)?;
    test_modifiers(alloc, value)
}

fn test_pose(alloc: Global, value: &Value) -> Result<(), SceneStop>
    ensures { Tests result (first (pose_list_faults (view value.now))) }
{
    if !is_kind("armature", value) {
        return Ok(());
    }
    let mut bones = Names::new(alloc);
    test_list(alloc, value, Member::Pose, MAX_INDEX, PoseTest, &mut bones)
}

fn test_modifiers(alloc: Global, value: &Value) -> Result<(), SceneStop>
    ensures { Tests result (first (modifier_list_faults (view value.now))) }
{
    if !is_kind("pencil", value) {
        return Ok(());
    }
    let mut names = Names::new(alloc);
    test_list(
        alloc,
        value,
        Member::Modifiers,
        MAX_MODIFIERS,
        ModifierTest,
        &mut names,
    )
}

/// How many more pencil objects the scene may have after this object.
fn pencils_after(pencils_left: usize, value: &Value) -> usize
    ensures { result ≡ (if is_kind (codes "pencil") (view value.now) then pencils_left - 1 else pencils_left) }
{
    if is_kind("pencil", value) {
        pencils_left.saturating_sub(1)
    } else {
        pencils_left
    }
}

/// Which armature an object has, of those of these names.
fn rig_of(armatures: &Names, value: &Value) -> Rig
    ensures { result ≡ rig_of armatures.now (view value.now) }
{
    if !is_kind("armature", value) {
        return Rig::NoArmature;
    }
    match armatures.index_of(text_at(value, Member::Data)) {
        Some(armature) => Rig::Armature(armature),
        None => Rig::UnknownArmature,
    }
}

/// Before the first object.
pub(crate) fn no_objects(alloc: Global) -> ObjectsBefore
    ensures { result ≡ no_objects }
{
    ObjectsBefore {
        names: Names::new(alloc),
        pencils_left: MAX_PENCIL_OBJECTS,
        rigs: List::new(alloc),
    }
}
