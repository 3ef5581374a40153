//! Reads objects: their poses and modifiers.
#![tactic(auto, using(crate::proofs::First::first_append))]

ghost use Rattle.std.specs.Prelude.{◌≡◌, ◌++◌, ◌<◌, ◌^◌, codes, map, IfOk, OnOk};
ghost use Rattle.serde_json.specs.View.{view};
ghost use Rattle.rig_scenejson.specs.declared.member.Member.TheVariants as m;
ghost use Rattle.rig_scenejson.specs.Tests.{Tests, Reads, first, optional};
ghost use Rattle.rig_scene.specs.declared.object.Kind.TheVariants.{Armature, Pencil};
ghost use Rattle.rig_scenejson.specs.declared.fault.Cause.TheVariants.{Count};
ghost use Rattle.rig_scenejson.specs.Given.{has, text_at, items_at, index_of, bones_at, is_kind, parent_given, effect_given};
ghost use Rattle.rig_scenejson.specs.Given.{modifier_given, kind_given, object_given, armature_kind_given, pencil_kind_given};
ghost use Rattle.rig_scenejson.specs.PassOne.{after_any, where_true};
ghost use Rattle.rig_scenejson.specs.PassTwo.{known_faults, bone_of_faults, data_bones, data_references, modifier_references};
ghost use Rattle.rig_scenejson.specs.PassTwo.{object_references, after_bones, armature_data_references, pose_list_references};
ghost use Rattle.rig_scenejson.specs.PassTwo.{modifier_list_references};

use crate::fault::{Cause, Hop, SceneStop, moved, stop_for};
use crate::given::{channels_given, fixed_at, items_at, name_at, natural_at, truth_at, vector_at};
use crate::lookup::{Lookup, index_of, optional_bone, optional_known, required_known};
use crate::member::Member;
use crate::pass_one::records::{is_kind, text_at};
use crate::pass_two::poses::{PoseTest, pose_given};
use crate::reader::{Reader, read_list};
use rig_fixed::Fx;
use rig_io::NoMemory;
use rig_scene::{Effect, Kind, Mirror, Modifier, Object, ObjectId, Parent};
use serde_json::Value;
use std::alloc::Global;

/// Reads a modifier.
#[derive(Clone, Copy, Drop)]
struct ModifierReader<'a> {
    lookup: &'a Lookup<'a>,
}

impl Reader for ModifierReader<'_> {
    type Item = Modifier;

    type Before = ();

    ghost gives = { λ reader. modifier_given reader.lookup.now };

    ghost faults = { λ reader. modifier_references reader.lookup.now };

    ghost next = { λ _. after_any };

    fn read(
        &self,
        alloc: Global,
        _: usize,
        _: &mut (),
        value: &Value,
    ) -> Result<Modifier, SceneStop> {
        let effect = effect_of(alloc, self.lookup, value)?;
        Ok(Modifier {
            name: name_at(alloc, Member::Name, value)?,
            viewport: truth_at(true, Member::Viewport, value),
            render: truth_at(true, Member::Render, value),
            effect,
        })
    }
}

fn effect_of(alloc: Global, lookup: &Lookup, value: &Value) -> Result<Effect, SceneStop>
    ensures { Reads result (effect_given lookup.now (view value.now)) (first (modifier_references lookup.now 0 tt (view value.now))) }
{
    if is_kind("mirror", value) {
        let objects = &lookup.catalog().objects;
        let centre = optional_known(alloc, objects, Member::Object, value)?;
        Ok(Effect::Mirror(Mirror {
            x: truth_at(false, Member::X, value),
            y: truth_at(false, Member::Y, value),
            z: truth_at(false, Member::Z, value),
            centre: centre.map(ObjectId),
        }))
    } else if is_kind("array", value) {
        Ok(Effect::Array {
            count: natural_at(Member::Count, value),
            offset: vector_at(Member::Offset, value),
        })
    } else {
        Ok(Effect::Offset {
            loc: vector_at(Member::Loc, value),
            scale: fixed_at(Fx::ONE, Member::Scale, value),
        })
    }
}

/// Reads an object. What stands before it is how many bones the objects may still have together.
#[derive(Clone, Copy, Drop)]
pub(super) struct ObjectReader<'a> {
    pub(super) lookup: &'a Lookup<'a>,
}

impl Reader for ObjectReader<'_> {
    type Item = Object;

    type Before = usize;

    ghost can_read = { λ _ index. index < 2 ^ 32 };

    ghost gives = { λ reader. object_given reader.lookup.now };

    ghost faults = { λ reader. object_references reader.lookup.now };

    ghost next = { λ reader. after_bones reader.lookup.now };

    fn read(
        &self,
        alloc: Global,
        index: usize,
        bones_left: &mut usize,
        value: &Value,
    ) -> Result<Object, SceneStop> {
        test_data(alloc, self.lookup, bones_left, value)?;
        let parent = parent_of(alloc, self.lookup, value)?;
        let actions = &self.lookup.catalog().actions;
        let action = optional_known(alloc, actions, Member::Action, value)?;
        let kind = kind_of(alloc, self.lookup, value)?;
        Ok(Object {
            id: ObjectId(index as u32),
            name: name_at(alloc, Member::Name, value)?,
            own: channels_given(value),
            action,
            parent,
            kind,
        })
    }
}

// The data, and the bones that it brings.
fn test_data(
    alloc: Global,
    lookup: &Lookup,
    bones_left: &mut usize,
    value: &Value,
) -> Result<(), SceneStop>
    ensures first { Tests result (first (data_references lookup.now bones_left.old (view value.now))) }
    ensures next { OnOk result (bones_left.new ≡ after_bones lookup.now bones_left.old (view value.now)) }
{
    if is_kind("armature", value) {
        test_armature(alloc, lookup, *bones_left, value)?;
        *bones_left = bones_left.saturating_sub(lookup.data_bones(value).len());
    }
    if is_kind("pencil", value) {
        let pencils = &lookup.catalog().pencils;
        required_known(alloc, pencils, Member::Data, value)?;
    }
    Ok(())
}

// The armature, whose bones may be so many.
fn test_armature(
    alloc: Global,
    lookup: &Lookup,
    bones_left: usize,
    value: &Value,
) -> Result<(), SceneStop>
    ensures { Tests result (first (armature_data_references lookup.now bones_left (view value.now))) }
{
    let armatures = &lookup.catalog().armatures;
    required_known(alloc, armatures, Member::Data, value)?;
    if bones_left < lookup.data_bones(value).len() {
        let stop = stop_for(alloc, Cause::Count);
        return Err(moved(alloc, Hop::Member(Member::Data), stop));
    }
    Ok(())
}

// What carries an object.
fn parent_of(alloc: Global, lookup: &Lookup, value: &Value) -> Result<Option<Parent>, SceneStop>
    ensures { Reads result (parent_given lookup.now (view value.now))
        (first (optional m.Parent (known_faults lookup.now.objects) (view value.now)
        ++ where_true (has m.Parent (view value.now))
        (optional m.ParentBone (bone_of_faults lookup.now (text_at m.Parent (view value.now))) (view value.now)))) }
{
    let objects = &lookup.catalog().objects;
    match optional_known(alloc, objects, Member::Parent, value)? {
        Some(object) => {
            let parent = text_at(value, Member::Parent);
            let bone = optional_bone(alloc, lookup, parent, Member::ParentBone, value)?;
            Ok(Some(Parent {
                object: ObjectId(object),
                bone,
            }))
        }
        None => Ok(None),
    }
}

// What an object is, with the pose of an armature object, the modifiers of a pencil object.
#[tactic(auto, using(crate::proofs::First::first_append, crate::proofs::PoseRecords::no_pencil))]
fn kind_of(alloc: Global, lookup: &Lookup, value: &Value) -> Result<Kind, SceneStop>
    ensures { Reads result (kind_given lookup.now (view value.now))
        (first (where_true (is_kind (codes "armature") (view value.now)) (pose_list_references lookup.now (view value.now))
        ++ where_true (is_kind (codes "pencil") (view value.now)) (modifier_list_references lookup.now (view value.now)))) }
{
    if is_kind("armature", value) {
        armature_kind(alloc, lookup, value)
    } else if is_kind("pencil", value) {
        pencil_kind(alloc, lookup, value)
    } else {
        Ok(Kind::Empty)
    }
}

fn armature_kind(alloc: Global, lookup: &Lookup, value: &Value) -> Result<Kind, SceneStop>
    ensures { Reads result (armature_kind_given lookup.now (view value.now))
        (first (pose_list_references lookup.now (view value.now))) }
{
    test_pose(alloc, lookup, value)?;
    Ok(armature_given(alloc, lookup, value)?)
}

// Tests that the records of a pose name bones of the armature.
fn test_pose(alloc: Global, lookup: &Lookup, value: &Value) -> Result<(), SceneStop>
    ensures { Tests result
        (first (pose_list_references lookup.now (view value.now))) }
{
    let pose = PoseTest {
        bones: lookup.data_bones(value),
    };
    read_list(alloc, value, Member::Pose, &pose, &mut ())?;
    Ok(())
}

fn armature_given(alloc: Global, lookup: &Lookup, value: &Value) -> Result<Kind, NoMemory>
    ensures { IfOk result (λ kind. kind ≡ armature_kind_given lookup.now (view value.now)) }
{
    let armature = index_of(&lookup.catalog().armatures, text_at(value, Member::Data));
    let bones = lookup.bones_at(armature as usize);
    Ok(Kind::Armature {
        armature,
        pose: pose_given(alloc, bones, items_at(Member::Pose, value))?,
    })
}

fn pencil_kind(alloc: Global, lookup: &Lookup, value: &Value) -> Result<Kind, SceneStop>
    ensures { Reads result (pencil_kind_given lookup.now (view value.now))
        (first (modifier_list_references lookup.now (view value.now))) }
{
    let modifiers = ModifierReader { lookup };
    let modifiers = read_list(alloc, value, Member::Modifiers, &modifiers, &mut ())?;
    Ok(Kind::Pencil {
        pencil: index_of(&lookup.catalog().pencils, text_at(value, Member::Data)),
        modifiers,
    })
}
