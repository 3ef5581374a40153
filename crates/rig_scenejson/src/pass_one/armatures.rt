//! Tests armatures: their bones.
#![tactic(auto, using(crate::proofs::First::first_append))]

ghost use Rattle.std.specs.Prelude.{◌≡◌};
ghost use Rattle.rig_scenejson.specs.PassOne.{bone_faults, after_named, armature_faults, after_armature, no_armatures};

use crate::before::ArmaturesBefore;
use crate::fault::SceneStop;
use crate::leaves::{AnyName, ROTATION, VECTOR, Whole};
use crate::member::Member;
use crate::pass_one::members::{test_list, test_name};
use crate::test::{Test, is_record, optional};
use rig_fixed::LIMIT;
use rig_io::List;
use rig_names::Names;
use rig_scene::limits::MAX_BONES;
use serde_json::Value;
use std::alloc::Global;

/// A bone, after the names of those of the armature before it. Its scale is at least one millionth.
#[derive(Clone, Copy, Drop)]
struct BoneTest;

impl Test for BoneTest {
    type Before = Names;

    ghost faults = { λ _. bone_faults };

    ghost next = { λ _. after_named };

    fn test(&self, alloc: Global, before: &mut Names, value: &Value) -> Result<(), SceneStop> {
        is_record(alloc, value)?;
        test_name(alloc, value, Member::Name, before)?;
        optional(alloc, value, Member::Parent, &AnyName, &mut ())?;
        optional(alloc, value, Member::Loc, &VECTOR, &mut ())?;
        optional(alloc, value, Member::Rot, &ROTATION, &mut ())?;
        optional(alloc, value, Member::Scale, &SCALE_OF_BONE, &mut ())
    }
}

/// The scale of a bone at rest.
const SCALE_OF_BONE: Whole = Whole {
    least: 1,
    most: LIMIT,
};

/// An armature, after those before it.
#[derive(Clone, Copy, Drop)]
pub(crate) struct ArmatureTest;

impl Test for ArmatureTest {
    type Before = ArmaturesBefore;

    ghost faults = { λ _. armature_faults };

    ghost next = { λ _. after_armature };

    fn test(
        &self,
        alloc: Global,
        before: &mut ArmaturesBefore,
        value: &Value,
    ) -> Result<(), SceneStop> {
        is_record(alloc, value)?;
        test_name(alloc, value, Member::Name, &mut before.names)?;
        let mut bones = Names::new(alloc);
        test_list(alloc, value, Member::Bones, MAX_BONES, BoneTest, &mut bones)?;
        before.bones.push(bones)?;
        Ok(())
    }
}

/// Before the first armature.
pub(crate) fn no_armatures(alloc: Global) -> ArmaturesBefore
    ensures { result ≡ no_armatures }
{
    ArmaturesBefore {
        names: Names::new(alloc),
        bones: List::new(alloc),
    }
}
