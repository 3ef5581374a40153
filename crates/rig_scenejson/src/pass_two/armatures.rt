//! Reads armatures: their bones, each with its parent.
#![tactic(auto, using(crate::proofs::First::first_append))]

ghost use Rattle.std.specs.Prelude.{option_map};
ghost use Rattle.serde_json.specs.View.{view};
ghost use Rattle.rig_scenejson.specs.declared.member.Member.TheVariants as m;
ghost use Rattle.rig_scenejson.specs.Tests.{Reads, first, field, optional};
ghost use Rattle.rig_scenejson.specs.Value.{text_of};
ghost use Rattle.rig_scenejson.specs.Given.{index_of, bone_given, armature_given};
ghost use Rattle.rig_scenejson.specs.PassOne.{after_any};
ghost use Rattle.rig_scenejson.specs.PassTwo.{parent_bone_faults, bone_references, armature_references};

use crate::fault::{Cause, Hop, SceneStop, stop_for};
use crate::given::{channels_given, name_at};
use crate::lookup::Lookup;
use crate::member::Member;
use crate::pass_one::records::text_of;
use crate::reader::{Reader, read_list};
use crate::test::within;
use crate::value::field;
use rig_names::Names;
use rig_scene::{ArmatureData, RestBone};
use serde_json::Value;
use std::alloc::Global;

/// Reads a bone, by the names of the bones of its armature.
#[derive(Clone, Copy, Drop)]
struct BoneReader<'a> {
    names: &'a Names,
}

impl Reader for BoneReader<'_> {
    type Item = RestBone;

    type Before = ();

    ghost gives = { λ reader. bone_given reader.names.now };

    ghost faults = { λ reader. bone_references reader.names.now };

    ghost next = { λ _. after_any };

    fn read(
        &self,
        alloc: Global,
        index: usize,
        _: &mut (),
        value: &Value,
    ) -> Result<RestBone, SceneStop> {
        let parent = parent_of(alloc, self.names, index, value)?;
        Ok(RestBone {
            name: name_at(alloc, Member::Name, value)?,
            parent,
            rest: channels_given(value),
        })
    }
}

// The parent of the bone of an index.
fn parent_of(
    alloc: Global,
    names: &Names,
    index: usize,
    value: &Value,
) -> Result<Option<u32>, SceneStop>
    ensures { Reads result (option_map (λ name. index_of names.now (text_of name)) (field m.Parent (view value.now)))
        (first (optional m.Parent (parent_bone_faults names.now index) (view value.now))) }
{
    match field(value, Member::Parent) {
        Some(found) => {
            let parent = earlier_bone(alloc, names, index, found);
            Ok(Some(within(alloc, Hop::Member(Member::Parent), parent)?))
        }
        None => Ok(None),
    }
}

// The index of the bone that a value names, which is below this one.
fn earlier_bone(alloc: Global, names: &Names, index: usize, value: &Value) -> Result<u32, SceneStop>
    ensures { Reads result (index_of names.now (text_of (view value.now))) (first (parent_bone_faults names.now index (view value.now))) }
{
    match names.index_of(text_of(value)) {
        Some(parent) if (parent as usize) < index => Ok(parent),
        _ => Err(stop_for(alloc, Cause::UnknownRef)),
    }
}

/// Reads an armature.
#[derive(Clone, Copy, Drop)]
pub(super) struct ArmatureReader<'a> {
    pub(super) lookup: &'a Lookup<'a>,
}

impl Reader for ArmatureReader<'_> {
    type Item = ArmatureData;

    type Before = ();

    ghost gives = { λ reader. armature_given reader.lookup.now };

    ghost faults = { λ reader. armature_references reader.lookup.now };

    ghost next = { λ _. after_any };

    fn read(
        &self,
        alloc: Global,
        index: usize,
        _: &mut (),
        value: &Value,
    ) -> Result<ArmatureData, SceneStop> {
        let bones = BoneReader {
            names: self.lookup.bones_at(index),
        };
        let bones = read_list(alloc, value, Member::Bones, &bones, &mut ())?;
        Ok(ArmatureData {
            name: name_at(alloc, Member::Name, value)?,
            bones,
        })
    }
}
