//! Reads poses: the channels of each bone of an armature, by the names of the bones.
#![tactic(auto, using(crate::proofs::First::first_append))]

ghost use Rattle.std.specs.Prelude.{◌≡◌, ℕ, List, [], length, map, slice_get, unwrap_or, if◌then◌else◌, IfOk, OnOk};
ghost use Rattle.rig_scene.specs.Text.{same_text};
ghost use Rattle.rig_scene.specs.declared.channel.Channels.{Channels as ChannelsRecord};
ghost use Rattle.serde_json.specs.View.{items_view};
ghost use Rattle.rig_scenejson.specs.Given.{at_rest, pose_of_bone};
ghost use Rattle.rig_scenejson.specs.PassOne.{after_any};
ghost use Rattle.rig_scenejson.specs.PassTwo.{pose_references};
ghost use Rattle.rig_scenejson.specs.Poses.{kept, Keeps};

use crate::fault::SceneStop;
use crate::given::{NO_ROTATION, channels_given};
use crate::lookup::required_known;
use crate::member::Member;
use crate::pass_one::records::text_at;
use crate::reader::Reader;
use rig_fixed::{Fx, V3};
use rig_io::{List, NoMemory};
use rig_names::Names;
use rig_scene::Channels;
use serde_json::Value;
use std::alloc::Global;

/// Tests that a record of a pose names one of these bones.
#[derive(Clone, Copy, Drop)]
pub(super) struct PoseTest<'a> {
    pub(super) bones: &'a Names,
}

impl Reader for PoseTest<'_> {
    type Item = ();

    type Before = ();

    ghost gives = { λ _ _ _. tt };

    ghost faults = { λ pose. pose_references pose.bones.now };

    ghost next = { λ _. after_any };

    fn read(&self, alloc: Global, _: usize, _: &mut (), value: &Value) -> Result<(), SceneStop> {
        required_known(alloc, self.bones, Member::Bone, value)?;
        Ok(())
    }
}

const AT_REST: Channels = Channels {
    loc: V3::ZERO,
    rot: NO_ROTATION,
    scale: Fx::ONE,
};

/// The channels of the records of a pose, and the name of the bone of each. Of two records for one bone the first is here.
#[derive(Drop)]
struct PoseRecords {
    names: Names,
    channels: List<Channels>,
}

/// The channels of a bone, those at rest where no record names it.
#[tactic(auto, using(crate::proofs::PoseRecords::kept_position))]
fn channels_of(records: &PoseRecords, bone: &str) -> Channels
    ensures { result ≡ kept records.now.names records.now.channels at_rest bone.now }
{
    match records.names.index_of(bone) {
        Some(index) => channels_at(records.channels.as_slice(), index as usize),
        None => AT_REST,
    }
}

fn channels_at(channels: &[Channels], index: usize) -> Channels
    ensures { result ≡ unwrap_or (slice_get channels.now index) at_rest }
{
    match channels.get(index) {
        Some(found) => *found,
        None => AT_REST,
    }
}

#[tactic(auto, using(crate::proofs::PoseRecords::pose_step))]
fn records_of(alloc: Global, items: &[Value]) -> Result<PoseRecords, NoMemory>
    ensures { IfOk result (λ records. Keeps records.names records.channels (items_view items.now)) }
{
    let mut records = PoseRecords {
        names: Names::new(alloc),
        channels: List::new(alloc),
    };
    for item in items {
        let bone = text_at(item, Member::Bone);
        keep(alloc, &mut records, bone, channels_given(item))?;
    }
    Ok(records)
}

// Adds a record, unless there is one for its bone.
#[tactic(auto, using(crate::proofs::PoseRecords::kept_more, crate::proofs::PoseRecords::kept_there))]
fn keep(
    alloc: Global,
    records: &mut PoseRecords,
    bone: &str,
    channels: Channels,
) -> Result<(), NoMemory>
    requires { length records.old.names ≡ length records.old.channels }
    ensures long { OnOk result (length records.new.names ≡ length records.new.channels) }
    ensures kept { OnOk result ((rest : ChannelsRecord) (name : List ℕ) → kept records.new.names records.new.channels rest name
        ≡ kept records.old.names records.old.channels (if same_text bone.now name then channels else rest) name) }
{
    if records.names.add(alloc, bone)? {
        records.channels.push(channels)?;
    }
    Ok(())
}

/// The channels of each of these bones, of the records of a pose.
#[tactic(auto, using(crate::proofs::PoseRecords::map_same))]
pub(super) fn pose_given(
    alloc: Global,
    bones: &Names,
    items: &[Value],
) -> Result<List<Channels>, NoMemory>
    ensures { IfOk result (λ pose. pose ≡ map (pose_of_bone (items_view items.now)) bones.now) }
{
    let records = records_of(alloc, items)?;
    channels_of_each(alloc, &records, bones)
}

#[tactic(auto, using(crate::proofs::PoseRecords::name_more))]
fn channels_of_each(
    alloc: Global,
    records: &PoseRecords,
    bones: &Names,
) -> Result<List<Channels>, NoMemory>
    ensures { IfOk result (λ pose. pose ≡ map (kept records.now.names records.now.channels at_rest) bones.now) }
{
    let mut pose = Vec::new(alloc);
    for index in 0..bones.len() {
        pose.push(channels_of_index(records, bones, index))?;
    }
    Ok(List::from(pose))
}

fn channels_of_index(records: &PoseRecords, bones: &Names, index: usize) -> Channels
    ensures { result ≡ kept records.now.names records.now.channels at_rest (unwrap_or (slice_get bones.now index) []) }
{
    channels_of(records, bones.get(index).unwrap_or(""))
}
