//! Reads the scene of an input.
#![tactic(auto, using(crate::proofs::First::first_append))]

ghost use Rattle.serde_json.specs.View.{view};
ghost use Rattle.rig_scenejson.specs.Tests.{Reads, first};
ghost use Rattle.rig_scenejson.specs.Given.{scene_given};
ghost use Rattle.rig_scenejson.specs.PassOne.{catalog_of};
ghost use Rattle.rig_scenejson.specs.Reading.{scene_faults, input_faults, scene_of_input};

use crate::fault::{Cause, Hop, SceneStop, moved, stop_for};
use crate::member::Member;
use crate::pass_one::test_scene;
use crate::pass_two::read_scene;
use crate::test::{is_record, within};
use crate::value::field;
use rig_scene::Scene;
use serde_json::Value;
use std::alloc::Global;

/// The scene of an input, which is the member `scene` of a JSON object.
///
/// Unknown members are ignored, and a member that is null counts as absent. Frames are whole numbers from -1,000,000 to
/// 1,000,000, other numbers are millionths, at most 10^12 from 0. Objects get the ids 0, 1, 2 and so on.
///
/// # Errors
///
/// [`SceneStop::Fault`] with the first fault of the input and its place. All records are tested for faults of a value by
/// itself (S1 to S6, S9 to S11) before any name is looked up (S7, S8, and S10 for the bones of all objects together).
/// [`SceneStop::NoMemory`] where memory is refused.
pub fn scene_of(alloc: Global, input: &Value) -> Result<Scene, SceneStop>
    ensures { Reads result (scene_of_input (view input.now)) (first (input_faults (view input.now))) }
{
    is_record(alloc, input)?;
    match field(input, Member::Scene) {
        Some(scene) => within(alloc, Hop::Member(Member::Scene), whole_scene(alloc, scene)),
        None => {
            let stop = stop_for(alloc, Cause::Missing);
            Err(moved(alloc, Hop::Member(Member::Scene), stop))
        }
    }
}

fn whole_scene(alloc: Global, value: &Value) -> Result<Scene, SceneStop>
    ensures { Reads result (scene_given (catalog_of (view value.now)) (view value.now)) (first (scene_faults (view value.now))) }
{
    let catalog = test_scene(alloc, value)?;
    read_scene(alloc, &catalog, value)
}
