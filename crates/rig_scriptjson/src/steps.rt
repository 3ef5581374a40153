//! Reads steps: edits and frames.
ghost use Rattle.std.specs.Prelude.{◌≡◌, ◌-◌, false, if◌then◌else◌, OnOk};
ghost use Rattle.std.specs.Int.{int_min, int_max};
ghost use Rattle.rig_scene.specs.declared.limits.TheConstants.{MIN_FRAME, MAX_FRAME};
ghost use Rattle.serde_json.specs.View.{view};
ghost use Rattle.rig_scenejson.specs.declared.fault.Cause.TheVariants.{WrongKind};
ghost use Rattle.rig_scenejson.specs.declared.member.Member.TheVariants as m;
ghost use Rattle.rig_scenejson.specs.Given.{truth_at, frame_at};
ghost use Rattle.rig_scenejson.specs.Tests.{Reads, first, required, optional, fault};
ghost use Rattle.rig_scenejson.specs.Value.{whole_of, frame_faults};
ghost use Rattle.rig_scriptjson.specs.declared.script.Step.TheVariants.{Frame};
ghost use Rattle.rig_scriptjson.specs.Script.{is_frame_step, frame_step_faults, full_faults, step_given, step_faults, after_step};

use crate::edits::read_edit;
use crate::lists::ItemReader;
use crate::members::truth_or;
use crate::script::Step;
use rig_scene::limits::{MAX_FRAME, MIN_FRAME};
use rig_scenejson::{Cause, Hop, Member, SceneStop, field, is_record, number, stop_for, within};
use serde_json::Value;
use std::alloc::Global;

/// Reads a step of a track, which owns a mode or not. Before it is how many more frames may be full.
#[derive(Clone, Copy, Drop)]
pub(crate) struct StepReader {
    pub(crate) has_mode: bool,
}

impl ItemReader for StepReader {
    type Item = Step;

    type Before = usize;

    ghost gives = { step_given };

    ghost faults = { λ reader. step_faults reader.has_mode };

    ghost next = { after_step };

    fn read(&self, alloc: Global, before: &mut usize, value: &Value) -> Result<Step, SceneStop> {
        is_record(alloc, value)?;
        if is_frame_step(value) {
            read_frame(alloc, self.has_mode, before, value)
        } else {
            Ok(Step::Edit(read_edit(alloc, value)?))
        }
    }
}

/// A step is a frame where it has a member `frame` and no member `edit`.
fn is_frame_step(value: &Value) -> bool
    ensures { result ≡ is_frame_step (view value.now) }
{
    field(value, Member::Frame).is_some() && field(value, Member::Edit).is_none()
}

fn read_frame(
    alloc: Global,
    has_mode: bool,
    full_left: &mut usize,
    value: &Value,
) -> Result<Step, SceneStop>
    ensures read { Reads result (Frame (frame_at m.Frame (view value.now)) (truth_at false m.Full (view value.now)))
        (first (frame_step_faults has_mode full_left.old (view value.now))) }
    ensures next { OnOk result (full_left.new ≡ (if truth_at false m.Full (view value.now) then full_left.old - 1 else full_left.old)) }
{
    let frame = frame_in(alloc, has_mode, value)?;
    let full = full_in(alloc, full_left, value)?;
    Ok(Step::Frame { frame, full })
}

#[tactic(auto, using(crate::proofs::First::first_append, crate::proofs::First::reads_moved))]
fn frame_in(alloc: Global, has_mode: bool, value: &Value) -> Result<i32, SceneStop>
    ensures { Reads result (frame_at m.Frame (view value.now))
        (first (required m.Frame (λ f. if has_mode then frame_faults f else fault WrongKind) (view value.now))) }
{
    let read = match field(value, Member::Frame) {
        Some(found) if has_mode => frame_of(alloc, found),
        Some(_) => Err(stop_for(alloc, Cause::WrongKind)),
        None => Err(stop_for(alloc, Cause::Missing)),
    };
    within(alloc, Hop::Member(Member::Frame), read)
}

#[tactic(auto, using(crate::proofs::Frames::whole_none, crate::proofs::Frames::nearest))]
fn frame_of(alloc: Global, value: &Value) -> Result<i32, SceneStop>
    ensures { Reads result (int_max MIN_FRAME (int_min (whole_of (view value.now)) MAX_FRAME)) (first (frame_faults (view value.now))) }
{
    match number(value, i64::from(MIN_FRAME), i64::from(MAX_FRAME)) {
        Ok(frame) => Ok(frame as i32),
        Err(cause) => Err(stop_for(alloc, cause)),
    }
}

/// Whether the frame is printed in full. One that is takes one of those that may be.
#[tactic(auto, using(crate::proofs::First::first_append, crate::proofs::First::reads_moved))]
fn full_in(alloc: Global, full_left: &mut usize, value: &Value) -> Result<bool, SceneStop>
    ensures read { Reads result (truth_at false m.Full (view value.now))
        (first (optional m.Full (full_faults full_left.old) (view value.now))) }
    ensures next { OnOk result (full_left.new ≡ (if truth_at false m.Full (view value.now) then full_left.old - 1 else full_left.old)) }
{
    let full = truth_or(alloc, false, Member::Full, value)?;
    if !full {
        return Ok(false);
    }
    if *full_left == 0 {
        return within(
            alloc,
            Hop::Member(Member::Full),
            Err(stop_for(alloc, Cause::Count)),
        );
    }
    *full_left -= 1;
    Ok(true)
}
