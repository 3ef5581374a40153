//! Scripts, and the reader of a whole one.
ghost use Rattle.serde_json.specs.View.{view};
ghost use Rattle.rig_scenejson.specs.Tests.{Reads, first};
ghost use Rattle.rig_scriptjson.specs.Script.{input_faults, script_of_input, script_faults, script_given};

use crate::tracks::read_tracks;
use rig_edits::Edit;
use rig_io::List;
use rig_scene::Mode;
use rig_scenejson::{Cause, Hop, Member, SceneStop, field, is_record, stop_for, within};
use serde_json::Value;
use std::alloc::Global;

/// What the callers of the program do: each track in its own order.
#[derive(Debug, Drop, PartialEq, Eq)]
pub struct Script {
    /// At most 16.
    pub tracks: List<Track>,
}

/// One caller's steps. A track that owns a mode evaluates frames of it; one without is of edits alone.
#[derive(Debug, Drop, PartialEq, Eq)]
pub struct Track {
    pub mode: Option<Mode>,
    /// At most 4,096 in all tracks together.
    pub steps: List<Step>,
}

/// An edit, or a frame to evaluate.
#[derive(Debug, Drop, PartialEq, Eq)]
pub enum Step {
    Edit(Edit),
    /// A frame, with all values printed where it is full. At most 16 frames of a script are.
    Frame { frame: i32, full: bool },
}

/// Why an input gave no script: want of memory, or its first fault.
pub type ScriptStop = SceneStop;

/// The script of a whole input, with at most so many tracks.
///
/// # Errors
///
/// [`SceneStop::Fault`] exactly where the member `script` has a fault, with the first in the order of its tests.
/// [`SceneStop::NoMemory`] where memory is refused.
pub fn script_of(alloc: Global, input: &Value, most: u32) -> Result<Script, ScriptStop>
    ensures { Reads result (script_of_input (view input.now)) (first (input_faults most (view input.now))) }
{
    is_record(alloc, input)?;
    let read = match field(input, Member::Script) {
        Some(script) => read_script(alloc, script, most),
        None => Err(stop_for(alloc, Cause::Missing)),
    };
    within(alloc, Hop::Member(Member::Script), read)
}

fn read_script(alloc: Global, value: &Value, most: u32) -> Result<Script, ScriptStop>
    ensures { Reads result (script_given (view value.now)) (first (script_faults most (view value.now))) }
{
    is_record(alloc, value)?;
    let tracks = read_tracks(alloc, value, most as usize)?;
    Ok(Script { tracks })
}
