//! Edits of a scene that is read from JSON: what each sets, and when it is refused.

mod full;
mod order;
mod refused;
mod seen;
mod set;
mod words;

use rig_edits::{Edit, EditCause, EditStop, apply};
use rig_io::NoMemory;
use rig_scene::Scene;
use rig_scenejson::{SceneStop, scene_of};
use seen::{Seen, number_of};
use serde_json::Value;
use std::alloc::Global;
use std::test::Fail;
use words::{Words, edit_of};

/// Eight objects with the serials 0 to 7. Root is needed by Child alone, Rig by a layer, Centre by the mirror of Sketch, and
/// Source by a driver of Child. Loop is its own parent, the centre of its own mirror, and read by its own driver.
const SCENE: &str = r#"{"scene": {"version": 1,
"actions": [{"name": "Move", "curves": [
    {"channel": "loc.x", "keys": [{"frame": 1, "value": 0}, {"frame": 11, "value": 10000000}]},
    {"bone": "Knee", "channel": "rot.w"}]}],
"armatures": [{"name": "Arm", "bones": [{"name": "Hip"}, {"name": "Knee", "parent": "Hip"}]}],
"pencils": [{"name": "Ink",
    "drawings": [{"strokes": [[[1, 2, 3], [4, 5, 6]], [[7, 8, 9]]]}, {"strokes": [[[10, 11, 12], [13, 14, 15]]]}],
    "layers": [{"name": "Lines", "keys": [{"frame": 1, "drawing": 0}, {"frame": 5, "drawing": 1}]},
        {"name": "Fills", "hidden": true, "armature": "Rig", "bone": "Knee"}]}],
"objects": [
    {"name": "Rig", "kind": "armature", "data": "Arm"},
    {"name": "Sketch", "kind": "pencil", "data": "Ink", "modifiers": [
        {"name": "Flip", "kind": "mirror", "x": true, "object": "Centre"},
        {"name": "Shift", "kind": "offset", "loc": [0, 11, 0], "render": false}]},
    {"name": "Centre", "kind": "empty"},
    {"name": "Root", "kind": "empty"},
    {"name": "Child", "kind": "empty", "parent": "Root", "loc": [2000000, 0, 0]},
    {"name": "Source", "kind": "empty"},
    {"name": "Blank", "kind": "pencil", "data": "Ink"},
    {"name": "Loop", "kind": "pencil", "data": "Ink", "parent": "Loop", "modifiers": [
        {"name": "Flip", "kind": "mirror", "y": true, "object": "Loop"}]}],
"drivers": [
    {"object": "Child", "channel": "loc.y", "kind": "sum", "variables": [
        {"kind": "property", "object": "Source", "channel": "loc.x"}]},
    {"object": "Loop", "channel": "loc.z", "kind": "average", "variables": [
        {"kind": "transform", "object": "Loop", "channel": "scale", "space": "world"}]},
    {"object": "Rig", "bone": "Knee", "channel": "rot.x", "kind": "min", "variables": [
        {"kind": "property", "object": "Rig", "bone": "Hip", "channel": "loc.x"},
        {"kind": "property", "pencil": "Ink", "layer": "Fills", "channel": "offset.z"}]}]
}}"#;

fn scene_in(alloc: Global, text: &str) -> Result<Scene, Fail> {
    let input = Value::from_str(alloc, text)?;
    match scene_of(alloc, &input) {
        Ok(scene) => Ok(scene),
        Err(SceneStop::NoMemory) => Err(NoMemory.into()),
        Err(SceneStop::Fault(fault)) => Err(Fail::new(fault.cause.code())),
    }
}

// The cause for which an edit is refused, and none where it is applied.
fn cause_of(alloc: Global, scene: &mut Scene, words: Words) -> Result<Option<EditCause>, NoMemory> {
    let edit = edit_of(alloc, words)?;
    cause_against(alloc, scene, &edit)
}

fn cause_against(
    alloc: Global,
    scene: &mut Scene,
    edit: &Edit,
) -> Result<Option<EditCause>, NoMemory> {
    if scene.next == u32::MAX {
        return Err(NoMemory);
    }
    match apply(alloc, scene, edit) {
        Ok(()) => Ok(None),
        Err(EditStop::Refused(cause)) => Ok(Some(cause)),
        Err(EditStop::NoMemory) => Err(NoMemory),
    }
}

// The code of a cause.
fn code_of(cause: Option<EditCause>) -> &'static str {
    match cause {
        Some(cause) => cause.code(),
        None => "applied",
    }
}

/// An edit of the scene, and a number of it afterwards.
#[derive(Clone, Copy)]
struct Case {
    edit: Words,
    seen: Seen,
    number: Option<i64>,
}

// Whether an edit is answered by a code, and the number stands there then.
fn is_met(alloc: Global, code: &str, case: &Case) -> Result<bool, Fail> {
    let mut scene = scene_in(alloc, SCENE)?;
    let cause = cause_of(alloc, &mut scene, case.edit)?;
    Ok(code_of(cause) == code && number_of(&scene, case.seen) == case.number)
}

// The index of the first case, each with a scene of its own, that isn't met.
fn first_unmet(alloc: Global, code: &str, cases: &[Case]) -> Result<Option<usize>, Fail> {
    for (index, case) in cases.iter().enumerate() {
        if !is_met(alloc, code, case)? {
            return Ok(Some(index));
        }
    }
    Ok(None)
}

// Numbers of the scene after some edits, each of which has to be applied.
fn numbers_after(alloc: Global, edits: &[Words], seen: &[Seen]) -> Result<Vec<Option<i64>>, Fail> {
    let mut scene = scene_in(alloc, SCENE)?;
    apply_all(alloc, &mut scene, edits)?;
    numbers_of(alloc, &scene, seen)
}

fn apply_all(alloc: Global, scene: &mut Scene, edits: &[Words]) -> Result<(), Fail> {
    for words in edits {
        if let Some(cause) = cause_of(alloc, scene, *words)? {
            return Err(Fail::new(cause.code()));
        }
    }
    Ok(())
}

fn numbers_of(alloc: Global, scene: &Scene, seen: &[Seen]) -> Result<Vec<Option<i64>>, Fail> {
    let mut numbers = Vec::new(alloc);
    for what in seen {
        numbers.push(number_of(scene, *what))?;
    }
    Ok(numbers)
}
