//! Reads an input from its bytes: the scene that is checked, the scene and the script that are played, or what is wrong with
//! them.
ghost use Rattle.std.specs.Prelude.{◌≡◌};
ghost use Rattle.serde_json.specs.View.{view};
ghost use Rattle.rig_scenejson.specs.Reading.{scene_of_input, input_faults as scene_faults};
ghost use Rattle.rig_scenejson.specs.Tests.{first};
ghost use Rattle.rig_scriptjson.specs.Script.{script_of_input, input_faults as script_faults};
ghost use Rattle.rig_play.specs.Input.{contents_to_check, contents_to_play, played_in, reading_of};
ghost use Rattle.rig_play.specs.Made.{Gives, GivesScene};
ghost use Rattle.rig_play.specs.Readings.{ReadsScene, ReadsScript, ReadsValue};

use crate::plain::{is_plain_scene, is_plain_script};
use rig_scene::Scene;
use rig_scenejson::{Fault, SceneStop, scene_of};
use rig_scriptjson::{Script, script_of};
use serde_json::Value;
use std::alloc::Global;
use std::marker::Model;

/// How many tracks the script of `eval` may have.
pub(crate) const MAX_EVAL_TRACKS: u32 = 1;

/// A scene and a script that the plain engine plays. Contracts see it as the two.
#[derive(Drop)]
pub(crate) struct Input {
    pub(crate) scene: Scene,
    pub(crate) script: Script,
}

impl Model for Input {
    ghost use Rattle.rig_play.specs.Input.{InputRecord};
    ghost use Rattle.rig_play.specs.Readings.{IsPlayable};

    ghost Value = { InputRecord };

    ghost view = { λ i. record { scene = i.scene; script = i.script } };

    ghost invariant = { λ i. IsPlayable i.scene i.script };
}

/// Why there is nothing to check or to play.
#[derive(Drop)]
pub(crate) enum InputStop {
    /// Memory was refused.
    NoMemory,
    /// The bytes aren't UTF-8 text with a JSON reading.
    NotJson,
    /// The first fault of the scene.
    BadScene(Fault),
    /// The first fault of the script, where the scene has none.
    BadScript(Fault),
    /// There is no fault, and the plain engine doesn't play it.
    Unbuilt,
}

/// The scene that the bytes stand for. What else they hold isn't looked at.
pub(crate) fn checked_scene(alloc: Global, bytes: &[u8]) -> Result<Scene, InputStop>
    ensures { GivesScene result (contents_to_check bytes.now) }
{
    let value = value_of(alloc, bytes)?;
    scene_in(alloc, &value)
}

/// The scene and the script that the bytes stand for, where the plain engine plays them.
pub(crate) fn input_of(alloc: Global, bytes: &[u8]) -> Result<Input, InputStop>
    ensures { Gives result (contents_to_play bytes.now) }
{
    let value = value_of(alloc, bytes)?;
    input_in(alloc, &value)
}

fn value_of(alloc: Global, bytes: &[u8]) -> Result<Value, InputStop>
    ensures { ReadsValue result (reading_of bytes.now) }
{
    match Value::from_slice(alloc, bytes) {
        Ok(value) => Ok(value),
        Err(error) => Err(if error.is_memory() {
            InputStop::NoMemory
        } else {
            InputStop::NotJson
        }),
    }
}

fn input_in(alloc: Global, value: &Value) -> Result<Input, InputStop>
    ensures { Gives result (played_in (view value.now)) }
{
    let scene = scene_in(alloc, value)?;
    let script = script_in(alloc, value)?;
    if !is_plain_scene(&scene) || !is_plain_script(&script) {
        return Err(InputStop::Unbuilt);
    }
    Ok(Input { scene, script })
}

fn scene_in(alloc: Global, value: &Value) -> Result<Scene, InputStop>
    ensures { ReadsScene result (scene_of_input (view value.now)) (first (scene_faults (view value.now))) }
{
    match scene_of(alloc, value) {
        Ok(scene) => Ok(scene),
        Err(SceneStop::Fault(fault)) => Err(InputStop::BadScene(fault)),
        Err(SceneStop::NoMemory) => Err(InputStop::NoMemory),
    }
}

fn script_in(alloc: Global, value: &Value) -> Result<Script, InputStop>
    ensures { ReadsScript result (script_of_input (view value.now)) (first (script_faults MAX_EVAL_TRACKS (view value.now))) }
{
    match script_of(alloc, value, MAX_EVAL_TRACKS) {
        Ok(script) => Ok(script),
        Err(SceneStop::Fault(fault)) => Err(InputStop::BadScript(fault)),
        Err(SceneStop::NoMemory) => Err(InputStop::NoMemory),
    }
}
