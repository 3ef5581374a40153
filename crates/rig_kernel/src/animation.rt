//! What the curves of an id's action give at a frame.
ghost use Rattle.std.specs.Prelude.{◌≡◌, ℤ, map, slice_get, Some, IfOk, IsSome, IsTrue, option_and_then};
ghost use Rattle.std.specs.List.{All, Contains};
ghost use Rattle.rig_scene.specs.declared.id.AnimId.TheVariants as anim;
ghost use Rattle.rig_scene.specs.declared.modifier.Mode.{Mode};
ghost use Rattle.rig_scene.specs.declared.operation.OpId.TheVariants.{Animation, PoseInit};
ghost use Rattle.rig_scene.specs.ChannelNumber.{action_of};
ghost use Rattle.rig_scene.specs.Curve.{curve_value};
ghost use Rattle.rig_scene.specs.Keys.{are_frames_rising};
ghost use Rattle.rig_scene.specs.Operations.{operations, ins};
ghost use Rattle.rig_scene.specs.Value.{Numbers};
ghost use Rattle.rig_scene.specs.WellFormed.{is_scene};
ghost use Rattle.rig_laws.specs.Kernel.{kernel};
ghost use Rattle.rig_laws.specs.Output.{link_of, numbers_at};

use crate::inputs::{Inputs, frame_at, numbers_at};
use crate::records::{conditions, object_of};
use rig_curves::at;
use rig_fixed::Fx;
use rig_io::{List, NoMemory};
use rig_scene::{Action, AnimId, Curve, ObjectId, Scene};
use std::alloc::Global;

/// What each curve of an id's action gives at the frame of the time, in order.
pub(crate) fn animation<I: Inputs>(
    alloc: Global,
    scene: &Scene,
    id: AnimId,
    inputs: &I,
) -> Result<List<Option<Fx>>, NoMemory>
    requires op { Contains (operations scene.now) (Animation id) }
    requires inputs { map link_of (I.list inputs.now) ≡ ins scene.now (Animation id) }
    ensures { IfOk result (λ numbers. (mode : Mode) (frame : ℤ) →
        kernel scene.now mode frame (Animation id) (I.list inputs.now) ≡ Some (Numbers numbers)) }
{
    let action = action_of(scene, id);
    numbers(alloc, action.curves.as_slice(), frame_at(inputs, 0))
}

// The action of an id, whose keys rise in each curve.
fn action_of(scene: &Scene, id: AnimId) -> &Action
    requires { Contains (operations scene.now) (Animation id) }
    ensures action { action_of scene.now id ≡ Some result.now }
    ensures keys { All (λ c. IsTrue (are_frames_rising (λ k. k.frame) c.keys)) result.now.curves }
{
    match id {
        AnimId::Object(o) => action_at(scene, object_of(scene, o).action),
        AnimId::Pencil(p) => action_at(scene, scene.pencils.get(p as usize).action),
    }
}

fn action_at(scene: &Scene, index: Option<u32>) -> &Action
    requires { IsTrue (is_scene scene.now) → IsSome (option_and_then (slice_get scene.now.actions) index) }
    ensures action { option_and_then (slice_get scene.now.actions) index ≡ Some result.now }
    ensures keys { All (λ c. IsTrue (are_frames_rising (λ k. k.frame) c.keys)) result.now.curves }
{
    match index {
        Some(index) => scene.actions.get(index as usize),
        None => unreachable!(),
    }
}

// What each curve gives at a frame.
fn numbers(alloc: Global, curves: &[Curve], frame: i32) -> Result<List<Option<Fx>>, NoMemory>
    requires { All (λ c. IsTrue (are_frames_rising (λ k. k.frame) c.keys)) curves.now }
    ensures { IfOk result (λ numbers. numbers ≡ map (λ c. curve_value c frame) curves.now) }
{
    let mut numbers = Vec::with_capacity(alloc, curves.len())?;
    for curve in curves {
        numbers.push_reserved(at(curve, frame));
    }
    Ok(List::from(numbers))
}

/// What the bones of an armature object share: what each curve of the object's action gives, none without an action.
pub(crate) fn pose_init<I: Inputs>(
    alloc: Global,
    scene: &Scene,
    o: ObjectId,
    inputs: &I,
) -> Result<List<Option<Fx>>, NoMemory>
    requires op { Contains (operations scene.now) (PoseInit o) }
    requires inputs { map link_of (I.list inputs.now) ≡ ins scene.now (PoseInit o) }
    ensures { IfOk result (λ numbers. (mode : Mode) (frame : ℤ) →
        kernel scene.now mode frame (PoseInit o) (I.list inputs.now) ≡ Some (Numbers numbers)) }
{
    conditions(scene);
    copy_of_numbers(alloc, inputs)
}

// The numbers of the first input.
fn copy_of_numbers<I: Inputs>(alloc: Global, inputs: &I) -> Result<List<Option<Fx>>, NoMemory>
    ensures { IfOk result (λ numbers. numbers ≡ numbers_at (I.list inputs.now) 0) }
{
    Ok(List::from(Vec::from_slice(alloc, numbers_at(inputs, 0))?))
}
