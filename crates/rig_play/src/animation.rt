//! Where an object of a plain scene stands at a frame, by the curves of its action.
ghost use Rattle.std.specs.Prelude.{◌≡◌, IsTrue, None, Some, MatchOption, option_and_then};
ghost use Rattle.std.specs.List.{find};
ghost use Rattle.rig_scene.specs.declared.path.Path.TheVariants.{Own};
ghost use Rattle.rig_scene.specs.Path.{same_path};
ghost use Rattle.rig_scene.specs.WellFormed.{are_keys, is_action};
ghost use Rattle.rig_play.specs.Stands.{object_action, own_number, plain_number, plain_location, plain_world};

use rig_curves::at;
use rig_fixed::{Fx, V3, Xform};
use rig_scene::{Action, Channel, Curve, Object, Path, Scene};

/// Where an object stands in the world at a frame. Nothing carries, turns or scales it.
pub(crate) fn world_at(scene: &Scene, object: &Object, frame: i32) -> Xform
    ensures { result ≡ plain_world scene.now frame object.now }
{
    let identity = Xform::identity();
    Xform {
        loc: location_at(scene, object, frame),
        rot: identity.rot,
        scale: identity.scale,
    }
}

fn location_at(scene: &Scene, object: &Object, frame: i32) -> V3
    ensures { result ≡ plain_location scene.now object.now frame }
{
    let original = object.own.loc;
    match action_of(scene, object) {
        Some(action) => V3 {
            x: number_at(action, Channel::LocX, frame).unwrap_or(original.x),
            y: number_at(action, Channel::LocY, frame).unwrap_or(original.y),
            z: number_at(action, Channel::LocZ, frame).unwrap_or(original.z),
        },
        None => original,
    }
}

// The action of an object.
fn action_of<'a>(scene: &'a Scene, object: &Object) -> Option<&'a Action>
    ensures { MatchOption result (object_action scene.now object.now ≡ None)
        (λ a. (object_action scene.now object.now ≡ Some a.now) × IsTrue (is_action a.now)) }
{
    let index = object.action?;
    scene.actions.as_slice().get(index as usize)
}

// What the curve of an own channel gives at a frame.
fn number_at(action: &Action, channel: Channel, frame: i32) -> Option<Fx>
    requires { IsTrue (is_action action.now) }
    ensures { result ≡ own_number action.now channel frame }
{
    match own_curve(action, channel) {
        Some(curve) => at(curve, frame),
        None => None,
    }
}

// The curve of an own channel.
fn own_curve(action: &Action, channel: Channel) -> Option<&Curve>
    requires { IsTrue (is_action action.now) }
    ensures { MatchOption result (find (λ c. same_path c.path (Own channel)) action.now.curves ≡ None)
        (λ c. (find (λ c. same_path c.path (Own channel)) action.now.curves ≡ Some c.now) × IsTrue (are_keys c.now.keys)) }
{
    action
        .curves
        .as_slice()
        .iter()
        .find(|curve| is_own(&curve.path, channel))
}

fn is_own(path: &Path, channel: Channel) -> bool
    ensures { result ≡ same_path path.now (Own channel) }
{
    match path {
        Path::Own(own) => *own == channel,
        Path::Bone(_, _) | Path::Layer(_, _) => false,
    }
}
