//! The test that an input is one that the plain engine plays.
ghost use Rattle.std.specs.Prelude.{◌≡◌};
ghost use Rattle.std.specs.List.{list_all};
ghost use Rattle.rig_play.specs.Plain.{has_no_axis, is_constant, is_empty_kind, is_location, is_own_location, is_plain_curve, is_plain_object, is_plain_scene, is_unturned};
ghost use Rattle.rig_play.specs.PlainScript.{is_plain_edit, is_plain_script, is_plain_step, is_plain_track};

use rig_edits::Edit;
use rig_fixed::{Raw, UNIT};
use rig_scene::{Action, Channel, Curve, Interp, Kind, Object, Path, Scene};
use rig_scriptjson::{Script, Step, Track};

/// Whether a scene is one of empty objects that nothing carries, turns or scales, whose locations may have curves of constant keys.
pub(crate) fn is_plain_scene(scene: &Scene) -> bool
    ensures { result ≡ is_plain_scene scene.now }
{
    scene.armatures.is_empty()
        && scene.pencils.is_empty()
        && scene.drivers.is_empty()
        && are_plain_objects(scene.objects.as_slice())
        && are_plain_actions(scene.actions.as_slice())
}

fn are_plain_objects(objects: &[Object]) -> bool
    ensures { result ≡ list_all is_plain_object objects.now }
{
    objects.iter().all(is_plain_object)
}

fn is_plain_object(object: &Object) -> bool
    ensures { result ≡ is_plain_object object.now }
{
    is_empty_kind(&object.kind)
        && object.parent.is_none()
        && is_unturned(object.own.rot)
        && object.own.scale.get() == UNIT
}

fn is_empty_kind(kind: &Kind) -> bool
    ensures { result ≡ is_empty_kind kind.now }
{
    match kind {
        Kind::Empty => true,
        Kind::Armature { .. } | Kind::Pencil { .. } => false,
    }
}

fn is_unturned(rot: Raw) -> bool
    ensures { result ≡ is_unturned rot }
{
    rot.w.get() == UNIT && has_no_axis(rot)
}

fn has_no_axis(rot: Raw) -> bool
    ensures { result ≡ has_no_axis rot }
{
    rot.x.get() == 0 && rot.y.get() == 0 && rot.z.get() == 0
}

fn are_plain_actions(actions: &[Action]) -> bool
    ensures { result ≡ list_all (λ a. list_all is_plain_curve a.curves) actions.now }
{
    actions.iter().all(are_plain_curves)
}

fn are_plain_curves(action: &Action) -> bool
    ensures { result ≡ list_all is_plain_curve action.now.curves }
{
    action.curves.as_slice().iter().all(is_plain_curve)
}

fn is_plain_curve(curve: &Curve) -> bool
    ensures { result ≡ is_plain_curve curve.now }
{
    is_own_location(&curve.path) && has_constant_keys(curve)
}

fn has_constant_keys(curve: &Curve) -> bool
    ensures { result ≡ list_all (λ k. is_constant k.interp) curve.now.keys }
{
    curve.keys.as_slice().iter().all(|k| is_constant(k.interp))
}

fn is_constant(interp: Interp) -> bool
    ensures { result ≡ is_constant interp }
{
    match interp {
        Interp::Constant => true,
        Interp::Linear => false,
    }
}

fn is_own_location(path: &Path) -> bool
    ensures { result ≡ is_own_location path.now }
{
    match path {
        Path::Own(channel) => is_location(*channel),
        Path::Bone(_, _) | Path::Layer(_, _) => false,
    }
}

fn is_location(channel: Channel) -> bool
    ensures { result ≡ is_location channel }
{
    match channel {
        Channel::LocX | Channel::LocY | Channel::LocZ => true,
        Channel::RotW | Channel::RotX | Channel::RotY | Channel::RotZ | Channel::Scale => false,
    }
}

/// Whether a script has at most one track, of frames that aren't full and of edits that set a number of a location.
pub(crate) fn is_plain_script(script: &Script) -> bool
    ensures { result ≡ is_plain_script script.now }
{
    script.tracks.len() <= 1 && are_plain_tracks(script.tracks.as_slice())
}

fn are_plain_tracks(tracks: &[Track]) -> bool
    ensures { result ≡ list_all is_plain_track tracks.now }
{
    tracks.iter().all(is_plain_track)
}

fn is_plain_track(track: &Track) -> bool
    ensures { result ≡ is_plain_track track.now }
{
    track.steps.as_slice().iter().all(is_plain_step)
}

fn is_plain_step(step: &Step) -> bool
    ensures { result ≡ is_plain_step step.now }
{
    match step {
        Step::Edit(edit) => is_plain_edit(edit),
        Step::Frame { full, .. } => !*full,
    }
}

fn is_plain_edit(edit: &Edit) -> bool
    ensures { result ≡ is_plain_edit edit.now }
{
    match edit {
        Edit::SetValue { path, .. } => is_own_location(path),
        _ => false,
    }
}
