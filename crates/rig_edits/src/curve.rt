//! Keys of curves: set and deleted.
ghost use Rattle.std.specs.Prelude.{◌≡◌, ◌≤◌, ◌+◌, IfOk, OnOk, OnErr, MatchOption};
ghost use Rattle.std.specs.Int.{from_bool};
ghost use Rattle.std.specs.List.{position};
ghost use Rattle.rig_scene.specs.declared.limits.TheConstants.{MAX_KEYS};
ghost use Rattle.rig_scene.specs.Path.{same_path};
ghost use Rattle.rig_scene.specs.WellFormed.{key_count};
ghost use Rattle.rig_edits.specs.declared.edit.Edit.TheVariants.{SetKey, DeleteKey};
ghost use Rattle.rig_edits.specs.Answers.{Applies};
ghost use Rattle.rig_edits.specs.Conditions.{first_cause};
ghost use Rattle.rig_edits.specs.CurvePlaces.{curve_cause, room_cause, has_key_at, keys_changed_at, HasCurve, IsPlaceOf};
ghost use Rattle.rig_edits.specs.Edited.{put_key, drop_key};
ghost use Rattle.rig_edits.specs.Steps.{Finds, FoundAt, FoundNowhere};

use crate::cause::{EditCause, EditStop};
use crate::find::index_named;
use crate::full::room_for;
use crate::keys::{drop_key, has_key, put_key};
use crate::whole::{frame_of, value_of};
use rig_io::{List, NoMemory};
use rig_scene::limits::MAX_KEYS;
use rig_scene::{Action, Curve, Interp, Key, Name, Path, Scene};

/// Where a curve stands: the index of its action, and its index there.
#[derive(Clone, Copy, Debug)]
pub(crate) struct CurvePlace {
    action: usize,
    curve: usize,
}

/// Where the curve of a path stands in an action of a name.
fn curve_place(scene: &Scene, action: &Name, path: &Path) -> Result<CurvePlace, EditCause>
    ensures { Finds result (curve_cause scene.now action.now path.now) (IsPlaceOf scene.now action.now path.now) }
{
    let Some(action) = index_named(scene.actions.as_slice(), action) else {
        return Err(EditCause::UnknownId);
    };
    match index_of_path(scene.actions.get(action).curves.as_slice(), path) {
        Some(curve) => Ok(CurvePlace { action, curve }),
        None => Err(EditCause::UnknownPart),
    }
}

/// The index of the first curve of a path.
fn index_of_path(curves: &[Curve], path: &Path) -> Option<usize>
    ensures { MatchOption result (FoundNowhere (λ c. same_path c.path path.now) curves.now)
        (FoundAt (λ c. same_path c.path path.now) curves.now) }
{
    position_of_path(curves, path)
}

fn position_of_path(curves: &[Curve], path: &Path) -> Option<usize>
    ensures { result ≡ position (λ c. same_path c.path path.now) curves.now }
{
    curves.iter().position(|curve| curve.path == *path)
}

/// Sets a key of a curve.
pub(crate) fn set_key(
    scene: &mut Scene,
    action: &Name,
    path: &Path,
    frame: i64,
    value: i64,
    interp: Interp,
) -> Result<(), EditStop>
    ensures { Applies result scene.old scene.new (SetKey action.now path.now frame value interp) }
{
    let (place, key) = new_key(scene, action, path, frame, value, interp)?;
    let more = put_into_curve(&mut scene.actions, place, key)?;
    scene.key_count += usize::from(more);
    Ok(())
}

/// The key that an edit sets, and where its curve stands.
fn new_key(
    scene: &Scene,
    action: &Name,
    path: &Path,
    frame: i64,
    value: i64,
    interp: Interp,
) -> Result<(CurvePlace, Key), EditCause>
    ensures { Finds result (first_cause scene.now (SetKey action.now path.now frame value interp))
        (λ found. IsPlaceOf scene.now action.now path.now found.0 × (found.1 ≡ record { frame = frame; interp = interp; value = value })) }
{
    let place = curve_place(scene, action, path)?;
    let frame = frame_of(frame)?;
    let value = value_of(value)?;
    room_for_key(&scene.actions, scene.key_count, place, frame)?;
    Ok((
        place,
        Key {
            frame,
            interp,
            value,
        },
    ))
}

/// Deletes a key of a curve.
pub(crate) fn delete_key(
    scene: &mut Scene,
    action: &Name,
    path: &Path,
    frame: i64,
) -> Result<(), EditStop>
    ensures { Applies result scene.old scene.new (DeleteKey action.now path.now frame) }
{
    let (place, frame) = old_key(scene, action, path, frame)?;
    let less = drop_from_curve(&mut scene.actions, place, frame);
    scene.key_count -= usize::from(less);
    Ok(())
}

/// The frame of the key that an edit deletes, and where its curve stands.
fn old_key(
    scene: &Scene,
    action: &Name,
    path: &Path,
    frame: i64,
) -> Result<(CurvePlace, i32), EditCause>
    ensures { Finds result (first_cause scene.now (DeleteKey action.now path.now frame))
        (λ found. IsPlaceOf scene.now action.now path.now found.0 × (found.1 ≡ frame)) }
{
    let place = curve_place(scene, action, path)?;
    let frame = frame_of(frame)?;
    if curve_has_key(&scene.actions, place, frame) {
        Ok((place, frame))
    } else {
        Err(EditCause::Absent)
    }
}

/// Whether the curve at a place has a key at a frame.
fn curve_has_key(actions: &List<Action>, place: CurvePlace, frame: i32) -> bool
    requires { HasCurve actions.now place }
    ensures { result ≡ has_key_at actions.now place frame }
{
    has_key(
        &actions.get(place.action).curves.get(place.curve).keys,
        frame,
    )
}

/// Whether a key may be set at a frame beside so many of all curves: one that replaces another needs no room.
fn room_for_key(
    actions: &List<Action>,
    count: usize,
    place: CurvePlace,
    frame: i32,
) -> Result<(), EditCause>
    requires place { HasCurve actions.now place }
    requires count { count ≡ key_count actions.now }
    requires within { count ≤ MAX_KEYS }
    ensures { Finds result (room_cause actions.now place frame) (λ _. Unit {0}) }
{
    if curve_has_key(actions, place, frame) {
        Ok(())
    } else {
        room_for(count, 1, MAX_KEYS)
    }
}

/// Puts a key into the curve at a place. Answers whether it is one more.
fn put_into_curve(actions: &mut List<Action>, place: CurvePlace, key: Key) -> Result<bool, NoMemory>
    requires { HasCurve actions.old place }
    ensures ok { OnOk result (actions.new ≡ keys_changed_at (put_key (λ k. k.frame) key) place actions.old) }
    ensures count { IfOk result (λ more. key_count actions.new ≡ key_count actions.old + from_bool more) }
    ensures err { OnErr result (actions.new ≡ actions.old) }
{
    let curve = actions.get_mut(place.action).curves.get_mut(place.curve);
    put_key(&mut curve.keys, key)
}

/// Takes the key at a frame out of the curve at a place, where there is one. Answers whether it is one less.
fn drop_from_curve(actions: &mut List<Action>, place: CurvePlace, frame: i32) -> bool
    requires { HasCurve actions.old place }
    ensures actions { actions.new ≡ keys_changed_at (drop_key (λ k. k.frame) frame) place actions.old }
    ensures count { key_count actions.new + from_bool result ≡ key_count actions.old }
{
    let curve = actions.get_mut(place.action).curves.get_mut(place.curve);
    drop_key(&mut curve.keys, frame)
}
