//! Layers: hidden and shown, and their keys set and deleted.
ghost use Rattle.std.specs.Prelude.{◌≡◌, ◌≤◌, ◌+◌, IfOk, OnOk, OnErr};
ghost use Rattle.std.specs.Int.{from_bool};
ghost use Rattle.rig_scene.specs.declared.limits.TheConstants.{MAX_LAYER_KEYS};
ghost use Rattle.rig_scene.specs.WellFormed.{layer_key_count};
ghost use Rattle.rig_edits.specs.declared.cause.EditCause.TheVariants.{UnknownPart};
ghost use Rattle.rig_edits.specs.declared.edit.Edit.TheVariants.{SetFlag, SetLayerKey, DeleteLayerKey};
ghost use Rattle.rig_edits.specs.declared.edit.Flag.TheVariants.{Hidden};
ghost use Rattle.rig_edits.specs.Answers.{Applies};
ghost use Rattle.rig_edits.specs.Conditions.{first_cause, when};
ghost use Rattle.rig_edits.specs.Edited.{natural, put_key, drop_key};
ghost use Rattle.rig_edits.specs.LayerPlaces.{layer_cause, room_cause, has_key_at, lacks_drawing_at, layer_changed_at};
ghost use Rattle.rig_edits.specs.LayerPlaces.{HasLayerAt, IsPlaceOf};
ghost use Rattle.rig_edits.specs.Steps.{Finds};

use crate::cause::{EditCause, EditStop};
use crate::find::index_named;
use crate::full::room_for;
use crate::keys::{drop_key, has_key, put_key};
use crate::whole::frame_of;
use rig_io::{List, NoMemory};
use rig_scene::limits::MAX_LAYER_KEYS;
use rig_scene::{Layer, LayerKey, Name, PencilData, Scene};

/// Where a layer stands: the index of its pencil, and its index there.
#[derive(Clone, Copy, Debug)]
pub(crate) struct LayerPlace {
    pencil: usize,
    layer: usize,
}

/// Where the layer of a name stands in a pencil of a name.
fn layer_place(scene: &Scene, pencil: &Name, layer: &Name) -> Result<LayerPlace, EditCause>
    ensures { Finds result (layer_cause scene.now pencil.now layer.now) (IsPlaceOf scene.now pencil.now layer.now) }
{
    let Some(pencil) = index_named(scene.pencils.as_slice(), pencil) else {
        return Err(EditCause::UnknownId);
    };
    match index_named(scene.pencils.get(pencil).layers.as_slice(), layer) {
        Some(layer) => Ok(LayerPlace { pencil, layer }),
        None => Err(EditCause::UnknownPart),
    }
}

/// Hides or shows a layer.
pub(crate) fn set_hidden(
    scene: &mut Scene,
    pencil: &Name,
    layer: &Name,
    on: bool,
) -> Result<(), EditStop>
    ensures { Applies result scene.old scene.new (SetFlag (Hidden pencil.now layer.now) on) }
{
    let place = layer_place(scene, pencil, layer)?;
    hide(&mut scene.pencils, place, on);
    Ok(())
}

/// Sets a key of a layer.
pub(crate) fn set_layer_key(
    scene: &mut Scene,
    pencil: &Name,
    layer: &Name,
    frame: i64,
    drawing: i64,
) -> Result<(), EditStop>
    ensures { Applies result scene.old scene.new (SetLayerKey pencil.now layer.now frame drawing) }
{
    let (place, key) = new_key(scene, pencil, layer, frame, drawing)?;
    let more = put_into_layer(&mut scene.pencils, place, key)?;
    scene.layer_key_count += usize::from(more);
    Ok(())
}

/// The key that an edit sets, and where its layer stands.
fn new_key(
    scene: &Scene,
    pencil: &Name,
    layer: &Name,
    frame: i64,
    drawing: i64,
) -> Result<(LayerPlace, LayerKey), EditCause>
    ensures { Finds result (first_cause scene.now (SetLayerKey pencil.now layer.now frame drawing))
        (λ found. IsPlaceOf scene.now pencil.now layer.now found.0 × (found.1 ≡ record { frame = frame; drawing = natural drawing })) }
{
    let place = layer_place(scene, pencil, layer)?;
    let drawing = drawing_index(&scene.pencils, place, drawing)?;
    let frame = frame_of(frame)?;
    room_for_key(&scene.pencils, scene.layer_key_count, place, frame)?;
    Ok((place, LayerKey { frame, drawing }))
}

/// Deletes a key of a layer.
pub(crate) fn delete_layer_key(
    scene: &mut Scene,
    pencil: &Name,
    layer: &Name,
    frame: i64,
) -> Result<(), EditStop>
    ensures { Applies result scene.old scene.new (DeleteLayerKey pencil.now layer.now frame) }
{
    let (place, frame) = old_key(scene, pencil, layer, frame)?;
    let less = drop_from_layer(&mut scene.pencils, place, frame);
    scene.layer_key_count -= usize::from(less);
    Ok(())
}

/// The frame of the key that an edit deletes, and where its layer stands.
fn old_key(
    scene: &Scene,
    pencil: &Name,
    layer: &Name,
    frame: i64,
) -> Result<(LayerPlace, i32), EditCause>
    ensures { Finds result (first_cause scene.now (DeleteLayerKey pencil.now layer.now frame))
        (λ found. IsPlaceOf scene.now pencil.now layer.now found.0 × (found.1 ≡ frame)) }
{
    let place = layer_place(scene, pencil, layer)?;
    let frame = frame_of(frame)?;
    if layer_has_key(&scene.pencils, place, frame) {
        Ok((place, frame))
    } else {
        Err(EditCause::Absent)
    }
}

/// The number of a drawing of a layer's pencil, as its index.
fn drawing_index(
    pencils: &List<PencilData>,
    place: LayerPlace,
    drawing: i64,
) -> Result<u32, EditCause>
    requires { HasLayerAt pencils.now place }
    ensures { Finds result (when UnknownPart (lacks_drawing_at pencils.now place drawing)) (λ index. index ≡ natural drawing) }
{
    if 0 <= drawing && (drawing as usize) < pencils.get(place.pencil).drawings.len() {
        Ok(drawing as u32)
    } else {
        Err(EditCause::UnknownPart)
    }
}

/// Whether the layer at a place has a key at a frame.
fn layer_has_key(pencils: &List<PencilData>, place: LayerPlace, frame: i32) -> bool
    requires { HasLayerAt pencils.now place }
    ensures { result ≡ has_key_at pencils.now place frame }
{
    has_key(
        &pencils.get(place.pencil).layers.get(place.layer).keys,
        frame,
    )
}

/// Whether a key may be set at a frame beside so many of all layers: one that replaces another needs no room.
fn room_for_key(
    pencils: &List<PencilData>,
    count: usize,
    place: LayerPlace,
    frame: i32,
) -> Result<(), EditCause>
    requires place { HasLayerAt pencils.now place }
    requires count { count ≡ layer_key_count pencils.now }
    requires within { count ≤ MAX_LAYER_KEYS }
    ensures { Finds result (room_cause pencils.now place frame) (λ _. Unit {0}) }
{
    if layer_has_key(pencils, place, frame) {
        Ok(())
    } else {
        room_for(count, 1, MAX_LAYER_KEYS)
    }
}

fn hide(pencils: &mut List<PencilData>, place: LayerPlace, on: bool)
    requires { HasLayerAt pencils.old place }
    ensures { pencils.new ≡ layer_changed_at (λ l. record l { hidden = on }) place pencils.old }
{
    pencils
        .get_mut(place.pencil)
        .layers
        .get_mut(place.layer)
        .hidden = on;
}

/// Puts a key into the layer at a place. Answers whether it is one more.
fn put_into_layer(
    pencils: &mut List<PencilData>,
    place: LayerPlace,
    key: LayerKey,
) -> Result<bool, NoMemory>
    requires { HasLayerAt pencils.old place }
    ensures ok { OnOk result
        (pencils.new ≡ layer_changed_at (λ l. record l { keys = put_key (λ k. k.frame) key l.keys }) place pencils.old) }
    ensures count { IfOk result (λ more. layer_key_count pencils.new ≡ layer_key_count pencils.old + from_bool more) }
    ensures err { OnErr result (pencils.new ≡ pencils.old) }
{
    let layer = pencils.get_mut(place.pencil).layers.get_mut(place.layer);
    put_key(&mut layer.keys, key)
}

/// Takes the key at a frame out of the layer at a place, where there is one. Answers whether it is one less.
fn drop_from_layer(pencils: &mut List<PencilData>, place: LayerPlace, frame: i32) -> bool
    requires { HasLayerAt pencils.old place }
    ensures pencils { pencils.new ≡ layer_changed_at (λ l. record l { keys = drop_key (λ k. k.frame) frame l.keys }) place pencils.old }
    ensures count { layer_key_count pencils.new + from_bool result ≡ layer_key_count pencils.old }
{
    let layer = pencils.get_mut(place.pencil).layers.get_mut(place.layer);
    drop_key(&mut layer.keys, frame)
}
