//! The layers and geometries of a pencil.
ghost use Rattle.std.specs.Prelude.{◌≡◌, ◌<◌, ◌^◌, ◌++◌, [], ◌∷◌, length, map, filter, pos, IfOk, OnOk};
ghost use Rattle.std.specs.List.{enumerate_from, list_any};
ghost use Rattle.std.specs.Option.{option_map_or};
ghost use Rattle.std.specs.Ordering.{int_eq};
ghost use Rattle.rig_edits.specs.Named.{pencil_index};
ghost use Rattle.rig_scene.specs.declared.operation.OpId.TheVariants as op;
ghost use Rattle.rig_touch.specs.Touch.{geometries_of, has_pencil, layers_named, drawing_layers, shows_drawing};

use crate::channel::push_layer;
use crate::find::{pencil_at, pencil_index};
use rig_io::{List, NoMemory};
use rig_scene::{Kind, Layer, LayerKey, Name, Object, OpId, Scene};
use std::alloc::Global;

/// The geometries of all objects of the pencil of a name.
pub(crate) fn geometries(
    alloc: Global,
    scene: &Scene,
    pencil: &Name,
) -> Result<List<OpId>, NoMemory>
    ensures { IfOk result (λ ops. ops ≡ option_map_or (geometries_of scene.now) (pencil_index scene.now pencil.now) []) }
{
    let mut ops = List::new(alloc);
    if let Some(pencil) = pencil_index(scene, pencil) {
        push_geometries(&mut ops, scene.objects.as_slice(), pencil)?;
    }
    Ok(ops)
}

fn push_geometries(ops: &mut List<OpId>, objects: &[Object], pencil: u32) -> Result<(), NoMemory>
    ensures { OnOk result (ops.new ≡ ops.old ++ map (λ o. op.Geometry o.id) (filter (λ o. has_pencil pencil o.kind) objects.now)) }
{
    for object in objects {
        if has_pencil(pencil, &object.kind) {
            ops.push(OpId::Geometry(object.id))?;
        }
    }
    Ok(())
}

fn has_pencil(index: u32, kind: &Kind) -> bool
    ensures { result ≡ has_pencil index kind.now }
{
    match kind {
        Kind::Pencil { pencil, .. } => *pencil == index,
        Kind::Empty | Kind::Armature { .. } => false,
    }
}

/// The layer of a name in the pencil of a name.
pub(crate) fn layer(
    alloc: Global,
    scene: &Scene,
    pencil: &Name,
    layer: &Name,
) -> Result<List<OpId>, NoMemory>
    ensures { IfOk result (λ ops. ops ≡ layers_named scene.now pencil.now layer.now) }
{
    let mut ops = List::new(alloc);
    if let Some(pencil) = pencil_index(scene, pencil) {
        push_layer(&mut ops, scene, pencil, layer)?;
    }
    Ok(ops)
}

/// The layers of the pencil of a name with a key of a drawing.
pub(crate) fn drawing_layers(
    alloc: Global,
    scene: &Scene,
    pencil: &Name,
    drawing: i64,
) -> Result<List<OpId>, NoMemory>
    ensures { IfOk result (λ ops. ops ≡ option_map_or (drawing_layers scene.now drawing) (pencil_index scene.now pencil.now) []) }
{
    match pencil_index(scene, pencil) {
        Some(pencil) => drawing_layers_at(alloc, scene, pencil, drawing),
        None => Ok(List::new(alloc)),
    }
}

fn drawing_layers_at(
    alloc: Global,
    scene: &Scene,
    index: u32,
    drawing: i64,
) -> Result<List<OpId>, NoMemory>
    ensures { IfOk result (λ ops. ops ≡ drawing_layers scene.now drawing index) }
{
    let mut ops = List::new(alloc);
    if let Some(pencil) = pencil_at(scene, index) {
        push_drawing_layers(&mut ops, pencil.layers.as_slice(), index, drawing)?;
    }
    Ok(ops)
}

fn push_drawing_layers(
    ops: &mut List<OpId>,
    layers: &[Layer],
    pencil: u32,
    drawing: i64,
) -> Result<(), NoMemory>
    requires { length layers.now < 2 ^ 32 }
    ensures { OnOk result (ops.new ≡ ops.old ++
        map (λ e. op.Layer pencil e.0) (filter (λ e. shows_drawing drawing e.1) (enumerate_from 0 layers.now))) }
{
    for (l, layer) in layers.iter().enumerate() {
        if shows_drawing(layer.keys.as_slice(), drawing) {
            ops.push(OpId::Layer(pencil, l as u32))?;
        }
    }
    Ok(())
}

fn shows_drawing(keys: &[LayerKey], drawing: i64) -> bool
    ensures { result ≡ list_any (λ k. int_eq (pos k.drawing) drawing) keys.now }
{
    keys.iter().any(|key| is_of(key, drawing))
}

fn is_of(key: &LayerKey, drawing: i64) -> bool
    ensures { result ≡ int_eq (pos key.now.drawing) drawing }
{
    i64::from(key.drawing) == drawing
}
