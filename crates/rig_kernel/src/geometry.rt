//! The strokes of a pencil object: those of its layers joined, then after each modifier, and after all of them.
ghost use Rattle.std.specs.Prelude.{◌≡◌, ◌++◌, ◌-◌, ◌<◌, ◌≤◌, ℤ, [], length, slice_get, drop, Some, IfOk, IfSome, IfNone, OnOk, unwrap_or, option_and_then, Contains};
ghost use Rattle.std.specs.Option.{option_copied, option_map_or};
ghost use Rattle.rig_fixed.specs.Transform.{carry, inverse};
ghost use Rattle.rig_fixed.specs.Vector.{origin};
ghost use Rattle.rig_scene.specs.declared.limits.TheConstants.{MAX_RESULT_POINTS};
ghost use Rattle.rig_scene.specs.declared.modifier.Mode.{Mode};
ghost use Rattle.rig_scene.specs.declared.operation.OpId.TheVariants.{Geometry, ModifierOp, GeometryDone};
ghost use Rattle.rig_scene.specs.Layer.{stroke_points, joined_within};
ghost use Rattle.rig_scene.specs.Modify.{is_on, modify};
ghost use Rattle.rig_scene.specs.Operations.{operations};
ghost use Rattle.rig_scene.specs.Quantities.{modifiers_of};
ghost use Rattle.rig_scene.specs.Scene.{object_of, pencil_of};
ghost use Rattle.rig_scene.specs.Value.{Strokes};
ghost use Rattle.rig_kernel.specs.Joined.{layer_brings, layers_bring, fitting, joined};
ghost use Rattle.rig_laws.specs.Kernel.{kernel, mirror_centre, modified_strokes};
ghost use Rattle.rig_laws.specs.Output.{strokes_at, transform_at};

use crate::inputs::{Inputs, transform_at};
use crate::records::{conditions, object_of};
use crate::value::{SharedStrokes, Value};
use rig_fixed::{V3, inverse};
use rig_io::{List, NoMemory, Share};
use rig_modifiers::modify_if_few;
use rig_scene::limits::MAX_RESULT_POINTS;
use rig_scene::{
    Effect, Kind, Layer, Mode, Modifier, ObjectId, PencilData, Scene, Stroke, Strokes,
};
use std::alloc::Global;

/// The strokes of the layers of a pencil object that aren't hidden, joined from the bottom one up as far as there is room.
/// Where one layer alone brings strokes, they are shared with it.
pub(crate) fn geometry<I: Inputs>(
    alloc: Global,
    scene: &Scene,
    o: ObjectId,
    inputs: &I,
) -> Result<SharedStrokes, NoMemory>
    requires op { Contains (operations scene.now) (Geometry o) }
    ensures { IfOk result (λ strokes. (mode : Mode) (frame : ℤ) →
        kernel scene.now mode frame (Geometry o) (I.list inputs.now) ≡ Some (Strokes strokes)) }
{
    joined(alloc, pencil_of(scene, o).layers.as_slice(), inputs)
}

// The pencil of a pencil object.
fn pencil_of(scene: &Scene, o: ObjectId) -> &PencilData
    requires { Contains (operations scene.now) (Geometry o) }
    ensures { option_and_then (λ object. pencil_of scene.now object.kind) (object_of scene.now o) ≡ Some result.now }
{
    match &object_of(scene, o).kind {
        Kind::Pencil { pencil, .. } => scene.pencils.get(*pencil as usize),
        Kind::Empty | Kind::Armature { .. } => unreachable!(),
    }
}

fn joined<I: Inputs>(alloc: Global, layers: &[Layer], inputs: &I) -> Result<SharedStrokes, NoMemory>
    ensures { IfOk result (λ strokes. strokes ≡ joined_within MAX_RESULT_POINTS (layers_bring (I.list inputs.now) 0 layers.now)) }
{
    let shown = &layers[..fitting(layers, inputs)];
    match alone(shown, inputs) {
        Some(strokes) => strokes.share(),
        None => SharedStrokes::new(alloc, copies(alloc, shown, inputs)?),
    }
}

// How many layers there are before the first that brings too many points.
fn fitting<I: Inputs>(layers: &[Layer], inputs: &I) -> usize
    ensures count { result ≡ fitting MAX_RESULT_POINTS (layers_bring (I.list inputs.now) 0 layers.now) }
    ensures within { result ≤ length layers.now }
{
    let mut room = MAX_RESULT_POINTS;
    for (l, layer) in layers.iter().enumerate() {
        match points_within(room, brought(layer, inputs, l)) {
            Some(points) => room -= points,
            None => return l,
        }
    }
    layers.len()
}

// The strokes of the only layer that brings some.
fn alone<'a, I: Inputs>(layers: &[Layer], inputs: &'a I) -> Option<&'a SharedStrokes>
    ensures { IfSome (option_copied result) (λ strokes. strokes ≡ joined (layers_bring (I.list inputs.now) 0 layers.now)) }
{
    let mut found = None;
    for (l, layer) in layers.iter().enumerate() {
        match (found, brought(layer, inputs, l)) {
            (Some(_), Some(_)) => return None,
            (None, more) => found = more,
            (Some(_), None) => {}
        }
    }
    found
}

// The strokes of layers one after the other, with memory of their own.
fn copies<I: Inputs>(alloc: Global, layers: &[Layer], inputs: &I) -> Result<Strokes, NoMemory>
    ensures { IfOk result (λ strokes. strokes ≡ joined (layers_bring (I.list inputs.now) 0 layers.now)) }
{
    let mut new = Vec::with_capacity(alloc, stroke_count(layers, inputs))?;
    for (l, layer) in layers.iter().enumerate() {
        push_copies(&mut new, brought(layer, inputs, l))?;
    }
    Ok(List::from(new))
}

fn stroke_count<I: Inputs>(layers: &[Layer], inputs: &I) -> usize {
    let mut count: usize = 0;
    for (l, layer) in layers.iter().enumerate() {
        if let Some(strokes) = brought(layer, inputs, l) {
            count = count.saturating_add(strokes.get().len());
        }
    }
    count
}

fn push_copies(new: &mut Vec<Stroke>, strokes: Option<&SharedStrokes>) -> Result<(), NoMemory>
    ensures { OnOk result (new.new.items ≡ new.old.items ++ unwrap_or (option_copied strokes.entry) []) }
{
    match strokes {
        Some(strokes) => push_each(new, strokes.get().as_slice()),
        None => Ok(()),
    }
}

fn push_each(new: &mut Vec<Stroke>, strokes: &[Stroke]) -> Result<(), NoMemory>
    ensures { OnOk result (new.new.items ≡ new.old.items ++ strokes.now) }
{
    for stroke in strokes {
        let copy = copy_of(stroke)?;
        new.push(copy)?;
    }
    Ok(())
}

fn copy_of(stroke: &Stroke) -> Result<Stroke, NoMemory>
    ensures { IfOk result (λ copy. copy ≡ stroke.now) }
{
    Ok(stroke.clone()?)
}

// The strokes that a layer brings, where there are some.
fn brought<'a, I: Inputs>(layer: &Layer, inputs: &'a I, l: usize) -> Option<&'a SharedStrokes>
    ensures { unwrap_or (option_copied result) [] ≡ layer_brings (I.list inputs.now) l layer.now }
{
    if layer.hidden {
        return None;
    }
    match strokes_at(inputs, l) {
        Some(strokes) if !strokes.get().is_empty() => Some(strokes),
        _ => None,
    }
}

// The number of the points that a layer brings, where it is at most so many.
fn points_within(most: usize, strokes: Option<&SharedStrokes>) -> Option<usize>
    ensures few { IfSome result (λ n. (n ≡ stroke_points (unwrap_or (option_copied strokes.entry) [])) × (n ≤ most)) }
    ensures many { IfNone result (most < stroke_points (unwrap_or (option_copied strokes.entry) [])) }
{
    match strokes {
        Some(strokes) => point_count(most, strokes.get().as_slice()),
        None => Some(0),
    }
}

fn point_count(most: usize, strokes: &[Stroke]) -> Option<usize>
    ensures few { IfSome result (λ n. (n ≡ stroke_points strokes.now) × (n ≤ most)) }
    ensures many { IfNone result (most < stroke_points strokes.now) }
{
    let mut count = 0;
    for stroke in strokes {
        let points = stroke.points.len();
        if points > most - count {
            return None;
        }
        count += points;
    }
    Some(count)
}

/// The strokes of a pencil object after the modifier of a number, counted from 1. A modifier that is off or would make too many
/// points shares the strokes before it.
pub(crate) fn modifier<I: Inputs>(
    alloc: Global,
    scene: &Scene,
    o: ObjectId,
    i: u32,
    mode: Mode,
    inputs: &I,
) -> Result<SharedStrokes, NoMemory>
    requires op { Contains (operations scene.now) (ModifierOp o i) }
    ensures { IfOk result (λ strokes. (frame : ℤ) →
        kernel scene.now mode frame (ModifierOp o i) (I.list inputs.now) ≡ Some (Strokes strokes)) }
{
    modified(alloc, modifier_of(scene, o, i), mode, inputs)
}

// The modifier of a number, counted from 1.
fn modifier_of(scene: &Scene, o: ObjectId, i: u32) -> &Modifier
    requires { Contains (operations scene.now) (ModifierOp o i) }
    ensures positive { 0 < i }
    ensures modifier { option_and_then (λ object. slice_get (modifiers_of object.kind) (i - 1)) (object_of scene.now o) ≡ Some result.now }
{
    match &object_of(scene, o).kind {
        Kind::Pencil { modifiers, .. } => modifiers.get(i as usize - 1),
        Kind::Empty | Kind::Armature { .. } => unreachable!(),
    }
}

fn modified<I: Inputs>(
    alloc: Global,
    modifier: &Modifier,
    mode: Mode,
    inputs: &I,
) -> Result<SharedStrokes, NoMemory>
    ensures { IfOk result (λ strokes. strokes ≡ modified_strokes mode modifier.now (I.list inputs.now)) }
{
    let before = shared_strokes(alloc, inputs)?;
    if is_on(mode, modifier) {
        let centre = mirror_centre(&modifier.effect, inputs);
        under(alloc, &modifier.effect, centre, before)
    } else {
        Ok(before)
    }
}

// Strokes under an effect, or as they are where it would make too many points.
fn under(
    alloc: Global,
    effect: &Effect,
    centre: V3,
    before: SharedStrokes,
) -> Result<SharedStrokes, NoMemory>
    ensures { IfOk result (λ strokes. strokes ≡ modify effect.now centre before) }
{
    match modify_if_few(alloc, effect, before.get(), centre)? {
        Some(new) => SharedStrokes::new(alloc, new),
        None => Ok(before),
    }
}

fn is_on(mode: Mode, modifier: &Modifier) -> bool
    ensures { result ≡ is_on mode modifier.now }
{
    match mode {
        Mode::Viewport => modifier.viewport,
        Mode::Render => modifier.render,
    }
}

// Where the mirror of an effect reflects, in the space of its object.
fn mirror_centre<I: Inputs>(effect: &Effect, inputs: &I) -> V3
    ensures { result ≡ mirror_centre effect.now (drop 1 (I.list inputs.now)) }
{
    match effect {
        Effect::Mirror(mirror) => location_within(mirror.centre, inputs),
        Effect::Offset { .. } | Effect::Array { .. } => V3::ZERO,
    }
}

// The location of a mirror's centre in the space of the mirrored object. Both transforms come behind the strokes.
fn location_within<I: Inputs>(centre: Option<ObjectId>, inputs: &I) -> V3
    ensures { result ≡ option_map_or
        (λ centre. carry (inverse (transform_at (I.list inputs.now) 1)) (transform_at (I.list inputs.now) 2).loc) centre origin }
{
    match centre {
        Some(_) => inverse(&transform_at(inputs, 1)).carry(transform_at(inputs, 2).loc),
        None => V3::ZERO,
    }
}

/// The strokes of a pencil object after all its modifiers, shared with the last one.
pub(crate) fn geometry_done<I: Inputs>(
    alloc: Global,
    scene: &Scene,
    o: ObjectId,
    inputs: &I,
) -> Result<SharedStrokes, NoMemory>
    requires op { Contains (operations scene.now) (GeometryDone o) }
    ensures { IfOk result (λ strokes. (mode : Mode) (frame : ℤ) →
        kernel scene.now mode frame (GeometryDone o) (I.list inputs.now) ≡ Some (Strokes strokes)) }
{
    conditions(scene);
    shared_strokes(alloc, inputs)
}

// The strokes of the first input, with one more owner.
fn shared_strokes<I: Inputs>(alloc: Global, inputs: &I) -> Result<SharedStrokes, NoMemory>
    ensures { IfOk result (λ strokes. strokes ≡ strokes_at (I.list inputs.now) 0) }
{
    match strokes_at(inputs, 0) {
        Some(strokes) => strokes.share(),
        None => SharedStrokes::new(alloc, List::new(alloc)),
    }
}

// The strokes of an input.
fn strokes_at<I: Inputs>(inputs: &I, k: usize) -> Option<&SharedStrokes>
    ensures { unwrap_or (option_copied result) [] ≡ strokes_at (I.list inputs.now) k }
{
    match inputs.get(k)?.value() {
        Value::Strokes(strokes) => Some(strokes),
        _ => None,
    }
}
