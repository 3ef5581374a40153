//! The strokes of a layer.
ghost use Rattle.std.specs.Prelude.{◌≡◌, ◌≤◌, ◌+◌, [], Some, ℕ, ℤ, length, drop, map, slice_get, IfOk, IfSome, IsTrue, option_map, option_and_then};
ghost use Rattle.std.specs.List.{Contains};
ghost use Rattle.std.specs.Option.{option_copied, option_map_or};
ghost use Rattle.rig_fixed.specs.Transform.{identity};
ghost use Rattle.rig_scene.specs.declared.channel.Axis.{Axis};
ghost use Rattle.rig_scene.specs.declared.modifier.Mode.{Mode};
ghost use Rattle.rig_scene.specs.declared.operation.OpId.TheVariants as opid;
ghost use Rattle.rig_scene.specs.declared.path.Path.TheVariants as paths;
ghost use Rattle.rig_scene.specs.Facts.{HasBone};
ghost use Rattle.rig_scene.specs.Keys.{are_frames_rising};
ghost use Rattle.rig_scene.specs.Layer.{held_drawing};
ghost use Rattle.rig_scene.specs.Operations.{operations, ins};
ghost use Rattle.rig_scene.specs.Pose.{rest_chain};
ghost use Rattle.rig_scene.specs.Value.{Strokes};
ghost use Rattle.rig_scene.specs.WellFormed.{bones_of};
ghost use Rattle.rig_kernel.specs.ChannelCurves.{axis_curve};
ghost use Rattle.rig_kernel.specs.Driven.{curve_number, driver_count};
ghost use Rattle.rig_laws.specs.Kernel.{kernel, bound_deform};
ghost use Rattle.rig_kernel.specs.LayerBy.{time_count, animation_count, offset_by, bound_index, layer_by};
ghost use Rattle.rig_laws.specs.Output.{link_of, frame_at, is_rest_at};
ghost use Rattle.rig_kernel.specs.Tables.{AreTables, table_parts, curve_at};

use crate::channel_curves::AxisCurves;
use crate::channels::{animation_count, animation_numbers, offset_from};
use crate::driven::driver_count;
use crate::inputs::{Inputs, frame_at, transform_at};
use crate::records::object_of;
use crate::tables::SceneTables;
use rig_fixed::{Fx, V3, Xform};
use rig_io::NoMemory;
use rig_pose::deform_of;
use rig_scene::{BoneRef, Drawing, Kind, Layer, Name, PencilData, Scene, Strokes};
use rig_strokes::{held, layer_strokes};
use std::alloc::Global;

/// The strokes of a layer: the drawing that it holds, moved by its offset, and carried by the bone that it is bound to.
///
/// # Errors
///
/// [`NoMemory`] where memory is refused.
pub(crate) fn layer<I: Inputs>(
    alloc: Global,
    scene: &Scene,
    tables: &SceneTables,
    p: u32,
    l: u32,
    inputs: &I,
) -> Result<Strokes, NoMemory>
    requires op { Contains (operations scene.now) (opid.Layer p l) }
    requires tables { AreTables tables.now (table_parts scene.now) }
    requires inputs { map link_of (I.list inputs.now) ≡ ins scene.now (opid.Layer p l) }
    ensures { IfOk result (λ strokes. (mode : Mode) (frame : ℤ) →
        kernel scene.now mode frame (opid.Layer p l) (I.list inputs.now) ≡ Some (Strokes strokes)) }
{
    let pencil = scene.pencils.get(p as usize);
    let layer = pencil.layers.get(l as usize);
    shown(alloc, scene, tables, pencil, layer, inputs)
}

fn shown<I: Inputs>(
    alloc: Global,
    scene: &Scene,
    tables: &SceneTables,
    pencil: &PencilData,
    layer: &Layer,
    inputs: &I,
) -> Result<Strokes, NoMemory>
    requires tables { AreTables tables.now (table_parts scene.now) }
    requires rise { IsTrue (are_frames_rising (λ k. k.frame) layer.now.keys) }
    requires time { 1 ≤ length layer.now.keys → IfSome (slice_get (I.list inputs.now) 0) (λ i. i.op ≡ opid.Time) }
    requires bound { IfSome layer.now.bound (λ b. HasBone scene.now b.object b.bone) }
    ensures { IfOk result (λ strokes. strokes ≡ layer_by scene.now tables.now pencil.now layer.now (I.list inputs.now)) }
{
    let from = time_count(layer) + animation_count(pencil.action);
    let drivers = driver_count(inputs, from, 3);
    let offset = offset_by(tables, pencil.action, layer, inputs, from, drivers);
    let deform = deform(scene, tables, layer.bound, inputs, from + drivers);
    layer_strokes(
        alloc,
        drawing(pencil, layer, inputs),
        offset,
        deform.as_ref(),
    )
}

// How many inputs the time takes: one, for a layer with keys.
fn time_count(layer: &Layer) -> usize
    ensures count { result ≡ time_count layer.now.keys }
    ensures few { result ≤ 1 }
{
    if layer.keys.is_empty() { 0 } else { 1 }
}

// The drawing that a layer holds at the frame of the time.
fn drawing<'a, I: Inputs>(pencil: &'a PencilData, layer: &Layer, inputs: &I) -> Option<&'a Drawing>
    requires rise { IsTrue (are_frames_rising (λ k. k.frame) layer.now.keys) }
    requires time { 1 ≤ length layer.now.keys → IfSome (slice_get (I.list inputs.now) 0) (λ i. i.op ≡ opid.Time) }
    ensures { option_copied result ≡ option_and_then (slice_get pencil.now.drawings) (held_drawing layer.now.keys (frame_at (I.list inputs.now) 0)) }
{
    if layer.keys.is_empty() {
        return None;
    }
    match held(layer, frame_at(inputs, 0)) {
        Some(drawing) => pencil.drawings.as_slice().get(drawing as usize),
        None => None,
    }
}

// The offset of a layer, whose driven axes stand first among the inputs from an index on.
fn offset_by<I: Inputs>(
    tables: &SceneTables,
    action: Option<u32>,
    layer: &Layer,
    inputs: &I,
    from: usize,
    drivers: usize,
) -> V3
    requires from { from ≡ time_count layer.now.keys + animation_count action }
    requires drivers { drivers ≡ driver_count 3 (drop from (I.list inputs.now)) }
    requires few { drivers ≤ 3 }
    ensures { result ≡ offset_by tables.now action layer.now (I.list inputs.now) }
{
    let numbers = animation_numbers(inputs, time_count(layer), action);
    let curves = layer_curves(tables, action, &layer.name, numbers);
    offset_from(&layer.offset, curves, numbers, inputs, from, drivers)
}

// The curves of the axes of the layer of a name, where there are numbers of curves.
fn layer_curves<'a>(
    tables: &'a SceneTables,
    action: Option<u32>,
    layer: &Name,
    numbers: &[Option<Fx>],
) -> Option<&'a AxisCurves>
    ensures { (axis : Axis) → curve_number numbers.now (option_and_then (λ c. axis_curve c axis) (option_copied result))
        ≡ curve_number numbers.now (option_and_then (λ a. curve_at tables.now a (paths.Layer layer.now axis)) action) }
{
    if numbers.is_empty() {
        return None;
    }
    match action {
        Some(action) => tables.layer_curves(action, layer),
        None => None,
    }
}

// How the bone deforms that a layer is bound to, whose input is that of an index.
fn deform<I: Inputs>(
    scene: &Scene,
    tables: &SceneTables,
    bound: Option<BoneRef>,
    inputs: &I,
    index: usize,
) -> Option<Xform>
    requires tables { AreTables tables.now (table_parts scene.now) }
    requires bound { IfSome bound (λ b. HasBone scene.now b.object b.bone) }
    ensures { result ≡ option_map (λ b. bound_deform scene.now b (I.list inputs.now) index) bound }
{
    match bound {
        Some(bound) => Some(bound_deform(scene, tables, bound, inputs, index)),
        None => None,
    }
}

fn bound_deform<I: Inputs>(
    scene: &Scene,
    tables: &SceneTables,
    bound: BoneRef,
    inputs: &I,
    index: usize,
) -> Xform
    requires tables { AreTables tables.now (table_parts scene.now) }
    requires bound { HasBone scene.now bound.object bound.bone }
    ensures { result ≡ bound_deform scene.now bound (I.list inputs.now) index }
{
    if is_rest_at(inputs, index) {
        return Xform::identity();
    }
    deform_of(
        &transform_at(inputs, index),
        &rest_chain(scene, tables, bound),
    )
}

// Whether the link of an input is cut.
fn is_rest_at<I: Inputs>(inputs: &I, index: usize) -> bool
    ensures { result ≡ is_rest_at (I.list inputs.now) index }
{
    match inputs.get(index) {
        Some(out) => out.is_rest(),
        None => false,
    }
}

// A bone at rest in the space of its armature.
fn rest_chain(scene: &Scene, tables: &SceneTables, bone: BoneRef) -> Xform
    requires tables { AreTables tables.now (table_parts scene.now) }
    requires bone { HasBone scene.now bone.object bone.bone }
    ensures { result ≡ option_map_or (λ bones. rest_chain bones bone.bone) (bones_of scene.now bone.object) identity }
{
    match &object_of(scene, bone.object).kind {
        Kind::Armature { armature, .. } => tables.rest_chain(*armature, bone.bone),
        Kind::Empty | Kind::Pencil { .. } => Xform::identity(),
    }
}
