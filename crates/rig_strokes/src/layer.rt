//! The strokes of a layer (Blender Manual, Grease Pencil, Layers).
ghost use Rattle.std.specs.Prelude.{◌≡◌, [], IfNone, IfOk};
ghost use Rattle.std.specs.Option.{option_copied};
ghost use Rattle.rig_points.specs.Change.{point_under};
ghost use Rattle.rig_scene.specs.Layer.{map_points, layer_strokes};
ghost use Rattle.rig_strokes.specs.Shown.{layer_change};

use rig_fixed::{V3, Xform};
use rig_io::{List, NoMemory};
use rig_points::{PointMap, points_under};
use rig_scene::{Drawing, Stroke, Strokes};
use std::alloc::Global;

/// The strokes that a layer shows of the drawing that it holds: each point has the layer's offset added, in
/// millionths, is clamped to the limits, and is then carried by `deform` where the layer is bound to a bone. A layer
/// that holds no drawing shows no strokes.
///
/// # Errors
///
/// [`NoMemory`] alone, and only with a drawing.
pub fn layer_strokes(
    alloc: Global,
    drawing: Option<&Drawing>,
    offset: V3,
    deform: Option<&Xform>,
) -> Result<Strokes, NoMemory>
    ensures strokes { IfOk result (λ new. new ≡ layer_strokes (option_copied drawing.entry) offset (option_copied deform.entry)) }
    ensures without_drawing { IfNone (option_copied drawing.entry) (result ≡ Ok []) }
{
    match drawing {
        Some(drawing) => strokes_under(alloc, &drawing.strokes, &layer_change(offset, deform)),
        None => Ok(List::new(alloc)),
    }
}

fn layer_change(offset: V3, deform: Option<&Xform>) -> PointMap
    ensures { result ≡ layer_change offset (option_copied deform.entry) }
{
    match deform {
        Some(transform) => PointMap::Deform {
            offset,
            transform: *transform,
        },
        None => PointMap::Translation { offset },
    }
}

fn strokes_under(alloc: Global, strokes: &Strokes, change: &PointMap) -> Result<Strokes, NoMemory>
    ensures { IfOk result (λ new. new ≡ map_points (point_under change.now) strokes.now) }
{
    let mut new = Vec::with_capacity(alloc, strokes.len())?;
    for index in 0..strokes.len() {
        let points = points_under(alloc, strokes.get(index).points.as_slice(), change)?;
        new.push_reserved(Stroke {
            points: List::from(points),
        });
    }
    Ok(List::from(new))
}
