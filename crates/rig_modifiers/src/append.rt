//! Strokes added at the end of others, each with memory of its own.
ghost use Rattle.std.specs.Prelude.{◌≡◌, ◌++◌, IfOk, OnOk, OnErr};
ghost use Rattle.rig_points.specs.Change.{point_under};
ghost use Rattle.rig_scene.specs.Layer.{map_points};
ghost use Rattle.rig_modifiers.specs.Partly.{AddsFewer};

use rig_io::{List, NoMemory};
use rig_points::{PointMap, change_points};
use rig_scene::Stroke;
use std::alloc::Global;

/// Adds strokes with each point changed, whether or not it is near 0.
///
/// After an error the list is as it was, with the first few of the strokes added.
pub(crate) fn append_changed(
    alloc: Global,
    new: &mut Vec<Stroke>,
    strokes: &[Stroke],
    change: &PointMap,
) -> Result<(), NoMemory>
    ensures ok { OnOk result (new.new.items ≡ new.old.items ++ map_points (point_under change.now) strokes.now) }
    ensures err { OnErr result (AddsFewer (map_points (point_under change.now) strokes.now) new.old.items new.new.items) }
{
    for stroke in strokes {
        let mut points = Vec::from_slice(alloc, stroke.points.as_slice())?;
        change_points(&mut points, change);
        new.push(Stroke {
            points: List::from(points),
        })?;
    }
    Ok(())
}

/// Adds strokes as they are.
///
/// After an error the list is as it was, with the first few of the strokes added.
pub(crate) fn append_copies(new: &mut Vec<Stroke>, strokes: &[Stroke]) -> Result<(), NoMemory>
    ensures ok { OnOk result (new.new.items ≡ new.old.items ++ strokes.now) }
    ensures err { OnErr result (AddsFewer strokes.now new.old.items new.new.items) }
{
    for stroke in strokes {
        let copy = copy_of(stroke)?;
        new.push(copy)?;
    }
    Ok(())
}

fn copy_of(stroke: &Stroke) -> Result<Stroke, NoMemory>
    ensures { IfOk result (λ copy. copy ≡ stroke.now) }
{
    Ok(stroke.clone()?)
}
