//! The strokes of an array (Blender Manual, Grease Pencil, Array Modifier).
ghost use Rattle.std.specs.Prelude.{◌≡◌, IfOk, pos, ◌*ℤ◌};
ghost use Rattle.rig_fixed.specs.Fixed.{clamp};
ghost use Rattle.rig_scene.specs.Modify.{times, array_strokes};

use crate::append::append_copies;
use crate::count::{array_copies, room_for};
use crate::source::SourceStrokes;
use rig_fixed::{Fx, V3};
use rig_io::{List, NoMemory};
use rig_points::PointMap;
use rig_scene::{Stroke, Strokes};
use std::alloc::Global;

/// Strokes, and copies up to a count in all, each moved by one more offset.
pub(crate) fn array_strokes(
    alloc: Global,
    strokes: &[Stroke],
    count: u32,
    offset: &V3,
) -> Result<Strokes, NoMemory>
    ensures { IfOk result (λ new. new ≡ array_strokes count offset.now strokes.now) }
{
    let source = SourceStrokes::new(strokes);
    let mut new = room_for(alloc, strokes, array_copies(count))?;
    append_copies(&mut new, strokes)?;
    for k in 1..count {
        let change = PointMap::Translation {
            offset: times(k, offset),
        };
        source.append(alloc, &mut new, &change)?;
    }
    Ok(List::from(new))
}

// An offset so many times.
fn times(k: u32, offset: &V3) -> V3
    ensures { result ≡ times k offset.now }
{
    V3 {
        x: multiple(k, offset.x),
        y: multiple(k, offset.y),
        z: multiple(k, offset.z),
    }
}

fn multiple(k: u32, coordinate: Fx) -> Fx
    ensures { result ≡ clamp (pos k *ℤ coordinate) }
{
    Fx::of(k as i128 * coordinate.get() as i128)
}
