//! What a modifier makes of strokes.
ghost use Rattle.std.specs.Prelude.{◌≡◌, IfOk, unwrap_or};
ghost use Rattle.rig_scene.specs.Modify.{effect_strokes, offset_strokes, modify};
ghost use Rattle.rig_modifiers.specs.Few.{if_few};

use crate::append::append_changed;
use crate::array::array_strokes;
use crate::count::{copies, is_within, room_for};
use crate::mirror::mirror_strokes;
use rig_fixed::{Fx, V3};
use rig_io::{List, NoMemory};
use rig_points::PointMap;
use rig_scene::{Effect, Stroke, Strokes};
use std::alloc::Global;

/// Strokes under an effect, with memory of their own, each coordinate in millionths. `centre` is the point at which a
/// mirror reflects. Where the result would have more than
/// [`MAX_RESULT_POINTS`](rig_scene::limits::MAX_RESULT_POINTS) points, it is the strokes as they are.
///
/// # Errors
///
/// [`NoMemory`] alone.
pub fn modify(
    alloc: Global,
    effect: &Effect,
    strokes: &Strokes,
    centre: V3,
) -> Result<Strokes, NoMemory>
    ensures { IfOk result (λ new. new ≡ modify effect.now centre strokes.now) }
{
    match modify_if_few(alloc, effect, strokes, centre)? {
        Some(new) => Ok(new),
        None => copy_of(strokes),
    }
}

/// The same, for who has the strokes to show already: `None` comes exactly where the result would have more than
/// [`MAX_RESULT_POINTS`](rig_scene::limits::MAX_RESULT_POINTS) points, and nothing is copied then.
///
/// # Errors
///
/// [`NoMemory`] alone.
pub fn modify_if_few(
    alloc: Global,
    effect: &Effect,
    strokes: &Strokes,
    centre: V3,
) -> Result<Option<Strokes>, NoMemory>
    ensures few { IfOk result (λ new. new ≡ if_few (effect_strokes effect.now centre strokes.now)) }
    ensures modified { IfOk result (λ new. unwrap_or new strokes.now ≡ modify effect.now centre strokes.now) }
{
    if !is_within(strokes.as_slice(), copies(effect)) {
        return Ok(None);
    }
    let new = effect_strokes(alloc, effect, strokes.as_slice(), &centre)?;
    Ok(Some(new))
}

fn effect_strokes(
    alloc: Global,
    effect: &Effect,
    strokes: &[Stroke],
    centre: &V3,
) -> Result<Strokes, NoMemory>
    ensures { IfOk result (λ new. new ≡ effect_strokes effect.now centre.now strokes.now) }
{
    match effect {
        Effect::Offset { loc, scale } => offset_strokes(alloc, strokes, *scale, loc),
        Effect::Mirror(mirror) => mirror_strokes(alloc, strokes, mirror, centre),
        Effect::Array { count, offset } => array_strokes(alloc, strokes, *count, offset),
    }
}

fn offset_strokes(
    alloc: Global,
    strokes: &[Stroke],
    scale: Fx,
    loc: &V3,
) -> Result<Strokes, NoMemory>
    ensures { IfOk result (λ new. new ≡ offset_strokes loc.now scale strokes.now) }
{
    let change = PointMap::Scaling {
        scale,
        offset: *loc,
    };
    let mut new = room_for(alloc, strokes, 1)?;
    append_changed(alloc, &mut new, strokes, &change)?;
    Ok(List::from(new))
}

fn copy_of(strokes: &Strokes) -> Result<Strokes, NoMemory>
    ensures { IfOk result (λ copy. copy ≡ strokes.now) }
{
    Ok(strokes.clone()?)
}
