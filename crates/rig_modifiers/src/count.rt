//! How many points an effect would make, counted before it makes any, and the room for its strokes.
ghost use Rattle.std.specs.Prelude.{◌≡◌, ◌*◌, ◌<◌, ◌≤◌, ◌↔◌, [], IsTrue, IfOk, IfSome, IfNone};
ghost use Rattle.rig_scene.specs.Layer.{stroke_points};
ghost use Rattle.rig_modifiers.specs.Copies.{sides_on, mirror_copies, array_copies, copies};

use rig_io::NoMemory;
use rig_scene::limits::MAX_RESULT_POINTS;
use rig_scene::{Effect, Mirror, Stroke};
use std::alloc::Global;

/// How often an effect has each point that it is given, in its result.
pub(crate) fn copies(effect: &Effect) -> u32
    ensures value { result ≡ copies effect.now }
    ensures positive { 0 < result }
{
    match effect {
        Effect::Offset { loc: _, scale: _ } => 1,
        Effect::Mirror(mirror) => mirror_copies(mirror),
        Effect::Array { count, offset: _ } => array_copies(*count),
    }
}

/// 1, doubled for each axis of a mirror that is on.
pub(crate) fn mirror_copies(mirror: &Mirror) -> u32
    ensures value { result ≡ mirror_copies mirror.now }
    ensures positive { 0 < result }
{
    sides_on(mirror.x) * sides_on(mirror.y) * sides_on(mirror.z)
}

fn sides_on(on: bool) -> u32
    ensures value { result ≡ sides_on on }
    ensures positive { 0 < result }
    ensures within { result ≤ 2 }
{
    if on { 2 } else { 1 }
}

/// The copies of an array: a count of 0 leaves the strokes once.
pub(crate) fn array_copies(count: u32) -> u32
    ensures value { result ≡ array_copies count }
    ensures positive { 0 < result }
{
    count.max(1)
}

/// Whether so many copies of strokes have no more points than one object may show.
pub(crate) fn is_within(strokes: &[Stroke], copies: u32) -> bool
    requires { 0 < copies }
    ensures { IsTrue result ↔ (copies * stroke_points strokes.now ≤ MAX_RESULT_POINTS) }
{
    match point_count(strokes) {
        Some(points) => copies as u64 * points as u64 <= MAX_RESULT_POINTS as u64,
        None => false,
    }
}

// The number of the points of strokes. None comes where they are more than one object may show.
fn point_count(strokes: &[Stroke]) -> Option<usize>
    ensures few { IfSome result (λ n. (n ≡ stroke_points strokes.now) × (n ≤ MAX_RESULT_POINTS)) }
    ensures many { IfNone result (MAX_RESULT_POINTS < stroke_points strokes.now) }
{
    let mut count = 0;
    for stroke in strokes {
        let points = stroke.points.len();
        if points > MAX_RESULT_POINTS - count {
            return None;
        }
        count += points;
    }
    Some(count)
}

/// An empty list with room for so many copies of strokes.
pub(crate) fn room_for(
    alloc: Global,
    strokes: &[Stroke],
    copies: u32,
) -> Result<Vec<Stroke>, NoMemory>
    ensures { IfOk result (λ room. room.items ≡ []) }
{
    Ok(Vec::with_capacity(alloc, strokes.len().saturating_mul(copies as usize))?)
}
