//! What is done to each point, as data, and the change of points in place, each coordinate clamped.
ghost use Rattle.std.specs.Prelude.{◌≡◌, pos, ◌*ℤ◌, ◌≤ℤ◌, map, IfOk};
ghost use Rattle.rig_fixed.specs.Fixed.{lowest, highest};
ghost use Rattle.rig_fixed.specs.Transform.{carry};
ghost use Rattle.rig_fixed.specs.Vector.{v3_sum, v3_multiple};
ghost use Rattle.rig_points.specs.Change.{reflection, reflection_if, reflection_over, point_under};

use crate::near::NearPoints;
use crate::shift::Shift;
use rig_fixed::{Fx, V3, Xform};
use rig_io::NoMemory;
use std::alloc::Global;

/// The axes along which points are reflected.
#[derive(Clone, Copy, Debug, PartialEq, Eq)]
pub struct Axes {
    pub x: bool,
    pub y: bool,
    pub z: bool,
}

/// What is done to a point. Each coordinate is in millionths, and is clamped to the limits after each step.
#[derive(Clone, Copy, Debug, PartialEq, Eq)]
pub enum PointMap {
    /// An offset is added.
    Translation { offset: V3 },
    /// An offset is added, and the point is then carried by a transform.
    Deform { offset: V3, transform: Xform },
    /// The point is scaled about 0, by a factor in millionths, and an offset is then added.
    Scaling { scale: Fx, offset: V3 },
    /// The coordinate `c` of each of some axes becomes `2 * centre - c`.
    Reflection { axes: Axes, centre: V3 },
}

/// The points under a change, in their order, in memory of their own that is allocated once.
///
/// Whether the points are near 0 is tested where that saves clamps. Where the same points are changed many times,
/// [`NearPoints`] and [`Shift`] test it once.
///
/// # Errors
///
/// [`NoMemory`] alone.
pub fn points_under(alloc: Global, points: &[V3], change: &PointMap) -> Result<Vec<V3>, NoMemory>
    ensures { IfOk result (λ new. new.items ≡ map (point_under change.now) points.now) }
{
    match Shift::of(change) {
        Some(shift) => points_by_shift(alloc, points, &shift),
        None => clamped_points(alloc, points, change),
    }
}

fn points_by_shift(alloc: Global, points: &[V3], shift: &Shift<'_>) -> Result<Vec<V3>, NoMemory>
    ensures { IfOk result (λ new. new.items ≡ map (point_under shift.now) points.now) }
{
    match NearPoints::of(points) {
        Some(near) => shift.points_of(alloc, &near),
        None => clamped_points(alloc, points, shift.change()),
    }
}

fn clamped_points(alloc: Global, points: &[V3], change: &PointMap) -> Result<Vec<V3>, NoMemory>
    ensures { IfOk result (λ new. new.items ≡ map (point_under change.now) points.now) }
{
    let mut new = Vec::from_slice(alloc, points)?;
    change_points(&mut new, change);
    Ok(new)
}

/// Changes each point in place. No allocation.
pub fn change_points(points: &mut [V3], change: &PointMap)
    ensures { points.new ≡ map (point_under change.now) points.old }
{
    match change {
        PointMap::Translation { offset } => move_points(points, offset),
        PointMap::Deform { offset, transform } => deform_points(points, offset, transform),
        PointMap::Scaling { scale, offset } => scale_points(points, *scale, offset),
        PointMap::Reflection { axes, centre } => reflect_points(points, axes, centre),
    }
}

fn move_points(points: &mut [V3], offset: &V3)
    ensures { points.new ≡ map (λ p. v3_sum p offset.now) points.old }
{
    let (x, y, z) = (offset.x, offset.y, offset.z);
    for point in points.iter_mut() {
        *point = point.sum(V3 { x, y, z });
    }
}

// This loop and the next stay functions of their own: inlined, both were a tenth slower.
#[inline(never)]
fn deform_points(points: &mut [V3], offset: &V3, transform: &Xform)
    ensures { points.new ≡ map (λ p. carry transform.now (v3_sum p offset.now)) points.old }
{
    for point in points.iter_mut() {
        *point = transform.carry(point.sum(*offset));
    }
}

#[inline(never)]
fn scale_points(points: &mut [V3], scale: Fx, offset: &V3)
    ensures { points.new ≡ map (λ p. v3_sum (v3_multiple scale p) offset.now) points.old }
{
    let (x, y, z) = (offset.x, offset.y, offset.z);
    for point in points.iter_mut() {
        *point = point.multiple(scale).sum(V3 { x, y, z });
    }
}

fn reflect_points(points: &mut [V3], axes: &Axes, centre: &V3)
    ensures { points.new ≡ map (reflection_over axes.now centre.now) points.old }
{
    for point in points.iter_mut() {
        *point = reflection_over(point, axes, centre);
    }
}

fn reflection_over(point: &V3, axes: &Axes, centre: &V3) -> V3
    ensures { result ≡ reflection_over axes.now centre.now point.now }
{
    V3 {
        x: reflection_if(axes.x, centre.x, point.x),
        y: reflection_if(axes.y, centre.y, point.y),
        z: reflection_if(axes.z, centre.z, point.z),
    }
}

fn reflection_if(on: bool, centre: Fx, coordinate: Fx) -> Fx
    ensures { result ≡ reflection_if on centre coordinate }
{
    if on {
        reflection(centre, coordinate)
    } else {
        coordinate
    }
}

/// A coordinate on the other side of a centre.
fn reflection(centre: Fx, coordinate: Fx) -> Fx
    ensures { result ≡ reflection centre coordinate }
{
    Fx::of_i64(double_of(centre) - coordinate.get())
}

/// Twice a number. It may be beyond the limits.
pub(crate) fn double_of(number: Fx) -> i64
    ensures value { result ≡ pos 2 *ℤ number }
    ensures within { ((pos 2 *ℤ lowest) ≤ℤ result) × (result ≤ℤ (pos 2 *ℤ highest)) }
{
    2 * number.get()
}
