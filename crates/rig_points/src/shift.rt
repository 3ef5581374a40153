//! Changes of near points for which no clamp is needed.
//!
//! Each coordinate is changed by the same two steps, whatever the change is, and two points at a time: a compiler can
//! take two coordinates at once then.
ghost use Rattle.std.specs.Prelude.{◌≡◌, ◌↔◌, ◌+ℤ◌, All, map, IfOk, IsSome, IfSome};
ghost use Rattle.rig_fixed.specs.Fixed.{clamp, IsWithinLimits};
ghost use Rattle.rig_fixed.specs.Vector.{v3_sum};
ghost use Rattle.rig_points.specs.Change.{reflection_if, reflection_over, point_under};
ghost use Rattle.rig_points.specs.Reach.{IsWithinReach, MovesWithinReach, ReflectsIfOn, ReflectsWithinReach, NeedsNoClamp};
ghost use Rattle.rig_points.specs.Shift.{value_on, line_x, line_y, line_z, point_on, IsWithin, LineGives, LinesGive};

use crate::change::{Axes, PointMap, double_of};
use crate::near::{NEAR, NearPoints};
use rig_fixed::{Fx, LIMIT, V3};
use rig_io::NoMemory;
use std::alloc::Global;
use std::marker::Model;

/// How far a near coordinate can be moved without a clamp, in millionths.
const REACH: i64 = LIMIT - NEAR;

/// A coordinate `c` becomes `(c ^ mask) + by`. With a mask of 0 that is a sum. With -1, all of whose bits are set, it
/// is a difference, as `c ^ -1` is `-1 - c`.
#[derive(Clone, Copy, Debug)]
pub(crate) struct Line {
    mask: i64,
    by: i64,
}

/// A line for each coordinate of a point. The masks lie side by side, and so do the numbers that are added, so that a
/// compiler can load them for two coordinates at once.
#[derive(Clone, Copy, Debug)]
pub(crate) struct Lines {
    masks: Triple,
    moves: Triple,
}

#[derive(Clone, Copy, Debug)]
struct Triple {
    x: i64,
    y: i64,
    z: i64,
}

/// A change that takes no near point beyond the limits, prepared for many points. Contracts see the change.
#[derive(Debug, Drop)]
pub struct Shift<'a> {
    change: &'a PointMap,
    lines: Lines,
}

impl<'a> Model for Shift<'a> {
    ghost use Rattle.rig_points.specs.Change.{point_under};
    ghost use Rattle.rig_points.specs.Shift.{LinesGive};
    ghost use Rattle.rig_points.specs.declared.change.PointMap.{PointMap};

    ghost Value = { PointMap };

    ghost view = { λ a. a.change.now };

    ghost invariant = { λ a. LinesGive (point_under a.change.now) a.lines };
}

impl<'a> Shift<'a> {
    /// The change as a shift. None comes exactly where it is a deform or a scaling, or takes coordinates further than
    /// 450,244.186112 units, from where on it could take a near one beyond the limits. No allocation.
    pub fn of(change: &'a PointMap) -> Option<Shift<'a>>
        ensures change { IfSome result (λ shift. shift ≡ change.now) }
        ensures within { IsSome result ↔ NeedsNoClamp change.now }
    {
        let lines = lines_of(change)?;
        Some(Shift { change, lines })
    }

    /// The change.
    pub fn change(&self) -> &'a PointMap
        ensures { result.now ≡ self.now }
    {
        self.change
    }

    /// Near points under the change, in their order, in memory of their own that is allocated once.
    ///
    /// # Errors
    ///
    /// [`NoMemory`] alone.
    // It isn't inlined into its caller, from which a compiler would learn what the masks can be: it would choose by
    // them then, a coordinate after the other, in place of changing two at once.
    #[inline(never)]
    pub fn points_of(&self, alloc: Global, points: &NearPoints<'_>) -> Result<Vec<V3>, NoMemory>
        ensures { IfOk result (λ new. new.items ≡ map (point_under self.now) points.now) }
    {
        points_on(alloc, points.as_slice(), &self.lines)
    }
}

fn lines_of(change: &PointMap) -> Option<Lines>
    ensures gives { IfSome result (LinesGive (point_under change.now)) }
    ensures within { IsSome result ↔ NeedsNoClamp change.now }
{
    match change {
        PointMap::Translation { offset } => lines_by(offset),
        PointMap::Reflection { axes, centre } => lines_over(axes, centre),
        PointMap::Deform { .. } | PointMap::Scaling { .. } => None,
    }
}

fn lines_by(offset: &V3) -> Option<Lines>
    ensures gives { IfSome result (LinesGive (λ p. v3_sum p offset.now)) }
    ensures within { IsSome result ↔ MovesWithinReach offset.now }
{
    let x = line_by(offset.x)?;
    let y = line_by(offset.y)?;
    let z = line_by(offset.z)?;
    Some(lines_from(&x, &y, &z))
}

fn lines_over(axes: &Axes, centre: &V3) -> Option<Lines>
    ensures gives { IfSome result (LinesGive (reflection_over axes.now centre.now)) }
    ensures within { IsSome result ↔ ReflectsWithinReach axes.now centre.now }
{
    let x = line_over(axes.x, centre.x)?;
    let y = line_over(axes.y, centre.y)?;
    let z = line_over(axes.z, centre.z)?;
    Some(lines_from(&x, &y, &z))
}

fn lines_from(x: &Line, y: &Line, z: &Line) -> Lines
    ensures { (line_x result ≡ x.now) × (line_y result ≡ y.now) × (line_z result ≡ z.now) }
{
    Lines {
        masks: Triple {
            x: x.mask,
            y: y.mask,
            z: z.mask,
        },
        moves: Triple {
            x: x.by,
            y: y.by,
            z: z.by,
        },
    }
}

fn line_by(offset: Fx) -> Option<Line>
    ensures gives { IfSome result (LineGives (λ c. clamp (c +ℤ offset))) }
    ensures within { IsSome result ↔ IsWithinReach offset }
{
    let by = offset.get();
    if -REACH <= by && by <= REACH {
        Some(Line { mask: 0, by })
    } else {
        None
    }
}

fn line_over(on: bool, centre: Fx) -> Option<Line>
    ensures gives { IfSome result (LineGives (reflection_if on centre)) }
    ensures within { IsSome result ↔ ReflectsIfOn on centre }
{
    if !on {
        return Some(Line { mask: 0, by: 0 });
    }
    let twice = double_of(centre);
    if -REACH <= twice && twice <= REACH {
        Some(Line {
            mask: -1,
            by: twice + 1,
        })
    } else {
        None
    }
}

fn points_on(alloc: Global, points: &[V3], lines: &Lines) -> Result<Vec<V3>, NoMemory>
    requires { All (λ p. IsWithin (point_on lines.now p)) points.now }
    ensures { IfOk result (λ new. new.items ≡ map (point_on lines.now) points.now) }
{
    let lines = *lines;
    let mut new = Vec::with_capacity(alloc, points.len())?;
    for pair in 0..points.len() / 2 {
        let first = point_on(&points[2 * pair], &lines);
        let second = point_on(&points[2 * pair + 1], &lines);
        new.push_reserved(first);
        new.push_reserved(second);
    }
    if points.len() % 2 == 1 {
        new.push_reserved(point_on(&points[points.len() - 1], &lines));
    }
    Ok(new)
}

fn point_on(point: &V3, lines: &Lines) -> V3
    requires { IsWithin (point_on lines.now point.now) }
    ensures { result ≡ point_on lines.now point.now }
{
    let Lines { masks, moves } = *lines;
    V3 {
        x: value_on(point.x, masks.x, moves.x),
        y: value_on(point.y, masks.y, moves.y),
        z: value_on(point.z, masks.z, moves.z),
    }
}

fn value_on(coordinate: Fx, mask: i64, by: i64) -> Fx
    requires { IsWithinLimits (value_on record { mask = mask; by = by } coordinate) }
    ensures { result ≡ value_on record { mask = mask; by = by } coordinate }
{
    Fx::new((coordinate.get() ^ mask) + by)
}
