//! Points so near 0 that a shift of them needs no clamp, as a type that only the test of them makes.
ghost use Rattle.std.specs.Prelude.{◌≡◌, ◌<◌, ◌^◌, ◌↔◌, IsTrue, IsSome, IfSome};
ghost use Rattle.rig_points.specs.Near.{IsNear, IsNearPoint, AreNear};

use rig_fixed::{Fx, V3};
use std::marker::Model;

/// Coordinates from `-NEAR` to below `NEAR`, in millionths, are near 0.
pub(crate) const NEAR: i64 = 1 << 39;

/// Points all of whose coordinates are near 0: from -549,755.813888 units to below 549,755.813888, which is 2^39
/// millionths. Contracts see the list of the points.
#[derive(Debug, Drop)]
pub struct NearPoints<'a> {
    points: &'a [V3],
}

impl<'a> Model for NearPoints<'a> {
    ghost use Rattle.std.specs.Prelude.{List};
    ghost use Rattle.rig_fixed.specs.declared.vector.V3.{V3};
    ghost use Rattle.rig_points.specs.Near.{AreNear};

    ghost Value = { List V3 };

    ghost view = { λ a. a.points.now };

    ghost invariant = { λ a. AreNear a.points.now };
}

impl<'a> NearPoints<'a> {
    /// The points, if all of them are near 0. No allocation.
    pub fn of(points: &'a [V3]) -> Option<NearPoints<'a>>
        ensures near { IsSome result ↔ AreNear points.now }
        ensures points { IfSome result (λ near. near ≡ points.now) }
    {
        if are_near(points) {
            Some(NearPoints { points })
        } else {
            None
        }
    }

    /// The points, which the caller guarantees to be near 0: nothing is tested.
    pub fn new(points: &'a [V3]) -> NearPoints<'a>
        requires { AreNear points.now }
        ensures { result ≡ points.now }
    {
        NearPoints { points }
    }

    /// The points.
    pub fn as_slice(&self) -> &'a [V3]
        ensures value { result.now ≡ self.now }
        ensures near { AreNear self.now }
    {
        self.points
    }
}

// The bitwise or of several numbers is below 2^40 exactly where each of them is.
fn are_near(points: &[V3]) -> bool
    ensures { IsTrue result ↔ AreNear points.now }
{
    let mut bits = 0;
    for point in points {
        bits |= raised_point(point);
    }
    bits < 1 << 40
}

fn raised_point(point: &V3) -> u64
    ensures { (result < 2 ^ 40) ↔ IsNearPoint point.now }
{
    raised_coordinate(point.x) | raised_coordinate(point.y) | raised_coordinate(point.z)
}

// A near coordinate plus 2^39 is from 0 to below 2^40. No other sum is, as a negative one is large without its sign.
fn raised_coordinate(coordinate: Fx) -> u64
    ensures { (result < 2 ^ 40) ↔ IsNear coordinate }
{
    (coordinate.get() + NEAR).cast_unsigned()
}
