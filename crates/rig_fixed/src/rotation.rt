//! Rotations: those of four numbers of any length, products of two, and where they take a point.
ghost use Rattle.std.specs.Prelude.{◌≡◌, ◌≤◌, ◌+ℤ◌, ◌-ℤ◌, ◌*ℤ◌, unsigned_abs};
ghost use Rattle.rig_fixed.specs.Fixed.{clamp, IsWithinLimits};
ghost use Rattle.rig_fixed.specs.Rotation.{IsWithinUnit, turn, rotate, unit_rotation, normal, quaternion_product, product, conjugate};
ghost use Rattle.rig_fixed.specs.Bounds.{product_bound, component_bound, once_bound, twice_bound, turn_bound};

use crate::fixed::{Fx, UNIT};
use crate::number::twice_over_unit_square;
use crate::quaternion::{Quaternion, length_of, over_length, reciprocal_of};
use crate::vector::V3;
use std::marker::Model;

/// The four numbers of a rotation as they were given, of any length, in millionths.
#[derive(Clone, Copy, Debug, PartialEq, Eq, Hash)]
pub struct Raw {
    pub w: Fx,
    pub x: Fx,
    pub y: Fx,
    pub z: Fx,
}

/// A rotation as a unit quaternion, rounded to millionths: each component is within 1,000,001 of 0.
/// Contracts see it as its four numbers.
#[derive(Clone, Copy, Debug, PartialEq, Eq, Hash)]
pub struct Quat {
    pub w: i64,
    pub x: i64,
    pub y: i64,
    pub z: i64,
}

impl Model for Quat {
    ghost use Rattle.rig_fixed.specs.Rotation.{Rotation, IsWithinUnit};

    ghost Value = { Rotation };

    ghost view = { λ q. record { w = q.w; x = q.x; y = q.y; z = q.z } };

    ghost invariant = { λ q. IsWithinUnit q.w × IsWithinUnit q.x × IsWithinUnit q.y × IsWithinUnit q.z };

    ghost inverse = { λ q. record { w = q.w; x = q.x; y = q.y; z = q.z } };
}

impl Quat {
    /// The rotation that turns nothing.
    pub const IDENTITY: Quat = Quat {
        w: UNIT,
        x: 0,
        y: 0,
        z: 0,
    };

    /// The rotation of four numbers of any length. Four zeros turn nothing.
    pub fn normal(raw: Raw) -> Quat
        ensures { result ≡ normal raw }
    {
        unit_rotation(Quaternion {
            w: raw.w.get(),
            x: raw.x.get(),
            y: raw.y.get(),
            z: raw.z.get(),
        })
    }

    /// The rotation that turns by `other`, and then by this one: Hamilton's product, brought to the length of one unit.
    pub fn product(self, other: Quat) -> Quat
        ensures { result ≡ product self other }
    {
        unit_rotation(quaternion_product(self, other))
    }
}

/// A quaternion brought to the length of one unit.
fn unit_rotation(q: Quaternion) -> Quat
    ensures { result ≡ unit_rotation q }
{
    if q.w > 0 && q.x == 0 && q.y == 0 && q.z == 0 {
        Quat::IDENTITY
    } else {
        quotient_by_length(q)
    }
}

/// [`unit_rotation`], whatever the quaternion.
fn quotient_by_length(q: Quaternion) -> Quat
    ensures { result ≡ unit_rotation q }
{
    let length = length_of(q);
    if length == 0 {
        return Quat::IDENTITY;
    }
    let reciprocal = reciprocal_of(length);
    Quat {
        w: over_length(q.w, length, reciprocal),
        x: over_length(q.x, length, reciprocal),
        y: over_length(q.y, length, reciprocal),
        z: over_length(q.z, length, reciprocal),
    }
}

/// A product of two components of rotations.
fn component_product(a: i64, b: i64) -> i64
    requires a_within { IsWithinUnit a }
    requires b_within { IsWithinUnit b }
    ensures value { result ≡ a *ℤ b }
    ensures within { unsigned_abs result ≤ product_bound }
{
    a * b
}

/// The sum of the products of like components.
fn dot(p: Quat, q: Quat) -> i64
    ensures value { result ≡ p.w *ℤ q.w +ℤ p.x *ℤ q.x +ℤ p.y *ℤ q.y +ℤ p.z *ℤ q.z }
    ensures within { unsigned_abs result ≤ component_bound }
{
    component_product(p.w, q.w)
        + component_product(p.x, q.x)
        + component_product(p.y, q.y)
        + component_product(p.z, q.z)
}

/// Hamilton's product. Each component is a sum of products of `p`'s components with those of `q` in another order, some of
/// them negative.
fn quaternion_product(p: Quat, q: Quat) -> Quaternion
    ensures { result ≡ quaternion_product p q }
{
    let Quat { w, x, y, z } = q;
    let back = conjugate(q);
    let for_x = Quat {
        w: x,
        x: w,
        y: z,
        z: back.y,
    };
    let for_y = Quat {
        w: y,
        x: back.z,
        y: w,
        z: x,
    };
    let for_z = Quat {
        w: z,
        x: y,
        y: back.x,
        z: w,
    };
    Quaternion {
        w: dot(p, back),
        x: dot(p, for_x),
        y: dot(p, for_y),
        z: dot(p, for_z),
    }
}

/// The rotation back.
pub(crate) fn conjugate(q: Quat) -> Quat
    ensures { result ≡ conjugate q }
{
    Quat {
        w: q.w,
        x: -q.x,
        y: -q.y,
        z: -q.z,
    }
}

/// `a b - c d`, where `a` and `c` are components of a rotation, and `b` and `d` coordinates.
fn determinant(a: i64, b: i64, c: i64, d: i64) -> i64
    requires a_within { IsWithinUnit a }
    requires b_within { IsWithinLimits b }
    requires c_within { IsWithinUnit c }
    requires d_within { IsWithinLimits d }
    ensures value { result ≡ a *ℤ b -ℤ c *ℤ d }
    ensures within { unsigned_abs result ≤ once_bound }
{
    a * b - c * d
}

/// `a b - c d`, where `a` and `c` are components of a rotation, and `b` and `d` such differences.
fn wide_determinant(a: i64, b: i64, c: i64, d: i64) -> i128
    requires a_within { IsWithinUnit a }
    requires b_within { unsigned_abs b ≤ once_bound }
    requires c_within { IsWithinUnit c }
    requires d_within { unsigned_abs d ≤ once_bound }
    ensures value { result ≡ a *ℤ b -ℤ c *ℤ d }
    ensures within { unsigned_abs result ≤ twice_bound }
{
    a as i128 * b as i128 - c as i128 * d as i128
}

/// How far a coordinate moves in a rotation of the scalar part `w`, where `once` and `twice` are the coordinates
/// of one and of two cross products of the axis with the point.
fn turn(w: i64, once: i64, twice: i128) -> i64
    requires w_within { IsWithinUnit w }
    requires once_within { unsigned_abs once ≤ once_bound }
    requires twice_within { unsigned_abs twice ≤ twice_bound }
    ensures value { result ≡ turn w once twice }
    ensures within { unsigned_abs result ≤ turn_bound }
{
    twice_over_unit_square(w as i128 * once as i128 + twice)
}

/// A coordinate after a turn.
fn coordinate_after(coordinate: Fx, turn: i64) -> Fx
    requires { unsigned_abs turn ≤ turn_bound }
    ensures { result ≡ clamp (coordinate +ℤ turn) }
{
    Fx::of_i64(coordinate.get() + turn)
}

/// The point `v`, turned about 0 by `q`.
pub fn rotate(q: Quat, v: V3) -> V3
    ensures { result ≡ rotate q v }
{
    if q.x == 0 && q.y == 0 && q.z == 0 {
        v
    } else {
        rotate_about_axis(q, v)
    }
}

/// [`rotate`], whatever the rotation.
fn rotate_about_axis(q: Quat, v: V3) -> V3
    ensures { result ≡ rotate q v }
{
    let (x, y, z) = (v.x.get(), v.y.get(), v.z.get());
    let once_x = determinant(q.y, z, q.z, y);
    let once_y = determinant(q.z, x, q.x, z);
    let once_z = determinant(q.x, y, q.y, x);
    let twice_x = wide_determinant(q.y, once_z, q.z, once_y);
    let twice_y = wide_determinant(q.z, once_x, q.x, once_z);
    let twice_z = wide_determinant(q.x, once_y, q.y, once_x);
    V3 {
        x: coordinate_after(v.x, turn(q.w, once_x, twice_x)),
        y: coordinate_after(v.y, turn(q.w, once_y, twice_y)),
        z: coordinate_after(v.z, turn(q.w, once_z, twice_z)),
    }
}

#[cfg(test)]
mod tests {
    use super::*;

    #[test]
    fn rotations_have_the_length_of_one_unit(rt: HostRuntime) {
        for (given, normal) in [
            ((0, 0, 0, 3), (0, 0, 0, 1_000_000)),
            ((7, 0, 0, 0), (1_000_000, 0, 0, 0)),
            ((0, 0, 0, 0), (1_000_000, 0, 0, 0)),
        ] {
            let (w, x, y, z) = given;
            let [w, x, y, z] = [Fx::of(w), Fx::of(x), Fx::of(y), Fx::of(z)];
            let q = Quat::normal(Raw { w, x, y, z });
            assert_eq!(rt; (q.w, q.x, q.y, q.z), normal);
        }
    }
}
