//! Quaternions of any length: their lengths, and their components over that length. A division by the length is guessed by
//! one reciprocal for all four components, and a guess that is right takes no division.
ghost use Rattle.std.specs.Prelude.{◌≡◌, ◌*◌, ◌≤◌, ◌<ℤ◌, ◌≤ℤ◌, pos, ◌*ℤ◌, unsigned_abs};
ghost use Rattle.rig_fixed.specs.Number.{rdiv};
ghost use Rattle.rig_fixed.specs.Rotation.{IsWithinUnit, unit_square, square_of, length_of};
ghost use Rattle.rig_fixed.specs.Bounds.{IsWithinProduct, square_bound, squares_bound, length_bound, reciprocal_bound};

use crate::number::{isqrt, rdiv_by_guess};
use std::marker::Model;

/// A million times a million: the square of one whole unit.
const UNIT_SQUARE: i128 = 1_000_000_000_000;

/// A quaternion of any length: each component is within 4,000,008,000,004 of 0, as those of a product of two rotations.
/// Contracts see it as its four numbers.
#[derive(Clone, Copy)]
pub(crate) struct Quaternion {
    pub w: i64,
    pub x: i64,
    pub y: i64,
    pub z: i64,
}

impl Model for Quaternion {
    ghost use Rattle.rig_fixed.specs.Rotation.{Rotation};
    ghost use Rattle.rig_fixed.specs.Bounds.{IsWithinProduct};

    ghost Value = { Rotation };

    ghost view = { λ q. record { w = q.w; x = q.x; y = q.y; z = q.z } };

    ghost invariant = { λ q. IsWithinProduct q.w × IsWithinProduct q.x × IsWithinProduct q.y × IsWithinProduct q.z };

    ghost inverse = { λ q. record { w = q.w; x = q.x; y = q.y; z = q.z } };
}

/// The square of a component.
fn square(a: i64) -> i128
    requires { IsWithinProduct a }
    ensures value { result ≡ a *ℤ a }
    ensures within { unsigned_abs result ≤ square_bound }
{
    a as i128 * a as i128
}

/// The sum of the squares of the four components.
fn square_of(q: Quaternion) -> i128
    ensures value { result ≡ square_of q }
    ensures within { unsigned_abs result ≤ squares_bound }
{
    square(q.w) + square(q.x) + square(q.y) + square(q.z)
}

/// A million times the length of a quaternion, rounded down.
pub(crate) fn length_of(q: Quaternion) -> i128
    ensures value { result ≡ length_of q }
    ensures not_negative { pos 0 ≤ℤ result }
    ensures within { unsigned_abs result ≤ length_bound }
    ensures w_part { unsigned_abs q.w * 1000000 ≤ unsigned_abs result }
    ensures x_part { unsigned_abs q.x * 1000000 ≤ unsigned_abs result }
    ensures y_part { unsigned_abs q.y * 1000000 ≤ unsigned_abs result }
    ensures z_part { unsigned_abs q.z * 1000000 ≤ unsigned_abs result }
{
    isqrt((square_of(q) * UNIT_SQUARE).unsigned_abs()) as i128
}

/// About `2^63 / (length >> shift)`, where that is of at most 32 binary digits.
#[derive(Clone, Copy)]
pub(crate) struct Reciprocal {
    shift: u32,
    value: u64,
    ghost bounded_shift: { shift ≤ 32 },
    ghost bounded_value: { value ≤ reciprocal_bound },
}

/// The reciprocal of a length.
pub(crate) fn reciprocal_of(length: i128) -> Reciprocal
    requires positive { pos 0 <ℤ length }
    requires length { unsigned_abs length ≤ length_bound }
{
    let length = length as u64;
    let shift = 32 - length.leading_zeros().min(32);
    Reciprocal {
        shift,
        value: (1 << 63) / (length >> shift).max(1),
    }
}

/// A number near to a component over the length of a reciprocal, in millionths.
fn quotient_guess(component: i64, reciprocal: Reciprocal) -> i64
    requires { IsWithinProduct component }
{
    let dividend = (component as i128 * UNIT_SQUARE) >> reciprocal.shift;
    let dividend = dividend.clamp(-1_000_000_000_000_000_000, 1_000_000_000_000_000_000) as i64;
    over_2_63(dividend, reciprocal.value)
}

/// A product over 2^63, rounded to the nearest.
fn over_2_63(a: i64, b: u64) -> i64
    requires a { unsigned_abs a ≤ 1000000000000000000 }
    requires b { b ≤ reciprocal_bound }
{
    ((a as i128 * b as i128 + (1 << 62)) >> 63) as i64
}

/// One of four components over their length, in millionths.
pub(crate) fn over_length(component: i64, length: i128, reciprocal: Reciprocal) -> i64
    requires component { IsWithinProduct component }
    requires positive { pos 0 <ℤ length }
    requires length { unsigned_abs length ≤ length_bound }
    requires part { unsigned_abs component * 1000000 ≤ unsigned_abs length }
    ensures value { result ≡ rdiv (component *ℤ unit_square) length }
    ensures within { IsWithinUnit result }
{
    quotient_over_length(component, length, quotient_guess(component, reciprocal)) as i64
}

/// One of four components over a length, in millionths, where a guess is given.
fn quotient_over_length(component: i64, length: i128, guess: i64) -> i128
    requires component { IsWithinProduct component }
    requires positive { pos 0 <ℤ length }
    requires length { unsigned_abs length ≤ length_bound }
    ensures { result ≡ rdiv (component *ℤ unit_square) length }
{
    rdiv_by_guess(component as i128 * UNIT_SQUARE, length, guess)
}
