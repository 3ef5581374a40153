//! Transforms: a location, a rotation and a uniform scale, one within the space of another, and the way back.
ghost use Rattle.std.specs.Prelude.{◌≡◌, pos, ◌*ℤ◌, ◌≤ℤ◌};
ghost use Rattle.rig_fixed.specs.Fixed.{unit};
ghost use Rattle.rig_fixed.specs.Number.{rdiv};
ghost use Rattle.rig_fixed.specs.Transform.{scale_within, inverse_scale, compose, inverse};

use crate::fixed::{Fx, UNIT};
use crate::number::rdiv_narrow;
use crate::rotation::{Quat, conjugate, rotate};
use crate::vector::V3;
use std::marker::Model;

/// A location, a rotation and a uniform scale, in millionths. The scale is at least 1.
/// Contracts see it as the three.
#[derive(Clone, Copy, Debug, PartialEq, Eq, Hash)]
pub struct Xform {
    pub loc: V3,
    pub rot: Quat,
    pub scale: Fx,
}

impl Model for Xform {
    ghost use Rattle.std.specs.Prelude.{pos, ◌≤ℤ◌};
    ghost use Rattle.rig_fixed.specs.Transform.{Transform};

    ghost Value = { Transform };

    ghost view = { λ a. record { loc = a.loc; rot = a.rot; scale = a.scale } };

    ghost invariant = { λ a. pos 1 ≤ℤ a.scale };

    ghost inverse = { λ t. record { loc = t.loc; rot = t.rot; scale = t.scale } };
}

impl Xform {
    ghost use Rattle.rig_fixed.specs.Transform.{identity, carry};

    /// The transform that changes nothing: at 0, without a rotation, of scale 1,000,000 millionths.
    pub fn identity() -> Xform
        ensures { result ≡ identity }
    {
        Xform {
            loc: V3::ZERO,
            rot: Quat::IDENTITY,
            scale: Fx::ONE,
        }
    }

    /// Where the transform takes the point `v`: scaled, then turned, then moved.
    pub fn carry(&self, v: V3) -> V3
        ensures { result ≡ carry self.now v }
    {
        self.loc.sum(rotate(self.rot, v.multiple(self.scale)))
    }
}

/// The transform `c`, within the space of `p`: located where `p` carries it, turned by its own rotation and then by that
/// of `p`, and of both scales multiplied, at least 1.
pub fn compose(p: &Xform, c: &Xform) -> Xform
    ensures { result ≡ compose p.now c.now }
{
    Xform {
        loc: p.carry(c.loc),
        rot: p.rot.product(c.rot),
        scale: scale_product(p.scale, c.scale),
    }
}

/// The transform back, as far as rounding lets it be: the rotation back, the scale back, at least 1, and the point that
/// they take the location of `x` to, on the other side of 0.
pub fn inverse(x: &Xform) -> Xform
    ensures { result ≡ inverse x.now }
{
    let rot = conjugate(x.rot);
    let scale = inverse_scale(x.scale);
    Xform {
        loc: rotate(rot, x.loc.multiple(scale)).negation(),
        rot,
        scale,
    }
}

/// A scale that was computed: within the limits, and at least 1.
fn scale_within(scale: i64) -> Fx
    ensures value { result ≡ scale_within scale }
    ensures at_least_1 { pos 1 ≤ℤ result }
{
    Fx::of_i64(scale.max(1))
}

/// The scale of a transform that is within another.
fn scale_product(parent: Fx, child: Fx) -> Fx
    ensures value { result ≡ scale_within (rdiv (parent *ℤ child) unit) }
    ensures at_least_1 { pos 1 ≤ℤ result }
{
    scale_within(parent.product(child))
}

/// The scale back.
fn inverse_scale(scale: Fx) -> Fx
    requires { pos 1 ≤ℤ scale }
    ensures value { result ≡ inverse_scale scale }
    ensures at_least_1 { pos 1 ≤ℤ result }
{
    scale_within(rdiv_narrow(UNIT * UNIT, scale.get()))
}

#[cfg(test)]
mod tests {
    use super::*;
    use crate::rotation::Raw;
    use crate::vector::tests::at;

    #[test]
    fn identity_is_at_0_of_scale_1(rt: HostRuntime) {
        let Xform { loc, rot, scale } = Xform::identity();
        assert_eq!(rt; (loc.x.get(), loc.y.get(), loc.z.get()), (0, 0, 0));
        assert_eq!(rt; (rot.w, rot.x, rot.y, rot.z), (1_000_000, 0, 0, 0));
        assert_eq!(rt; scale.get(), 1_000_000);
    }

    #[test]
    fn a_child_stands_within_its_parent(rt: HostRuntime) {
        let eighth = Fx::of(707_107);
        let parent = Xform {
            rot: Quat::normal(Raw {
                w: eighth,
                x: Fx::ZERO,
                y: Fx::ZERO,
                z: eighth,
            }),
            ..Xform::identity()
        };
        let child = Xform {
            loc: at(1_000_000, 0, 0),
            ..Xform::identity()
        };
        let Xform { loc, rot, scale } = compose(&parent, &child);
        assert_eq!(rt; loc, at(-1, 1_000_001, 0));
        assert_eq!(rt; (rot.w, rot.x, rot.y, rot.z), (707_107, 0, 0, 707_107));
        assert_eq!(rt; scale.get(), 1_000_000);
        let Xform { loc, rot, scale } = inverse(&child);
        assert_eq!(rt; loc, at(-1_000_000, 0, 0));
        assert_eq!(rt; (rot.w, rot.x, rot.y, rot.z), (1_000_000, 0, 0, 0));
        assert_eq!(rt; scale.get(), 1_000_000);
    }

    #[test]
    fn points_stop_at_the_limits(rt: HostRuntime) {
        let far = Xform {
            loc: at(1_000_000_000_000, 0, 0),
            ..Xform::identity()
        };
        assert_eq!(rt; compose(&far, &far).loc, at(1_000_000_000_000, 0, 0));
    }
}
