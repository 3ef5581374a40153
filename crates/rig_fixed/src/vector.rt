//! Points and offsets in space.
ghost use Rattle.std.specs.Prelude.{◌≡◌, neg_ℤ};
ghost use Rattle.rig_fixed.specs.Vector.{on_each, v3_sum, v3_multiple};

use crate::fixed::{Fx, UNIT};

/// A point or an offset in space: three coordinates in millionths.
#[derive(Clone, Copy, Debug, PartialEq, Eq, Hash)]
pub struct V3 {
    pub x: Fx,
    pub y: Fx,
    pub z: Fx,
}

impl V3 {
    /// The point at 0.
    pub const ZERO: V3 = V3 {
        x: Fx::ZERO,
        y: Fx::ZERO,
        z: Fx::ZERO,
    };

    /// The sum of two vectors, each coordinate within the limits.
    pub fn sum(self, other: V3) -> V3
        ensures { result ≡ v3_sum self other }
    {
        V3 {
            x: self.x.sum(other.x),
            y: self.y.sum(other.y),
            z: self.z.sum(other.z),
        }
    }

    /// The vector times a scale in millionths: each coordinate rounded to the nearest millionth, and within the limits.
    pub fn multiple(self, scale: Fx) -> V3
        ensures { result ≡ v3_multiple scale self }
    {
        if scale.get() == UNIT {
            self
        } else {
            self.rounded_multiple(scale)
        }
    }

    /// [`V3::multiple`], whatever the scale.
    fn rounded_multiple(self, scale: Fx) -> V3
        ensures { result ≡ v3_multiple scale self }
    {
        V3 {
            x: self.x.multiple(scale),
            y: self.y.multiple(scale),
            z: self.z.multiple(scale),
        }
    }

    /// The point on the other side of 0.
    pub(crate) fn negation(self) -> V3
        ensures { result ≡ on_each neg_ℤ self }
    {
        V3 {
            x: self.x.negation(),
            y: self.y.negation(),
            z: self.z.negation(),
        }
    }
}

#[cfg(test)]
pub(crate) mod tests {
    use super::*;

    pub(crate) fn at(x: i128, y: i128, z: i128) -> V3 {
        V3 {
            x: Fx::of(x),
            y: Fx::of(y),
            z: Fx::of(z),
        }
    }

    #[test]
    fn sums_and_multiples_are_by_coordinate(rt: HostRuntime) {
        let v = at(1, -1, 3);
        assert_eq!(rt;
            v.sum(at(4, 5, 1_000_000_000_000)),
            at(5, 4, 1_000_000_000_000)
        );
        assert_eq!(rt; v.multiple(Fx::of(1_500_000)), at(2, -1, 5));
        assert_eq!(rt; v.multiple(Fx::ONE), v);
        assert_eq!(rt; v.multiple(Fx::ZERO), V3::ZERO);
    }
}
