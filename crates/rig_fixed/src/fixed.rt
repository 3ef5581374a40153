//! One fixed-point number: a whole number of millionths within limits.
ghost use Rattle.std.specs.Prelude.{◌≡◌, ◌+ℤ◌, ◌*ℤ◌, neg_ℤ};
ghost use Rattle.rig_fixed.specs.Fixed.{unit, clamp, IsWithinLimits};
ghost use Rattle.rig_fixed.specs.Number.{rdiv};

use crate::number::over_unit;
use std::marker::Model;

/// One whole unit, in millionths.
pub const UNIT: i64 = 1_000_000;

/// The limit of every number, in millionths: a million units to either side of 0.
pub const LIMIT: i64 = 1_000_000_000_000;

/// A whole number of millionths, from [`-LIMIT`](LIMIT) to [`LIMIT`]. Contracts see it as that number.
#[derive(Clone, Copy, Debug, PartialEq, Eq, PartialOrd, Ord, Hash)]
pub struct Fx {
    millionths: i64,
}

impl Model for Fx {
    ghost use Rattle.std.specs.Prelude.{ℤ};
    ghost use Rattle.rig_fixed.specs.Fixed.{IsWithinLimits};

    ghost Value = { ℤ };

    ghost view = { λ a. a.millionths };

    ghost invariant = { λ a. IsWithinLimits a.millionths };

    ghost inverse = { λ z. record { millionths = z } };
}

impl Fx {
    /// 0.
    pub const ZERO: Fx = Fx { millionths: 0 };

    /// One whole unit.
    pub const ONE: Fx = Fx { millionths: UNIT };

    /// The number nearest to `x`, in millionths, that is within the limits.
    pub fn of(x: i128) -> Fx
        ensures { result ≡ clamp x }
    {
        let millionths = x.clamp(-(LIMIT as i128), LIMIT as i128) as i64;
        Fx { millionths }
    }

    /// The number nearest to `x`, in millionths, that is within the limits: [`Fx::of`] for what fits 64 bits.
    pub fn of_i64(x: i64) -> Fx
        ensures { result ≡ clamp x }
    {
        Fx {
            millionths: x.clamp(-LIMIT, LIMIT),
        }
    }

    /// The number `x`, in millionths, where the caller knows that it is within the limits: nothing is tested.
    pub fn new(x: i64) -> Fx
        requires { IsWithinLimits x }
        ensures { result ≡ x }
    {
        Fx { millionths: x }
    }

    /// The number of millionths.
    pub fn get(self) -> i64
        ensures value { result ≡ self }
        ensures within { IsWithinLimits result }
    {
        self.millionths
    }

    /// The sum of two numbers, within the limits.
    pub(crate) fn sum(self, other: Fx) -> Fx
        ensures { result ≡ clamp (self +ℤ other) }
    {
        Fx::of_i64(self.get() + other.get())
    }

    /// The product of two numbers in millionths, in millionths: rounded to the nearest, and a half upward.
    pub(crate) fn product(self, other: Fx) -> i64
        ensures { result ≡ rdiv (self *ℤ other) unit }
    {
        over_unit(self.get() as i128 * other.get() as i128)
    }

    /// The number times a scale, both in millionths: rounded to the nearest, and within the limits.
    pub(crate) fn multiple(self, scale: Fx) -> Fx
        ensures { result ≡ clamp (rdiv (scale *ℤ self) unit) }
    {
        Fx::of_i64(scale.product(self))
    }

    /// The number on the other side of 0.
    pub(crate) fn negation(self) -> Fx
        ensures { result ≡ neg_ℤ self }
    {
        Fx::of_i64(-self.get())
    }
}

#[cfg(test)]
mod tests {
    use super::*;

    #[test]
    fn numbers_stay_within_a_million_units(rt: HostRuntime) {
        let million: i128 = 1_000_000_000_000;
        for (x, millionths) in [
            (0, 0),
            (million, 1_000_000_000_000),
            (million + 1, 1_000_000_000_000),
            (-million, -1_000_000_000_000),
            (-million - 1, -1_000_000_000_000),
        ] {
            assert_eq!(rt; Fx::of(x).get(), millionths, "of {x}");
        }
    }
}
