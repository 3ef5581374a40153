//! What the definitions of numbers and transforms give: each law is proved by computing, or by a short proof.
ghost use Rattle.std.specs.Prelude.{◌≡◌, ℕ, ◌*◌, ◌<◌, ℤ, pos, negsuc, ◌+ℤ◌, ◌*ℤ◌};
ghost use Rattle.rig_fixed.specs.Fixed.{clamp};
ghost use Rattle.rig_fixed.specs.Number.{rdiv, isqrt, IsFloor, IsRoot};
ghost use Rattle.rig_fixed.specs.Rotation.{no_rotation, normal};
ghost use Rattle.rig_fixed.specs.Transform.{carry, inverse};
ghost use Rattle.rig_fixed.specs.Example.{v3_of, raw_of, rotation_of, quarter_turn};

/// Numbers beyond the limits stop at them.
pub fn numbers_stop_at_the_limits()
    ensures above { clamp (pos 1000000000001) ≡ pos 1000000000000 }
    ensures below { clamp (negsuc 1000000000000) ≡ negsuc 999999999999 }
    ensures within { clamp (negsuc 4) ≡ negsuc 4 }
{}

/// A half goes up, also below 0.
pub fn halves_are_rounded_up()
    ensures above_zero { rdiv (pos 1) (pos 2) ≡ pos 1 }
    ensures below_zero { rdiv (negsuc 0) (pos 2) ≡ pos 0 }
    ensures more_than_half { rdiv (negsuc 2) (pos 4) ≡ negsuc 0 }
{}

/// A division is that of twice the number and the divisor by twice the divisor, rounded down.
pub fn division_rounds_down_from_a_half_more()
    ensures { (a : ℤ) → (b : ℕ) → 0 < b → IsFloor (pos 2 *ℤ a +ℤ pos b) (pos (2 * b)) (rdiv a (pos b)) }
{}

/// Roots are rounded down.
pub fn roots_are_rounded_down()
    ensures of_zero { isqrt 0 ≡ 0 }
    ensures below_a_square { isqrt 15 ≡ 3 }
    ensures of_a_square { isqrt 16 ≡ 4 }
    ensures of_a_large_square { isqrt 4000000000000000000000000000000000000 ≡ 2000000000000000000 }
{}

/// The root is the greatest number whose square is at most the other.
pub fn root_is_the_greatest()
    ensures { (n : ℕ) → IsRoot n (isqrt n) }
{}

/// A rotation of any length becomes one of the length of a unit, and four zeros turn nothing.
#[tactic(auto, unfolding(crate::specs::Rotation::unit_rotation))]
pub fn rotations_are_brought_to_one_unit()
    ensures three { normal (raw_of (pos 0) (pos 0) (pos 0) (pos 3)) ≡ rotation_of (pos 0) (pos 0) (pos 0) (pos 1000000) }
    ensures zeros { normal (raw_of (pos 0) (pos 0) (pos 0) (pos 0)) ≡ no_rotation }
    ensures halves { normal (raw_of (pos 1) (pos 1) (negsuc 0) (pos 1))
        ≡ rotation_of (pos 500000) (pos 500000) (negsuc 499999) (pos 500000) }
{}

/// A quarter turn about the third axis takes the first axis to the second, as near as rounding lets it.
#[tactic(auto, unfolding(crate::specs::Rotation::unit_rotation, crate::specs::Rotation::rotate, crate::specs::Transform::carry))]
pub fn a_quarter_turn_carries_the_first_axis_to_the_second()
    ensures { carry (quarter_turn) (v3_of (pos 1000000) (pos 0) (pos 0)) ≡ v3_of (negsuc 0) (pos 1000001) (pos 0) }
{}

/// A transform of scale 2 and its inverse.
#[tactic(auto, unfolding(crate::specs::Rotation::rotate, crate::specs::Transform::inverse))]
pub fn the_inverse_of_twice_the_size_halves()
    ensures { inverse (record { loc = v3_of (pos 3000000) (pos 0) (negsuc 999999); rot = no_rotation; scale = pos 2000000 })
        ≡ record { loc = v3_of (negsuc 1499999) (pos 0) (pos 500000); rot = no_rotation; scale = pos 500000 } }
{}
