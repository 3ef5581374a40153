//! How a driver combines the numbers of its variables.
ghost use Rattle.std.specs.Prelude.{◌≡◌, ◌≤◌, length, pos, unwrap_or, ◌*ℤ◌, ◌≤ℤ◌};
ghost use Rattle.std.specs.Int.{int_min, int_max};
ghost use Rattle.std.specs.List.{reduce};
ghost use Rattle.rig_fixed.specs.Fixed.{lowest, highest, IsWithinLimits};
ghost use Rattle.rig_fixed.specs.Number.{rdiv};
ghost use Rattle.rig_scene.specs.Combine.{total_of, combine};
ghost use Rattle.rig_scene.specs.declared.limits.TheConstants.{MAX_VARIABLES};

use rig_fixed::{Fx, rdiv};
use rig_scene::DriverKind;

/// The number that a driver of a kind makes of its variables' numbers, in millionths (Blender Manual, Drivers).
pub fn combine(kind: DriverKind, values: &[Fx]) -> Fx
    requires some { 1 ≤ length values.now }
    requires few { length values.now ≤ MAX_VARIABLES }
    ensures { result ≡ combine kind values.now }
{
    match kind {
        DriverKind::Average => Fx::new(average_of(values)),
        DriverKind::Sum => Fx::of_i64(total_of(values)),
        DriverKind::Min => least_of(values),
        DriverKind::Max => greatest_of(values),
    }
}

/// The average, in millionths. It is within the limits, as each number is.
fn average_of(values: &[Fx]) -> i64
    requires some { 1 ≤ length values.now }
    requires few { length values.now ≤ MAX_VARIABLES }
    ensures value { result ≡ rdiv (total_of values.now) (pos (length values.now)) }
    ensures limits { IsWithinLimits result }
{
    rdiv(total_of(values) as i128, values.len() as i128) as i64
}

/// The plain sum, in millionths, which may be beyond the limits.
fn total_of(values: &[Fx]) -> i64
    requires { length values.now ≤ MAX_VARIABLES }
    ensures value { result ≡ total_of values.now }
    ensures above { (lowest *ℤ pos (length values.now)) ≤ℤ result }
    ensures below { result ≤ℤ (highest *ℤ pos (length values.now)) }
{
    let mut total = 0;
    for value in values {
        total += value.get();
    }
    total
}

/// The least number.
fn least_of(values: &[Fx]) -> Fx
    ensures { result ≡ unwrap_or (reduce int_min values.now) (pos 0) }
{
    values.iter().copied().min().unwrap_or(Fx::ZERO)
}

/// The greatest number.
fn greatest_of(values: &[Fx]) -> Fx
    ensures { result ≡ unwrap_or (reduce int_max values.now) (pos 0) }
{
    values.iter().copied().max().unwrap_or(Fx::ZERO)
}

#[cfg(test)]
mod tests;
