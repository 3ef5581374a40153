//! A curve's value: the keys around a frame are found by binary search, and the value is that of a key or on the line
//! between two.
ghost use Rattle.std.specs.Prelude.{◌≡◌, ◌↔◌, [], IsNone, IsTrue, pos, negsuc, int_lt, ◌*ℤ◌, ◌≤ℤ◌, ◌<ℤ◌};
ghost use Rattle.std.specs.Int.{int_min, int_max};
ghost use Rattle.std.specs.Option.{ForSome, option_copied};
ghost use Rattle.rig_fixed.specs.Fixed.{IsWithinLimits};
ghost use Rattle.rig_fixed.specs.Number.{rdiv};
ghost use Rattle.rig_scene.specs.Distinct.{are_rising};
ghost use Rattle.rig_scene.specs.Curve.{curve_value, value_from_keys, value_between, line_through};

use rig_fixed::{Fx, rdiv};
use rig_scene::{Curve, Interp, Key, keys_around};

/// The value of a curve at a frame, in millionths (Blender Manual, F-curves). `None` comes exactly where the curve
/// has no keys.
pub fn at(curve: &Curve, frame: i32) -> Option<Fx>
    requires rising { IsTrue (are_rising (λ j k. int_lt j.frame k.frame) curve.now.keys) }
    ensures value { result ≡ curve_value curve.now frame }
    ensures none { IsNone result ↔ (curve.now.keys ≡ []) }
{
    let (left, right) = keys_around(curve.keys.as_slice(), frame);
    value_from(left, right, frame)
}

/// The value between the key up to a frame and the key after it.
fn value_from(left: Option<&Key>, right: Option<&Key>, frame: i32) -> Option<Fx>
    requires begun { ForSome (option_copied left) (λ l. l.frame ≤ℤ frame) }
    requires within { ForSome (option_copied right) (λ r. frame <ℤ r.frame) }
    ensures { result ≡ value_from_keys (option_copied left.entry) (option_copied right.entry) frame }
{
    match (left, right) {
        (Some(left), Some(right)) => Some(value_between(left, right, frame)),
        (Some(key), None) | (None, Some(key)) => Some(key.value),
        (None, None) => None,
    }
}

/// The value from a key on, up to the next one.
fn value_between(left: &Key, right: &Key, frame: i32) -> Fx
    requires begun { left.now.frame ≤ℤ frame }
    requires within { frame <ℤ right.now.frame }
    ensures { result ≡ value_between left.now.interp left.now right.now frame }
{
    match left.interp {
        Interp::Constant => left.value,
        Interp::Linear => Fx::new(value_on_line(left, right, frame)),
    }
}

/// The value at a frame of the straight line through two keys, in millionths. It is between their values.
fn value_on_line(left: &Key, right: &Key, frame: i32) -> i64
    requires begun { left.now.frame ≤ℤ frame }
    requires within { frame <ℤ right.now.frame }
    ensures value { result ≡ line_through left.now right.now frame }
    ensures limits { IsWithinLimits result }
{
    let start = left.value.get();
    let rise = right.value.get() - start;
    let elapsed = frame as i64 - left.frame as i64;
    let span = right.frame as i64 - left.frame as i64;
    start + part_of(rise, elapsed, span)
}

/// The part of a rise in so many frames of a span. It is between nothing and the whole rise.
fn part_of(rise: i64, elapsed: i64, span: i64) -> i64
    requires lowest { negsuc 1999999999999 ≤ℤ rise }
    requires highest { rise ≤ℤ pos 2000000000000 }
    requires begun { pos 0 ≤ℤ elapsed }
    requires within { elapsed <ℤ span }
    requires span { span ≤ℤ pos 4294967295 }
    ensures value { result ≡ rdiv (rise *ℤ elapsed) span }
    ensures above { int_min (pos 0) rise ≤ℤ result }
    ensures below { result ≤ℤ int_max (pos 0) rise }
{
    rdiv(rise as i128 * elapsed as i128, span as i128) as i64
}

#[cfg(test)]
mod tests;
