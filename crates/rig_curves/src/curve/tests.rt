//! Curves of two keys and of none, with values in millionths.
ghost use Rattle.std.specs.Prelude.{◌≡◌, ◌∷◌, [], IfOk, IsTrue, int_lt};
ghost use Rattle.rig_scene.specs.Distinct.{are_rising};

use super::*;
use rig_io::List;
use rig_scene::{Channel, Path};
use std::alloc::{AllocError, Global};
use std::process::Abort;
use std::test::Fail;

fn key(frame: i32, value: i64, interp: Interp) -> Key
    ensures { result.frame ≡ frame }
{
    Key {
        frame,
        value: Fx::of_i64(value),
        interp,
    }
}

fn curve_of(alloc: Global, first: Key, second: Key) -> Result<Curve, AllocError>
    ensures { IfOk result (λ c. c.keys ≡ first ∷ second ∷ []) }
{
    Ok(Curve {
        path: Path::Own(Channel::LocX),
        keys: List::from(vec![in alloc; first, second]?),
    })
}

fn assert_values(rt: &impl Abort, curve: &Curve, values: &[(i32, i64)])
    requires { IsTrue (are_rising (λ j k. int_lt j.frame k.frame) curve.now.keys) }
{
    for (frame, value) in values {
        assert_eq!(rt; at(curve, *frame), Some(Fx::of_i64(*value)), "at {frame}");
    }
}

#[test]
fn linear_keys_are_joined_by_a_line_and_held_beyond(rt: HostRuntime) -> Result<(), Fail> {
    let rising = curve_of(
        rt.alloc(),
        key(0, 0, Interp::Linear),
        key(2, 1, Interp::Linear),
    )?;
    assert_values(&rt, &rising, &[(-5, 0), (0, 0), (1, 1), (2, 1), (7, 1)]);
    let falling = curve_of(
        rt.alloc(),
        key(0, 0, Interp::Linear),
        key(2, -1, Interp::Linear),
    )?;
    assert_values(&rt, &falling, &[(-5, 0), (0, 0), (1, 0), (2, -1), (7, -1)]);
    Ok(())
}

#[test]
fn constant_keys_are_held_until_the_next_one(rt: HostRuntime) -> Result<(), Fail> {
    let held = curve_of(
        rt.alloc(),
        key(1, 5, Interp::Constant),
        key(3, 9, Interp::Constant),
    )?;
    assert_values(&rt, &held, &[(0, 5), (1, 5), (2, 5), (3, 9), (4, 9)]);
    Ok(())
}

#[test]
fn a_curve_without_keys_has_no_value(rt: HostRuntime) {
    let empty = Curve {
        path: Path::Own(Channel::LocX),
        keys: List::new(rt.alloc()),
    };
    assert_eq!(rt; at(&empty, 1), None);
}
