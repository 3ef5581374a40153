//! Worked examples, in millionths.
ghost use Rattle.std.specs.Prelude.{◌≤◌, length};
ghost use Rattle.rig_scene.specs.declared.limits.TheConstants.{MAX_VARIABLES};

use super::*;
use rig_fixed::LIMIT;
use std::process::Abort;

fn fx(millionths: i64) -> Fx {
    Fx::of_i64(millionths)
}

fn assert_number(rt: &impl Abort, kind: DriverKind, values: &[Fx], millionths: i64)
    requires some { 1 ≤ length values.now }
    requires few { length values.now ≤ MAX_VARIABLES }
{
    assert_eq!(rt;
        combine(kind, values).get(),
        millionths,
        "{kind:?} of {values:?}"
    );
}

#[test]
fn an_average_is_of_the_plain_sum_and_a_half_goes_up(rt: HostRuntime) {
    assert_number(&rt, DriverKind::Average, &[fx(1), fx(2)], 2);
    assert_number(&rt, DriverKind::Average, &[fx(-1), fx(-2)], -1);
    assert_number(
        &rt,
        DriverKind::Average,
        &[fx(LIMIT), fx(LIMIT)],
        1_000_000_000_000,
    );
}

#[test]
fn a_sum_stops_at_the_limits(rt: HostRuntime) {
    assert_number(
        &rt,
        DriverKind::Sum,
        &[fx(LIMIT), fx(LIMIT)],
        1_000_000_000_000,
    );
}

#[test]
fn the_least_and_the_greatest_stay_as_they_are(rt: HostRuntime) {
    let values = [fx(3), fx(-7), fx(5)];
    assert_number(&rt, DriverKind::Min, &values, -7);
    assert_number(&rt, DriverKind::Max, &values, 5);
}
