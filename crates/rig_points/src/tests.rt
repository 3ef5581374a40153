//! Worked examples: points under each change, near 0 and far from it.
use super::*;
use rig_fixed::{Fx, V3, Xform};
use std::test::Fail;

fn point(x: i64, y: i64, z: i64) -> V3 {
    V3 {
        x: Fx::of_i64(x),
        y: Fx::of_i64(y),
        z: Fx::of_i64(z),
    }
}

#[test]
fn points_under_each_change(rt: HostRuntime) -> Result<(), Fail> {
    let points = [point(1, 2, 3), point(-4, 5, 999_999_999_999)];
    let (y, z) = (false, false);
    let cases = [
        (
            PointMap::Translation {
                offset: point(1, -2, 10),
            },
            [point(2, 0, 13), point(-3, 3, 1_000_000_000_000)],
        ),
        (
            PointMap::Deform {
                offset: point(1, -2, 10),
                transform: Xform {
                    loc: point(5, 0, 0),
                    ..Xform::identity()
                },
            },
            [point(7, 0, 13), point(2, 3, 1_000_000_000_000)],
        ),
        (
            PointMap::Scaling {
                scale: Fx::of_i64(500_000),
                offset: point(0, 0, 1),
            },
            [point(1, 1, 3), point(-2, 3, 500_000_000_001)],
        ),
        (
            PointMap::Reflection {
                axes: Axes { x: true, y, z },
                centre: point(10, 0, 0),
            },
            [point(19, 2, 3), point(24, 5, 999_999_999_999)],
        ),
    ];
    for (change, after) in cases.iter() {
        let new = points_under(rt.alloc(), &points, change)?;
        assert_eq!(rt; new.as_slice(), after.as_slice());
        let mut same = Vec::from_slice(rt.alloc(), &points)?;
        change_points(&mut same, change);
        assert_eq!(rt; same.as_slice(), after.as_slice());
    }
    Ok(())
}

#[test]
fn near_points_are_shifted_again_and_again(rt: HostRuntime) -> Result<(), Fail> {
    let points = [
        point(1, 2, 3),
        point(-4, 5, -6),
        point(7, -549_755_813_888, 549_755_813_887),
    ];
    let near = NearPoints::of(&points).ok_or("not near")?;
    let (x, y, z) = (true, false, true);
    let cases = [
        (
            PointMap::Translation {
                offset: point(1, -2, 400_000_000_000),
            },
            [
                point(2, 0, 400_000_000_003),
                point(-3, 3, 399_999_999_994),
                point(8, -549_755_813_890, 949_755_813_887),
            ],
        ),
        (
            PointMap::Reflection {
                axes: Axes { x, y, z },
                centre: point(10, 20, -30),
            },
            [
                point(19, 2, -63),
                point(24, 5, -54),
                point(13, -549_755_813_888, -549_755_813_947),
            ],
        ),
    ];
    for (change, after) in cases.iter() {
        let shift = Shift::of(change).ok_or("no shift")?;
        let new = shift.points_of(rt.alloc(), &near)?;
        assert_eq!(rt; new.as_slice(), after.as_slice());
    }
    assert!(rt; NearPoints::of(&[point(0, 549_755_813_888, 0)]).is_none());
    Ok(())
}
