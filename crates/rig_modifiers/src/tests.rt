//! Worked examples of each modifier.
use super::*;
use rig_fixed::{Fx, V3};
use rig_io::List;
use rig_scene::{Effect, Mirror, Stroke, Strokes};
use std::alloc::Global;
use std::test::Fail;

fn point(x: i64, y: i64, z: i64) -> V3 {
    V3 {
        x: Fx::of_i64(x),
        y: Fx::of_i64(y),
        z: Fx::of_i64(z),
    }
}

// One stroke of so many equal points.
fn one_stroke(alloc: Global, point: &V3, count: usize) -> Result<Strokes, Fail> {
    let stroke = Stroke {
        points: List::from(vec![in alloc; *point; count]?),
    };
    Ok(List::from(vec![in alloc; stroke]?))
}

fn mirror_effect(x: bool, y: bool, z: bool) -> Effect {
    Effect::Mirror(Mirror {
        x,
        y,
        z,
        centre: None,
    })
}

fn array_effect(count: u32) -> Effect {
    Effect::Array {
        count,
        offset: point(10, 0, 0),
    }
}

#[test]
fn mirror_appends_for_each_axis(rt: HostRuntime) -> Result<(), Fail> {
    let alloc = rt.alloc();
    let one = one_stroke(alloc, &point(1, 2, 3), 1)?;
    let new = modify(
        alloc,
        &mirror_effect(true, true, true),
        &one,
        point(0, 0, 0),
    )?;
    let points = [
        (1, 2, 3),
        (-1, 2, 3),
        (1, -2, 3),
        (-1, -2, 3),
        (1, 2, -3),
        (-1, 2, -3),
        (1, -2, -3),
        (-1, -2, -3),
    ];
    assert_eq!(rt; new.len(), 8);
    for (stroke, (x, y, z)) in new.as_slice().iter().zip(points.iter()) {
        assert_eq!(rt; stroke.points.as_slice(), [point(*x, *y, *z)].as_slice());
    }
    let one = one_stroke(alloc, &point(500_000, 0, 0), 1)?;
    let new = modify(
        alloc,
        &mirror_effect(true, false, false),
        &one,
        point(2_000_000, 0, 0),
    )?;
    assert_eq!(rt; new.len(), 2);
    assert_eq!(rt;
        new.get(1).points.as_slice(),
        [point(3_500_000, 0, 0)].as_slice()
    );
    Ok(())
}

#[test]
fn array_stays_within_the_limit(rt: HostRuntime) -> Result<(), Fail> {
    let alloc = rt.alloc();
    let strokes = one_stroke(alloc, &point(1, 2, 3), 300)?;
    for (count, copies, x) in [(64, 1, 1), (54, 54, 531), (1, 1, 1), (0, 1, 1)] {
        let new = modify(alloc, &array_effect(count), &strokes, point(0, 0, 0))?;
        assert_eq!(rt; new.len(), copies, "at a count of {count}");
        for stroke in new.as_slice() {
            assert_eq!(rt; stroke.points.len(), 300, "at a count of {count}");
        }
        let last = new.as_slice().last().ok_or("no stroke")?;
        assert_eq!(rt; last.points.as_slice().last(), Some(&point(x, 2, 3)));
    }
    Ok(())
}

#[test]
fn too_many_points_are_not_made(rt: HostRuntime) -> Result<(), Fail> {
    let alloc = rt.alloc();
    let strokes = one_stroke(alloc, &point(1, 2, 3), 8_192)?;
    for (count, copies) in [(1, Some(1)), (2, Some(2)), (3, None)] {
        let new = modify_if_few(alloc, &array_effect(count), &strokes, point(0, 0, 0))?;
        let found = new.as_ref().map(|strokes| strokes.len());
        assert_eq!(rt; found, copies, "at a count of {count}");
    }
    Ok(())
}

#[test]
fn offset_scales_and_moves(rt: HostRuntime) -> Result<(), Fail> {
    let alloc = rt.alloc();
    let offset = Effect::Offset {
        loc: point(10, 0, 999_999_999_999),
        scale: Fx::of_i64(2_500_000),
    };
    let one = one_stroke(alloc, &point(1, -1, 2), 1)?;
    let new = modify(alloc, &offset, &one, point(0, 0, 0))?;
    assert_eq!(rt; new.len(), 1);
    assert_eq!(rt;
        new.get(0).points.as_slice(),
        [point(13, -2, 1_000_000_000_000)].as_slice()
    );
    for effect in [offset, mirror_effect(true, true, false), array_effect(64)] {
        let none = List::new(alloc);
        assert_eq!(rt; modify(alloc, &effect, &none, point(0, 0, 0))?.len(), 0);
    }
    Ok(())
}

#[test]
fn each_step_stops_at_the_limits(rt: HostRuntime) -> Result<(), Fail> {
    let alloc = rt.alloc();
    let limit = 1_000_000_000_000;
    let array = Effect::Array {
        count: 3,
        offset: point(limit, 0, 0),
    };
    let lowest = one_stroke(alloc, &point(-limit, 0, 0), 1)?;
    let new = modify(alloc, &array, &lowest, point(0, 0, 0))?;
    assert_eq!(rt; new.len(), 3);
    assert_eq!(rt; new.get(2).points.as_slice(), [point(0, 0, 0)].as_slice());

    let offset = Effect::Offset {
        loc: point(-1, 0, 0),
        scale: Fx::of_i64(2_000_000),
    };
    let highest = one_stroke(alloc, &point(limit, 0, 0), 1)?;
    let new = modify(alloc, &offset, &highest, point(0, 0, 0))?;
    assert_eq!(rt; new.len(), 1);
    assert_eq!(rt;
        new.get(0).points.as_slice(),
        [point(999_999_999_999, 0, 0)].as_slice()
    );
    Ok(())
}
