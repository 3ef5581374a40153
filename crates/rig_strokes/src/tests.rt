//! Worked examples: which drawing is held, and the strokes that a layer shows.
use super::*;
use rig_fixed::{Fx, V3, Xform};
use rig_io::List;
use rig_scene::{Drawing, Layer, LayerKey, Name, Stroke};
use std::alloc::Global;
use std::test::Fail;

fn point(x: i64, y: i64, z: i64) -> V3 {
    V3 {
        x: Fx::of_i64(x),
        y: Fx::of_i64(y),
        z: Fx::of_i64(z),
    }
}

fn stroke(alloc: Global, points: &[V3]) -> Result<Stroke, Fail> {
    Ok(Stroke {
        points: List::from(Vec::from_slice(alloc, points)?),
    })
}

#[test]
fn drawing_is_held_until_the_next_key(rt: HostRuntime) -> Result<(), Fail> {
    let alloc = rt.alloc();
    let keys = [(5, 0), (10, 1)].map(|(frame, drawing)| LayerKey { frame, drawing });
    let layer = Layer {
        name: Name::of(alloc, b"Lines")?,
        hidden: false,
        offset: point(0, 0, 0),
        bound: None,
        keys: List::from(Vec::from_slice(alloc, &keys)?),
    };
    for (frame, drawing) in [(4, None), (5, Some(0)), (9, Some(0)), (10, Some(1))] {
        assert_eq!(rt; held(&layer, frame), drawing, "at {frame}");
    }
    Ok(())
}

#[test]
fn layer_moves_points_and_carries_them(rt: HostRuntime) -> Result<(), Fail> {
    let alloc = rt.alloc();
    let drawing = Drawing {
        strokes: List::from(vec![in alloc; stroke(alloc, &[point(1, 2, 3)])?]?),
    };
    assert_eq!(rt; layer_strokes(alloc, None, point(1, 1, 1), None)?.len(), 0);
    let deform = Xform {
        loc: point(500_000, 0, 0),
        ..Xform::identity()
    };
    let offset = point(10, 20, 999_999_999_999);
    let bound = layer_strokes(alloc, Some(&drawing), point(0, 0, 0), Some(&deform))?;
    let free = layer_strokes(alloc, Some(&drawing), offset, None)?;
    for (strokes, point) in [
        (&bound, point(500_001, 2, 3)),
        (&free, point(11, 22, 1_000_000_000_000)),
    ] {
        assert_eq!(rt; strokes.len(), 1);
        assert_eq!(rt; strokes.get(0).points.as_slice(), [point].as_slice());
    }
    Ok(())
}
