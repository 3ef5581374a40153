//! The strokes of a mirror (Blender Manual, Grease Pencil, Mirror Modifier).
//!
//! Each side is made of the strokes that are mirrored, and not of a side that was made before it: whether they are near
//! 0 is tested once, for all sides.
ghost use Rattle.std.specs.Prelude.{◌≡◌, ◌++◌, false, IfOk, OnOk, OnErr};
ghost use Rattle.rig_scene.specs.Modify.{mirror_strokes};
ghost use Rattle.rig_modifiers.specs.Partly.{AddsFewer};
ghost use Rattle.rig_modifiers.specs.Sides.{on_x, on_y};

use crate::count::{mirror_copies, room_for};
use crate::source::SourceStrokes;
use rig_fixed::V3;
use rig_io::{List, NoMemory};
use rig_points::{Axes, PointMap};
use rig_scene::{Mirror, Stroke, Strokes};
use std::alloc::Global;

/// Strokes, and again on the other side of the centre, for each axis that is on in turn.
pub(crate) fn mirror_strokes(
    alloc: Global,
    strokes: &[Stroke],
    mirror: &Mirror,
    centre: &V3,
) -> Result<Strokes, NoMemory>
    ensures { IfOk result (λ new. new ≡ mirror_strokes mirror.now centre.now strokes.now) }
{
    let source = SourceStrokes::new(strokes);
    let sides = Sides {
        source,
        mirror: *mirror,
        centre: *centre,
    };
    let mut new = room_for(alloc, strokes, mirror_copies(mirror))?;
    sides.append_on_y(alloc, &mut new, false)?;
    if !mirror.z {
        return Ok(List::from(new));
    }
    sides.append_on_y(alloc, &mut new, true)?;
    Ok(List::from(new))
}

/// What is mirrored, on which axes, and where.
#[derive(Drop)]
struct Sides<'a> {
    source: SourceStrokes<'a>,
    mirror: Mirror,
    centre: V3,
}

impl<'a> Sides<'a> {
    // On one side of z, the sides of y that the mirror has.
    fn append_on_y(&self, alloc: Global, new: &mut Vec<Stroke>, z: bool) -> Result<(), NoMemory>
        ensures ok { OnOk result (new.new.items ≡ new.old.items ++ on_y self.now.mirror self.now.centre z self.now.source) }
        ensures err { OnErr result (AddsFewer (on_y self.now.mirror self.now.centre z self.now.source) new.old.items new.new.items) }
    {
        let (x, y) = (false, false);
        self.append_on_x(alloc, new, Axes { x, y, z })?;
        if self.mirror.y {
            let y = true;
            self.append_on_x(alloc, new, Axes { x, y, z })
        } else {
            Ok(())
        }
    }

    // On one side of y and of z, the sides of x that the mirror has.
    fn append_on_x(&self, alloc: Global, new: &mut Vec<Stroke>, axes: Axes) -> Result<(), NoMemory>
        requires { axes.x ≡ false }
        ensures ok { OnOk result (new.new.items ≡ new.old.items ++ on_x self.now.mirror self.now.centre axes self.now.source) }
        ensures err { OnErr result (AddsFewer (on_x self.now.mirror self.now.centre axes self.now.source) new.old.items new.new.items) }
    {
        let here = PointMap::Reflection {
            axes,
            centre: self.centre,
        };
        self.source.append(alloc, new, &here)?;
        if self.mirror.x {
            let Axes { x: _, y, z } = axes;
            let across = PointMap::Reflection {
                axes: Axes { x: true, y, z },
                centre: self.centre,
            };
            self.source.append(alloc, new, &across)
        } else {
            Ok(())
        }
    }
}
