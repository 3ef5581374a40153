//! Strokes so near 0 that a shift of their points needs no clamp, as a type that only the test of them makes.
ghost use Rattle.std.specs.Prelude.{◌≡◌, ◌↔◌, ◌++◌, IsTrue, IsSome, IfSome, OnOk, OnErr};
ghost use Rattle.rig_points.specs.Change.{point_under};
ghost use Rattle.rig_scene.specs.Layer.{map_points};
ghost use Rattle.rig_modifiers.specs.Near.{AreNearStrokes};
ghost use Rattle.rig_modifiers.specs.Partly.{AddsFewer};

use rig_io::{List, NoMemory};
use rig_points::{NearPoints, Shift};
use rig_scene::Stroke;
use std::alloc::Global;
use std::marker::Model;

/// Strokes all of whose points are near 0. Contracts see the strokes.
#[derive(Drop)]
pub(crate) struct NearStrokes<'a> {
    strokes: &'a [Stroke],
}

impl<'a> Model for NearStrokes<'a> {
    ghost use Rattle.std.specs.Prelude.{List};
    ghost use Rattle.rig_scene.specs.declared.pencil.Stroke.{Stroke};
    ghost use Rattle.rig_modifiers.specs.Near.{AreNearStrokes};

    ghost Value = { List Stroke };

    ghost view = { λ a. a.strokes.now };

    ghost invariant = { λ a. AreNearStrokes a.strokes.now };
}

impl<'a> NearStrokes<'a> {
    /// The strokes, if all of their points are near 0.
    pub(crate) fn of(strokes: &'a [Stroke]) -> Option<NearStrokes<'a>>
        ensures near { IsSome result ↔ AreNearStrokes strokes.now }
        ensures strokes { IfSome result (λ near. near ≡ strokes.now) }
    {
        if are_near(strokes) {
            Some(NearStrokes { strokes })
        } else {
            None
        }
    }

    /// Adds the strokes, under a change that is a shift.
    ///
    /// After an error the list is as it was, with the first few of the strokes added.
    pub(crate) fn append(
        &self,
        alloc: Global,
        new: &mut Vec<Stroke>,
        shift: &Shift<'_>,
    ) -> Result<(), NoMemory>
        ensures ok { OnOk result (new.new.items ≡ new.old.items ++ map_points (point_under shift.now) self.now) }
        ensures err { OnErr result (AddsFewer (map_points (point_under shift.now) self.now) new.old.items new.new.items) }
    {
        append_near(alloc, new, self.strokes, shift)
    }
}

fn are_near(strokes: &[Stroke]) -> bool
    ensures { IsTrue result ↔ AreNearStrokes strokes.now }
{
    for stroke in strokes {
        if NearPoints::of(stroke.points.as_slice()).is_none() {
            return false;
        }
    }
    true
}

fn append_near(
    alloc: Global,
    new: &mut Vec<Stroke>,
    strokes: &[Stroke],
    shift: &Shift<'_>,
) -> Result<(), NoMemory>
    requires { AreNearStrokes strokes.now }
    ensures ok { OnOk result (new.new.items ≡ new.old.items ++ map_points (point_under shift.now) strokes.now) }
    ensures err { OnErr result (AddsFewer (map_points (point_under shift.now) strokes.now) new.old.items new.new.items) }
{
    for stroke in strokes {
        let near = NearPoints::new(stroke.points.as_slice());
        let points = shift.points_of(alloc, &near)?;
        new.push(Stroke {
            points: List::from(points),
        })?;
    }
    Ok(())
}
