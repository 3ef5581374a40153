//! Strokes that are added again and again, each time with their points changed.
ghost use Rattle.std.specs.Prelude.{◌≡◌, ◌++◌, OnOk, OnErr};
ghost use Rattle.rig_points.specs.Change.{point_under};
ghost use Rattle.rig_scene.specs.Layer.{map_points};
ghost use Rattle.rig_modifiers.specs.Partly.{AddsFewer};

use crate::append::append_changed;
use crate::near::NearStrokes;
use rig_io::NoMemory;
use rig_points::{PointMap, Shift};
use rig_scene::Stroke;
use std::alloc::Global;
use std::marker::Model;

/// Strokes that a modifier adds again and again. Whether all of their points are near 0 is tested once, when it is
/// made. Contracts see the strokes.
#[derive(Drop)]
pub(crate) struct SourceStrokes<'a> {
    strokes: &'a [Stroke],
    near: Option<NearStrokes<'a>>,
}

impl<'a> Model for SourceStrokes<'a> {
    ghost use Rattle.std.specs.Prelude.{List, IfSome, ◌≡◌};
    ghost use Rattle.rig_scene.specs.declared.pencil.Stroke.{Stroke};

    ghost Value = { List Stroke };

    ghost view = { λ a. a.strokes.now };

    ghost invariant = { λ a. IfSome a.near (λ near. near ≡ a.strokes.now) };
}

impl<'a> SourceStrokes<'a> {
    pub(crate) fn new(strokes: &'a [Stroke]) -> SourceStrokes<'a>
        ensures { result ≡ strokes.now }
    {
        let near = NearStrokes::of(strokes);
        SourceStrokes { strokes, near }
    }

    /// Adds the strokes, with each point changed. Each has memory of its own, allocated once.
    ///
    /// After an error the list is as it was, with the first few of the strokes added.
    pub(crate) fn append(
        &self,
        alloc: Global,
        new: &mut Vec<Stroke>,
        change: &PointMap,
    ) -> Result<(), NoMemory>
        ensures ok { OnOk result (new.new.items ≡ new.old.items ++ map_points (point_under change.now) self.now) }
        ensures err { OnErr result (AddsFewer (map_points (point_under change.now) self.now) new.old.items new.new.items) }
    {
        match (&self.near, Shift::of(change)) {
            (Some(near), Some(shift)) => near.append(alloc, new, &shift),
            _ => append_changed(alloc, new, self.strokes, change),
        }
    }
}
