//! Points of drawings moved.
ghost use Rattle.std.specs.Prelude.{◌≡◌, ◌<◌, ◌≤◌, ℕ, length, is_none, pos, MatchResult};
ghost use Rattle.std.specs.Option.{option_or};
ghost use Rattle.rig_edits.specs.declared.cause.EditCause.TheVariants.{UnknownId, UnknownPart};
ghost use Rattle.rig_edits.specs.declared.edit.Edit.TheVariants.{MovePoint};
ghost use Rattle.rig_edits.specs.Answers.{Applies};
ghost use Rattle.rig_edits.specs.Conditions.{lacks_point, when};
ghost use Rattle.rig_edits.specs.Named.{pencil_named};
ghost use Rattle.rig_edits.specs.Points.{point_set, HasPoint, IsPlaceOf};
ghost use Rattle.rig_edits.specs.Steps.{Finds};

use crate::cause::{EditCause, EditStop};
use crate::edit::Whole3;
use crate::find::index_named;
use crate::whole::location_of;
use rig_fixed::V3;
use rig_io::List;
use rig_scene::{Name, PencilData, Scene};

/// Where a point stands, by indices.
#[derive(Clone, Copy, Debug)]
struct PointPlace {
    pencil: usize,
    drawing: usize,
    stroke: usize,
    point: usize,
}

/// Moves a point of a stroke of a drawing.
pub(crate) fn move_point(
    scene: &mut Scene,
    pencil: &Name,
    drawing: i64,
    stroke: i64,
    point: i64,
    to: &Whole3,
) -> Result<(), EditStop>
    ensures { Applies result scene.old scene.new (MovePoint pencil.now drawing stroke point to.now) }
{
    let place = point_place(scene, pencil, drawing, stroke, point)?;
    let to = location_of(to)?;
    set_point(&mut scene.pencils, place, to);
    Ok(())
}

/// Where the point of these numbers stands in the pencil of a name.
fn point_place(
    scene: &Scene,
    pencil: &Name,
    drawing: i64,
    stroke: i64,
    point: i64,
) -> Result<PointPlace, EditCause>
    ensures { Finds result
        (option_or (when UnknownId (is_none (pencil_named scene.now pencil.now)))
        (when UnknownPart (lacks_point scene.now pencil.now drawing stroke point)))
        (IsPlaceOf scene.now pencil.now drawing stroke point) }
{
    let Some(pencil) = index_named(scene.pencils.as_slice(), pencil) else {
        return Err(EditCause::UnknownId);
    };
    let drawings = &scene.pencils.get(pencil).drawings;
    let drawing = index_below(drawing, drawings.len())?;
    let strokes = &drawings.get(drawing).strokes;
    let stroke = index_below(stroke, strokes.len())?;
    let point = index_below(point, strokes.get(stroke).points.len())?;
    Ok(PointPlace {
        pencil,
        drawing,
        stroke,
        point,
    })
}

/// A number as an index of a list of so many values.
fn index_below(number: i64, count: usize) -> Result<usize, EditCause>
    ensures { MatchResult result (λ index. (number ≡ pos index) × (index < count))
        (λ stop. (stop ≡ UnknownPart) × ((n : ℕ) → number ≡ pos n → count ≤ n)) }
{
    if 0 <= number && (number as usize) < count {
        Ok(number as usize)
    } else {
        Err(EditCause::UnknownPart)
    }
}

fn set_point(pencils: &mut List<PencilData>, place: PointPlace, to: V3)
    requires { HasPoint pencils.old place }
    ensures { pencils.new ≡ point_set pencils.old place to }
{
    let drawing = pencils
        .get_mut(place.pencil)
        .drawings
        .get_mut(place.drawing);
    drawing
        .strokes
        .get_mut(place.stroke)
        .points
        .set(place.point, to);
}
