//! Reads edits of drawings and of keys of layers.
ghost use Rattle.std.specs.Prelude.{pos};
ghost use Rattle.serde_json.specs.View.{view};
ghost use Rattle.rig_scenejson.specs.declared.member.Member.TheVariants as m;
ghost use Rattle.rig_scenejson.specs.Given.{text_at};
ghost use Rattle.rig_scenejson.specs.Tests.{Reads, first};
ghost use Rattle.rig_scriptjson.specs.EditFaults.{point_faults, hold_faults, unhold_faults};
ghost use Rattle.rig_scriptjson.specs.EditGiven.{hold_given, point_given, unhold_given, whole3_at, whole_at};

use crate::members::{name_in, whole_in, whole3_in};
use rig_edits::Edit;
use rig_scenejson::{Member, SceneStop};
use serde_json::Value;
use std::alloc::Global;

/// Reads the edit `point`: the place of a point of a drawing.
pub(crate) fn read_point(alloc: Global, value: &Value) -> Result<Edit, SceneStop>
    ensures { Reads result (point_given (view value.now)) (first (point_faults (view value.now))) }
{
    let pencil = name_in(alloc, Member::Pencil, value)?;
    let drawing = whole_in(alloc, Member::Drawing, value)?;
    let stroke = whole_in(alloc, Member::Stroke, value)?;
    let point = whole_in(alloc, Member::Point, value)?;
    let to = whole3_in(alloc, Member::To, value)?;
    Ok(Edit::MovePoint {
        pencil,
        drawing,
        stroke,
        point,
        to,
    })
}

/// Reads the edit `hold`: the drawing that a layer shows from a frame on.
pub(crate) fn read_hold(alloc: Global, value: &Value) -> Result<Edit, SceneStop>
    ensures { Reads result (hold_given (view value.now)) (first (hold_faults (view value.now))) }
{
    let pencil = name_in(alloc, Member::Pencil, value)?;
    let layer = name_in(alloc, Member::Layer, value)?;
    let frame = whole_in(alloc, Member::Frame, value)?;
    let drawing = whole_in(alloc, Member::Drawing, value)?;
    Ok(Edit::SetLayerKey {
        pencil,
        layer,
        frame,
        drawing,
    })
}

/// Reads the edit `unhold`: a key of a layer to be deleted.
pub(crate) fn read_unhold(alloc: Global, value: &Value) -> Result<Edit, SceneStop>
    ensures { Reads result (unhold_given (view value.now)) (first (unhold_faults (view value.now))) }
{
    let pencil = name_in(alloc, Member::Pencil, value)?;
    let layer = name_in(alloc, Member::Layer, value)?;
    let frame = whole_in(alloc, Member::Frame, value)?;
    Ok(Edit::DeleteLayerKey {
        pencil,
        layer,
        frame,
    })
}
