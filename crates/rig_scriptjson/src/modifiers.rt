//! Reads edits of stacks of modifiers.
ghost use Rattle.std.specs.Prelude.{pos, false, true};
ghost use Rattle.serde_json.specs.View.{view};
ghost use Rattle.rig_edits.specs.declared.edit.NewEffect.TheVariants.{Offset, Mirror, Array};
ghost use Rattle.rig_scenejson.specs.declared.member.Member.TheVariants as m;
ghost use Rattle.rig_scenejson.specs.Given.{text_at, truth_at};
ghost use Rattle.rig_scenejson.specs.Tests.{Reads, first};
ghost use Rattle.rig_scriptjson.specs.EditFaults.{modify_faults, unmodify_faults, effect_faults};
ghost use Rattle.rig_scriptjson.specs.EditFaults.{offset_faults, mirror_faults, array_faults};
ghost use Rattle.rig_scriptjson.specs.EditGiven.{mirror_given, effect_given, modify_given, name_at, unmodify_given, whole3_at, whole_at};

use crate::members::{name_in, optional_name, truth_or, whole_in, whole_or, whole3_or, word_in};
use rig_edits::{Edit, NewEffect};
use rig_fixed::UNIT;
use rig_scenejson::{Member, SceneStop, is_kind};
use serde_json::Value;
use std::alloc::Global;

/// Reads the edit `modify`: a new modifier of a pencil object, behind its others.
pub(crate) fn read_modify(alloc: Global, value: &Value) -> Result<Edit, SceneStop>
    ensures { Reads result (modify_given (view value.now)) (first (modify_faults (view value.now))) }
{
    let object = name_in(alloc, Member::Object, value)?;
    let name = name_in(alloc, Member::Name, value)?;
    word_in(alloc, Member::Kind, &["offset", "mirror", "array"], value)?;
    let viewport = truth_or(alloc, true, Member::Viewport, value)?;
    let render = truth_or(alloc, true, Member::Render, value)?;
    let effect = read_effect(alloc, value)?;
    Ok(Edit::AddModifier {
        object,
        name,
        viewport,
        render,
        effect,
    })
}

fn read_effect(alloc: Global, value: &Value) -> Result<NewEffect, SceneStop>
    ensures { Reads result (effect_given (view value.now)) (first (effect_faults (view value.now))) }
{
    if is_kind("mirror", value) {
        read_mirror(alloc, value)
    } else if is_kind("array", value) {
        read_array(alloc, value)
    } else {
        read_offset(alloc, value)
    }
}

fn read_offset(alloc: Global, value: &Value) -> Result<NewEffect, SceneStop>
    ensures { Reads result (Offset (whole3_at m.Loc (view value.now)) (whole_at (pos 1000000) m.Scale (view value.now)))
        (first (offset_faults (view value.now))) }
{
    let loc = whole3_or(alloc, Member::Loc, value)?;
    let scale = whole_or(alloc, UNIT, Member::Scale, value)?;
    Ok(NewEffect::Offset { loc, scale })
}

fn read_mirror(alloc: Global, value: &Value) -> Result<NewEffect, SceneStop>
    ensures { Reads result (mirror_given (view value.now))
        (first (mirror_faults (view value.now))) }
{
    let x = truth_or(alloc, false, Member::X, value)?;
    let y = truth_or(alloc, false, Member::Y, value)?;
    let z = truth_or(alloc, false, Member::Z, value)?;
    let object = optional_name(alloc, Member::Centre, value)?;
    Ok(NewEffect::Mirror { x, y, z, object })
}

fn read_array(alloc: Global, value: &Value) -> Result<NewEffect, SceneStop>
    ensures { Reads result (Array (whole_at (pos 0) m.Count (view value.now)) (whole3_at m.Offset (view value.now)))
        (first (array_faults (view value.now))) }
{
    let count = whole_in(alloc, Member::Count, value)?;
    let offset = whole3_or(alloc, Member::Offset, value)?;
    Ok(NewEffect::Array { count, offset })
}

/// Reads the edit `unmodify`: a modifier to be removed.
pub(crate) fn read_unmodify(alloc: Global, value: &Value) -> Result<Edit, SceneStop>
    ensures { Reads result (unmodify_given (view value.now)) (first (unmodify_faults (view value.now))) }
{
    let object = name_in(alloc, Member::Object, value)?;
    let modifier = name_in(alloc, Member::Modifier, value)?;
    Ok(Edit::RemoveModifier { object, modifier })
}
