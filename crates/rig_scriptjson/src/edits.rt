//! Reads edits: which one a step is, by its word.
ghost use Rattle.serde_json.specs.View.{view};
ghost use Rattle.rig_scenejson.specs.Tests.{Reads, first};
ghost use Rattle.rig_scriptjson.specs.EditFaults.{edit_faults, member_faults};
ghost use Rattle.rig_scriptjson.specs.EditGiven.{edit_given};

use crate::drivers::{read_driver, read_undriver};
use crate::members::word_in;
use crate::modifiers::{read_modify, read_unmodify};
use crate::objects::{read_add, read_flag, read_parent, read_remove};
use crate::pencils::{read_hold, read_point, read_unhold};
use crate::values::{read_key, read_set, read_unkey};
use rig_edits::Edit;
use rig_scenejson::{Member, SceneStop, text_at};
use serde_json::Value;
use std::alloc::Global;

/// Reads an edit.
pub(crate) fn read_edit(alloc: Global, value: &Value) -> Result<Edit, SceneStop>
    ensures { Reads result (edit_given (view value.now)) (first (edit_faults (view value.now))) }
{
    let words = [
        "set", "key", "unkey", "flag", "point", "hold", "unhold", "parent", "driver", "undriver",
        "add", "remove", "modify", "unmodify",
    ];
    word_in(alloc, Member::Edit, &words, value)?;
    read_members(alloc, value)
}

fn read_members(alloc: Global, value: &Value) -> Result<Edit, SceneStop>
    ensures { Reads result (edit_given (view value.now)) (first (member_faults (view value.now))) }
{
    match text_at(value, Member::Edit) {
        "set" => read_set(alloc, value),
        "key" => read_key(alloc, value),
        "unkey" => read_unkey(alloc, value),
        "flag" => read_flag(alloc, value),
        "point" => read_point(alloc, value),
        "hold" => read_hold(alloc, value),
        "unhold" => read_unhold(alloc, value),
        "parent" => read_parent(alloc, value),
        "driver" => read_driver(alloc, value),
        "undriver" => read_undriver(alloc, value),
        "add" => read_add(alloc, value),
        "remove" => read_remove(alloc, value),
        "modify" => read_modify(alloc, value),
        _ => read_unmodify(alloc, value),
    }
}
