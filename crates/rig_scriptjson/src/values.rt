//! Reads edits of values and of keys of curves.
ghost use Rattle.std.specs.Prelude.{◌≡◌, pos};
ghost use Rattle.serde_json.specs.View.{view};
ghost use Rattle.rig_scenejson.specs.declared.member.Member.TheVariants as m;
ghost use Rattle.rig_scenejson.specs.Given.{text_at, path_given};
ghost use Rattle.rig_scenejson.specs.Tests.{Reads, first};
ghost use Rattle.rig_scriptjson.specs.EditFaults.{set_faults, key_faults, unkey_faults};
ghost use Rattle.rig_scriptjson.specs.EditGiven.{id_given, interp_given, key_given, set_given, unkey_given, whole_at};

use crate::members::{id_in, name_in, optional_word, path_in, whole_in};
use rig_edits::Edit;
use rig_scene::Interp;
use rig_scenejson::{Member, SceneStop, text_at};
use serde_json::Value;
use std::alloc::Global;

/// Reads the edit `set`: the number of a channel.
pub(crate) fn read_set(alloc: Global, value: &Value) -> Result<Edit, SceneStop>
    ensures { Reads result (set_given (view value.now)) (first (set_faults (view value.now))) }
{
    let id = id_in(alloc, value)?;
    let path = path_in(alloc, value)?;
    let value = whole_in(alloc, Member::Value, value)?;
    Ok(Edit::SetValue { id, path, value })
}

/// Reads the edit `key`: a key of a curve, or a new number at its frame.
pub(crate) fn read_key(alloc: Global, value: &Value) -> Result<Edit, SceneStop>
    ensures { Reads result (key_given (view value.now)) (first (key_faults (view value.now))) }
{
    let action = name_in(alloc, Member::Action, value)?;
    let path = path_in(alloc, value)?;
    let frame = whole_in(alloc, Member::Frame, value)?;
    let number = whole_in(alloc, Member::Value, value)?;
    optional_word(alloc, Member::Interp, &["constant", "linear"], value)?;
    Ok(Edit::SetKey {
        action,
        path,
        frame,
        value: number,
        interp: interp_given(value),
    })
}

// How a key goes on to the next, linear where nothing is said.
fn interp_given(value: &Value) -> Interp
    ensures { result ≡ interp_given (view value.now) }
{
    if text_at(value, Member::Interp) == "constant" {
        Interp::Constant
    } else {
        Interp::Linear
    }
}

/// Reads the edit `unkey`: a key of a curve to be deleted.
pub(crate) fn read_unkey(alloc: Global, value: &Value) -> Result<Edit, SceneStop>
    ensures { Reads result (unkey_given (view value.now)) (first (unkey_faults (view value.now))) }
{
    let action = name_in(alloc, Member::Action, value)?;
    let path = path_in(alloc, value)?;
    let frame = whole_in(alloc, Member::Frame, value)?;
    Ok(Edit::DeleteKey {
        action,
        path,
        frame,
    })
}
