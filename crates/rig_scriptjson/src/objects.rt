//! Reads edits of objects, and of the switches of modifiers and layers.
ghost use Rattle.std.specs.Prelude.{◌≡◌, ◌++◌, ◌||◌, codes, false};
ghost use Rattle.serde_json.specs.View.{view};
ghost use Rattle.rig_edits.specs.declared.edit.Flag.TheVariants.{Switch, Hidden};
ghost use Rattle.rig_scenejson.specs.declared.member.Member.TheVariants as m;
ghost use Rattle.rig_scenejson.specs.Given.{has, text_at, truth_at, is_kind};
ghost use Rattle.rig_scenejson.specs.PassOne.{data_faults};
ghost use Rattle.rig_scenejson.specs.Tests.{Reads, first, required, optional};
ghost use Rattle.rig_scenejson.specs.Value.{name_faults};
ghost use Rattle.rig_scriptjson.specs.EditFaults.{new_parent_faults, flag_faults, hidden_faults, switch_faults, parent_faults, add_faults};
ghost use Rattle.rig_scriptjson.specs.EditGiven.{add_given, flag_given, hidden_given, kind_given};
ghost use Rattle.rig_scriptjson.specs.EditGiven.{mode_of, parent_given, remove_given, set_parent_given, switch_given};

use crate::members::{name_in, names_pencil, optional_name, truth_in, word_in};
use rig_edits::{Edit, Flag, NewKind, NewParent};
use rig_scene::Mode;
use rig_scenejson::{Member, SceneStop, field, is_kind, text_at};
use serde_json::Value;
use std::alloc::Global;

/// Reads the edit `flag`: whether a layer is hidden, or a modifier takes part in a mode.
pub(crate) fn read_flag(alloc: Global, value: &Value) -> Result<Edit, SceneStop>
    ensures { Reads result (flag_given (view value.now)) (first (flag_faults (view value.now))) }
{
    if names_pencil(value) {
        read_hidden(alloc, value)
    } else {
        read_switch(alloc, value)
    }
}

fn read_hidden(alloc: Global, value: &Value) -> Result<Edit, SceneStop>
    ensures { Reads result (hidden_given (view value.now)) (first (hidden_faults (view value.now))) }
{
    let pencil = name_in(alloc, Member::Pencil, value)?;
    let layer = name_in(alloc, Member::Layer, value)?;
    let on = truth_in(alloc, Member::On, value)?;
    Ok(Edit::SetFlag {
        flag: Flag::Hidden { pencil, layer },
        on,
    })
}

fn read_switch(alloc: Global, value: &Value) -> Result<Edit, SceneStop>
    ensures { Reads result (switch_given (view value.now)) (first (switch_faults (view value.now))) }
{
    let object = name_in(alloc, Member::Object, value)?;
    let modifier = name_in(alloc, Member::Modifier, value)?;
    word_in(alloc, Member::Switch, &["viewport", "render"], value)?;
    let on = truth_in(alloc, Member::On, value)?;
    let mode = mode_of(text_at(value, Member::Switch));
    Ok(Edit::SetFlag {
        flag: Flag::Switch {
            object,
            modifier,
            mode,
        },
        on,
    })
}

/// The mode of a word, which is one of the two.
pub(crate) fn mode_of(word: &str) -> Mode
    ensures { result ≡ mode_of word.now }
{
    if word == "viewport" {
        Mode::Viewport
    } else {
        Mode::Render
    }
}

/// Reads the edit `parent`: what carries an object, if anything.
pub(crate) fn read_parent(alloc: Global, value: &Value) -> Result<Edit, SceneStop>
    ensures { Reads result (set_parent_given (view value.now)) (first (parent_faults (view value.now))) }
{
    let object = name_in(alloc, Member::Object, value)?;
    let parent = read_new_parent(alloc, value)?;
    Ok(Edit::SetParent { object, parent })
}

fn read_new_parent(alloc: Global, value: &Value) -> Result<Option<NewParent>, SceneStop>
    ensures { Reads result (parent_given (view value.now))
        (first (new_parent_faults (view value.now))) }
{
    match field(value, Member::Parent) {
        Some(_) => {
            let object = name_in(alloc, Member::Parent, value)?;
            let bone = optional_name(alloc, Member::Bone, value)?;
            Ok(Some(NewParent { object, bone }))
        }
        None => Ok(None),
    }
}

/// Reads the edit `add`: a new object, and the name of its data.
pub(crate) fn read_add(alloc: Global, value: &Value) -> Result<Edit, SceneStop>
    ensures { Reads result (add_given (view value.now)) (first (add_faults (view value.now))) }
{
    let name = name_in(alloc, Member::Object, value)?;
    word_in(alloc, Member::Kind, &["empty", "armature", "pencil"], value)?;
    let kind = read_new_kind(alloc, value)?;
    Ok(Edit::AddObject { name, kind })
}

fn read_new_kind(alloc: Global, value: &Value) -> Result<NewKind, SceneStop>
    ensures { Reads result (kind_given (view value.now))
        (first (data_faults (view value.now))) }
{
    if is_kind("armature", value) {
        Ok(NewKind::Armature(name_in(alloc, Member::Data, value)?))
    } else if is_kind("pencil", value) {
        Ok(NewKind::Pencil(name_in(alloc, Member::Data, value)?))
    } else {
        Ok(NewKind::Empty)
    }
}

/// Reads the edit `remove`: an object to be removed.
pub(crate) fn read_remove(alloc: Global, value: &Value) -> Result<Edit, SceneStop>
    ensures { Reads result (remove_given (view value.now)) (first (required m.Object name_faults (view value.now))) }
{
    let object = name_in(alloc, Member::Object, value)?;
    Ok(Edit::RemoveObject { object })
}
