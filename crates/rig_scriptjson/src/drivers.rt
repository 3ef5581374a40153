//! Reads edits of drivers.
ghost use Rattle.std.specs.Prelude.{◌≡◌, ◌≤◌, IfOk, length, codes, false, is_some, true, unwrap_or};
ghost use Rattle.serde_json.specs.View.{view};
ghost use Rattle.rig_edits.specs.declared.edit.NewVariable.TheVariants.{Transform};
ghost use Rattle.rig_scene.specs.declared.limits.TheConstants.{MAX_VARIABLES};
ghost use Rattle.rig_scene.specs.Channel.{channel_named};
ghost use Rattle.rig_scenejson.specs.declared.member.Member.TheVariants as m;
ghost use Rattle.rig_scenejson.specs.Given.{text_at, items_at, values, path_given, channel_given, is_kind};
ghost use Rattle.rig_scenejson.specs.PassOne.{list_faults, variable_faults, transform_variable_faults, space_faults, after_any};
ghost use Rattle.rig_scenejson.specs.Tests.{Reads, first, required};
ghost use Rattle.rig_scenejson.specs.Value.{text_of, word_faults};
ghost use Rattle.rig_scriptjson.specs.EditFaults.{driver_faults, undriver_faults, kind_of_variable_faults};
ghost use Rattle.rig_scriptjson.specs.EditGiven.{transform_given, driver_given, driver_kind_given, id_given, name_at};
ghost use Rattle.rig_scriptjson.specs.EditGiven.{set_driver_given, undriver_given, variable_given, world_given};

use crate::lists::{ItemReader, items_in};
use crate::members::{id_in, name_in, optional_name, optional_word, path_in, word_in};
use rig_edits::{Edit, NewDriver, NewVariable};
use rig_io::List;
use rig_scene::limits::MAX_VARIABLES;
use rig_scene::{Channel, DriverKind};
use rig_scenejson::{
    Cause, Hop, Member, SceneStop, field, is_kind, is_record, stop_for, text_at, within,
};
use serde_json::Value;
use std::alloc::Global;

/// Reads the edit `driver`: a driver of a channel, with 1 to 8 variables.
pub(crate) fn read_driver(alloc: Global, value: &Value) -> Result<Edit, SceneStop>
    ensures { Reads result (set_driver_given (view value.now)) (first (driver_faults (view value.now))) }
{
    let id = id_in(alloc, value)?;
    let path = path_in(alloc, value)?;
    word_in(
        alloc,
        Member::Kind,
        &["average", "sum", "min", "max"],
        value,
    )?;
    let driver = read_new_driver(alloc, value)?;
    Ok(Edit::SetDriver { id, path, driver })
}

/// Reads the edit `undriver`: a channel that is to have no driver.
pub(crate) fn read_undriver(alloc: Global, value: &Value) -> Result<Edit, SceneStop>
    ensures { Reads result (undriver_given (view value.now)) (first (undriver_faults (view value.now))) }
{
    let id = id_in(alloc, value)?;
    let path = path_in(alloc, value)?;
    Ok(Edit::ClearDriver { id, path })
}

fn read_new_driver(alloc: Global, value: &Value) -> Result<NewDriver, SceneStop>
    ensures { Reads result (driver_given (view value.now))
        (first (required m.Variables (list_faults 1 MAX_VARIABLES variable_faults after_any tt) (view value.now))) }
{
    let variables = read_variables(alloc, value)?;
    Ok(NewDriver {
        kind: driver_kind_given(value),
        variables,
    })
}

fn driver_kind_given(value: &Value) -> DriverKind
    ensures { result ≡ driver_kind_given (view value.now) }
{
    match text_at(value, Member::Kind) {
        "average" => DriverKind::Average,
        "sum" => DriverKind::Sum,
        "min" => DriverKind::Min,
        _ => DriverKind::Max,
    }
}

fn read_variables(alloc: Global, value: &Value) -> Result<List<NewVariable>, SceneStop>
    ensures read { Reads result (values variable_given (items_at m.Variables (view value.now)))
        (first (required m.Variables (list_faults 1 MAX_VARIABLES variable_faults after_any tt) (view value.now))) }
    ensures count { IfOk result (λ variables. (1 ≤ length variables) × (length variables ≤ MAX_VARIABLES)) }
{
    let read = match field(value, Member::Variables) {
        Some(found) => items_in(alloc, 1, MAX_VARIABLES, &VariableReader, &mut (), found),
        None => Err(stop_for(alloc, Cause::Missing)),
    };
    within(alloc, Hop::Member(Member::Variables), read)
}

/// Reads a variable.
#[derive(Clone, Copy, Drop)]
struct VariableReader;

impl ItemReader for VariableReader {
    type Item = NewVariable;

    type Before = ();

    ghost gives = { variable_given };

    ghost faults = { λ _. variable_faults };

    ghost next = { after_any };

    #[tactic(auto, using(crate::proofs::First::first_append, crate::proofs::VariableKinds::other_kind))]
    fn read(&self, alloc: Global, _: &mut (), value: &Value) -> Result<NewVariable, SceneStop> {
        is_record(alloc, value)?;
        word_in(alloc, Member::Kind, &["property", "transform"], value)?;
        read_variable(alloc, value)
    }
}

fn read_variable(alloc: Global, value: &Value) -> Result<NewVariable, SceneStop>
    requires { is_kind (codes "property") (view value.now) ≡ false → is_kind (codes "transform") (view value.now) ≡ true }
    ensures { Reads result (variable_given (view value.now)) (first (kind_of_variable_faults (view value.now))) }
{
    if is_kind("property", value) {
        let id = id_in(alloc, value)?;
        let path = path_in(alloc, value)?;
        Ok(NewVariable::Property { id, path })
    } else {
        read_transform(alloc, value)
    }
}

fn read_transform(alloc: Global, value: &Value) -> Result<NewVariable, SceneStop>
    ensures { Reads result (transform_given (view value.now))
        (first (transform_variable_faults (view value.now))) }
{
    let object = name_in(alloc, Member::Object, value)?;
    let bone = optional_name(alloc, Member::Bone, value)?;
    let channel = channel_in(alloc, value)?;
    let world = world_in(alloc, value)?;
    Ok(NewVariable::Transform {
        object,
        bone,
        world,
        channel,
    })
}

/// The channel of a transform.
#[tactic(auto, using(crate::proofs::First::reads_moved))]
fn channel_in(alloc: Global, value: &Value) -> Result<Channel, SceneStop>
    ensures { Reads result (channel_given (view value.now))
        (first (required m.Channel (word_faults (λ s. is_some (channel_named s))) (view value.now))) }
{
    let read = match field(value, Member::Channel) {
        Some(found) => channel_of(alloc, found),
        None => Err(stop_for(alloc, Cause::Missing)),
    };
    within(alloc, Hop::Member(Member::Channel), read)
}

fn channel_of(alloc: Global, value: &Value) -> Result<Channel, SceneStop>
    ensures { Reads result (unwrap_or (channel_named (text_of (view value.now))) Channel.LocX)
        (first (word_faults (λ s. is_some (channel_named s)) (view value.now))) }
{
    let Some(word) = value.as_str() else {
        return Err(stop_for(alloc, Cause::WrongKind));
    };
    match Channel::of_word(word) {
        Some(channel) => Ok(channel),
        None => Err(stop_for(alloc, Cause::OutOfRange)),
    }
}

/// Whether the world transform is meant. The space is looked at only without a bone.
fn world_in(alloc: Global, value: &Value) -> Result<bool, SceneStop>
    ensures { Reads result (world_given (view value.now)) (first (space_faults (view value.now))) }
{
    if field(value, Member::Bone).is_some() {
        return Ok(true);
    }
    optional_word(alloc, Member::Space, &["world", "local"], value)?;
    Ok(text_at(value, Member::Space) != "local")
}
