//! What one JSON value holds: members, numbers, texts and names.
ghost use Rattle.std.specs.Prelude.{◌≡◌, ◌++◌, is_some, option_map, unwrap_or};
ghost use Rattle.serde_json.specs.View.{view};
ghost use Rattle.rig_scene.specs.Channel.{channel_named, axis_named};
ghost use Rattle.rig_scenejson.specs.Tests.{field, Decides, first, in_member};
ghost use Rattle.rig_scenejson.specs.Value.{whole_of, text_of, whole_faults, name_faults, word_faults};
ghost use Rattle.rig_scenejson.specs.Given.{channel_given, axis_given};
ghost use Rattle.rig_scenejson.specs.Paths.{NameAnswer, PathAnswer, ReadsMembers, channel_faults, axis_faults};

use crate::fault::Cause;
use crate::member::Member;
use rig_io::NoMemory;
use rig_scene::{Axis, Channel, Name, NameStop, Path};
use serde_json::Value;
use std::alloc::Global;

/// A member of a record: `None` where it is absent, is null, or the value is no JSON object.
#[tactic(auto, unfolding(crate::specs::Tests::field))]
pub fn field(value: &Value, member: Member) -> Option<&Value>
    ensures { option_map (λ v. view v.now) result ≡ field member (view value.now) }
{
    value.get(member.word()).filter(|found| !found.is_null())
}

/// A whole number from the least to the most.
///
/// # Errors
///
/// The first that holds: [`Cause::WrongKind`] where the value is no number, [`Cause::NotWhole`] where it isn't whole or is beyond
/// 64 bits, as also `1.0` and `-0`, [`Cause::OutOfRange`] where it is less than the least or more than the most.
pub fn number(value: &Value, least: i64, most: i64) -> Result<i64, Cause>
    ensures { Decides result (whole_of (view value.now)) (whole_faults least most (view value.now)) }
{
    if !value.is_number() {
        return Err(Cause::WrongKind);
    }
    let Some(number) = value.as_i64() else {
        return Err(Cause::NotWhole);
    };
    if number < least || most < number {
        return Err(Cause::OutOfRange);
    }
    Ok(number)
}

/// Why a value gave no name.
#[derive(Clone, Copy, Debug, PartialEq, Eq)]
pub enum NameFault {
    /// Memory was refused.
    NoMemory,
    /// The value isn't a text, or not a name.
    Fault(Cause),
}

/// A name.
///
/// # Errors
///
/// [`Cause::WrongKind`] where the value is no text, [`Cause::BadName`] where the text is no name ([`Name::is_name`]).
/// [`NameFault::NoMemory`] where it is one and memory is refused.
pub fn name(alloc: Global, value: &Value) -> Result<Name, NameFault>
    ensures { NameAnswer result (view value.now) }
{
    let Some(text) = value.as_str() else {
        return Err(NameFault::Fault(Cause::WrongKind));
    };
    match Name::of(alloc, text.as_bytes()) {
        Ok(name) => Ok(name),
        Err(NameStop::NoMemory) => Err(NameFault::NoMemory),
        Err(NameStop::BadName) => Err(NameFault::Fault(Cause::BadName)),
    }
}

/// Why a record gave no path.
#[derive(Clone, Copy, Debug, PartialEq, Eq)]
pub enum PathFault {
    /// Memory was refused.
    NoMemory,
    /// What is wrong with one of the record's members.
    Fault { cause: Cause, member: Member },
}

/// The path of a record's members `bone`, else `layer`, and `channel`.
///
/// # Errors
///
/// The first that holds: [`Cause::WrongKind`] or [`Cause::BadName`] at `bone`, or at `layer` where there is no bone;
/// [`Cause::Missing`], [`Cause::WrongKind`] or [`Cause::OutOfRange`] at `channel`. [`PathFault::NoMemory`] where memory is refused.
pub fn path(alloc: Global, value: &Value) -> Result<Path, PathFault>
    ensures { PathAnswer result (view value.now) }
{
    if let Some(bone) = field(value, Member::Bone) {
        return bone_path(alloc, value, bone);
    }
    match field(value, Member::Layer) {
        Some(layer) => layer_path(alloc, value, layer),
        None => own_path(value),
    }
}

// The path of a record with a bone.
fn bone_path(alloc: Global, value: &Value, bone: &Value) -> Result<Path, PathFault>
    ensures { ReadsMembers result (Path.Bone (text_of (view bone.now)) (channel_given (view value.now)))
        (first (in_member Member.Bone (name_faults (view bone.now)) ++ channel_faults (view value.now))) }
{
    match path_name(alloc, Member::Bone, bone) {
        Ok(name) => match channel(value) {
            Ok(channel) => Ok(Path::Bone(name, channel)),
            Err(fault) => Err(fault),
        },
        Err(fault) => Err(fault),
    }
}

// The path of a record with a layer and no bone.
fn layer_path(alloc: Global, value: &Value, layer: &Value) -> Result<Path, PathFault>
    ensures { ReadsMembers result (Path.Layer (text_of (view layer.now)) (axis_given (view value.now)))
        (first (in_member Member.Layer (name_faults (view layer.now)) ++ axis_faults (view value.now))) }
{
    match path_name(alloc, Member::Layer, layer) {
        Ok(name) => match axis(value) {
            Ok(axis) => Ok(Path::Layer(name, axis)),
            Err(fault) => Err(fault),
        },
        Err(fault) => Err(fault),
    }
}

// The path of a record with neither.
fn own_path(value: &Value) -> Result<Path, PathFault>
    ensures { ReadsMembers result (Path.Own (channel_given (view value.now))) (first (channel_faults (view value.now))) }
{
    match channel(value) {
        Ok(channel) => Ok(Path::Own(channel)),
        Err(fault) => Err(fault),
    }
}

// The name that a member is.
fn path_name(alloc: Global, member: Member, value: &Value) -> Result<Name, PathFault>
    ensures { ReadsMembers result (text_of (view value.now)) (first (in_member member (name_faults (view value.now)))) }
{
    match name(alloc, value) {
        Ok(name) => Ok(name),
        Err(NameFault::NoMemory) => Err(PathFault::NoMemory),
        Err(NameFault::Fault(cause)) => Err(PathFault::Fault { cause, member }),
    }
}

// The channel of a record.
fn channel(value: &Value) -> Result<Channel, PathFault>
    ensures { ReadsMembers result (channel_given (view value.now)) (first (channel_faults (view value.now))) }
{
    match field(value, Member::Channel) {
        Some(word) => match channel_of(word) {
            Ok(channel) => Ok(channel),
            Err(cause) => Err(at_channel(cause)),
        },
        None => Err(at_channel(Cause::Missing)),
    }
}

// The axis of a record with a layer.
fn axis(value: &Value) -> Result<Axis, PathFault>
    ensures { ReadsMembers result (axis_given (view value.now)) (first (axis_faults (view value.now))) }
{
    match field(value, Member::Channel) {
        Some(word) => match axis_of(word) {
            Ok(axis) => Ok(axis),
            Err(cause) => Err(at_channel(cause)),
        },
        None => Err(at_channel(Cause::Missing)),
    }
}

// The channel that a text is the word of.
fn channel_of(value: &Value) -> Result<Channel, Cause>
    ensures { Decides result (unwrap_or (channel_named (text_of (view value.now))) Channel.LocX)
        (word_faults (λ s. is_some (channel_named s)) (view value.now)) }
{
    match value.as_str() {
        Some(word) => Channel::of_word(word).ok_or(Cause::OutOfRange),
        None => Err(Cause::WrongKind),
    }
}

// The axis that a text is the word of.
fn axis_of(value: &Value) -> Result<Axis, Cause>
    ensures { Decides result (unwrap_or (axis_named (text_of (view value.now))) Axis.X)
        (word_faults (λ s. is_some (axis_named s)) (view value.now)) }
{
    match value.as_str() {
        Some(word) => Axis::of_word(word).ok_or(Cause::OutOfRange),
        None => Err(Cause::WrongKind),
    }
}

fn at_channel(cause: Cause) -> PathFault
    ensures { result ≡ PathFault.Fault cause Member.Channel }
{
    PathFault::Fault {
        cause,
        member: Member::Channel,
    }
}
