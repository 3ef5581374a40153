//! What several records have: a transform, a path, an id, a list.
#![tactic(auto, using(crate::proofs::First::first_append))]

ghost use Rattle.std.specs.Prelude.{◌≡◌};
ghost use Rattle.serde_json.specs.View.{view};
ghost use Rattle.rig_scenejson.specs.Tests.{Tests, Reads, first, required};
ghost use Rattle.rig_scenejson.specs.Value.{item_count, items_of, text_of, name_faults};
ghost use Rattle.rig_scenejson.specs.Given.{items_at, text_at, is_kind, names_pencil, id_name, path_given};
ghost use Rattle.rig_scenejson.specs.PassOne.{path_faults, transform_faults, id_faults};

use crate::fault::{Cause, Hop, SceneStop, moved, stop_for};
use crate::leaves::{NUMBER, ROTATION, VECTOR};
use crate::member::Member;
use crate::test::optional;
use crate::value::{NameFault, PathFault, field, name, path};
use rig_scene::{Name, Path};
use serde_json::Value;
use std::alloc::Global;

/// The path of a record.
pub(crate) fn path_of(alloc: Global, value: &Value) -> Result<Path, SceneStop>
    ensures { Reads result (path_given (view value.now)) (first (path_faults (view value.now))) }
{
    match path(alloc, value) {
        Ok(path) => Ok(path),
        Err(PathFault::NoMemory) => Err(SceneStop::NoMemory),
        Err(PathFault::Fault { cause, member }) => {
            Err(moved(alloc, Hop::Member(member), stop_for(alloc, cause)))
        }
    }
}

/// Tests the location, the rotation and the scale of a record.
pub(crate) fn test_transform(alloc: Global, value: &Value) -> Result<(), SceneStop>
    ensures { Tests result (first (transform_faults (view value.now))) }
{
    optional(alloc, value, Member::Loc, &VECTOR, &mut ())?;
    optional(alloc, value, Member::Rot, &ROTATION, &mut ())?;
    optional(alloc, value, Member::Scale, &NUMBER, &mut ())
}

/// The name of an object, or of a pencil where no object is named, and whether it is a pencil's.
pub(crate) fn id_of(alloc: Global, value: &Value) -> Result<(bool, Name), SceneStop>
    ensures { Reads result (names_pencil (view value.now), id_name (view value.now)) (first (id_faults (view value.now))) }
{
    if names_pencil(value) {
        let pencil = required_name(alloc, value, Member::Pencil)?;
        Ok((true, pencil))
    } else {
        let object = required_name(alloc, value, Member::Object)?;
        Ok((false, object))
    }
}

/// Whether the id of a record is a pencil: no object is named, and a pencil is.
pub(crate) fn names_pencil(value: &Value) -> bool
    ensures { result ≡ names_pencil (view value.now) }
{
    field(value, Member::Object).is_none() && field(value, Member::Pencil).is_some()
}

fn required_name(alloc: Global, value: &Value, member: Member) -> Result<Name, SceneStop>
    ensures { Reads result (text_at member (view value.now)) (first (required member name_faults (view value.now))) }
{
    let Some(found) = field(value, member) else {
        let stop = stop_for(alloc, Cause::Missing);
        return Err(moved(alloc, Hop::Member(member), stop));
    };
    match name(alloc, found) {
        Ok(name) => Ok(name),
        Err(NameFault::NoMemory) => Err(SceneStop::NoMemory),
        Err(NameFault::Fault(cause)) => {
            let stop = stop_for(alloc, cause);
            Err(moved(alloc, Hop::Member(member), stop))
        }
    }
}

/// Whether the kind of a record is this word.
pub fn is_kind(word: &str, value: &Value) -> bool
    ensures { result ≡ is_kind word.now (view value.now) }
{
    text_at(value, Member::Kind) == word
}

/// The text of a member: the empty text where it is absent or no text.
pub fn text_at(value: &Value, member: Member) -> &str
    ensures { result.now ≡ text_at member (view value.now) }
{
    match field(value, member) {
        Some(found) => text_of(found),
        None => "",
    }
}

/// The text that a value is, else the empty one.
pub(crate) fn text_of(value: &Value) -> &str
    ensures { result.now ≡ text_of (view value.now) }
{
    value.as_str().unwrap_or("")
}

/// The number of items of a member: 0 where it is absent or no array.
pub(crate) fn item_count(value: &Value, member: Member) -> usize
    ensures { result ≡ item_count (items_at member (view value.now)) }
{
    match field(value, member) {
        Some(list) => array_len(list),
        None => 0,
    }
}

/// The number of items of an array: 0 for what is none.
#[tactic(auto, using(crate::proofs::Counts::item_count_of_view))]
pub(crate) fn array_len(value: &Value) -> usize
    ensures { result ≡ item_count (items_of (view value.now)) }
{
    match value.as_array() {
        Some(items) => items.len(),
        None => 0,
    }
}
