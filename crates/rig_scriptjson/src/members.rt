//! Reads members of an edit: names, whole numbers, truth values, words, ids and paths.
#![tactic(auto, using(crate::proofs::First::first_append, crate::proofs::First::reads_moved, crate::proofs::First::tests_moved))]

ghost use Rattle.std.specs.Prelude.{◌≡◌, ◌<◌, false, length, map, pos};
ghost use Rattle.serde_json.specs.View.{view, items_view};
ghost use Rattle.rig_scenejson.specs.Given.{text_at, truth_at, path_given};
ghost use Rattle.rig_scenejson.specs.PassOne.{id_faults, path_faults};
ghost use Rattle.rig_scenejson.specs.Tests.{Reads, Tests, first, in_item, required, optional};
ghost use Rattle.rig_scenejson.specs.Value.{whole_of, text_of, truth_of, item_at};
ghost use Rattle.rig_scenejson.specs.Value.{integer_faults, name_faults, truth_faults, word_faults, is_among};
ghost use Rattle.rig_scriptjson.specs.EditFaults.{is_of_layer, whole3_faults, whole_items_faults};
ghost use Rattle.rig_scriptjson.specs.EditGiven.{id_given, name_at, whole_at, whole3_at, whole3_items, whole3_of};

use rig_edits::{IdName, Whole3};
use rig_scene::{Name, Path};
use rig_scenejson::{
    Cause, Hop, Member, NameFault, PathFault, SceneStop, field, item_hop, name, path, stop_for,
    within,
};
use serde_json::Value;
use std::alloc::Global;

/// A name that has to be there.
pub(crate) fn name_in(alloc: Global, member: Member, value: &Value) -> Result<Name, SceneStop>
    ensures { Reads result (text_at member (view value.now)) (first (required member name_faults (view value.now))) }
{
    let read = match field(value, member) {
        Some(found) => name_of(alloc, found),
        None => Err(stop_for(alloc, Cause::Missing)),
    };
    within(alloc, Hop::Member(member), read)
}

/// A name that may be absent.
pub(crate) fn optional_name(
    alloc: Global,
    member: Member,
    value: &Value,
) -> Result<Option<Name>, SceneStop>
    ensures { Reads result (name_at member (view value.now)) (first (optional member name_faults (view value.now))) }
{
    match field(value, member) {
        Some(_) => Ok(Some(name_in(alloc, member, value)?)),
        None => Ok(None),
    }
}

fn name_of(alloc: Global, value: &Value) -> Result<Name, SceneStop>
    ensures { Reads result (text_of (view value.now)) (first (name_faults (view value.now))) }
{
    match name(alloc, value) {
        Ok(name) => Ok(name),
        Err(NameFault::NoMemory) => Err(SceneStop::NoMemory),
        Err(NameFault::Fault(cause)) => Err(stop_for(alloc, cause)),
    }
}

/// The path of the members `bone`, else `layer`, and `channel`.
pub(crate) fn path_in(alloc: Global, value: &Value) -> Result<Path, SceneStop>
    ensures { Reads result (path_given (view value.now)) (first (path_faults (view value.now))) }
{
    match path(alloc, value) {
        Ok(path) => Ok(path),
        Err(PathFault::NoMemory) => Err(SceneStop::NoMemory),
        Err(PathFault::Fault { cause, member }) => within(
            alloc,
            Hop::Member(member),
            Err(stop_for(alloc, cause)),
        ),
    }
}

/// An object, or a pencil where no object is named.
pub(crate) fn id_in(alloc: Global, value: &Value) -> Result<IdName, SceneStop>
    ensures { Reads result (id_given (view value.now)) (first (id_faults (view value.now))) }
{
    if names_pencil(value) {
        Ok(IdName::Pencil(name_in(alloc, Member::Pencil, value)?))
    } else {
        Ok(IdName::Object(name_in(alloc, Member::Object, value)?))
    }
}

/// Whether a pencil is named, and no object.
pub(crate) fn names_pencil(value: &Value) -> bool
    ensures { result ≡ is_of_layer (view value.now) }
{
    field(value, Member::Object).is_none() && field(value, Member::Pencil).is_some()
}

/// A whole number of 64 bits that has to be there.
pub(crate) fn whole_in(alloc: Global, member: Member, value: &Value) -> Result<i64, SceneStop>
    ensures { Reads result (whole_at (pos 0) member (view value.now)) (first (required member integer_faults (view value.now))) }
{
    let read = match field(value, member) {
        Some(found) => whole_of(alloc, found),
        None => Err(stop_for(alloc, Cause::Missing)),
    };
    within(alloc, Hop::Member(member), read)
}

/// A whole number that may be absent.
pub(crate) fn whole_or(
    alloc: Global,
    default: i64,
    member: Member,
    value: &Value,
) -> Result<i64, SceneStop>
    ensures { Reads result (whole_at default member (view value.now)) (first (optional member integer_faults (view value.now))) }
{
    match field(value, member) {
        Some(_) => whole_in(alloc, member, value),
        None => Ok(default),
    }
}

fn whole_of(alloc: Global, value: &Value) -> Result<i64, SceneStop>
    ensures { Reads result (whole_of (view value.now)) (first (integer_faults (view value.now))) }
{
    if !value.is_number() {
        return Err(stop_for(alloc, Cause::WrongKind));
    }
    match value.as_i64() {
        Some(number) => Ok(number),
        None => Err(stop_for(alloc, Cause::NotWhole)),
    }
}

/// Three whole numbers that have to be there.
pub(crate) fn whole3_in(alloc: Global, member: Member, value: &Value) -> Result<Whole3, SceneStop>
    ensures { Reads result (whole3_at member (view value.now)) (first (required member whole3_faults (view value.now))) }
{
    let read = match field(value, member) {
        Some(found) => whole3_of(alloc, found),
        None => Err(stop_for(alloc, Cause::Missing)),
    };
    within(alloc, Hop::Member(member), read)
}

/// Three whole numbers that may be absent: then they are 0.
pub(crate) fn whole3_or(alloc: Global, member: Member, value: &Value) -> Result<Whole3, SceneStop>
    ensures { Reads result (whole3_at member (view value.now)) (first (optional member whole3_faults (view value.now))) }
{
    match field(value, member) {
        Some(_) => whole3_in(alloc, member, value),
        None => Ok(Whole3 { x: 0, y: 0, z: 0 }),
    }
}

#[tactic(auto, using(crate::proofs::Items::item_count_of_view))]
fn whole3_of(alloc: Global, value: &Value) -> Result<Whole3, SceneStop>
    ensures { Reads result (whole3_of (view value.now)) (first (whole3_faults (view value.now))) }
{
    match value.as_array() {
        Some(items) if items.len() == 3 => whole_items(alloc, items.as_slice()),
        _ => Err(stop_for(alloc, Cause::WrongKind)),
    }
}

#[tactic(auto, using(crate::proofs::First::first_append, crate::proofs::Vectors::faults_of_three))]
fn whole_items(alloc: Global, items: &[Value]) -> Result<Whole3, SceneStop>
    requires { length items.now ≡ 3 }
    ensures { Reads result (whole3_items (items_view items.now)) (first (whole_items_faults (items_view items.now))) }
{
    let x = whole_item(alloc, 0, items)?;
    let y = whole_item(alloc, 1, items)?;
    let z = whole_item(alloc, 2, items)?;
    Ok(Whole3 { x, y, z })
}

#[tactic(auto, using(crate::proofs::First::reads_moved, crate::proofs::Vectors::item_there))]
fn whole_item(alloc: Global, index: usize, items: &[Value]) -> Result<i64, SceneStop>
    requires { index < length items.now }
    ensures { Reads result (whole_of (item_at index (items_view items.now)))
        (first (in_item index (integer_faults (item_at index (items_view items.now))))) }
{
    within(alloc, item_hop(index), whole_of(alloc, &items[index]))
}

/// A truth value that has to be there.
pub(crate) fn truth_in(alloc: Global, member: Member, value: &Value) -> Result<bool, SceneStop>
    ensures { Reads result (truth_at false member (view value.now)) (first (required member truth_faults (view value.now))) }
{
    let read = match field(value, member) {
        Some(found) => truth_of(alloc, found),
        None => Err(stop_for(alloc, Cause::Missing)),
    };
    within(alloc, Hop::Member(member), read)
}

/// A truth value that may be absent.
pub(crate) fn truth_or(
    alloc: Global,
    default: bool,
    member: Member,
    value: &Value,
) -> Result<bool, SceneStop>
    ensures { Reads result (truth_at default member (view value.now)) (first (optional member truth_faults (view value.now))) }
{
    match field(value, member) {
        Some(_) => truth_in(alloc, member, value),
        None => Ok(default),
    }
}

fn truth_of(alloc: Global, value: &Value) -> Result<bool, SceneStop>
    ensures { Reads result (truth_of (view value.now)) (first (truth_faults (view value.now))) }
{
    match value.as_bool() {
        Some(truth) => Ok(truth),
        None => Err(stop_for(alloc, Cause::WrongKind)),
    }
}

/// Tests that a member that has to be there is one of some words.
pub(crate) fn word_in(
    alloc: Global,
    member: Member,
    words: &[&str],
    value: &Value,
) -> Result<(), SceneStop>
    ensures { Tests result (first (required member (word_faults (is_among (map (λ w. w.now) words.now))) (view value.now))) }
{
    let read = match field(value, member) {
        Some(found) => word_of(alloc, words, found),
        None => Err(stop_for(alloc, Cause::Missing)),
    };
    within(alloc, Hop::Member(member), read)
}

/// Tests that a member is one of some words, where it is there.
pub(crate) fn optional_word(
    alloc: Global,
    member: Member,
    words: &[&str],
    value: &Value,
) -> Result<(), SceneStop>
    ensures { Tests result (first (optional member (word_faults (is_among (map (λ w. w.now) words.now))) (view value.now))) }
{
    match field(value, member) {
        Some(_) => word_in(alloc, member, words, value),
        None => Ok(()),
    }
}

/// Tests that a value is one of some words.
pub(crate) fn word_of(alloc: Global, words: &[&str], value: &Value) -> Result<(), SceneStop>
    ensures { Tests result (first (word_faults (is_among (map (λ w. w.now) words.now)) (view value.now))) }
{
    match value.as_str() {
        Some(text) if is_among(words, text) => Ok(()),
        Some(_) => Err(stop_for(alloc, Cause::OutOfRange)),
        None => Err(stop_for(alloc, Cause::WrongKind)),
    }
}

fn is_among(words: &[&str], text: &str) -> bool
    ensures { result ≡ is_among (map (λ w. w.now) words.now) text.now }
{
    words.iter().any(|word| text == *word)
}
