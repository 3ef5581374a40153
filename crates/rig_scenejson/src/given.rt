//! What a value gives where its tests found no fault: numbers, words, names, and the records that refer to nothing. Where a
//! value gives nothing of its kind there is a default.
ghost use Rattle.std.specs.Prelude.{◌≡◌, ◌&&◌, pos, int_le, int_lt, IfOk};
ghost use Rattle.serde_json.specs.Data.{Data};
ghost use Rattle.serde_json.specs.View.{view, items_view};
ghost use Rattle.rig_scenejson.specs.declared.member.Member.TheVariants as m;
ghost use Rattle.rig_scenejson.specs.Value.{whole_of, fixed_of, truth_of, items_of, item_at, vector_of, rotation_of};
ghost use Rattle.rig_scenejson.specs.Given.{text_at, items_at, fixed_at, frame_at, natural_at, truth_at, vector_at, rotation_at};
ghost use Rattle.rig_scenejson.specs.Given.{channels_given, channel_given, axis_given, path_given, small, values};

use crate::member::Member;
use crate::pass_one::records::text_at;
use crate::value::field;
use rig_fixed::{Fx, Raw, V3};
use rig_io::{List, NoMemory};
use rig_scene::limits::{MAX_FRAME, MIN_FRAME};
use rig_scene::{Axis, Channel, Channels, Name, NameStop, Path};
use serde_json::Value;
use std::alloc::Global;

// ---- numbers and truth values

fn whole_of(value: &Value) -> i64
    ensures { result ≡ whole_of (view value.now) }
{
    value.as_i64().unwrap_or(0)
}

fn fixed_of(value: &Value) -> Fx
    ensures { result ≡ fixed_of (view value.now) }
{
    Fx::of_i64(whole_of(value))
}

/// A number of millionths.
pub(crate) fn fixed_at(default: Fx, member: Member, value: &Value) -> Fx
    ensures { result ≡ fixed_at default member (view value.now) }
{
    match field(value, member) {
        Some(found) => fixed_of(found),
        None => default,
    }
}

/// A frame, at the nearest limit where it is beyond one.
pub(crate) fn frame_at(member: Member, value: &Value) -> i32
    ensures { result ≡ frame_at member (view value.now) }
{
    match field(value, member) {
        Some(found) => {
            let frame = whole_of(found).min(i64::from(MAX_FRAME));
            frame.max(i64::from(MIN_FRAME)) as i32
        }
        None => 0,
    }
}

/// A number of 32 bits, 0 where it isn't one.
pub(crate) fn natural_at(member: Member, value: &Value) -> u32
    ensures { result ≡ natural_at member (view value.now) }
{
    match field(value, member) {
        Some(found) => small(whole_of(found)),
        None => 0,
    }
}

fn small(number: i64) -> u32
    ensures { result ≡ small number }
{
    if 0 <= number && number < 4_294_967_296 {
        number as u32
    } else {
        0
    }
}

/// Whether a value is a whole number from 0 that is less than this.
pub(crate) fn is_natural_below(count: usize, value: &Value) -> bool
    ensures { result ≡ (int_le (pos 0) (whole_of (view value.now)) && int_lt (whole_of (view value.now)) (pos count)) }
{
    let number = whole_of(value);
    0 <= number && (number as u64) < count as u64
}

/// A truth value.
pub(crate) fn truth_at(default: bool, member: Member, value: &Value) -> bool
    ensures { result ≡ truth_at default member (view value.now) }
{
    match field(value, member) {
        Some(found) => truth_of(found),
        None => default,
    }
}

fn truth_of(value: &Value) -> bool
    ensures { result ≡ truth_of (view value.now) }
{
    value.as_bool().unwrap_or(false)
}

// ---- items

/// The items of an array, none where it is no array.
pub fn items_of(value: &Value) -> &[Value]
    ensures { items_view result.now ≡ items_of (view value.now) }
{
    match value.as_array() {
        Some(items) => items.as_slice(),
        None => &[],
    }
}

/// The items of a member, none where it is absent or no array.
pub(crate) fn items_at(member: Member, value: &Value) -> &[Value]
    ensures { items_view result.now ≡ items_at member (view value.now) }
{
    match field(value, member) {
        Some(found) => items_of(found),
        None => &[],
    }
}

// ---- vectors and rotations

#[tactic(auto, using(crate::proofs::Slices::item_there, crate::proofs::Slices::item_absent))]
fn fixed_item(index: usize, items: &[Value]) -> Fx
    ensures { result ≡ fixed_of (item_at index (items_view items.now)) }
{
    match items.get(index) {
        Some(item) => fixed_of(item),
        None => Fx::ZERO,
    }
}

fn vector_of(value: &Value) -> V3
    ensures { result ≡ vector_of (view value.now) }
{
    let items = items_of(value);
    V3 {
        x: fixed_item(0, items),
        y: fixed_item(1, items),
        z: fixed_item(2, items),
    }
}

/// Three numbers: a location or an offset.
pub(crate) fn vector_at(member: Member, value: &Value) -> V3
    ensures { result ≡ vector_at member (view value.now) }
{
    match field(value, member) {
        Some(found) => vector_of(found),
        None => V3::ZERO,
    }
}

fn rotation_of(value: &Value) -> Raw
    ensures { result ≡ rotation_of (view value.now) }
{
    let items = items_of(value);
    Raw {
        w: fixed_item(0, items),
        x: fixed_item(1, items),
        y: fixed_item(2, items),
        z: fixed_item(3, items),
    }
}

/// The rotation that changes nothing.
pub(crate) const NO_ROTATION: Raw = Raw {
    w: Fx::ONE,
    x: Fx::ZERO,
    y: Fx::ZERO,
    z: Fx::ZERO,
};

fn rotation_at(member: Member, value: &Value) -> Raw
    ensures { result ≡ rotation_at member (view value.now) }
{
    match field(value, member) {
        Some(found) => rotation_of(found),
        None => NO_ROTATION,
    }
}

/// The location, the rotation and the scale of a record.
pub(crate) fn channels_given(value: &Value) -> Channels
    ensures { result ≡ channels_given (view value.now) }
{
    Channels {
        loc: vector_at(Member::Loc, value),
        rot: rotation_at(Member::Rot, value),
        scale: fixed_at(Fx::ONE, Member::Scale, value),
    }
}

// ---- names and paths

/// The name that a member is. The first pass found that it is one, so want of memory is what is told where it isn't.
pub(crate) fn name_at(alloc: Global, member: Member, value: &Value) -> Result<Name, NoMemory>
    ensures { IfOk result (λ name. name ≡ text_at member (view value.now)) }
{
    match Name::of(alloc, text_at(value, member).as_bytes()) {
        Ok(name) => Ok(name),
        Err(NameStop::NoMemory) | Err(NameStop::BadName) => Err(NoMemory),
    }
}

/// The channel of a transform.
pub(crate) fn channel_given(value: &Value) -> Channel
    ensures { result ≡ channel_given (view value.now) }
{
    Channel::of_word(text_at(value, Member::Channel)).unwrap_or(Channel::LocX)
}

fn axis_given(value: &Value) -> Axis
    ensures { result ≡ axis_given (view value.now) }
{
    Axis::of_word(text_at(value, Member::Channel)).unwrap_or(Axis::X)
}

/// The path of a record.
pub(crate) fn path_given(alloc: Global, value: &Value) -> Result<Path, NoMemory>
    ensures { IfOk result (λ path. path ≡ path_given (view value.now)) }
{
    if field(value, Member::Bone).is_some() {
        let bone = name_at(alloc, Member::Bone, value)?;
        Ok(Path::Bone(bone, channel_given(value)))
    } else if field(value, Member::Layer).is_some() {
        let layer = name_at(alloc, Member::Layer, value)?;
        Ok(Path::Layer(layer, axis_given(value)))
    } else {
        Ok(Path::Own(channel_given(value)))
    }
}

// ---- records that refer to nothing

/// What a value gives by itself, with no other record looked at.
pub(crate) trait Plain: Drop {
    ghost given: { Data → Self };

    fn given(alloc: Global, value: &Value) -> Result<Self, NoMemory>
        ensures { IfOk result (λ item. item ≡ given (view value.now)) };
}

impl Plain for V3 {
    ghost given = { vector_of };

    fn given(_: Global, value: &Value) -> Result<V3, NoMemory> {
        Ok(vector_of(value))
    }
}

/// The list that the items of a member give.
pub(crate) fn list_at<T: Plain>(
    alloc: Global,
    member: Member,
    value: &Value,
) -> Result<List<T>, NoMemory>
    ensures { IfOk result (λ list. list ≡ values T.given (items_at member (view value.now))) }
{
    values(alloc, items_at(member, value))
}

/// What items give, in room that is taken once.
pub(crate) fn values<T: Plain>(alloc: Global, items: &[Value]) -> Result<List<T>, NoMemory>
    ensures { IfOk result (λ list. list ≡ values T.given (items_view items.now)) }
{
    let mut list = Vec::with_capacity(alloc, items.len())?;
    for item in items {
        list.push_reserved(T::given(alloc, item)?);
    }
    Ok(List::from(list))
}
