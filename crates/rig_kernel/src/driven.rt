//! The driven channels among the inputs of an operation.
ghost use Rattle.std.specs.Prelude.{◌≡◌, ◌≤◌, ◌+◌, ◌-◌, drop, false, slice_get};
ghost use Rattle.std.specs.Option.{option_map_or};
ghost use Rattle.rig_scene.specs.Value.{number_in};
ghost use Rattle.rig_kernel.specs.Driven.{channel_place, axis_place, path_place, driven_among, is_driver, driver_count};
ghost use Rattle.rig_kernel.specs.Values.{value_of};

use crate::inputs::Inputs;
use crate::value::Value;
use rig_fixed::Fx;
use rig_scene::{Axis, Channel, OpId, Path};

/// The place of a channel among the eight.
pub(crate) fn channel_place(channel: Channel) -> u32
    ensures { result ≡ channel_place channel }
{
    match channel {
        Channel::LocX => 0,
        Channel::LocY => 1,
        Channel::LocZ => 2,
        Channel::RotW => 3,
        Channel::RotX => 4,
        Channel::RotY => 5,
        Channel::RotZ => 6,
        Channel::Scale => 7,
    }
}

/// The place of an axis among the three.
pub(crate) fn axis_place(axis: Axis) -> u32
    ensures { result ≡ axis_place axis }
{
    match axis {
        Axis::X => 0,
        Axis::Y => 1,
        Axis::Z => 2,
    }
}

fn path_place(path: &Path) -> u32
    ensures { result ≡ path_place path.now }
{
    match path {
        Path::Own(channel) | Path::Bone(_, channel) => channel_place(*channel),
        Path::Layer(_, axis) => axis_place(*axis),
    }
}

/// The number of a value, 0 where it is none.
pub(crate) fn number_in(value: &Value) -> Fx
    ensures { result ≡ number_in (value_of value.now) }
{
    match value {
        Value::Number(number) => *number,
        _ => Fx::ZERO,
    }
}

/// The number of the driver of the channel of a place, among so many inputs at most from an index on. The drivers end at the first
/// input that is none.
pub(crate) fn driven_among<I: Inputs>(
    inputs: &I,
    from: usize,
    most: usize,
    place: u32,
) -> Option<Fx>
    requires from { from ≤ 8 }
    requires few { most ≤ 8 }
    ensures { result ≡ driven_among most (drop from (I.list inputs.now)) place }
{
    driven_until(inputs, from, from + most, place)
}

fn driven_until<I: Inputs>(inputs: &I, from: usize, end: usize, place: u32) -> Option<Fx>
    requires { from ≤ end }
    ensures { result ≡ driven_among (end - from) (drop from (I.list inputs.now)) place }
{
    for index in from..end {
        let Some(out) = inputs.get(index) else {
            return None;
        };
        let OpId::Driver(_, path) = out.op() else {
            return None;
        };
        if path_place(path) == place {
            return Some(number_in(out.value()));
        }
    }
    None
}

/// How many drivers stand first among the inputs from an index on, of so many at most.
pub(crate) fn driver_count<I: Inputs>(inputs: &I, from: usize, most: usize) -> usize
    requires from { from ≤ 8 }
    requires few { most ≤ 8 }
    ensures count { result ≡ driver_count most (drop from (I.list inputs.now)) }
    ensures few { result ≤ most }
{
    let end = drivers_end(inputs, from, from + most);
    end - from
}

// The index of the first input from an index on that is no driver.
fn drivers_end<I: Inputs>(inputs: &I, from: usize, end: usize) -> usize
    requires { from ≤ end }
    ensures value { result ≡ from + driver_count (end - from) (drop from (I.list inputs.now)) }
    ensures least { from ≤ result }
    ensures most { result ≤ end }
{
    for index in from..end {
        if !is_driver_at(inputs, index) {
            return index;
        }
    }
    end
}

fn is_driver_at<I: Inputs>(inputs: &I, index: usize) -> bool
    ensures { result ≡ option_map_or (λ out. is_driver out.op) (slice_get (I.list inputs.now) index) false }
{
    match inputs.get(index) {
        Some(out) => matches!(out.op(), OpId::Driver(_, _)),
        None => false,
    }
}
