//! The numbers of channels: what their drivers give, else their curves, else the original numbers.
ghost use Rattle.std.specs.Prelude.{◌≡◌, ◌≤◌, [], drop, is_some, if◌then◌else◌, option_and_then};
ghost use Rattle.std.specs.Option.{option_copied, option_map_or};
ghost use Rattle.rig_scene.specs.declared.channel.Channel.{Channel};
ghost use Rattle.rig_scene.specs.declared.path.Path.TheVariants.{Own};
ghost use Rattle.rig_scene.specs.Channel.{channel_of, coordinate_of};
ghost use Rattle.rig_scene.specs.ChannelNumber.{number_by};
ghost use Rattle.rig_kernel.specs.ChannelCurves.{channel_curve, axis_curve};
ghost use Rattle.rig_kernel.specs.Driven.{channel_place, axis_place, driven_among, curve_number, channels_from, offset_from};
ghost use Rattle.rig_laws.specs.Output.{numbers_at};
ghost use Rattle.rig_kernel.specs.Tables.{curve_at};

use crate::channel_curves::{AxisCurves, ChannelCurves};
use crate::driven::{axis_place, channel_place, driven_among};
use crate::inputs::{Inputs, numbers_at};
use crate::tables::SceneTables;
use rig_fixed::{Fx, Raw, V3};
use rig_scene::{Axis, Channel, Channels};

/// What the curves of an id's action give, where the input of an index is that of its animation if it has an action.
pub(crate) fn animation_numbers<'a, I: Inputs>(
    inputs: &'a I,
    index: usize,
    action: Option<u32>,
) -> &'a [Option<Fx>]
    ensures { result.now ≡ (if is_some action then numbers_at (I.list inputs.now) index else []) }
{
    match action {
        Some(_) => numbers_at(inputs, index),
        None => &[],
    }
}

/// How many inputs an id's animation takes.
pub(crate) fn animation_count(action: Option<u32>) -> usize
    ensures count { result ≡ option_map_or (λ a. 1) action 0 }
    ensures few { result ≤ 1 }
{
    match action {
        Some(_) => 1,
        None => 0,
    }
}

/// The curves of an action for an object's own channels.
pub(crate) fn own_curves<'a>(
    tables: &'a SceneTables,
    action: Option<u32>,
) -> Option<&'a ChannelCurves>
    ensures { (channel : Channel) → option_and_then (λ c. channel_curve c channel) (option_copied result)
        ≡ option_and_then (λ a. curve_at tables.now a (Own channel)) action }
{
    match tables.actions.as_slice().get(action? as usize) {
        Some(curves) => Some(&curves.own),
        None => None,
    }
}

/// Eight numbers: each by its driver among so many inputs from an index on, else by its curve, else the base one.
pub(crate) fn channels_from<I: Inputs>(
    base: &Channels,
    curves: Option<&ChannelCurves>,
    numbers: &[Option<Fx>],
    inputs: &I,
    from: usize,
    drivers: usize,
) -> Channels
    requires from { from ≤ 8 }
    requires drivers { drivers ≤ 8 }
    ensures { result ≡ channels_from (λ channel. option_and_then (λ c. channel_curve c channel) (option_copied curves.entry))
        numbers.now drivers (drop from (I.list inputs.now)) base.now }
{
    if drivers == 0 && curves.is_none() {
        return *base;
    }
    Channels {
        loc: V3 {
            x: channel_number(base, curves, numbers, inputs, from, drivers, Channel::LocX),
            y: channel_number(base, curves, numbers, inputs, from, drivers, Channel::LocY),
            z: channel_number(base, curves, numbers, inputs, from, drivers, Channel::LocZ),
        },
        rot: Raw {
            w: channel_number(base, curves, numbers, inputs, from, drivers, Channel::RotW),
            x: channel_number(base, curves, numbers, inputs, from, drivers, Channel::RotX),
            y: channel_number(base, curves, numbers, inputs, from, drivers, Channel::RotY),
            z: channel_number(base, curves, numbers, inputs, from, drivers, Channel::RotZ),
        },
        scale: channel_number(base, curves, numbers, inputs, from, drivers, Channel::Scale),
    }
}

fn channel_number<I: Inputs>(
    base: &Channels,
    curves: Option<&ChannelCurves>,
    numbers: &[Option<Fx>],
    inputs: &I,
    from: usize,
    drivers: usize,
    channel: Channel,
) -> Fx
    requires from { from ≤ 8 }
    requires drivers { drivers ≤ 8 }
    ensures { result ≡ number_by (driven_among drivers (drop from (I.list inputs.now)) (channel_place channel))
        (curve_number numbers.now (option_and_then (λ c. channel_curve c channel) (option_copied curves.entry)))
        (channel_of base.now channel) }
{
    let driven = driven_among(inputs, from, drivers, channel_place(channel));
    let animated = channel_curve_number(curves, numbers, channel);
    number_by(driven, animated, base.get(channel))
}

fn channel_curve_number(
    curves: Option<&ChannelCurves>,
    numbers: &[Option<Fx>],
    channel: Channel,
) -> Option<Fx>
    ensures { result ≡ curve_number numbers.now (option_and_then (λ c. channel_curve c channel) (option_copied curves.entry)) }
{
    curve_number(numbers, curves?.get(channel))
}

/// What a driver gives, else what a curve gives, else the original number.
pub(crate) fn number_by(driven: Option<Fx>, animated: Option<Fx>, original: Fx) -> Fx
    ensures { result ≡ number_by driven animated original }
{
    match driven {
        Some(number) => number,
        None => animated.unwrap_or(original),
    }
}

/// What the curve of an index gives.
pub(crate) fn curve_number(numbers: &[Option<Fx>], curve: Option<u32>) -> Option<Fx>
    ensures { result ≡ curve_number numbers.now curve }
{
    match numbers.get(curve? as usize) {
        Some(number) => *number,
        None => None,
    }
}

/// Three numbers, likewise.
pub(crate) fn offset_from<I: Inputs>(
    original: &V3,
    curves: Option<&AxisCurves>,
    numbers: &[Option<Fx>],
    inputs: &I,
    from: usize,
    drivers: usize,
) -> V3
    requires from { from ≤ 8 }
    requires drivers { drivers ≤ 8 }
    ensures { result ≡ offset_from (λ axis. option_and_then (λ c. axis_curve c axis) (option_copied curves.entry))
        numbers.now drivers (drop from (I.list inputs.now)) original.now }
{
    V3 {
        x: axis_number(original, curves, numbers, inputs, from, drivers, Axis::X),
        y: axis_number(original, curves, numbers, inputs, from, drivers, Axis::Y),
        z: axis_number(original, curves, numbers, inputs, from, drivers, Axis::Z),
    }
}

fn axis_number<I: Inputs>(
    original: &V3,
    curves: Option<&AxisCurves>,
    numbers: &[Option<Fx>],
    inputs: &I,
    from: usize,
    drivers: usize,
    axis: Axis,
) -> Fx
    requires from { from ≤ 8 }
    requires drivers { drivers ≤ 8 }
    ensures { result ≡ number_by (driven_among drivers (drop from (I.list inputs.now)) (axis_place axis))
        (curve_number numbers.now (option_and_then (λ c. axis_curve c axis) (option_copied curves.entry)))
        (coordinate_of original.now axis) }
{
    let driven = driven_among(inputs, from, drivers, axis_place(axis));
    let animated = axis_curve_number(curves, numbers, axis);
    number_by(driven, animated, axis.coordinate_of(original))
}

fn axis_curve_number(curves: Option<&AxisCurves>, numbers: &[Option<Fx>], axis: Axis) -> Option<Fx>
    ensures { result ≡ curve_number numbers.now (option_and_then (λ c. axis_curve c axis) (option_copied curves.entry)) }
{
    curve_number(numbers, curves?.get(axis))
}
