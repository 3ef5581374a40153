//! The curves of what has several channels: of an object or a bone, and of a layer's offset.
ghost use Rattle.std.specs.Prelude.{◌≡◌, true, Some, None};
ghost use Rattle.rig_scene.specs.declared.channel.Axis.{Axis};
ghost use Rattle.rig_scene.specs.declared.channel.Channel.{Channel};
ghost use Rattle.rig_scene.specs.Channel.{same_channel, same_axis};
ghost use Rattle.rig_kernel.specs.ChannelCurves.{channel_curve, axis_curve, found_or};

use rig_scene::{Axis, Channel};

/// The index of the curve of each of the eight channels in an action, where it has one.
#[derive(Clone, Copy)]
pub struct ChannelCurves {
    pub(crate) loc_x: Option<u32>,
    pub(crate) loc_y: Option<u32>,
    pub(crate) loc_z: Option<u32>,
    pub(crate) rot_w: Option<u32>,
    pub(crate) rot_x: Option<u32>,
    pub(crate) rot_y: Option<u32>,
    pub(crate) rot_z: Option<u32>,
    pub(crate) scale: Option<u32>,
}

impl ChannelCurves {
    /// The index of the curve of a channel.
    pub fn get(&self, channel: Channel) -> Option<u32>
        ensures { result ≡ channel_curve self.now channel }
    {
        match channel {
            Channel::LocX => self.loc_x,
            Channel::LocY => self.loc_y,
            Channel::LocZ => self.loc_z,
            Channel::RotW => self.rot_w,
            Channel::RotX => self.rot_x,
            Channel::RotY => self.rot_y,
            Channel::RotZ => self.rot_z,
            Channel::Scale => self.scale,
        }
    }

    /// No curves.
    pub(crate) fn none() -> ChannelCurves
        ensures { (channel : Channel) → channel_curve result channel ≡ None }
    {
        ChannelCurves {
            loc_x: None,
            loc_y: None,
            loc_z: None,
            rot_w: None,
            rot_x: None,
            rot_y: None,
            rot_z: None,
            scale: None,
        }
    }

    /// These curves, and that of a channel that has none yet.
    pub(crate) fn with(self, channel: Channel, index: u32) -> ChannelCurves
        ensures { (c : Channel) → channel_curve result c ≡ found_or (channel_curve self c) (same_channel channel c) index }
    {
        match channel {
            Channel::LocX => ChannelCurves {
                loc_x: or(self.loc_x, index),
                ..self
            },
            Channel::LocY => ChannelCurves {
                loc_y: or(self.loc_y, index),
                ..self
            },
            Channel::LocZ => ChannelCurves {
                loc_z: or(self.loc_z, index),
                ..self
            },
            Channel::RotW => ChannelCurves {
                rot_w: or(self.rot_w, index),
                ..self
            },
            Channel::RotX => ChannelCurves {
                rot_x: or(self.rot_x, index),
                ..self
            },
            Channel::RotY => ChannelCurves {
                rot_y: or(self.rot_y, index),
                ..self
            },
            Channel::RotZ => ChannelCurves {
                rot_z: or(self.rot_z, index),
                ..self
            },
            Channel::Scale => ChannelCurves {
                scale: or(self.scale, index),
                ..self
            },
        }
    }
}

/// The index of the curve of each axis of a layer's offset in an action, where it has one.
#[derive(Clone, Copy)]
pub struct AxisCurves {
    pub(crate) x: Option<u32>,
    pub(crate) y: Option<u32>,
    pub(crate) z: Option<u32>,
}

impl AxisCurves {
    /// The index of the curve of an axis.
    pub fn get(&self, axis: Axis) -> Option<u32>
        ensures { result ≡ axis_curve self.now axis }
    {
        match axis {
            Axis::X => self.x,
            Axis::Y => self.y,
            Axis::Z => self.z,
        }
    }

    /// No curves.
    pub(crate) fn none() -> AxisCurves
        ensures { (axis : Axis) → axis_curve result axis ≡ None }
    {
        AxisCurves {
            x: None,
            y: None,
            z: None,
        }
    }

    /// These curves, and that of an axis that has none yet.
    pub(crate) fn with(self, axis: Axis, index: u32) -> AxisCurves
        ensures { (a : Axis) → axis_curve result a ≡ found_or (axis_curve self a) (same_axis axis a) index }
    {
        match axis {
            Axis::X => AxisCurves {
                x: or(self.x, index),
                ..self
            },
            Axis::Y => AxisCurves {
                y: or(self.y, index),
                ..self
            },
            Axis::Z => AxisCurves {
                z: or(self.z, index),
                ..self
            },
        }
    }
}

// What was found, or else an index.
fn or(found: Option<u32>, index: u32) -> Option<u32>
    ensures { result ≡ found_or found true index }
{
    match found {
        Some(found) => Some(found),
        None => Some(index),
    }
}
