//! Channels: the eight numbers of an object or of a bone's pose, the three of a layer's offset, and their words.
ghost use Rattle.std.specs.Prelude.{◌≡◌};
ghost use Rattle.std.specs.List.{find};
ghost use Rattle.std.specs.Option.{option_copied};
ghost use Rattle.rig_scene.specs.Channel.{channels, axes, channel_word, axis_word, channel_named, axis_named};
ghost use Rattle.rig_scene.specs.Text.{same_text};
ghost use Rattle.rig_scene.specs.Channel.{channel_of, with_channel, coordinate_of, with_coordinate, transform_number};

use rig_fixed::{Fx, Raw, V3, Xform};

/// One of the eight numbers of an object, or of a bone's pose.
#[derive(Clone, Copy, Debug, PartialEq, Eq, Hash)]
pub enum Channel {
    LocX,
    LocY,
    LocZ,
    RotW,
    RotX,
    RotY,
    RotZ,
    Scale,
}

/// An axis of a layer's offset.
#[derive(Clone, Copy, Debug, PartialEq, Eq, Hash)]
pub enum Axis {
    X,
    Y,
    Z,
}

/// The eight numbers as they were given, in millionths: nothing is evaluated yet, and the rotation has any length.
#[derive(Clone, Copy, Debug, PartialEq, Eq)]
pub struct Channels {
    pub loc: V3,
    pub rot: Raw,
    pub scale: Fx,
}

impl Channel {
    /// The eight channels in order.
    pub fn all() -> [Channel; 8]
        ensures { result ≡ channels }
    {
        [
            Channel::LocX,
            Channel::LocY,
            Channel::LocZ,
            Channel::RotW,
            Channel::RotX,
            Channel::RotY,
            Channel::RotZ,
            Channel::Scale,
        ]
    }

    /// The word of the channel, as `loc.x`.
    pub fn word(self) -> &'static str
        ensures { result.now ≡ channel_word self }
    {
        match self {
            Channel::LocX => "loc.x",
            Channel::LocY => "loc.y",
            Channel::LocZ => "loc.z",
            Channel::RotW => "rot.w",
            Channel::RotX => "rot.x",
            Channel::RotY => "rot.y",
            Channel::RotZ => "rot.z",
            Channel::Scale => "scale",
        }
    }

    /// Whether the word is the channel's.
    fn has_word(self, word: &str) -> bool
        ensures { result ≡ same_text (channel_word self) word.now }
    {
        self.word() == word
    }

    /// The channel of a word: `None` where no channel has it.
    pub fn of_word(word: &str) -> Option<Channel>
        ensures { result ≡ channel_named word.now }
    {
        channel_among(&Channel::all(), word).copied()
    }

    /// The number of a transform, in millionths.
    pub fn number_of(self, transform: &Xform) -> Fx
        ensures { result ≡ transform_number transform.now self }
    {
        match self {
            Channel::LocX => transform.loc.x,
            Channel::LocY => transform.loc.y,
            Channel::LocZ => transform.loc.z,
            Channel::RotW => Fx::new(transform.rot.w),
            Channel::RotX => Fx::new(transform.rot.x),
            Channel::RotY => Fx::new(transform.rot.y),
            Channel::RotZ => Fx::new(transform.rot.z),
            Channel::Scale => transform.scale,
        }
    }
}

impl Axis {
    /// The three axes in order.
    pub fn all() -> [Axis; 3]
        ensures { result ≡ axes }
    {
        [Axis::X, Axis::Y, Axis::Z]
    }

    /// The word of the axis of an offset, as `offset.x`.
    pub fn word(self) -> &'static str
        ensures { result.now ≡ axis_word self }
    {
        match self {
            Axis::X => "offset.x",
            Axis::Y => "offset.y",
            Axis::Z => "offset.z",
        }
    }

    /// Whether the word is the axis's.
    fn has_word(self, word: &str) -> bool
        ensures { result ≡ same_text (axis_word self) word.now }
    {
        self.word() == word
    }

    /// The axis of a word: `None` where no axis has it.
    pub fn of_word(word: &str) -> Option<Axis>
        ensures { result ≡ axis_named word.now }
    {
        axis_among(&Axis::all(), word).copied()
    }

    /// The coordinate on this axis, in millionths.
    pub fn coordinate_of(self, v: &V3) -> Fx
        ensures { result ≡ coordinate_of v.now self }
    {
        match self {
            Axis::X => v.x,
            Axis::Y => v.y,
            Axis::Z => v.z,
        }
    }

    /// Sets the coordinate on this axis, in millionths.
    pub fn set_coordinate(self, v: &mut V3, value: Fx)
        ensures { v.new ≡ with_coordinate v.old self value }
    {
        match self {
            Axis::X => v.x = value,
            Axis::Y => v.y = value,
            Axis::Z => v.z = value,
        }
    }
}

impl Channels {
    /// The number of a channel, in millionths.
    pub fn get(&self, channel: Channel) -> Fx
        ensures { result ≡ channel_of self.now channel }
    {
        match channel {
            Channel::LocX => self.loc.x,
            Channel::LocY => self.loc.y,
            Channel::LocZ => self.loc.z,
            Channel::RotW => self.rot.w,
            Channel::RotX => self.rot.x,
            Channel::RotY => self.rot.y,
            Channel::RotZ => self.rot.z,
            Channel::Scale => self.scale,
        }
    }

    /// Sets the number of a channel, in millionths.
    pub fn set(&mut self, channel: Channel, value: Fx)
        ensures { self.new ≡ with_channel self.old channel value }
    {
        match channel {
            Channel::LocX => self.loc.x = value,
            Channel::LocY => self.loc.y = value,
            Channel::LocZ => self.loc.z = value,
            Channel::RotW => self.rot.w = value,
            Channel::RotX => self.rot.x = value,
            Channel::RotY => self.rot.y = value,
            Channel::RotZ => self.rot.z = value,
            Channel::Scale => self.scale = value,
        }
    }
}

// The first of some channels that has a word.
fn channel_among<'a>(channels: &'a [Channel], word: &str) -> Option<&'a Channel>
    ensures { option_copied result ≡ find (λ c. same_text (channel_word c) word.now) channels.now }
{
    channels.iter().find(|c| c.has_word(word))
}

// The first of some axes that has a word.
fn axis_among<'a>(axes: &'a [Axis], word: &str) -> Option<&'a Axis>
    ensures { option_copied result ≡ find (λ a. same_text (axis_word a) word.now) axes.now }
{
    axes.iter().find(|a| a.has_word(word))
}
