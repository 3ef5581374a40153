//! Modifiers of a pencil object's geometry (Blender Manual, Grease Pencil, Modifiers).
use crate::id::ObjectId;
use crate::name::Name;
use rig_fixed::{Fx, V3};

/// What a scene is evaluated for: each modifier has a switch for either.
#[derive(Clone, Copy, Debug, PartialEq, Eq)]
pub enum Mode {
    Viewport,
    Render,
}

/// Axes to mirror on, and the object at whose location to mirror, else the origin of the object itself.
#[derive(Clone, Copy, Debug, PartialEq, Eq)]
pub struct Mirror {
    pub x: bool,
    pub y: bool,
    pub z: bool,
    pub centre: Option<ObjectId>,
}

/// What a modifier does to strokes.
#[derive(Clone, Copy, Debug, PartialEq, Eq)]
pub enum Effect {
    /// Scales each point about 0, and then moves it.
    Offset { loc: V3, scale: Fx },
    /// Appends the strokes mirrored, for each axis in turn.
    Mirror(Mirror),
    /// Appends copies of the strokes, `count` of them in all, from 1 to 64, each moved by one more offset.
    Array { count: u32, offset: V3 },
}

/// An effect in a stack, with its two switches.
#[derive(Clone, Debug, Drop, PartialEq, Eq)]
pub struct Modifier {
    pub name: Name,
    pub viewport: bool,
    pub render: bool,
    pub effect: Effect,
}
