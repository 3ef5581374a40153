//! Armatures: bones at rest (Blender Manual, Armatures).
use crate::channel::Channels;
use crate::name::Name;
use rig_io::List;

/// A bone at rest, relative to its parent where it has one, else to the armature. Its scale is at least one millionth.
#[derive(Clone, Debug, Drop, PartialEq, Eq)]
pub struct RestBone {
    pub name: Name,
    /// The index of an earlier bone of the armature.
    pub parent: Option<u32>,
    pub rest: Channels,
}

/// Bones that several objects may share, each after its parent.
#[derive(Clone, Debug, Drop, PartialEq, Eq)]
pub struct ArmatureData {
    pub name: Name,
    pub bones: List<RestBone>,
}
