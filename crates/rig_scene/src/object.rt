//! Objects of a scene.
use crate::channel::Channels;
use crate::id::ObjectId;
use crate::modifier::Modifier;
use crate::name::Name;
use rig_io::List;

/// What an object is.
#[derive(Clone, Debug, Drop, PartialEq, Eq)]
pub enum Kind {
    /// A transform alone.
    Empty,
    /// The bones of the armature of that index, with a pose for each of them in their order.
    Armature {
        armature: u32,
        pose: List<Channels>,
    },
    /// The strokes of the pencil of that index, and a stack of at most 8 modifiers.
    Pencil {
        pencil: u32,
        modifiers: List<Modifier>,
    },
}

/// What an object is carried by: another object, or a bone of it by its index.
#[derive(Clone, Copy, Debug, PartialEq, Eq)]
pub struct Parent {
    pub object: ObjectId,
    pub bone: Option<u32>,
}

/// An object: its original channels, and the index of its action where it has one.
#[derive(Clone, Debug, Drop, PartialEq, Eq)]
pub struct Object {
    pub id: ObjectId,
    pub name: Name,
    pub own: Channels,
    pub action: Option<u32>,
    pub parent: Option<Parent>,
    pub kind: Kind,
}
