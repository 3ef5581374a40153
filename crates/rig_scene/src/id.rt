//! Ids: which object is meant, and what can be animated.

/// The serial of an object. It is never used again in its scene.
#[derive(Clone, Copy, Debug, PartialEq, Eq, PartialOrd, Ord, Hash)]
pub struct ObjectId(pub u32);

/// What can have an action and drivers: an object, or a pencil by its index.
#[derive(Clone, Copy, Debug, PartialEq, Eq, Hash)]
pub enum AnimId {
    Object(ObjectId),
    Pencil(u32),
}
