//! Operations of the dependency graph, and the components that they belong to.
ghost use Rattle.std.specs.Prelude.{◌≡◌, IfOk};
ghost use Rattle.rig_scene.specs.Component.{component_of};

use crate::id::{AnimId, ObjectId};
use crate::path::Path;
use rig_io::NoMemory;

/// What an operation belongs to.
#[derive(Clone, Copy, Debug, PartialEq, Eq)]
pub enum Component {
    Time,
    Animation,
    Parameters,
    Transform,
    Pose,
    Geometry,
}

/// One step of an evaluation.
#[derive(Clone, Debug, Drop, PartialEq, Eq, Hash)]
pub enum OpId {
    /// The frame.
    Time,
    /// Each curve of an id's action.
    Animation(AnimId),
    /// The number of a driven channel.
    Driver(AnimId, Path),
    /// The transform of an object relative to its parent.
    Local(ObjectId),
    /// The transform of an object in the world.
    World(ObjectId),
    /// The curves that the bones of an object share.
    PoseInit(ObjectId),
    /// The transform of a bone in the armature's space.
    Bone(ObjectId, u32),
    /// All bones of an object.
    PoseDone(ObjectId),
    /// The strokes of a layer, by the index of its pencil and its own.
    Layer(u32, u32),
    /// The strokes of a pencil object before its modifiers.
    Geometry(ObjectId),
    /// The strokes of a pencil object after the modifier of that number, counted from 1.
    ModifierOp(ObjectId, u32),
    /// The strokes of a pencil object after all its modifiers.
    GeometryDone(ObjectId),
}

impl OpId {
    /// An equal operation with memory of its own.
    ///
    /// # Errors
    ///
    /// [`NoMemory`] where memory is refused.
    pub fn copy(&self) -> Result<Self, NoMemory>
        ensures { IfOk result (λ copy. copy ≡ self.now) }
    {
        Ok(self.clone()?)
    }

    /// The component that the operation belongs to.
    pub fn component(&self) -> Component
        ensures { result ≡ component_of self.now }
    {
        match self {
            OpId::Time => Component::Time,
            OpId::Animation(_) => Component::Animation,
            OpId::Driver(_, _) => Component::Parameters,
            OpId::Local(_) | OpId::World(_) => Component::Transform,
            OpId::PoseInit(_) | OpId::Bone(_, _) | OpId::PoseDone(_) => Component::Pose,
            OpId::Layer(_, _)
            | OpId::Geometry(_)
            | OpId::ModifierOp(_, _)
            | OpId::GeometryDone(_) => Component::Geometry,
        }
    }
}
