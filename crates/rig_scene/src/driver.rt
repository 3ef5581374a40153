//! Drivers: channels that follow others (Blender Manual, Drivers).
use crate::channel::Channel;
use crate::id::{AnimId, ObjectId};
use crate::path::Path;
use rig_io::List;

/// How a driver makes one number of its variables.
#[derive(Clone, Copy, Debug, PartialEq, Eq)]
pub enum DriverKind {
    Average,
    Sum,
    Min,
    Max,
}

/// Which transform of an object a variable reads: its world one, its local one, or that of a bone by its
/// index, in the armature's space.
#[derive(Clone, Copy, Debug, PartialEq, Eq)]
pub enum Space {
    World,
    Local,
    Pose(u32),
}

/// What a driver reads.
#[derive(Clone, Debug, Drop, PartialEq, Eq)]
pub enum Variable {
    /// The evaluated number of a channel.
    Property {
        id: AnimId,
        path: Path,
    },
    /// One of the eight numbers of a transform.
    Transform {
        object: ObjectId,
        space: Space,
        channel: Channel,
    },
}

/// The channel that is driven, and by what: 1 to 8 variables.
#[derive(Clone, Debug, Drop, PartialEq, Eq)]
pub struct Driver {
    pub id: AnimId,
    pub path: Path,
    pub kind: DriverKind,
    pub variables: List<Variable>,
}
