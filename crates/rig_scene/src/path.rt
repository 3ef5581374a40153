//! Paths: which channel of an object or of a pencil is meant.
ghost use Rattle.std.specs.Prelude.{◌≡◌, IfOk};

use crate::channel::{Axis, Channel};
use crate::name::Name;
use rig_io::NoMemory;

/// A channel of an object or a pencil, by what has it there.
#[derive(Clone, Debug, Drop, PartialEq, Eq, Hash)]
pub enum Path {
    /// The object's own channel.
    Own(Channel),
    /// A channel of the pose of the bone of that name.
    Bone(Name, Channel),
    /// An axis of the offset of the layer of that name.
    Layer(Name, Axis),
}

impl Path {
    /// An equal path with memory of its own.
    ///
    /// # Errors
    ///
    /// [`NoMemory`] where memory is refused.
    pub fn copy(&self) -> Result<Self, NoMemory>
        ensures { IfOk result (λ copy. copy ≡ self.now) }
    {
        Ok(self.clone()?)
    }
}
