//! Quantities: what is computed of a scene at a frame, and what each reads.
ghost use Rattle.std.specs.Prelude.{◌≡◌, IfOk};

use crate::id::{AnimId, ObjectId};
use crate::path::Path;
use rig_io::NoMemory;

/// A value that a scene has at a frame.
#[derive(Clone, Debug, Drop, PartialEq, Eq, Hash)]
pub enum Quantity {
    /// The number of a driven channel.
    Chan(AnimId, Path),
    /// The transform of an object relative to its parent.
    Local(ObjectId),
    /// The transform of an object in the world.
    World(ObjectId),
    /// The transform of a bone, by its index, in the armature's space.
    Bone(ObjectId, u32),
    /// The strokes of a layer, by the index of its pencil and its own.
    Layer(u32, u32),
    /// The strokes of a pencil object after so many of its modifiers.
    Geom(ObjectId, u32),
}

impl Quantity {
    /// An equal quantity with memory of its own.
    ///
    /// # Errors
    ///
    /// [`NoMemory`] where memory is refused.
    pub fn copy(&self) -> Result<Self, NoMemory>
        ensures { IfOk result (λ copy. copy ≡ self.now) }
    {
        Ok(self.clone()?)
    }
}

/// A quantity that another reads. A reference read may close a cycle, an inner read can't.
#[derive(Clone, Debug, Drop, PartialEq, Eq)]
pub struct Read {
    pub source: Quantity,
    pub reference: bool,
}

/// A read that is cut, as it would close a cycle.
#[derive(Clone, Debug, Drop, PartialEq, Eq)]
pub struct CutRead {
    pub source: Quantity,
    pub reader: Quantity,
}

#[cfg(test)]
mod tests {
    use super::*;
    use crate::channel::Channel;
    use crate::name::Name;
    use crate::operation::OpId;
    use std::test::Fail;

    #[test]
    fn copies_are_equal(rt: HostRuntime) -> Result<(), Fail> {
        let path = Path::Bone(Name::of(rt.alloc(), b"arm")?, Channel::Scale);
        let quantity = Quantity::Chan(AnimId::Object(ObjectId(3)), path.copy()?);
        assert!(rt; quantity.copy()? == quantity);
        let operation = OpId::Driver(AnimId::Object(ObjectId(3)), path);
        assert!(rt; operation.copy()? == operation);
        Ok(())
    }
}
