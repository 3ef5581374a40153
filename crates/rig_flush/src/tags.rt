//! Sets of tagged operations.
ghost use Rattle.std.specs.Prelude.{◌≡◌, ◌<◌, ◌++◌, [], ◌∷◌, length, slice_get, take, Some, OnOk, OnErr, if◌then◌else◌};
ghost use Rattle.rig_flush.specs.Retag.{is_one_of};

use indexmap::IndexSet;
use rig_io::NoMemory;
use rig_scene::OpId;
use std::alloc::Global;
use std::marker::Model;

/// The operations that have to run again, each once. Contracts see them as a list, in the order in which they were added.
#[derive(Drop)]
pub struct Tags {
    ops: IndexSet<OpId>,
}

impl Model for Tags {
    ghost use Rattle.std.specs.Prelude.{List};
    ghost use Rattle.rig_scene.specs.declared.operation.OpId.{OpId};

    ghost Value = { List OpId };

    ghost view = { λ tags. tags.ops.keys };
}

impl Tags {
    /// No operations, with no allocation.
    pub fn new(alloc: Global) -> Tags
        ensures { result ≡ [] }
    {
        Tags {
            ops: IndexSet::new(alloc),
        }
    }

    /// Adds an operation, unless it is tagged.
    ///
    /// # Errors
    ///
    /// [`NoMemory`]: the tags are unchanged.
    pub fn add(&mut self, op: OpId) -> Result<(), NoMemory>
        ensures ok { OnOk result (self.new ≡ (if is_one_of self.old op then self.old else self.old ++ op ∷ [])) }
        ensures err { OnErr result (self.new ≡ self.old) }
    {
        self.ops.insert(op)?;
        Ok(())
    }

    /// Whether an operation is tagged.
    pub fn has(&self, op: &OpId) -> bool
        ensures { result ≡ is_one_of self.now op.now }
    {
        self.ops.contains(op)
    }

    /// The number of tagged operations.
    pub fn len(&self) -> usize
        ensures { result ≡ length self.now }
    {
        self.ops.len()
    }

    /// The tagged operation at an index, in the order in which they were added.
    pub fn get(&self, index: usize) -> &OpId
        requires { index < length self.now }
        ensures { slice_get self.now index ≡ Some result.now }
    {
        &self.ops.as_slice()[index]
    }
    /// Takes the operations away that were added after the first so many.
    pub fn truncate(&mut self, len: usize)
        ensures { self.new ≡ take len self.old }
    {
        self.ops.truncate(len);
    }

    /// Takes all operations away.
    pub fn clear(&mut self)
        ensures { self.new ≡ [] }
    {
        self.ops.clear();
    }
}
