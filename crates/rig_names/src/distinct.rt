//! Values of any kind with a hash, each once.
ghost use Rattle.std.specs.Prelude.{◌≡◌, [], IfOk, OnErr};
ghost use Rattle.rig_names.specs.Sets.{Adds};

use indexmap::IndexSet;
use rig_io::NoMemory;
use std::alloc::Global;
use std::hash::Hash;
use std::marker::Model;

/// Values of any kind with a hash, each once. Contracts see them as a list in the order in which they were added.
#[derive(Drop)]
pub struct Distinct<T: Hash + Eq> {
    values: IndexSet<T>,
}

impl<T: Hash + Eq> Model for Distinct<T> {
    ghost use Rattle.std.specs.Prelude.{List};

    ghost Value = { List T };

    ghost view = { λ d. d.values.keys };
}

impl<T: Hash + Eq + Drop> Distinct<T> {
    /// No values, with no allocation.
    pub fn new(alloc: Global) -> Distinct<T>
        ensures { result ≡ [] }
    {
        Distinct {
            values: IndexSet::new(alloc),
        }
    }

    /// Adds a value at the end, unless an equal one is there, and returns whether it was new.
    ///
    /// # Errors
    ///
    /// [`NoMemory`]: the values are unchanged, and the one that was to be added is lost.
    pub fn add(&mut self, value: T) -> Result<bool, NoMemory>
        ensures ok { IfOk result (Adds T.eq value self.old self.new) }
        ensures err { OnErr result (self.new ≡ self.old) }
    {
        let (_, added) = self.values.insert_full(value)?;
        Ok(added)
    }
}
