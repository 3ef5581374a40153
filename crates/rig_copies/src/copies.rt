//! The outputs that are kept, by number.
ghost use Rattle.std.specs.Prelude.{◌≡◌, ◌+◌, ◌<◌, ◌≤◌, [], length, slice_set, Some, option_copied, OnOk, OnErr};
ghost use Rattle.std.specs.List.{All};
ghost use Rattle.rig_copies.specs.Copies.{kept_at, put_each, extended, renumbered};

use crate::keys::{key_at, moved_keys, remove_gone, replace};
use crate::room::{moved_spares, push_nothing, take_at};
use rig_cut::Plan;
use rig_io::{List, NoMemory};
use rig_kernel::Out;
use rig_nodes::NodeTable;
use slab::Slab;
use std::alloc::Global;
use std::marker::Model;

/// The outputs that are kept of a scene's operations, each found by the operation's number. Contracts see what is kept at each
/// number, and how many outputs can be put with no allocation.
#[derive(Drop)]
pub struct Copies {
    // The key of the output at each number.
    keys: Vec<Option<usize>>,
    outs: Slab<Out>,
    // At each number the output that was replaced last, until it is taken.
    spares: Vec<Option<Out>>,
}

impl Model for Copies {
    ghost use Rattle.std.specs.Prelude.{◌-◌, ◌≤◌, length, map};
    ghost use Rattle.slab.specs.Slab.{slab_len};
    ghost use Rattle.rig_copies.specs.Copies.{KeptOutputs};
    ghost use Rattle.rig_copies.specs.Keys.{kept_under, AreHeld};

    ghost Value = { KeptOutputs };

    ghost view = { λ c. record { kept = map (kept_under c.outs) c.keys.items; spare = c.outs.capacity - slab_len c.outs } };

    ghost invariant = { λ c. AreHeld c.outs c.keys.items × (length c.keys.items ≤ length c.spares.items) };
}

impl Copies {
    /// Nothing kept, with no allocation.
    pub fn new(alloc: Global) -> Copies
        ensures kept { result.kept ≡ [] }
        ensures spare { result.spare ≡ 0 }
    {
        Copies {
            keys: Vec::new(alloc),
            outs: Slab::new(alloc),
            spares: Vec::new(alloc),
        }
    }

    /// The output that is kept at a number: `None` exactly where nothing is.
    pub fn get(&self, n: u32) -> Option<&Out>
        ensures { option_copied result ≡ kept_at self.now.kept n }
    {
        match key_at(self.keys.as_slice(), n as usize) {
            Some(key) => self.outs.get(key),
            None => None,
        }
    }

    /// Makes room for `extra` more outputs, so that [`Copies::put_all`] can put as many with no allocation.
    ///
    /// # Errors
    ///
    /// [`NoMemory`]: what is kept is unchanged.
    pub fn reserve(&mut self, extra: u32) -> Result<(), NoMemory>
        ensures room { OnOk result (extra ≤ self.new.spare) }
        ensures kept { self.new.kept ≡ self.old.kept }
        ensures spare { self.old.spare ≤ self.new.spare }
    {
        self.outs.reserve(extra as usize)?;
        Ok(())
    }

    /// Gives numbers below `count` a place, where nothing is kept yet. It changes nothing where they have one.
    ///
    /// # Errors
    ///
    /// [`NoMemory`]: nothing is changed.
    pub fn extend_to(&mut self, count: u32) -> Result<(), NoMemory>
        ensures ok { OnOk result (self.new.kept ≡ extended self.old.kept count) }
        ensures err { OnErr result (self.new ≡ self.old) }
        ensures spare { self.new.spare ≡ self.old.spare }
    {
        let more = (count as usize).saturating_sub(self.keys.len());
        self.spares.reserve(more)?;
        self.keys.reserve(more)?;
        push_nothing(&mut self.spares, more);
        push_nothing(&mut self.keys, more);
        Ok(())
    }

    /// Keeps the output of each node of a plan at the number of its operation, the later one where a number stands twice. What is
    /// kept at other numbers stays. An output that is replaced becomes the spare of its number. There is no allocation.
    pub fn put_all(&mut self, plan: &Plan, outs: List<Out>)
        requires room { length plan.now ≤ self.old.spare }
        requires one_each { length outs ≡ length plan.now }
        requires within { All (λ node. node.op < length self.old.kept) plan.now }
        ensures kept { self.new.kept ≡ put_each self.old.kept plan.now outs }
        ensures spare { self.old.spare ≤ self.new.spare + length plan.now }
    {
        let mut rest = outs.into_vec().into_iter();
        for node in 0..plan.len() {
            let out = rest.next().unwrap();
            self.put(plan.op(node) as usize, out);
        }
    }

    fn put(&mut self, n: usize, out: Out)
        requires within { n < length self.old.kept }
        requires room { 0 < self.old.spare }
        ensures kept { self.new.kept ≡ slice_set self.old.kept n (Some out) }
        ensures spare { self.old.spare ≤ self.new.spare + 1 }
    {
        match self.keys[n] {
            Some(key) => self.spares[n] = Some(replace(&mut self.outs, key, out)),
            None => self.keys[n] = Some(self.outs.insert_reserved(out)),
        }
    }

    /// Takes the output that was replaced last at a number, if it wasn't taken yet: it is of the same operation, and its memory can be
    /// written again where it has no other owner. What is kept stays.
    pub fn take_spare(&mut self, n: u32) -> Option<Out>
        ensures { self.new ≡ self.old }
    {
        take_at(&mut self.spares, n as usize)
    }

    /// Numbers anew, from a table of operations to a later one: what is kept of each operation stays kept of it, and what is kept of one
    /// that the new table hasn't is dropped.
    ///
    /// # Errors
    ///
    /// [`NoMemory`]: nothing is changed.
    pub fn rebind(&mut self, old: &NodeTable, new: &NodeTable) -> Result<(), NoMemory>
        ensures ok { OnOk result (self.new.kept ≡ renumbered old.now new.now self.old.kept) }
        ensures err { OnErr result (self.new ≡ self.old) }
        ensures spare { self.old.spare ≤ self.new.spare }
    {
        let alloc = *self.keys.allocator();
        let keys = moved_keys(alloc, self.keys.as_slice(), old, new)?;
        let spares = moved_spares(alloc, &mut self.spares, old, new)?;
        remove_gone(&mut self.outs, self.keys.as_slice(), old, new);
        self.keys = keys;
        self.spares = spares;
        Ok(())
    }
}
