//! Names in the order in which they were added, each found by its text.
ghost use Rattle.std.specs.Prelude.{◌≡◌, ◌==◌, ◌<◌, [], length, position, option_map, slice_get, IfOk, OnErr};
ghost use Rattle.std.specs.List.{list_any};
ghost use Rattle.rig_names.specs.Sets.{Adds};
ghost use Rattle.rig_names.specs.Text.{same_text};

use indexmap::IndexSet;
use rig_io::NoMemory;
use std::alloc::Global;
use std::marker::Model;

/// The most names of a [`Names`]: the index of each fits in a `u32`.
pub const MAX_NAMES: usize = u32::MAX as usize;

/// Names, each once, in the order in which they were added. Contracts see them as the list of their bytes.
#[derive(Drop)]
pub struct Names {
    texts: IndexSet<String>,
}

impl Model for Names {
    ghost use Rattle.std.specs.Prelude.{List, ℕ, ◌≤◌, length, map, string_bytes};
    ghost use Rattle.rig_names.specs.declared.names.TheConstants.{MAX_NAMES};

    ghost Value = { List (List ℕ) };

    ghost view = { λ n. map string_bytes n.texts.keys };

    ghost invariant = { λ n. length n.texts.keys ≤ MAX_NAMES };
}

impl Names {
    /// No names, with no allocation.
    pub fn new(alloc: Global) -> Names
        ensures { result ≡ [] }
    {
        Names {
            texts: IndexSet::new(alloc),
        }
    }

    /// The number of names.
    pub fn len(&self) -> usize
        ensures { result ≡ length self.now }
    {
        self.texts.len()
    }

    /// Whether there are no names.
    pub fn is_empty(&self) -> bool
        ensures { result ≡ (length self.now == 0) }
    {
        self.len() == 0
    }

    /// Adds a name at the end, unless it is there, and returns whether it was new.
    ///
    /// # Errors
    ///
    /// [`NoMemory`] where memory is refused, and where [`MAX_NAMES`] names are there: the names are unchanged.
    pub fn add(&mut self, alloc: Global, text: &str) -> Result<bool, NoMemory>
        ensures ok { IfOk result (Adds same_text text.now self.old self.new) }
        ensures err { OnErr result (self.new ≡ self.old) }
    {
        if self.texts.len() == MAX_NAMES {
            return Err(NoMemory);
        }
        let (_, added) = self.texts.insert_full(String::from_str(alloc, text)?)?;
        Ok(added)
    }

    /// Whether a name is there.
    pub fn contains(&self, text: &str) -> bool
        ensures { result ≡ list_any (same_text text.now) self.now }
    {
        self.texts.contains(text)
    }

    /// The name of an index, or `None` where there are no more names than that.
    pub fn get(&self, index: usize) -> Option<&str>
        ensures { option_map (λ name. name.now) result ≡ slice_get self.now index }
    {
        Some(self.texts.get_index(index)?.as_str())
    }

    /// The index of a name, or `None` where it isn't there.
    pub fn index_of(&self, text: &str) -> Option<u32>
        ensures { result ≡ position (same_text text.now) self.now }
    {
        let index = self.texts.get_index_of(text)?;
        Some(index as u32)
    }
}
