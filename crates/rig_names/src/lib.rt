//! Sets of things that must be distinct, in the order in which they were added, each found without a walk over the others.
//!
//! # Examples
//!
//! ```text
//! names = Names::new(alloc)
//! names.add(alloc, "root")      Ok(true)
//! names.add(alloc, "spine")     Ok(true)
//! names.add(alloc, "root")      Ok(false): it is there already
//! names.len()                   2
//! names.index_of("spine")       Some(1)
//! names.get(1)                  Some("spine")
//! names.contains("Spine")       false
//!
//! pairs = Distinct::new(alloc)
//! pairs.add((3, 0))             Ok(true)
//! pairs.add((3, 1))             Ok(true)
//! pairs.add((3, 0))             Ok(false)
//! ```
//!
//! # Rules
//!
//! - What is added goes to the end, unless it is there already. Nothing is removed, so an index never changes.
//! - [`Names`] are texts. Two are the same if their bytes are: case and spaces count, and the empty text is a name.
//! - There are at most [`MAX_NAMES`] names, so an index fits in a `u32`. One more is answered as want of memory.
//! - [`Distinct`] values are of any type with a hash. Two are the same if `==` says so.
//! - Only `add` allocates. Its only error is want of memory, which leaves the set unchanged.
//!
//! Nothing here removes or sorts what was added, or gives it back. No contract says how long a search takes.
#![tactic(auto)]

mod distinct;
mod names;
#[cfg(test)]
mod tests;

pub use distinct::Distinct;
pub use names::{MAX_NAMES, Names};
