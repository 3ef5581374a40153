//! The originals of a scene, and the history of edits to them.
//!
//! An [`Entry`] is an accepted edit with its turn in the history. That is all there is yet: the book that keeps the history comes later.
//!
//! # Examples
//!
//! ```text
//! Entry { turn: 5, edit: SetValue { id: Object("Child"), path: Own(LocY), value: 3 } }   the sixth turn set Child's loc.y to 3
//! ```
#![tactic(auto)]

mod entry;

pub use entry::Entry;
