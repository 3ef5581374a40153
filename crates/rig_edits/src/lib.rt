//! Edits of a scene: each is applied in place, or refused by the first cause that is against it.
//!
//! # Examples
//!
//! Of a scene with an object Root that carries an object Child:
//!
//! ```text
//! SetValue { id: Object("Child"), path: Own(LocY), value: 3 }    accepted: Child's original loc.y is 3
//! SetValue { id: Object("Child"), path: Own(LocY), value: 10^13 }    refused by E5, OutOfRange
//! RemoveObject { object: "Root" }    refused by E8, InUse: Child needs it
//! SetParent { object: "Child", parent: None }    accepted: nothing carries Child; Root can be removed now
//! ```
//!
//! # Rules
//!
//! - An [`Edit`] names records and parts by their names, and has numbers as they were given.
//! - [`apply`] finds what is named, and tests every cause before it takes memory. It answers the first cause in the order of
//!   the codes E1 to E9 ([`EditCause`]), whatever it meets first.
//! - A refused edit, and one that memory is refused for, leaves the scene as it was.
//! - An accepted edit changes what it names, and nothing else. What it leaves is a scene again
//!   ([`laws::an_accepted_edit_leaves_a_scene`]).
//! - What replaces another isn't one more: no limit refuses it. A driver that is replaced keeps its place among the drivers.
//! - A serial is never used again.
//! - `specs/Conditions.antt` has the causes, one list of edits a cause, and `specs/Edited.antt` what each edit makes of a scene.
//!
//! A name is searched for in its list from the start. Everything else takes time by the record that is changed, apart from the
//! counts of bones and of pencil objects, which are taken anew for an edit that adds an object. The numbers of keys and of layer
//! keys are kept by the scene.
//!
//! This crate reads no input, keeps no history and evaluates nothing.
#![tactic(auto)]

mod cause;
mod change;
mod curve;
mod driver;
mod edit;
mod find;
mod full;
mod keys;
pub mod laws;
mod layer;
mod modifier;
mod object;
mod parent;
mod point;
mod slot;
mod value;
mod whole;

pub use cause::{EditCause, EditStop};
pub use change::{MAX_NEXT, apply};
pub use edit::{Edit, Flag, IdName, NewDriver, NewEffect, NewKind, NewParent, NewVariable, Whole3};
