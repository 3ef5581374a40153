//! Reads a scene from a JSON value, or says what is wrong with it and where.
//!
//! # Examples
//!
//! [`scene_of`] of this input gives a scene of two objects, with the ids 0 and 1. The second stands at (2, 0, 0) units from the
//! first, its parent:
//!
//! ```text
//! {"scene": {"version": 1, "objects": [
//!     {"name": "Root", "kind": "empty"},
//!     {"name": "Child", "kind": "empty", "parent": "Root", "loc": [2000000, 0, 0]}]}}
//! ```
//!
//! With `"parent": "Rot"` it gives the fault [`Cause::UnknownRef`] at `/scene/objects/1/parent`. With `"loc": [1.5, 0, 0]` beside
//! that it gives [`Cause::NotWhole`] at `/scene/objects/1/loc/0`: what a value is comes before what it refers to.
//!
//! # Rules
//!
//! - Unknown members are ignored, and a member that is null counts as absent. An absent list is empty.
//! - The first fault is answered: the first pass tests all values by themselves and against those before them in their list, the
//!   second what names and numbers of drawings refer to, and the bones of all objects together. Each goes through the lists in
//!   the order of the format, the records by index, and the members in order.
//! - A scene is answered exactly where there is no fault, and it is the one that the members give. Want of memory is the only
//!   other answer.
//! - Reading takes no step that walks over all names: they are found by their hash.
//! - [`field`], [`number`], [`name`] and [`path`] read single members, for readers of other records in the same format. A
//!   [`Reader`] reads the items of a list ([`read_items`]), and [`within`] gives a fault its place in the value around.
//!
//! Nothing here parses text, or reads a script.
#![tactic(auto)]

mod before;
mod fault;
mod given;
mod leaves;
mod lookup;
mod member;
mod pass_one;
mod pass_two;
mod reader;
mod scene;
mod test;
mod value;

pub use fault::{Cause, Fault, Hop, Place, SceneStop, stop_for};
pub use given::items_of;
pub use member::Member;
pub use pass_one::records::{is_kind, text_at};
pub use reader::{Reader, read_items};
pub use scene::scene_of;
pub use test::{is_record, item_hop, within};
pub use value::{NameFault, PathFault, field, name, number, path};
