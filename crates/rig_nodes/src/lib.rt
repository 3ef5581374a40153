//! The operations of a scene in their order, each found by its id and by its number.
//!
//! # Examples
//!
//! Of a scene with the empties Root, which has an action, and Child, with the ids 0 and 1:
//!
//! ```text
//! table = nodes(alloc, &scene)
//! table.len()                                6
//! table.op(0)                                Time
//! table.op(1)                                Animation(Object(0)): the action of Root
//! table.op(3)                                World(0)
//! table.number(&OpId::Local(ObjectId(1)))    Some(4)
//! table.number(&OpId::Animation(Object(1)))  None: Child has no action
//! ```
//!
//! # Rules
//!
//! - The first operation is the time. The operations of each pencil follow in order, and then those of each object.
//! - A pencil has its animation, where it has an action, a driver for each of its driven channels in the order of the scene's
//!   list, and a layer for each of its layers.
//! - An object has its animation and its drivers likewise, then its local and its world transform, and then what its kind
//!   adds: for an armature the start of the pose, each bone and the end of the pose; for a pencil object the geometry, each
//!   modifier, counted from 1, and the end of the geometry.
//! - No operation stands twice, and there are fewer than 65,536, so a number fits in a `u32`.
//! - Drivers are grouped by what they drive in one pass over them ([`drivers_by_owner`]), so the table takes time by the number of
//!   operations and of drivers.
//!
//! Nothing here says what an operation needs, or runs one. A table doesn't follow an edit: it is made anew.
#![tactic(auto)]

mod drivers;
mod list;
mod table;
#[cfg(test)]
mod tests;

pub use drivers::drivers_by_owner;
pub use table::{NodeTable, nodes};
