//! The printed texts of the program, each as the bytes of whole lines.
//!
//! # Examples
//!
//! The fault S7 of a scene, at the parent of its second object ([`fault_text`]), and the history of a frame and a refused edit
//! ([`history_text`]):
//!
//! ```text
//! fault BadScene S7 /scene/objects/1/parent
//!
//! turn 0 track 0 step 0 look
//! turn 1 track 0 step 1 refused E5
//! ```
//!
//! What `check` prints of two empty objects, each of which is the other's parent ([`check_text`]):
//!
//! ```text
//! objects 2
//! operations 5
//! links 4
//! cuts 1
//! cut world A -> world B
//! ```
//!
//! # Rules
//!
//! - Each line ends with one line feed. Words are parted by one space.
//! - A place is `/` and a step, for each step from the whole input: a member by its name, an item by its index in decimal.
//!   The empty place leaves the line ending after the cause.
//! - A quantity is written with the names that the scene has for its parts. An object is found by its id in a binary search.
//! - Each text is new memory. Want of memory is the only error, and leaves nothing behind.
//!
//! A frame is of empty objects: bones, geometry and full frames come with the graph that evaluates them. The numbers of
//! operations and of links, and the cut reads, are counted and found by the caller.
#![tactic(auto)]

mod check;
mod fault;
mod frame;
mod history;
mod names;
mod number;
mod quantity;
#[cfg(test)]
mod tests;
mod track;

pub use check::check_text;
pub use fault::fault_text;
pub use frame::frame_text;
pub use history::{Reply, Turn, history_text};
pub use track::{edit_text, frame_step_text, track_text};
