//! Traces of an evaluation: the marks of operations that start and finish, in the order in which they did.
//!
//! # Examples
//!
//! Operation 1 needs operation 0:
//!
//! ```text
//! Start(0), Finish(0), Start(1), Finish(1)   in order
//! Start(0), Start(1), Finish(0), Finish(1)   not in order: 1 starts before 0 has finished
//! Start(0), Finish(0), Start(1)              not in order: 1 doesn't finish
//! ```
//!
//! # Rules
//!
//! - An operation is told by its number among the operations of a scene.
//! - A trace is in order where each of the operations that had to run starts once and finishes once, behind its start, where it
//!   starts behind the finish of each that it needs, and where no other operation has a mark (`specs/Ordered.antt`).
//!
//! Nothing runs here yet: plans that several workers take from come later.
#![tactic(auto)]

pub mod examples;
mod mark;

pub use mark::{Mark, Trace};
