//! What a modifier makes of a pencil object's strokes (Blender Manual, Grease Pencil, Modifiers).
//!
//! # Examples
//!
//! One stroke of the point (1, 2, 3), in millionths, under each effect:
//!
//! ```text
//! offset, scale 2_000_000, loc (10, 0, 0)   one stroke: (12, 4, 6)
//! mirror on x and y at (0, 0, 0)            four: (1, 2, 3), (-1, 2, 3), (1, -2, 3), (-1, -2, 3)
//! array, count 3, offset (10, 0, 0)         three: (1, 2, 3), (11, 2, 3), (21, 2, 3)
//! ```
//!
//! # Rules
//!
//! - An offset scales each point about 0, and then adds its location.
//! - A mirror adds, for x, y and z in turn where that axis is on, all strokes so far on the other side of its centre.
//! - An array adds the strokes again, up to its count in all, the k-th time moved by k times its offset.
//! - Each coordinate is clamped to the limits of a number after each step.
//! - Where the result would have more than 16,384 points, the strokes stay as they are, and [`modify_if_few`] gives none. The
//!   points are counted before any is made.
//! - Want of memory is the only error.
//!
//! Whether a modifier is on, and where a mirror's centre is, is decided elsewhere.
#![tactic(auto)]

mod append;
mod array;
mod count;
mod effect;
mod mirror;
mod near;
mod source;

pub use effect::{modify, modify_if_few};

#[cfg(test)]
mod tests;
