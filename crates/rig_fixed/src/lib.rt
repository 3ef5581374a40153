//! Exact fixed-point arithmetic for animation rigs: numbers in millionths within limits, and the vectors, rotations and
//! transforms made of them.
//!
//! # Example
//!
//! A child one unit along the first axis of its parent's space, and the parent turned a quarter about the third axis:
//!
//! ```text
//! let parent = Xform {
//!     rot: Quat::normal(Raw { w: Fx::of(707_107), x: Fx::ZERO, y: Fx::ZERO, z: Fx::of(707_107) }),
//!     ..Xform::identity()
//! };
//! let child = Xform { loc: V3 { x: Fx::ONE, ..V3::ZERO }, ..Xform::identity() };
//! let Xform { loc, rot, scale } = compose(&parent, &child);
//!
//! loc    x -1, y 1_000_001, z 0
//! rot    w 707_107, x 0, y 0, z 707_107
//! scale  1_000_000
//! ```
//!
//! # Rules
//!
//! - A number ([`Fx`]) is a whole number of millionths, at most a million units ([`LIMIT`]) from 0. What is computed beyond
//!   a limit stops at it.
//! - A division ([`rdiv`]) is rounded to the nearest whole number, and a half upward, also below 0. A square root
//!   ([`isqrt`]) is rounded down.
//! - A rotation ([`Quat`]) is a unit quaternion, rounded to millionths. Four numbers of any length ([`Raw`]) become one by
//!   [`Quat::normal`], and a product of two is brought to the length of one unit again.
//! - A transform ([`Xform`]) scales, then turns, then moves. Its scale is at least 1.
//! - Each step rounds once, as the definitions in `specs/` say, and no step is left out that could change a result.
//!
//! # What it doesn't do
//!
//! No floating point, no shear or scale by axis, no angles: a rotation is given by its four numbers. Nothing allocates or
//! fails.
#![tactic(auto)]

mod fixed;
pub mod laws;
mod number;
mod quaternion;
mod rotation;
mod transform;
mod vector;

pub use fixed::{Fx, LIMIT, UNIT};
pub use number::{isqrt, rdiv};
pub use rotation::{Quat, Raw, rotate};
pub use transform::{Xform, compose, inverse};
pub use vector::V3;
