//! Changes of many points at once: a translation, a deform by a transform, a scaling or a reflection.
//!
//! # Examples
//!
//! Two points in millionths, (1, 2, 3) and (-4, 5, 999_999_999_999), under each [`PointMap`]:
//!
//! ```text
//! Translation, offset (1, -2, 10)                         (2, 0, 13)  (-3, 3, 1_000_000_000_000)
//! Deform, offset (1, -2, 10), transform to (5, 0, 0)      (7, 0, 13)  (2, 3, 1_000_000_000_000)
//! Scaling, scale 500_000, offset (0, 0, 1)                (1, 1, 3)   (-2, 3, 500_000_000_001)
//! Reflection on x, centre (10, 0, 0)                      (19, 2, 3)  (24, 5, 999_999_999_999)
//! ```
//!
//! # Rules
//!
//! - Each coordinate is clamped to the limits of a number after each step. A scaled one is rounded to the nearest
//!   millionth, a half upward.
//! - [`points_under`] gives new points, in memory that is allocated once. [`change_points`] changes points in place.
//! - A coordinate from -2^39 to below 2^39 is near 0. [`NearPoints`] are points all of whose coordinates are, and only
//!   the test of the points makes them.
//! - A [`Shift`] is a translation or a reflection that takes no near point beyond the limits. It changes near points
//!   without a clamp, several times as quickly, and gives the same points.
//! - Only [`points_under`] and [`Shift::points_of`] allocate, and want of memory is their only error.
//!
//! Nothing here knows of strokes, or mixes several changes by weights.
#![tactic(auto)]

mod change;
mod near;
mod shift;

pub use change::{Axes, PointMap, change_points, points_under};
pub use near::NearPoints;
pub use shift::Shift;

#[cfg(test)]
mod tests;
