//! The value of an F-curve at a frame (Blender Manual, F-curves).
//!
//! # Example
//!
//! A curve with a linear key of 10 at frame 0 and a constant key of 0 at frame 20, in millionths:
//!
//! ```text
//! at(&curve, -5)   Some(10)   before the first key, its value
//! at(&curve, 5)    Some(8)    on the line: 7.5, rounded to the nearest, a half upward
//! at(&curve, 20)   Some(0)    at a key, its value
//! at(&curve, 99)   Some(0)    from the last key on, its value
//! ```
//!
//! # Rules
//!
//! - From a constant key on the value is that key's, up to the next key.
//! - From a linear key on it is on the straight line to the next key, rounded to the nearest millionth, and a half upward.
//! - Before the first key it is that key's value, and from the last one on that key's.
//! - A curve with no keys has no value, and every other one has one.
//! - The keys are found by binary search. Nothing allocates.
//!
//! # What it doesn't do
//!
//! No handles and no easing, no extrapolation along a slope, no cycles or other F-curve modifiers.
#![tactic(auto)]

mod curve;

pub use curve::at;
